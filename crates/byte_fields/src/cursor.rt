ghost use Rattle.std.specs.Prelude.{◌≡◌, ℕ, List, Result, IsTrue, length};
ghost use Rattle.fs_base.specs.Gives.{Gives};
ghost use Rattle.byte_fields.specs.Forms.{are_bytes, front, sized, placed};
ghost use Rattle.byte_fields.specs.Fields.{version, number_1, number_2, number_4, number_8, within, inode_id, mode, time, file_size, chunk, stripe, layout, used_layout, kind, text, path_text, client};
ghost use Rattle.byte_fields.specs.Outcome.{left_of, fault_place, NeedsNoMemory};

use crate::error::{FieldError, RowError};
use fs_base::limits::{CHAINS, CHUNK_BYTES, FILE_BYTES, INODE_IDS, MODES, TIMES};
use fs_base::{ClientId, InodeId, Kind, Layout, Path, PathError, Text};
use std::alloc::Global;
use std::marker::Model;

/// The bytes that are still to be read.
///
/// Each method reads one field, or a few, from the front. Where a field doesn't read the error says how many
/// bytes are left where it begins, and nothing is said of the cursor from then on.
#[derive(Debug, Drop)]
pub struct Cursor<'a> {
    rest: &'a [u8],
}

impl<'a> Model for Cursor<'a> {
    ghost use Rattle.std.specs.Prelude.{List, ℕ};

    ghost Value = { List ℕ };

    ghost view = { λ c. c.rest.now };
}

impl<'a> Cursor<'a> {
    pub fn new(bytes: &'a [u8]) -> Cursor<'a>
        ensures { result ≡ bytes.now }
    {
        Cursor { rest: bytes }
    }

    /// How many bytes are left.
    pub fn left(&self) -> usize
        ensures { result ≡ length self.now }
    {
        self.rest.len()
    }

    /// So many bytes, as one field.
    pub fn take(&mut self, count: usize) -> Result<&'a [u8], FieldError>
        ensures gives { Gives left_of (λ bytes. (bytes.now, self.new)) result ((front count).reads self.old) }
        ensures memory { NeedsNoMemory left_of result }
    {
        if count > self.rest.len() {
            return Err(FieldError::Unread(self.rest.len()));
        }
        let (bytes, rest) = self.rest.split_at(count);
        known_bytes(bytes);
        self.rest = rest;
        Ok(bytes)
    }

    /// The next bytes, so many.
    fn array<const N: usize>(&mut self) -> Result<[u8; N], FieldError>
        ensures gives { Gives left_of (λ bytes. (bytes, self.new)) result ((front N).reads self.old) }
        ensures memory { NeedsNoMemory left_of result }
    {
        let bytes = self.take(N)?;
        match <[u8; N]>::try_from(bytes) {
            Ok(bytes) => Ok(bytes),
            Err(_) => unreachable!(),
        }
    }

    /// A number of one byte.
    #[tactic(auto, unfolding(crate::specs::Fields::number_1))]
    pub fn u8(&mut self) -> Result<u8, FieldError>
        ensures gives { Gives left_of (λ n. (n, self.new)) result (number_1.reads self.old) }
        ensures memory { NeedsNoMemory left_of result }
    {
        let bytes = self.take(1)?;
        Ok(bytes[0])
    }

    /// A number of two bytes, the lower first.
    #[tactic(auto, unfolding(crate::specs::Fields::number_2))]
    pub fn u16(&mut self) -> Result<u16, FieldError>
        ensures gives { Gives left_of (λ n. (n, self.new)) result (number_2.reads self.old) }
        ensures memory { NeedsNoMemory left_of result }
    {
        let bytes = self.array::<2>()?;
        Ok(u16::from_le_bytes(bytes))
    }

    /// A number of four bytes, the lowest first.
    #[tactic(auto, unfolding(crate::specs::Fields::number_4))]
    pub fn u32(&mut self) -> Result<u32, FieldError>
        ensures gives { Gives left_of (λ n. (n, self.new)) result (number_4.reads self.old) }
        ensures memory { NeedsNoMemory left_of result }
    {
        let bytes = self.array::<4>()?;
        Ok(u32::from_le_bytes(bytes))
    }

    /// A number of eight bytes, the lowest first.
    #[tactic(auto, unfolding(crate::specs::Fields::number_8))]
    pub fn u64(&mut self) -> Result<u64, FieldError>
        ensures gives { Gives left_of (λ n. (n, self.new)) result (number_8.reads self.old) }
        ensures memory { NeedsNoMemory left_of result }
    {
        let bytes = self.array::<8>()?;
        Ok(u64::from_le_bytes(bytes))
    }

    /// The version byte, which is 1.
    #[tactic(auto, unfolding(crate::specs::Fields::version))]
    pub fn version(&mut self) -> Result<(), FieldError>
        ensures gives { Gives left_of (λ u. (u, self.new)) result (version.reads self.old) }
        ensures memory { NeedsNoMemory left_of result }
    {
        let left = self.left();
        match self.u8()? {
            1 => Ok(()),
            _ => Err(FieldError::Unread(left)),
        }
    }

    /// A number of two bytes from `low` to `high`.
    pub fn u16_within(&mut self, low: u16, high: u16) -> Result<u16, FieldError>
        ensures gives { Gives left_of (λ n. (n, self.new)) result ((within number_2 low high).reads self.old) }
        ensures memory { NeedsNoMemory left_of result }
    {
        let left = self.left();
        let number = self.u16()?;
        if low <= number && number <= high {
            Ok(number)
        } else {
            Err(FieldError::Unread(left))
        }
    }

    /// A number of four bytes from `low` to `high`.
    pub fn u32_within(&mut self, low: u32, high: u32) -> Result<u32, FieldError>
        ensures gives { Gives left_of (λ n. (n, self.new)) result ((within number_4 low high).reads self.old) }
        ensures memory { NeedsNoMemory left_of result }
    {
        let left = self.left();
        let number = self.u32()?;
        if low <= number && number <= high {
            Ok(number)
        } else {
            Err(FieldError::Unread(left))
        }
    }

    /// A number of eight bytes from `low` to `high`.
    pub fn u64_within(&mut self, low: u64, high: u64) -> Result<u64, FieldError>
        ensures gives { Gives left_of (λ n. (n, self.new)) result ((within number_8 low high).reads self.old) }
        ensures memory { NeedsNoMemory left_of result }
    {
        let left = self.left();
        let number = self.u64()?;
        if low <= number && number <= high {
            Ok(number)
        } else {
            Err(FieldError::Unread(left))
        }
    }

    /// An inode's number, below 2^36.
    #[tactic(auto, unfolding(crate::specs::Fields::inode_id))]
    pub fn inode_id(&mut self) -> Result<InodeId, FieldError>
        ensures gives { Gives left_of (λ n. (n, self.new)) result (inode_id.reads self.old) }
        ensures memory { NeedsNoMemory left_of result }
    {
        let number = self.u64_within(0, INODE_IDS - 1)?;
        Ok(InodeId::new(number))
    }

    /// The twelve permission bits of POSIX, below 4,096.
    #[tactic(auto, unfolding(crate::specs::Fields::mode))]
    pub fn mode(&mut self) -> Result<u16, FieldError>
        ensures gives { Gives left_of (λ n. (n, self.new)) result (mode.reads self.old) }
        ensures memory { NeedsNoMemory left_of result }
    {
        self.u16_within(0, MODES - 1)
    }

    /// A stamp or a time, below 2^53.
    #[tactic(auto, unfolding(crate::specs::Fields::time))]
    pub fn time(&mut self) -> Result<u64, FieldError>
        ensures gives { Gives left_of (λ n. (n, self.new)) result (time.reads self.old) }
        ensures memory { NeedsNoMemory left_of result }
    {
        self.u64_within(0, TIMES - 1)
    }

    /// A length or a place in a file, at most 1,099,511,627,776.
    #[tactic(auto, unfolding(crate::specs::Fields::file_size))]
    pub fn file_size(&mut self) -> Result<u64, FieldError>
        ensures gives { Gives left_of (λ n. (n, self.new)) result (file_size.reads self.old) }
        ensures memory { NeedsNoMemory left_of result }
    {
        self.u64_within(0, FILE_BYTES)
    }

    /// A chunk's size in bytes, 1 to 4,194,304.
    #[tactic(auto, unfolding(crate::specs::Fields::chunk))]
    pub fn chunk(&mut self) -> Result<u32, FieldError>
        ensures gives { Gives left_of (λ n. (n, self.new)) result (chunk.reads self.old) }
        ensures memory { NeedsNoMemory left_of result }
    {
        self.u32_within(1, CHUNK_BYTES)
    }

    /// A number of chains, 1 to 256.
    #[tactic(auto, unfolding(crate::specs::Fields::stripe))]
    pub fn stripe(&mut self) -> Result<u16, FieldError>
        ensures gives { Gives left_of (λ n. (n, self.new)) result (stripe.reads self.old) }
        ensures memory { NeedsNoMemory left_of result }
    {
        self.u16_within(1, CHAINS)
    }

    /// A file's layout.
    #[tactic(auto, unfolding(crate::specs::Fields::layout))]
    pub fn layout(&mut self) -> Result<Layout, FieldError>
        ensures gives { Gives left_of (λ l. (l, self.new)) result (layout.reads self.old) }
        ensures memory { NeedsNoMemory left_of result }
    {
        let chunk = self.chunk()?;
        let stripe = self.stripe()?;
        let start = self.u16_within(0, CHAINS - 1)?;
        let mix = self.inode_id()?.get();
        Ok(Layout {
            chunk,
            stripe,
            start,
            mix,
        })
    }

    /// A file's layout and how many places of it are in use, 1 to the stripe.
    #[tactic(auto, unfolding(crate::specs::Fields::used_layout))]
    pub fn used_layout(&mut self) -> Result<(Layout, u16), FieldError>
        ensures gives { Gives left_of (λ l. (l, self.new)) result (used_layout.reads self.old) }
        ensures memory { NeedsNoMemory left_of result }
    {
        let layout = self.layout()?;
        let hint = self.u16_within(1, layout.stripe)?;
        Ok((layout, hint))
    }

    /// A kind: 1 is a directory, 2 a file, 3 a link.
    #[tactic(auto, unfolding(crate::specs::Fields::kind))]
    pub fn kind(&mut self) -> Result<Kind, FieldError>
        ensures gives { Gives left_of (λ k. (k, self.new)) result (kind.reads self.old) }
        ensures memory { NeedsNoMemory left_of result }
    {
        let left = self.left();
        match self.u8()? {
            1 => Ok(Kind::Dir),
            2 => Ok(Kind::File),
            3 => Ok(Kind::Link),
            _ => Err(FieldError::Unread(left)),
        }
    }

    /// The 16 bytes of a UUID (RFC 9562).
    #[tactic(auto, unfolding(crate::specs::Fields::client))]
    pub fn client(&mut self) -> Result<ClientId, FieldError>
        ensures gives { Gives left_of (λ c. (c, self.new)) result (client.reads self.old) }
        ensures memory { NeedsNoMemory left_of result }
    {
        let bytes = self.array::<16>()?;
        Ok(ClientId(u128::from_be_bytes(bytes)))
    }

    /// The bytes of a text, which is one field.
    #[tactic(auto, unfolding(crate::specs::Fields::text))]
    pub fn text(&mut self) -> Result<&'a [u8], FieldError>
        ensures gives { Gives left_of (λ text. (text.now, self.new)) result (text.reads self.old) }
        ensures memory { NeedsNoMemory left_of result }
    {
        let left = self.left();
        match self.sized() {
            Ok(bytes) => Ok(bytes),
            Err(FieldError::Unread(_)) => Err(FieldError::Unread(left)),
            Err(FieldError::Memory) => Err(FieldError::Memory),
        }
    }

    fn sized(&mut self) -> Result<&'a [u8], FieldError>
        ensures gives { Gives left_of (λ text. (text.now, self.new)) result ((sized number_2).reads self.old) }
        ensures memory { NeedsNoMemory left_of result }
    {
        let count = self.u16()?;
        self.take(count as usize)
    }

    /// A text of its own.
    pub fn owned_text(&mut self, alloc: Global) -> Result<Text, FieldError>
        ensures { Gives left_of (λ text. (text, self.new)) result (text.reads self.old) }
    {
        let bytes = self.text()?;
        Ok(Text::from_slice(alloc, bytes)?)
    }

    /// The bytes of a text that reads as a path.
    #[tactic(auto, unfolding(crate::specs::Fields::path_text))]
    pub fn path_text(&mut self, alloc: Global) -> Result<&'a [u8], FieldError>
        ensures { Gives left_of (λ text. (text.now, self.new)) result (path_text.reads self.old) }
    {
        let left = self.left();
        let bytes = self.text()?;
        match Path::read(alloc, bytes) {
            Ok(_) => Ok(bytes),
            Err(PathError::Memory) => Err(FieldError::Memory),
            Err(_) => Err(FieldError::Unread(left)),
        }
    }

    /// What was read, if no bytes are left; `size` is how many there were.
    pub fn finish<T: Drop>(&self, size: usize, read: Result<T, FieldError>) -> Result<T, RowError>
        ensures gives { (r : Result (T × List ℕ) ℕ) → Gives left_of (λ v. (v, self.now)) read r
            → Gives fault_place (λ v. v) result (placed size r) }
        ensures memory { NeedsNoMemory left_of read → NeedsNoMemory fault_place result }
    {
        match read {
            Ok(value) => {
                if self.rest.is_empty() {
                    Ok(value)
                } else {
                    Err(RowError::NotARecord(size.saturating_sub(self.rest.len())))
                }
            }
            Err(FieldError::Unread(left)) => Err(RowError::NotARecord(size.saturating_sub(left))),
            Err(FieldError::Memory) => Err(RowError::Memory),
        }
    }
}

/// Each byte is below 256. It does nothing; its contract is what a proof needs.
fn known_bytes(bytes: &[u8])
    ensures { IsTrue (are_bytes bytes.now) }
{
    let _bytes = bytes;
}

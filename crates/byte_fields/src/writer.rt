ghost use Rattle.std.specs.Prelude.{◌≡◌, [], ◌++◌, OnOk};
ghost use Rattle.byte_fields.specs.Fields.{number_1, number_2, number_4, number_8, version, inode_id, mode, time, file_size, chunk, stripe, layout, used_layout, kind, text, path_text, client};

use fs_base::{ClientId, InodeId, Kind, Layout, Memory};
use std::alloc::Global;
use std::marker::Model;

/// The bytes that are written so far.
///
/// A number is written by the width of its type, whether or not its field's range admits it. After an
/// error nothing is said of the bytes.
#[derive(Debug, Drop)]
pub struct Writer {
    bytes: Vec<u8>,
}

impl Model for Writer {
    ghost use Rattle.std.specs.Prelude.{List, ℕ};

    ghost Value = { List ℕ };

    ghost view = { λ w. w.bytes.items };
}

impl Writer {
    /// No bytes yet. They take memory as they come.
    pub fn new(alloc: Global) -> Writer
        ensures { result ≡ [] }
    {
        Writer {
            bytes: Vec::new(alloc),
        }
    }

    pub fn into_bytes(self) -> Vec<u8>
        ensures { result.items ≡ self }
    {
        self.bytes
    }

    /// The bytes as they are.
    pub fn bytes(&mut self, bytes: &[u8]) -> Result<(), Memory>
        ensures { OnOk result (self.new ≡ self.old ++ bytes.now) }
    {
        self.bytes.extend_from_slice(bytes)?;
        Ok(())
    }

    #[tactic(auto, unfolding(crate::specs::Fields::number_1))]
    pub fn u8(&mut self, number: u8) -> Result<(), Memory>
        ensures { OnOk result (self.new ≡ self.old ++ number_1.spelled number) }
    {
        self.bytes(&number.to_le_bytes())
    }

    #[tactic(auto, unfolding(crate::specs::Fields::number_2))]
    pub fn u16(&mut self, number: u16) -> Result<(), Memory>
        ensures { OnOk result (self.new ≡ self.old ++ number_2.spelled number) }
    {
        self.bytes(&number.to_le_bytes())
    }

    #[tactic(auto, unfolding(crate::specs::Fields::number_4))]
    pub fn u32(&mut self, number: u32) -> Result<(), Memory>
        ensures { OnOk result (self.new ≡ self.old ++ number_4.spelled number) }
    {
        self.bytes(&number.to_le_bytes())
    }

    #[tactic(auto, unfolding(crate::specs::Fields::number_8))]
    pub fn u64(&mut self, number: u64) -> Result<(), Memory>
        ensures { OnOk result (self.new ≡ self.old ++ number_8.spelled number) }
    {
        self.bytes(&number.to_le_bytes())
    }

    /// The version byte, which is 1.
    #[tactic(auto, unfolding(crate::specs::Fields::version))]
    pub fn version(&mut self) -> Result<(), Memory>
        ensures { OnOk result (self.new ≡ self.old ++ version.spelled tt) }
    {
        self.u8(1)
    }

    #[tactic(auto, unfolding(crate::specs::Fields::inode_id))]
    pub fn inode_id(&mut self, value: InodeId) -> Result<(), Memory>
        ensures { OnOk result (self.new ≡ self.old ++ inode_id.spelled value) }
    {
        self.u64(value.get())
    }

    #[tactic(auto, unfolding(crate::specs::Fields::mode))]
    pub fn mode(&mut self, value: u16) -> Result<(), Memory>
        ensures { OnOk result (self.new ≡ self.old ++ mode.spelled value) }
    {
        self.u16(value)
    }

    #[tactic(auto, unfolding(crate::specs::Fields::time))]
    pub fn time(&mut self, value: u64) -> Result<(), Memory>
        ensures { OnOk result (self.new ≡ self.old ++ time.spelled value) }
    {
        self.u64(value)
    }

    #[tactic(auto, unfolding(crate::specs::Fields::file_size))]
    pub fn file_size(&mut self, value: u64) -> Result<(), Memory>
        ensures { OnOk result (self.new ≡ self.old ++ file_size.spelled value) }
    {
        self.u64(value)
    }

    #[tactic(auto, unfolding(crate::specs::Fields::chunk))]
    pub fn chunk(&mut self, value: u32) -> Result<(), Memory>
        ensures { OnOk result (self.new ≡ self.old ++ chunk.spelled value) }
    {
        self.u32(value)
    }

    #[tactic(auto, unfolding(crate::specs::Fields::stripe))]
    pub fn stripe(&mut self, value: u16) -> Result<(), Memory>
        ensures { OnOk result (self.new ≡ self.old ++ stripe.spelled value) }
    {
        self.u16(value)
    }

    #[tactic(auto, unfolding(crate::specs::Fields::layout))]
    pub fn layout(&mut self, value: Layout) -> Result<(), Memory>
        ensures { OnOk result (self.new ≡ self.old ++ layout.spelled value) }
    {
        self.chunk(value.chunk)?;
        self.stripe(value.stripe)?;
        self.u16(value.start)?;
        self.mix(value.mix)
    }

    #[tactic(auto, unfolding(crate::specs::Fields::inode_id))]
    fn mix(&mut self, value: u64) -> Result<(), Memory>
        ensures { OnOk result (self.new ≡ self.old ++ inode_id.spelled value) }
    {
        self.u64(value)
    }

    /// A file's layout and how many places of it are in use.
    #[tactic(auto, unfolding(crate::specs::Fields::used_layout))]
    pub fn used_layout(&mut self, value: Layout, hint: u16) -> Result<(), Memory>
        ensures { OnOk result (self.new ≡ self.old ++ used_layout.spelled (value, hint)) }
    {
        self.layout(value)?;
        self.u16(hint)
    }

    #[tactic(auto, unfolding(crate::specs::Fields::kind))]
    pub fn kind(&mut self, value: Kind) -> Result<(), Memory>
        ensures { OnOk result (self.new ≡ self.old ++ kind.spelled value) }
    {
        match value {
            Kind::Dir => self.u8(1),
            Kind::File => self.u8(2),
            Kind::Link => self.u8(3),
        }
    }

    /// The 16 bytes of a UUID (RFC 9562).
    #[tactic(auto, unfolding(crate::specs::Fields::client))]
    pub fn client(&mut self, id: ClientId) -> Result<(), Memory>
        ensures { OnOk result (self.new ≡ self.old ++ client.spelled id) }
    {
        self.bytes(&id.0.to_be_bytes())
    }

    /// The length in two bytes, of which a greater one is cut to the lower two, and the bytes.
    #[tactic(auto, unfolding(crate::specs::Fields::text, crate::specs::Fields::number_2))]
    pub fn text(&mut self, bytes: &[u8]) -> Result<(), Memory>
        ensures { OnOk result (self.new ≡ self.old ++ text.spelled bytes.now) }
    {
        let count = (bytes.len() as u64).to_le_bytes();
        self.bytes(&count[..2])?;
        self.bytes(bytes)
    }

    #[tactic(auto, unfolding(crate::specs::Fields::path_text))]
    pub fn path_text(&mut self, bytes: &[u8]) -> Result<(), Memory>
        ensures { OnOk result (self.new ≡ self.old ++ path_text.spelled bytes.now) }
    {
        self.text(bytes)
    }
}

ghost use Rattle.std.specs.Prelude.{◌≡◌, ◌++◌, IfOk, OnOk};
ghost use Rattle.inode_record.specs.Inode.{access, times, head, by_kind, inode, spelled_inode};

use crate::inode::{Access, Head, InodePart, InodeRow, Times};
use byte_fields::Writer;
use fs_base::Memory;
use std::alloc::Global;

impl InodeRow {
    /// The row's bytes. A number that its field's range doesn't admit is written by the width of its
    /// type; such bytes are no row.
    #[tactic(auto, unfolding(crate::specs::Inode::inode))]
    pub fn write(&self, alloc: Global) -> Result<Vec<u8>, Memory>
        ensures { IfOk result (λ bytes. bytes.items ≡ spelled_inode self.now) }
    {
        let mut writer = Writer::new(alloc);
        writer.version()?;
        self.put(&mut writer)?;
        Ok(writer.into_bytes())
    }

    #[tactic(auto, unfolding(crate::specs::Inode::by_kind, crate::specs::Inode::dir_part, crate::specs::Inode::file_part))]
    fn put(&self, writer: &mut Writer) -> Result<(), Memory>
        ensures { OnOk result (writer.new ≡ writer.old ++ by_kind.spelled self.now) }
    {
        match &self.part {
            InodePart::Dir {
                parent,
                chunk,
                stripe,
            } => {
                writer.u8(1)?;
                self.head().put(writer)?;
                writer.inode_id(*parent)?;
                writer.chunk(*chunk)?;
                writer.stripe(*stripe)
            }
            InodePart::File {
                length,
                truncs,
                layout,
                hint,
            } => {
                writer.u8(2)?;
                self.head().put(writer)?;
                writer.file_size(*length)?;
                writer.u32(*truncs)?;
                writer.used_layout(*layout, *hint)
            }
            InodePart::Link { target } => {
                writer.u8(3)?;
                self.head().put(writer)?;
                writer.path_text(target.as_slice())
            }
        }
    }
}

impl Head {
    #[tactic(auto, unfolding(crate::specs::Inode::head))]
    fn put(self, writer: &mut Writer) -> Result<(), Memory>
        ensures { OnOk result (writer.new ≡ writer.old ++ head.spelled self) }
    {
        self.access.put(writer)?;
        self.times.put(writer)
    }
}

impl Access {
    #[tactic(auto, unfolding(crate::specs::Inode::access))]
    fn put(self, writer: &mut Writer) -> Result<(), Memory>
        ensures { OnOk result (writer.new ≡ writer.old ++ access.spelled self) }
    {
        writer.mode(self.mode)?;
        writer.u32(self.owner)?;
        writer.u32(self.group)?;
        writer.u32(self.links)
    }
}

impl Times {
    #[tactic(auto, unfolding(crate::specs::Inode::times))]
    fn put(self, writer: &mut Writer) -> Result<(), Memory>
        ensures { OnOk result (writer.new ≡ writer.old ++ times.spelled self) }
    {
        writer.time(self.atime)?;
        writer.time(self.mtime)?;
        writer.time(self.ctime)
    }
}

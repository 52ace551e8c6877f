ghost use Rattle.byte_fields.specs.Spelling.{IsSpelling};
ghost use Rattle.inode_record.specs.Inode.{spelled_inode, is_inode, read_inode};

/// A row reads back what is written and nothing else, has one spelling, and none that begins another. It
/// does nothing; its contract is the law.
pub fn inodes_are_spelled()
    ensures { IsSpelling spelled_inode is_inode read_inode }
{}

ghost use Rattle.byte_fields.specs.Fields.{number_1, number_2, number_4, number_8, inode_id, mode, time, file_size, used_layout, kind, text, path_text, client};
ghost use Rattle.byte_fields.specs.Spelling.{IsSpelled};

/// Each field reads back what is spelled and nothing else, has one spelling for a value, and none that
/// begins another. It does nothing; its contract is the law.
pub fn fields_are_spelled()
    ensures numbers { IsSpelled number_1 × IsSpelled number_2 × IsSpelled number_4 × IsSpelled number_8 }
    ensures inode_id { IsSpelled inode_id }
    ensures mode { IsSpelled mode }
    ensures time { IsSpelled time }
    ensures file_size { IsSpelled file_size }
    ensures layout { IsSpelled used_layout }
    ensures kind { IsSpelled kind }
    ensures client { IsSpelled client }
    ensures text { IsSpelled text }
    ensures path_text { IsSpelled path_text }
{}

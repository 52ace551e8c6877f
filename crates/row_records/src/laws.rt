ghost use Rattle.byte_fields.specs.Spelling.{IsSpelling};
ghost use Rattle.row_records.specs.Calls.{spelled_call, is_call, read_call};
ghost use Rattle.row_records.specs.Replies.{spelled_reply, is_reply, read_reply};
ghost use Rattle.row_records.specs.Rows.{spelled_dent, is_dent, read_dent, spelled_session, is_session, read_session, spelled_kept, is_kept, read_kept, spelled_alloc, is_alloc, read_alloc, spelled_gc, is_gc, read_gc};

/// A row reads back what is written and nothing else, has one spelling, and none that begins another of its
/// type. It does nothing; its contract is the law.
pub fn rows_are_spelled()
    ensures dent { IsSpelling spelled_dent is_dent read_dent }
    ensures session { IsSpelling spelled_session is_session read_session }
    ensures kept { IsSpelling spelled_kept is_kept read_kept }
    ensures alloc { IsSpelling spelled_alloc is_alloc read_alloc }
    ensures gc { IsSpelling spelled_gc is_gc read_gc }
{}

/// The same of calls, each with its stamp.
pub fn calls_are_spelled()
    ensures { IsSpelling spelled_call is_call read_call }
{}

/// The same of replies.
pub fn replies_are_spelled()
    ensures { IsSpelling spelled_reply is_reply read_reply }
{}

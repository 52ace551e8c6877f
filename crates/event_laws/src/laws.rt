ghost use Rattle.event_laws.specs.Laws.{BeginsAreFresh, ConflictsAreLater, ConflictsWereMet, EventsAsk, FrontsBeginCalls, ReceiptsAreTold, RepliesRise, RunsAreEvents, UncommittedRepliesAreBegun, UndisturbedAttemptsMeetNone};

/// A run's turns, in the order of its schedule, are a list of events. It does nothing.
pub fn runs_are_events()
    ensures { RunsAreEvents }
{}

/// Each receipt that a client has kept was told in one of its events. It does nothing.
pub fn receipts_are_told()
    ensures { ReceiptsAreTold }
{}

/// An event makes one ask, the one that waits, and it is answered. It does nothing.
pub fn events_ask()
    ensures { EventsAsk }
{}

/// A Begin is answered with the journal's length at its event. It does nothing.
pub fn a_begin_is_fresh()
    ensures { BeginsAreFresh }
{}

/// The fronts of a receipt are the journal's length just before its call's first event. It does nothing.
pub fn fronts_begin_calls()
    ensures { FrontsBeginCalls }
{}

/// A reply isn't older than what any client had learned before its call began, conflicts too. It does
/// nothing.
pub fn replies_rise()
    ensures { RepliesRise }
{}

/// A reply that no entry has is of the journal's length at its request's last Begin. It does nothing.
pub fn uncommitted_replies_are_begun()
    ensures { UncommittedRepliesAreBegun }
{}

/// Each conflict of a receipt was met in an event of its call. It is the first later write behind its
/// attempt's
/// Begin, so that an attempt meets none where nothing was committed since. It does nothing.
pub fn conflicts_are_later()
    ensures met { ConflictsWereMet }
    ensures later { ConflictsAreLater }
    ensures alone { UndisturbedAttemptsMeetNone }
{}

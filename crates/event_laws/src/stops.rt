ghost use Rattle.event_laws.specs.Laws.{CountsAreOfEvents, StopsComeWhenDue, UnaskedServersStay};

/// A server has counted the asks that the events made of it, and the entries that it made. It does nothing.
pub fn counts_are_of_events()
    ensures all { CountsAreOfEvents }
    ensures others { UnaskedServersStay }
{}

/// A server stops behind an event exactly where the plan has a stop at what it has counted by then. Each
/// client whose request it worked on learns so, forgets what that request had met, and keeps its call's
/// front. It does nothing.
pub fn stops_come_when_due()
    ensures { StopsComeWhenDue }
{}

ghost use Rattle.std.specs.Prelude.{◌≡◌, ◌≤◌, ◌<◌, length, slice_get, Some, IfOk};
ghost use Rattle.std.specs.List.{list_any};
ghost use Rattle.std.specs.List.{list_any};
ghost use Rattle.seat_turns.specs.Servers.{HasCounted, counted, counts_of, is_due, with_ask, with_stop};
ghost use Rattle.seat_turns.specs.declared.servers.ServerCounts.{ServerCounts as CountsView};

use client_core::{Stop, StopAfter};
use fs_base::limits::{JOURNAL_ENTRIES, STOPS};
use fs_base::{Config, Items, Memory};
use std::alloc::Global;

/// What a server has done over its whole life.
#[derive(Clone, Copy, Debug, PartialEq, Eq)]
pub struct ServerCounts {
    /// Asks of the requests that it worked on.
    pub asks: u64,
    /// Entries that it made.
    pub commits: u64,
    pub stops: u32,
}

/// The servers, each at its number, and the plan's stops of them.
#[derive(Drop)]
pub struct Servers {
    pub stops: Items<Stop>,
    pub counts: Vec<ServerCounts>,
}

/// Whether the stop comes right behind an ask of the server, by its counts then.
fn is_due(server: u8, made: bool, now: &ServerCounts, stop: &Stop) -> bool
    ensures { result ≡ is_due server made now.now stop.now }
{
    if stop.server != server {
        return false;
    }
    match stop.after {
        StopAfter::Ask => u64::from(stop.n) == now.asks,
        StopAfter::Commit => made && u64::from(stop.n) == now.commits,
    }
}

/// One ask more. 2^64 asks are more than it can count: they are answered as want of memory.
fn with_ask(made: bool, counts: ServerCounts) -> Result<ServerCounts, Memory>
    requires { counts.commits ≤ JOURNAL_ENTRIES }
    ensures { IfOk result (λ now. now ≡ with_ask made counts) }
{
    let asks = counts.asks.checked_add(1).ok_or(Memory)?;
    let commits = if made {
        counts.commits + 1
    } else {
        counts.commits
    };
    Ok(ServerCounts {
        asks,
        commits,
        stops: counts.stops,
    })
}

fn is_any_due(stops: &[Stop], server: u8, made: bool, now: &ServerCounts) -> bool
    ensures { result ≡ list_any (is_due server made now.now) stops.now }
{
    stops.iter().any(|stop| is_due(server, made, now, stop))
}

/// One stop more, and its number.
fn with_stop(due: bool, counts: ServerCounts) -> (ServerCounts, Option<u32>)
    requires { counts.stops ≤ STOPS }
    ensures { result ≡ with_stop due counts }
{
    if !due {
        return (counts, None);
    }
    let stops = counts.stops + 1;
    (ServerCounts { stops, ..counts }, Some(stops))
}

/// The counts behind an ask, and the number of the stop that comes then.
fn counted(
    stops: &[Stop],
    server: u8,
    made: bool,
    counts: ServerCounts,
) -> Result<(ServerCounts, Option<u32>), Memory>
    requires entries { counts.commits ≤ JOURNAL_ENTRIES }
    requires few { counts.stops ≤ STOPS }
    ensures { IfOk result (λ behind. behind ≡ counted stops.now server made counts) }
{
    let now = with_ask(made, counts)?;
    let due = is_any_due(stops, server, made, &now);
    Ok(with_stop(due, now))
}

impl Servers {
    /// Servers that have done nothing yet.
    pub fn new(alloc: Global, config: &Config, stops: Items<Stop>) -> Result<Servers, Memory>
        ensures stops { IfOk result (λ servers. servers.stops ≡ stops) }
        ensures counts { IfOk result (λ servers. servers.counts.items ≡ counts_of config.now) }
    {
        let mut counts = Vec::new(alloc);
        for _server in 0..config.servers() {
            counts.push(ServerCounts {
                asks: 0,
                commits: 0,
                stops: 0,
            })?;
        }
        Ok(Servers { stops, counts })
    }

    /// Counts an ask of a server, by which it made an entry or didn't: the number of the stop that comes right
    /// behind it, if one does.
    pub(crate) fn count(&mut self, server: u8, made: bool) -> Result<Option<u32>, Memory>
        requires within { server < length self.old.counts.items }
        requires entries { (counts : CountsView) → slice_get self.old.counts.items server ≡ Some counts
            → counts.commits ≤ JOURNAL_ENTRIES }
        requires few { (counts : CountsView) → slice_get self.old.counts.items server ≡ Some counts
            → counts.stops ≤ STOPS }
        ensures stops { self.new.stops ≡ self.old.stops }
        ensures counted { IfOk result
            (λ stop. HasCounted self.old.stops server made stop self.old.counts.items self.new.counts.items) }
    {
        let place = usize::from(server);
        let (now, stop) = counted(self.stops.as_slice(), server, made, self.counts[place])?;
        self.counts[place] = now;
        Ok(stop)
    }
}

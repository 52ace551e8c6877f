//! The planned stops of servers.

ghost use Rattle.std.specs.Prelude.{◌≡◌, ◌≤◌, ◌<◌, length, map, All, IfOk, IsTrue, Some, ok_or};
ghost use Rattle.client_core.specs.Plans.{AreStopsDistinct, IsStop};
ghost use Rattle.fs_base.specs.Gives.{Gives};
ghost use Rattle.serde_json.specs.View.{view};
ghost use Rattle.scenario.specs.Broken.{broken_of};
ghost use Rattle.scenario.specs.Stops.{after_word, are_alike, are_different, bad_stop, count_alike, each_stop, has_stop, stop_after, stop_count, stop_of, stopped_server, stops_at, stops_of};

use crate::broken::{Broken, ScenarioError, need};
use crate::json::{elements_at, has_only, text_at};
use crate::numbers::whole_number_at;
use client_core::{Stop, StopAfter};
use fs_base::Items;
use fs_base::limits::{STOP_COUNT, STOPS};
use serde_json::Value;
use std::alloc::Global;

/// What a stop of a wrong form breaks.
fn bad_stop() -> Broken
    ensures { result ≡ bad_stop }
{
    Broken { rule: 10, place: 0 }
}

/// The values that stops are read of; none where the key is missing.
pub fn stops_at(value: &Value) -> Result<&[Value], Broken>
    ensures { Gives Some (λ s. map view s.now) result (stops_at (view value.now)) }
{
    elements_at(value, "stops", Broken { rule: 4, place: 0 })
}

/// The stops of so many servers.
#[tactic(auto, unfolding(crate::specs::Stops::stops_of))]
pub fn stops_of(alloc: Global, servers: u8, values: &[Value]) -> Result<Items<Stop>, ScenarioError>
    ensures gives { Gives broken_of (λ stops. stops) result (stops_of servers (map view values.now)) }
    ensures few { IfOk result (λ stops. length stops ≤ STOPS) }
    ensures valid { IfOk result (λ stops. All (IsStop servers) stops) }
    ensures distinct { IfOk result (λ stops. AreStopsDistinct stops) }
{
    need(values.len() <= STOPS, bad_stop())?;
    let stops = each_stop(alloc, servers, values)?;
    need(are_different(stops.as_slice()), bad_stop())?;
    Ok(stops)
}

fn each_stop(alloc: Global, servers: u8, values: &[Value]) -> Result<Items<Stop>, ScenarioError>
    ensures gives { Gives broken_of (λ stops. stops) result (each_stop servers (map view values.now)) }
    ensures count { IfOk result (λ stops. length stops ≡ length values.now) }
    ensures valid { IfOk result (λ stops. All (IsStop servers) stops) }
{
    let mut stops = Items::new(alloc);
    for value in values {
        let stop = stop_of(servers, value)?;
        stops.push(stop)?;
    }
    Ok(stops)
}

#[tactic(auto, unfolding(crate::specs::Stops::stop_of))]
fn stop_of(servers: u8, value: &Value) -> Result<Stop, ScenarioError>
    ensures gives { Gives broken_of (λ stop. stop) result (stop_of servers (view value.now)) }
    ensures valid { IfOk result (λ stop. IsStop servers stop) }
{
    need(has_only(value, &["server", "after", "n"]), bad_stop())?;
    let server = stopped_server(servers, value)?;
    let after = stop_after(value)?;
    let n = stop_count(value)?;
    Ok(Stop { server, after, n })
}

fn stopped_server(servers: u8, value: &Value) -> Result<u8, Broken>
    ensures gives { result ≡ stopped_server servers (view value.now) }
    ensures below { IfOk result (λ server. server < servers) }
{
    let server = whole_number_at(value, "server").ok_or(bad_stop())?;
    need(server < u64::from(servers), bad_stop())?;
    Ok(server as u8)
}

fn stop_after(value: &Value) -> Result<StopAfter, Broken>
    ensures { result ≡ stop_after (view value.now) }
{
    let word = text_at(value, "after", bad_stop())?;
    after_word(word)
}

fn after_word(word: &str) -> Result<StopAfter, Broken>
    ensures { result ≡ ok_or (after_word word.now) bad_stop }
{
    match word {
        "ask" => Ok(StopAfter::Ask),
        "commit" => Ok(StopAfter::Commit),
        _ => Err(bad_stop()),
    }
}

fn stop_count(value: &Value) -> Result<u32, Broken>
    ensures gives { result ≡ stop_count (view value.now) }
    ensures from { IfOk result (λ n. 1 ≤ n) }
    ensures to { IfOk result (λ n. n ≤ STOP_COUNT) }
{
    let n = whole_number_at(value, "n").ok_or(bad_stop())?;
    need(1 <= n && n <= u64::from(STOP_COUNT), bad_stop())?;
    Ok(n as u32)
}

fn are_alike(a: &Stop, b: &Stop) -> bool
    ensures { result ≡ are_alike a.now b.now }
{
    a.server == b.server && count_alike(a.after, b.after) && a.n == b.n
}

fn count_alike(a: StopAfter, b: StopAfter) -> bool
    ensures { result ≡ count_alike a b }
{
    match (a, b) {
        (StopAfter::Ask, StopAfter::Ask) | (StopAfter::Commit, StopAfter::Commit) => true,
        _ => false,
    }
}

fn has_stop(stop: &Stop, stops: &[Stop]) -> bool
    ensures { result ≡ has_stop stop.now stops.now }
{
    for other in stops {
        if are_alike(stop, other) {
            return true;
        }
    }
    false
}

/// Whether no two stops are alike.
fn are_different(stops: &[Stop]) -> bool
    ensures value { result ≡ are_different stops.now }
    ensures distinct { IsTrue result → AreStopsDistinct stops.now }
{
    for (i, stop) in stops.iter().enumerate() {
        if has_stop(stop, &stops[i + 1..]) {
            return false;
        }
    }
    true
}

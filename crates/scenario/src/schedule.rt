//! The order of turns.

ghost use Rattle.std.specs.Prelude.{◌≡◌, ◌≤◌, length, map, All, IfOk, IsTrue};
ghost use Rattle.client_core.specs.Plans.{IsSchedule, NamesClient};
ghost use Rattle.fs_base.specs.Gives.{Gives};
ghost use Rattle.serde_json.specs.View.{view};
ghost use Rattle.scenario.specs.Broken.{broken_of};
ghost use Rattle.scenario.specs.Schedule.{item_of, items_of, names_client, schedule_of};

use crate::broken::{ScenarioError, need, not_built};
use crate::numbers::whole_number;
use client_core::Schedule;
use fs_base::Items;
use fs_base::limits::CLIENTS;
use serde_json::Value;
use std::alloc::Global;

/// The order of turns of so many clients.
pub fn schedule_of(alloc: Global, count: usize, values: &[Value]) -> Result<Schedule, ScenarioError>
    requires { count ≤ CLIENTS }
    ensures gives { Gives broken_of (λ schedule. schedule) result (schedule_of count (map view values.now)) }
    ensures valid { IfOk result (λ schedule. IsSchedule count schedule) }
{
    let items = items_of(alloc, count, values)?;
    Ok(Schedule::Items(items))
}

fn items_of(alloc: Global, count: usize, values: &[Value]) -> Result<Items<u16>, ScenarioError>
    requires { count ≤ CLIENTS }
    ensures gives { Gives broken_of (λ items. items) result (items_of count (map view values.now)) }
    ensures valid { IfOk result (λ items. All (NamesClient count) items) }
{
    let mut items = Items::new(alloc);
    for value in values {
        let item = item_of(count, value)?;
        items.push(item)?;
    }
    Ok(items)
}

fn item_of(count: usize, value: &Value) -> Result<u16, ScenarioError>
    requires { count ≤ CLIENTS }
    ensures gives { Gives broken_of (λ item. item) result (item_of count (view value.now)) }
    ensures valid { IfOk result (λ item. NamesClient count item) }
{
    let item = whole_number(value).ok_or(not_built())?;
    need(names_client(count as u64, item), not_built())?;
    Ok(item as u16)
}

/// Whether it is a turn of one of so many clients, or a whole operation of one.
fn names_client(count: u64, item: u64) -> bool
    ensures value { result ≡ names_client count item }
    ensures names { IsTrue result → NamesClient count item }
{
    item < count || (100 <= item && item - 100 < count)
}

//! The rules of a scenario, in the order in which they are tried.

ghost use Rattle.std.specs.Prelude.{◌≡◌, ◌<◌, ◌≤◌, length, All, Err, IfOk, OnOk, Some, map, ok_or};
ghost use Rattle.fs_base.specs.Gives.{Gives};
ghost use Rattle.serde_json.specs.View.{view};
ghost use Rattle.scenario.specs.Broken.{broken_of, not_built, rule};
ghost use Rattle.scenario.specs.declared.broken.ScenarioError.TheVariants.{BadScenario};
ghost use Rattle.fs_base.specs.Config.{IsConfig};
ghost use Rattle.client_core.specs.Plans.{ops_in, AreDistinct, HasId, IsOp, IsPlan, IsScript};
ghost use Rattle.scenario.specs.Scenario.{clients_at, clients_of, config_of, home_of, id_in, json_of, ops_at, ops_of, plan_of, scenario_of, script_of, scripts_of, short_enough, client_of};

use crate::broken::{Broken, ScenarioError, need, not_built, too_long};
use crate::clients::{are_distinct, ops_in};
use crate::json::{array_at, elements_at, has_only, text_at};
use crate::numbers::{count_or, number_or};
use crate::ops::op_of;
use crate::schedule::schedule_of;
use crate::stops::{stops_at, stops_of};
use client_core::{Op, Plan, Script};
use fs_base::limits::{
    ATTEMPTS, CHAINS, CHUNK_BYTES, CLIENTS, NODES, OPERATIONS, SCENARIO_BYTES, SERVERS,
};
use fs_base::{ClientId, Config, Items};
use serde_json::Value;
use std::alloc::Global;
use uuid::Uuid;

/// The plan of a scenario, or the first rule that it breaks.
#[tactic(auto, unfolding(crate::specs::Scenario::scenario_of))]
pub fn read_scenario(alloc: Global, bytes: &[u8]) -> Result<Plan, ScenarioError>
    ensures gives { Gives broken_of (λ plan. plan) result (scenario_of bytes.now) }
    ensures valid { IfOk result (λ plan. IsPlan plan) }
    ensures long { SCENARIO_BYTES < length bytes.now → result ≡ Err (BadScenario (rule 1 SCENARIO_BYTES)) }
{
    let text = short_enough(bytes)?;
    let value = json_of(alloc, text)?;
    plan_of(alloc, &value)
}

fn short_enough(bytes: &[u8]) -> Result<&[u8], Broken>
    ensures gives { Gives Some (λ s. s.now) result (short_enough bytes.now) }
    ensures short { OnOk result (length bytes.now ≤ SCENARIO_BYTES) }
{
    if bytes.len() > SCENARIO_BYTES {
        return Err(too_long());
    }
    Ok(bytes)
}

fn json_of(alloc: Global, bytes: &[u8]) -> Result<Value, ScenarioError>
    ensures { Gives broken_of view result (json_of bytes.now) }
{
    match Value::from_slice(alloc, bytes) {
        Ok(value) => Ok(value),
        Err(e) => {
            if e.is_memory() {
                return Err(ScenarioError::Memory);
            }
            Err(ScenarioError::BadScenario(Broken { rule: 2, place: 0 }))
        }
    }
}

#[tactic(auto, unfolding(crate::specs::Scenario::plan_of))]
fn plan_of(alloc: Global, value: &Value) -> Result<Plan, ScenarioError>
    ensures gives { Gives broken_of (λ plan. plan) result (plan_of (view value.now)) }
    ensures valid { IfOk result (λ plan. IsPlan plan) }
{
    need(
        has_only(
            value,
            &[
                "clients", "servers", "nodes", "chains", "chunk", "stripe", "attempts", "stops",
                "schedule",
            ],
        ),
        not_built(),
    )?;
    let values = clients_at(value)?;
    let config = config_of(value)?;
    let attempts = count_or(value, "attempts", ATTEMPTS as u64, ATTEMPTS as u64)?;
    let planned = stops_at(value)?;
    let turns = elements_at(value, "schedule", not_built())?;
    let clients = clients_of(alloc, config.servers(), values)?;
    let stops = stops_of(alloc, config.servers(), planned)?;
    let schedule = schedule_of(alloc, clients.len(), turns)?;
    Ok(Plan {
        config,
        attempts: attempts as u8,
        clients,
        stops,
        schedule,
    })
}

/// The configuration that the top keys name.
#[tactic(auto, unfolding(crate::specs::Scenario::config_of))]
fn config_of(value: &Value) -> Result<Config, Broken>
    ensures { Gives Some (λ config. config) result (config_of (view value.now)) }
{
    let servers = count_or(value, "servers", SERVERS as u64, 1)?;
    let nodes = count_or(value, "nodes", NODES as u64, 1)?;
    let chains = count_or(value, "chains", CHAINS as u64, nodes)?;
    let chunk = count_or(value, "chunk", CHUNK_BYTES as u64, 1_048_576)?;
    let stripe = count_or(value, "stripe", chains, chains)?;
    Ok(config_with(servers, nodes, chains, chunk, stripe))
}

/// For numbers that are known to be in their ranges.
fn config_with(servers: u64, nodes: u64, chains: u64, chunk: u64, stripe: u64) -> Config
    requires { IsConfig servers nodes chains chunk stripe }
    ensures { result ≡ record {
      servers = servers;
      nodes = nodes;
      chains = chains;
      chunk = chunk;
      stripe = stripe;
    } }
{
    match Config::new(
        servers as u8,
        nodes as u8,
        chains as u16,
        chunk as u32,
        stripe as u16,
    ) {
        Some(config) => config,
        None => unreachable!(),
    }
}

/// The values that clients are read of, 1 to 64.
fn clients_at(value: &Value) -> Result<&[Value], Broken>
    ensures gives { Gives Some (λ s. map view s.now) result (clients_at (view value.now)) }
    ensures some { IfOk result (λ s. 1 ≤ length s.now) }
    ensures few { IfOk result (λ s. length s.now ≤ CLIENTS) }
{
    let list = array_at(value, "clients", not_built())?;
    need(1 <= list.len() && list.len() <= CLIENTS, not_built())?;
    Ok(list)
}

/// Clients, each with an id of its own.
#[tactic(auto, unfolding(crate::specs::Scenario::clients_of))]
fn clients_of(alloc: Global, servers: u8, values: &[Value]) -> Result<Items<Script>, ScenarioError>
    requires servers { 1 ≤ servers }
    requires few { length values.now ≤ CLIENTS }
    ensures gives { Gives broken_of (λ clients. clients) result (clients_of servers (map view values.now)) }
    ensures count { IfOk result (λ clients. length clients ≡ length values.now) }
    ensures scripts { IfOk result (λ clients. All (IsScript servers) clients) }
    ensures ids { IfOk result (λ clients. All HasId clients) }
    ensures distinct { IfOk result (λ clients. AreDistinct clients) }
    ensures short { IfOk result (λ clients. ops_in clients ≤ OPERATIONS) }
{
    let clients = scripts_of(alloc, servers, values)?;
    need(are_distinct(clients.as_slice()), not_built())?;
    need(ops_in(clients.as_slice()) <= OPERATIONS, not_built())?;
    Ok(clients)
}

fn scripts_of(alloc: Global, servers: u8, values: &[Value]) -> Result<Items<Script>, ScenarioError>
    requires { 1 ≤ servers }
    ensures gives { Gives broken_of (λ scripts. scripts) result (scripts_of servers (map view values.now)) }
    ensures count { IfOk result (λ scripts. length scripts ≡ length values.now) }
    ensures valid { IfOk result (λ scripts. All (IsScript servers) scripts) }
    ensures named { IfOk result (λ scripts. All HasId scripts) }
{
    let mut scripts = Items::new(alloc);
    for value in values {
        let ordinal = scripts.len();
        let script = script_of(alloc, servers, ordinal, value)?;
        scripts.push(script)?;
    }
    Ok(scripts)
}

#[tactic(auto, unfolding(crate::specs::Scenario::script_of))]
fn script_of(
    alloc: Global,
    servers: u8,
    ordinal: usize,
    value: &Value,
) -> Result<Script, ScenarioError>
    requires { 1 ≤ servers }
    ensures gives { Gives broken_of (λ script. script) result (script_of servers ordinal (view value.now)) }
    ensures valid { IfOk result (λ script. IsScript servers script) }
    ensures named { IfOk result HasId }
{
    need(has_only(value, &["id", "home", "ops"]), not_built())?;
    let text = text_at(value, "id", not_built())?;
    let id = id_in(text)?;
    let home = home_of(servers, ordinal, value)?;
    let ops = ops_at(alloc, value)?;
    Ok(Script { id, home, ops })
}

/// The server of the client at an ordinal: where it names none, the servers take the clients in turn.
fn home_of(servers: u8, ordinal: usize, value: &Value) -> Result<u8, Broken>
    requires { 1 ≤ servers }
    ensures gives { result ≡ home_of servers ordinal (view value.now) }
    ensures below { IfOk result (λ home. home < servers) }
{
    let servers = u64::from(servers);
    let home = number_or(value, "home", servers, ordinal as u64 % servers)?;
    Ok(home as u8)
}

/// The client with this number, which isn't 0.
fn client_of(number: u128) -> Result<ClientId, Broken>
    ensures gives { result ≡ ok_or (client_of number) not_built }
    ensures named { IfOk result (λ id. 1 ≤ id.0) }
{
    if number == 0 {
        return Err(not_built());
    }
    Ok(ClientId(number))
}

/// The client of a text in any form of a UUID, but not the nil one.
fn id_in(text: &str) -> Result<ClientId, Broken>
    ensures gives { result ≡ ok_or (id_in text.now) not_built }
    ensures named { IfOk result (λ id. 1 ≤ id.0) }
{
    match Uuid::parse_str(text) {
        Ok(id) => client_of(id.as_u128()),
        Err(_) => Err(not_built()),
    }
}

fn ops_at(alloc: Global, value: &Value) -> Result<Items<Op>, ScenarioError>
    ensures gives { Gives broken_of (λ ops. ops) result (ops_at (view value.now)) }
    ensures few { IfOk result (λ ops. length ops ≤ OPERATIONS) }
    ensures valid { IfOk result (λ ops. All IsOp ops) }
{
    let list = array_at(value, "ops", not_built())?;
    need(list.len() <= OPERATIONS, not_built())?;
    ops_of(alloc, list)
}

fn ops_of(alloc: Global, values: &[Value]) -> Result<Items<Op>, ScenarioError>
    ensures gives { Gives broken_of (λ ops. ops) result (ops_of (map view values.now)) }
    ensures count { IfOk result (λ ops. length ops ≡ length values.now) }
    ensures valid { IfOk result (λ ops. All IsOp ops) }
{
    let mut ops = Items::new(alloc);
    for value in values {
        let op = op_of(alloc, value)?;
        ops.push(op)?;
    }
    Ok(ops)
}

ghost use Rattle.std.specs.Prelude.{◌≡◌, ◌<◌, ◌+◌, ℕ, [], Some, true, false, length, slice_get, IfOk, OnOk, OnErr};
ghost use Rattle.client_core.specs.Client.{has_ended};
ghost use Rattle.client_core.specs.Plans.{IsPlan, IsSchedule, NamesClient};
ghost use Rattle.run_record.specs.Right.{IsRightRecord};
ghost use Rattle.world_core.specs.Objects.{IsStep};
ghost use Rattle.request_run.specs.Sound.{IsStoreOpening};
ghost use Rattle.seat_turns.specs.Left.{AreSeatsAhead, EndsOne, has_left};
ghost use Rattle.world_core.specs.Order.{AreItems, AreRounds, IsItem, IsWorldRecord, IsOrdered, IsRound};
ghost use Rattle.seat_turns.specs.Seats.{seats_of};
ghost use Rattle.seat_turns.specs.Servers.{counts_of};
ghost use Rattle.world_core.specs.World.{IsOperation, IsOpTurn, IsTurn, WorldView, schedule_items};
ghost use Rattle.world_core.specs.World.{plan_of_world};
ghost use Rattle.seat_turns.specs.declared.seats.Seat.{Seat as SeatView};

use crate::record::record_of;
use client_core::{Plan, Schedule};
use fs_base::limits::OPERATIONS;
use fs_base::{Config, Memory};
use kv_store::KvState;
use meta_task::MetaEntry;
use request_run::sound_store;
use row_tree::opening_rows;
use run_record::Record;
use seat_turns::{Seat, Servers, event, new_seats};
use std::alloc::Global;
use std::marker::Model;

/// What a turn did.
#[derive(Clone, Copy, Debug, PartialEq, Eq)]
pub enum Turn {
    Went,
    /// The client had nothing left to do.
    Idle,
}

/// The clients of a plan over one store, turn by turn.
///
/// A world that wanted memory answers that from then on.
#[derive(Drop)]
pub struct World {
    alloc: Global,
    config: Config,
    attempts: u8,
    store: KvState<MetaEntry>,
    seats: Vec<Seat>,
    servers: Servers,
    schedule: Schedule,
    failed: bool,
}

impl Model for World {
    ghost use Rattle.std.specs.Coded.{codes};
    ghost use Rattle.conflict_sets.specs.contracts.sets.WriteSet as write_set;
    ghost use Rattle.world_core.specs.Objects.{no_histories};
    ghost use Rattle.world_core.specs.World.{WorldView, IsWorld};

    ghost Value = { WorldView };

    ghost coded = { Prim.hlevel (codes, write_set.the_row.coded) };

    ghost view = { λ w. record {
      config = w.config;
      attempts = w.attempts;
      objects = record { store = w.store; nodes = no_histories w.config.nodes };
      seats = w.seats.items;
      counts = w.servers.counts.items;
      stops = w.servers.stops;
      schedule = w.schedule;
      failed = w.failed;
    } };

    ghost invariant = { λ w. IsWorld
        (record {
          config = w.config;
          attempts = w.attempts;
          objects = record { store = w.store; nodes = no_histories w.config.nodes };
          seats = w.seats.items;
          counts = w.servers.counts.items;
          stops = w.servers.stops;
          schedule = w.schedule;
          failed = w.failed;
        }) };
}

/// A store with the root directory alone.
fn new_store(alloc: Global, config: &Config) -> Result<KvState<MetaEntry>, Memory>
    ensures config { IfOk result (λ store. store.config ≡ config.now) }
    ensures none { IfOk result (λ store. store.journal ≡ []) }
    ensures begun { IfOk result (λ store. IsStoreOpening store) }
{
    let rows = opening_rows(alloc, config)?;
    KvState::new(alloc, config, rows)
}

fn items_in(schedule: &Schedule) -> usize
    ensures { result ≡ length (schedule_items schedule.now) }
{
    match schedule {
        Schedule::Items(items) => items.len(),
    }
}

fn item_at(schedule: &Schedule, place: usize) -> u16
    requires { place < length (schedule_items schedule.now) }
    ensures value { slice_get (schedule_items schedule.now) place ≡ Some result }
    ensures named { (count : ℕ) → IsSchedule count schedule.now → NamesClient count result }
{
    match schedule {
        Schedule::Items(items) => items.as_slice()[place],
    }
}

impl World {
    /// A world in which nothing has happened yet.
    pub fn new(alloc: Global, plan: Plan) -> Result<World, Memory>
        requires { IsPlan plan }
        ensures plan { IfOk result (λ world. plan_of_world world ≡ plan) }
        ensures seats { IfOk result (λ world. world.seats ≡ seats_of plan.config plan.clients) }
        ensures counts { IfOk result (λ world. world.counts ≡ counts_of plan.config) }
        ensures none { IfOk result (λ world. world.objects.store.journal ≡ []) }
        ensures alive { IfOk result (λ world. world.failed ≡ false) }
    {
        let Plan {
            config,
            attempts,
            clients,
            stops,
            schedule,
        } = plan;
        let store = new_store(alloc, &config)?;
        let seats = new_seats(alloc, config, clients)?;
        let servers = Servers::new(alloc, &config, stops)?;
        Ok(World {
            alloc,
            config,
            attempts,
            store,
            seats,
            servers,
            schedule,
            failed: false,
        })
    }

    /// One turn of a client: at most one ask, answered by one object, and a planned stop right behind it where one
    /// is due. `Idle` exactly where the client has nothing left.
    ///
    /// Where no server works on a request of the client, it sends one first; where the answer ends the request,
    /// the client learns it in the same turn, unless the server stops. So every turn of a client that has something
    /// left is one ask of the store. A world that wanted memory answers so from then on, and so it does where a
    /// server has made 2^64 asks.
    pub fn turn(&mut self, client: u16) -> Result<Turn, Memory>
        requires { client < length self.old.seats }
        ensures turn { IfOk result (λ turn. IsTurn self.old self.new client turn) }
        ensures step { (seat : SeatView) → slice_get self.old.seats client ≡ Some seat
            → IsStep self.old.objects self.new.objects seat.client.script.id }
        ensures plan { plan_of_world self.new ≡ plan_of_world self.old }
        ensures before { OnOk result (self.old.failed ≡ false) }
        ensures alive { OnOk result (self.new.failed ≡ false) }
        ensures err { OnErr result (self.new.failed ≡ true) }
    {
        if self.failed {
            return Err(Memory);
        }
        if self.seats[usize::from(client)].client.has_ended() {
            return Ok(Turn::Idle);
        }
        self.failed = true;
        event(
            self.alloc,
            &mut self.store,
            self.config,
            self.attempts,
            &mut self.servers,
            &mut self.seats,
            client,
        )?;
        self.failed = false;
        Ok(Turn::Went)
    }

    /// Turns of a client until the operation under way, or else its next one, has ended. `Idle` exactly where
    /// it has nothing left.
    pub fn op(&mut self, client: u16) -> Result<Turn, Memory>
        requires { client < length self.old.seats }
        ensures turn { IfOk result (λ turn. IsOpTurn self.old self.new client turn) }
        ensures plan { plan_of_world self.new ≡ plan_of_world self.old }
        ensures before { OnOk result (self.old.failed ≡ false) }
        ensures alive { OnOk result (self.new.failed ≡ false) }
        ensures err { OnErr result (self.new.failed ≡ true) }
    {
        if self.failed {
            return Err(Memory);
        }
        if self.seats[usize::from(client)].client.has_ended() {
            return Ok(Turn::Idle);
        }
        self.end_op(client)?;
        Ok(Turn::Went)
    }

    fn end_op(&mut self, client: u16) -> Result<(), Memory>
        requires { client < length self.old.seats }
        ensures ended { OnOk result
            (EndsOne self.old.seats self.new.seats client × IsOperation self.old self.new client) }
        ensures plan { plan_of_world self.new ≡ plan_of_world self.old }
        ensures alive { OnOk result (self.new.failed ≡ false) }
        ensures err { OnErr result (self.new.failed ≡ true) }
    {
        let before = self.seats[usize::from(client)].client.ended_ops();
        // An operation ends after far fewer turns than this; its contract doesn't count them.
        for _ in 0..u64::MAX {
            self.turn(client)?;
            if self.seats[usize::from(client)].client.ended_ops() != before {
                return Ok(());
            }
        }
        self.failed = true;
        Err(Memory)
    }

    /// One item of a schedule: a turn, or a whole operation.
    fn take_item(&mut self, item: u16) -> Result<(), Memory>
        requires { NamesClient (length self.old.seats) item }
        ensures item { OnOk result (IsItem self.old self.new item) }
        ensures plan { plan_of_world self.new ≡ plan_of_world self.old }
    {
        if item < 100 {
            self.turn(item)?;
        } else {
            self.op(item - 100)?;
        }
        Ok(())
    }

    fn take_schedule(&mut self) -> Result<(), Memory>
        ensures items { OnOk result
            (AreItems (schedule_items self.old.schedule) self.old self.new
            (length (schedule_items self.old.schedule))) }
        ensures plan { plan_of_world self.new ≡ plan_of_world self.old }
    {
        for place in 0..items_in(&self.schedule) {
            let item = item_at(&self.schedule, place);
            self.take_item(item)?;
        }
        Ok(())
    }

    /// A whole operation of each client that has one left.
    fn round(&mut self) -> Result<(), Memory>
        ensures ahead { (rounds : ℕ) → AreSeatsAhead rounds self.old.seats
            → OnOk result (AreSeatsAhead (rounds + 1) self.new.seats) }
        ensures round { OnOk result (IsRound self.old self.new) }
        ensures plan { plan_of_world self.new ≡ plan_of_world self.old }
        ensures alive { self.old.failed ≡ false → OnOk result (self.new.failed ≡ false) }
    {
        for client in 0..self.seats.len() {
            self.op(client as u16)?;
        }
        Ok(())
    }

    fn has_left(&self) -> bool
        ensures { result ≡ has_left self.now.seats }
    {
        self.seats.iter().any(|seat| !seat.client.has_ended())
    }

    /// Rounds until no client has anything left.
    fn rounds(&mut self) -> Result<(), Memory>
        ensures left { OnOk result (has_left self.new.seats ≡ false) }
        ensures rounds { OnOk result ((count : ℕ) × AreRounds self.old self.new count) }
        ensures plan { plan_of_world self.new ≡ plan_of_world self.old }
    {
        if self.failed {
            return Err(Memory);
        }
        // A script has at most 4,000 operations.
        for _done in 0..4000u16 {
            if !self.has_left() {
                return Ok(());
            }
            self.round()?;
        }
        self.enough_rounds();
        Ok(())
    }

    /// Tells that clients which are so many operations ahead have nothing left. It does nothing.
    fn enough_rounds(&self)
        requires ahead { AreSeatsAhead OPERATIONS self.now.seats }
        requires alive { self.now.failed ≡ false }
        ensures { has_left self.now.seats ≡ false }
    {
        let _failed = self.failed;
    }

    /// The plan's schedule, and then rounds until no client has anything left: in each, every client that has
    /// does one whole operation.
    ///
    /// The order of turns is a clause beside `IsRightRecord`, which holds for every order. No clause counts turns or
    /// rounds.
    pub fn run(mut self) -> Result<Record, Memory>
        ensures right { IfOk result (λ run. IsRightRecord (plan_of_world self) run) }
        ensures order { IfOk result
            (λ run. (last : WorldView) × IsOrdered self last × IsWorldRecord last run) }
    {
        self.take_schedule()?;
        self.rounds()?;
        self.into_record()
    }

    /// What is kept of a run that has ended.
    fn into_record(self) -> Result<Record, Memory>
        requires { has_left self.seats ≡ false }
        ensures right { IfOk result (λ run. IsRightRecord (plan_of_world self) run) }
        ensures kept { IfOk result (IsWorldRecord self) }
    {
        if self.failed {
            return Err(Memory);
        }
        let World {
            alloc,
            config,
            attempts: _,
            store,
            seats,
            servers: _,
            schedule: _,
            failed: _,
        } = self;
        sound_store(&store);
        record_of(alloc, config, store, seats)
    }
}

ghost use Rattle.std.specs.Prelude.{◌≡◌, IsTrue, OnOk};
ghost use Rattle.scenario.specs.declared.broken.ScenarioError.TheVariants.{BadScenario, Memory as OutOfMemory};
ghost use Rattle.scenario.specs.Broken.{need, not_built, rule};

use fs_base::Memory;
use fs_base::limits::SCENARIO_BYTES;
use thiserror::Error;

/// A numbered rule that a scenario breaks, and where.
#[derive(Clone, Copy, Debug, PartialEq, Eq)]
pub struct Broken {
    pub rule: u8,
    pub place: u64,
}

/// Why a scenario does not read.
#[derive(Clone, Copy, Debug, PartialEq, Eq, Error)]
pub enum ScenarioError {
    #[error("the scenario breaks a rule")]
    BadScenario(Broken),
    #[error("out of memory")]
    Memory,
}

impl From<Broken> for ScenarioError {
    ghost from_gives = { λ broken e. e ≡ BadScenario broken };

    fn from(broken: Broken) -> ScenarioError {
        ScenarioError::BadScenario(broken)
    }
}

impl From<Memory> for ScenarioError {
    ghost from_gives = { λ _ e. e ≡ OutOfMemory };

    fn from(_e: Memory) -> ScenarioError {
        ScenarioError::Memory
    }
}

/// What a scenario of more than 16 MiB breaks.
pub fn too_long() -> Broken
    ensures { result ≡ rule 1 SCENARIO_BYTES }
{
    Broken {
        rule: 1,
        place: SCENARIO_BYTES as u64,
    }
}

/// What a scenario breaks that asks for more than is built.
pub fn not_built() -> Broken
    ensures { result ≡ not_built }
{
    Broken { rule: 11, place: 0 }
}

/// `Ok` where the condition holds, and else the broken rule.
pub fn need(holds: bool, broken: Broken) -> Result<(), Broken>
    ensures value { result ≡ need holds broken }
    ensures held { OnOk result (IsTrue holds) }
{
    if holds { Ok(()) } else { Err(broken) }
}

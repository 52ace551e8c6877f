ghost use Rattle.std.specs.Prelude.{◌≡◌, ◌≢◌, ◌∷◌, [], false, IsTrue, IfOk, IfErr, Err, string_bytes};
ghost use Rattle.std.specs.Io.KnownBytes.{Keeps};
ghost use Rattle.fs_io.specs.Reading.{TellsFault};
ghost use Rattle.client_core.specs.Plans.{IsPlan};
ghost use Rattle.meta_top.specs.Top.{is_step, usage_line, bad_line, IsRunOf, IsTextOf, IsSilentStatus, CallsFor, TellsReadFault, TellsWriteFault, WritesFront, WritesRule, WritesRun, WritesUsage};

use client_core::Plan;
use fs_base::Memory;
use fs_base::limits::SCENARIO_BYTES;
use fs_io::{ReadAllError, Sink, Source, read_all, write_all};
use run_record::write_replies;
use scenario::{Broken, ScenarioError, read_scenario, too_long};
use std::alloc::{AllocError, Global};
use world_core::World;

/// How a run of the program ends. The numbers 0 to 6, in this order, are its exit statuses.
#[derive(Clone, Copy, Debug, PartialEq, Eq)]
pub enum Status {
    Ok,
    AuditNo,
    Usage,
    Bad,
    ReadFault,
    WriteFault,
    Memory,
}

/// What is to be written, and the status that goes with it.
#[derive(Debug, Drop)]
struct Answer {
    status: Status,
    text: Vec<u8>,
}

/// Does what the words say, from the source to the sink, and always returns.
///
/// The words are the command line without the program's name. The whole text is made before its first byte is
/// written.
pub fn plain_main<I: Source, O: Sink>(
    alloc: Global,
    words: &[String],
    input: &mut I,
    output: &mut O,
) -> Status
    // At `Ok` the source's bytes spell a plan, and all of the text of a run is written that is right for it.
    ensures ok { result ≡ Status.Ok
        → WritesRun words.now (I.left input.old) (I.left input.new)
        (O.written output.old) (O.written output.new) }

    // At `Bad` they break a rule, and the line that names the first one is written.
    ensures bad { result ≡ Status.Bad
        → WritesRule words.now (I.left input.old) (I.left input.new)
        (O.written output.old) (O.written output.new) }

    // At `Usage` the words ask for nothing that is built, and the usage line is written.
    ensures usage { result ≡ Status.Usage → WritesUsage words.now (O.written output.old) (O.written output.new) }

    // Where a write failed, a front of one of these three is written.
    ensures front { result ≡ Status.WriteFault
        → WritesFront words.now (I.left input.old) (I.left input.new)
        (O.written output.old) (O.written output.new) }

    // Where the source failed or memory ran out, nothing is. No run ends with an audit's answer.
    ensures silent { IsSilentStatus result → Keeps (O.written output.old) (O.written output.new) }
    ensures no_audit { result ≢ Status.AuditNo }

    // Words are looked at before anything is read.
    ensures untouched { is_step words.now ≡ false → input.new ≡ input.old }
    ensures read_words { result ≡ Status.ReadFault → IsTrue (is_step words.now) }

    // The outside is blamed only where its own count rose in this call, and what failed is never passed over.
    ensures read_cause { TellsReadFault (I.faults input.old) (I.faults input.new) result }
    ensures write_cause { TellsWriteFault (O.faults output.old) (O.faults output.new) result }
{
    match due_answer(alloc, words, input) {
        Ok(answer) => match write_all(output, answer.text.as_slice()) {
            Ok(()) => answer.status,
            Err(_) => Status::WriteFault,
        },
        Err(ReadAllError::ReadFault) => Status::ReadFault,
        Err(ReadAllError::Memory) => Status::Memory,
        Err(ReadAllError::TooLong) => unreachable!(),
    }
}

/// The text that is due, or why there is none.
fn due_answer<I: Source>(
    alloc: Global,
    words: &[String],
    input: &mut I,
) -> Result<Answer, ReadAllError>
    ensures due { IfOk result
        (λ a. IsTextOf words.now (I.left input.old) (I.left input.new) a.status a.text.items) }
    ensures untouched { is_step words.now ≡ false → input.new ≡ input.old }
    ensures words { result ≡ Err ReadAllError.ReadFault → IsTrue (is_step words.now) }
    ensures fault { TellsFault (I.faults input.old) (I.faults input.new) result }
    ensures long { result ≡ Err ReadAllError.TooLong → ⊥ }
{
    if !is_step(words) {
        return usage(alloc);
    }
    match read_all(alloc, input, SCENARIO_BYTES as u64) {
        Ok(bytes) => step(alloc, bytes.as_slice()),
        Err(ReadAllError::TooLong) => bad(alloc, too_long()),
        Err(ReadAllError::ReadFault) => Err(ReadAllError::ReadFault),
        Err(ReadAllError::Memory) => Err(ReadAllError::Memory),
    }
}

fn is_step(words: &[String]) -> bool
    ensures { result ≡ is_step words.now }
{
    match words {
        [word] => word.as_str() == "step",
        _ => false,
    }
}

fn usage(alloc: Global) -> Result<Answer, ReadAllError>
    ensures ok { IfOk result (λ a. (a.status ≡ Status.Usage) × (a.text.items ≡ usage_line)) }
    ensures err { IfErr result (λ e. e ≡ ReadAllError.Memory) }
{
    match String::from_str(alloc, "usage: fs3meta check, step, run, audit, make\n") {
        Ok(text) => Ok(Answer {
            status: Status::Usage,
            text: text.into_bytes(),
        }),
        Err(_) => Err(ReadAllError::Memory),
    }
}

/// The answer to the whole input.
fn step(alloc: Global, bytes: &[u8]) -> Result<Answer, ReadAllError>
    ensures ok { IfOk result (λ a. CallsFor bytes.now a.status a.text.items) }
    ensures err { IfErr result (λ e. e ≡ ReadAllError.Memory) }
{
    match read_scenario(alloc, bytes) {
        Ok(plan) => replies(alloc, plan),
        Err(ScenarioError::BadScenario(broken)) => bad(alloc, broken),
        Err(ScenarioError::Memory) => Err(ReadAllError::Memory),
    }
}

fn replies(alloc: Global, plan: Plan) -> Result<Answer, ReadAllError>
    requires { IsPlan plan }
    ensures ok { IfOk result (λ a. (a.status ≡ Status.Ok) × IsRunOf plan a.text.items) }
    ensures err { IfErr result (λ e. e ≡ ReadAllError.Memory) }
{
    match run_text(alloc, plan) {
        Ok(text) => Ok(Answer {
            status: Status::Ok,
            text,
        }),
        Err(Memory) => Err(ReadAllError::Memory),
    }
}

/// The text of a plan's run.
fn run_text(alloc: Global, plan: Plan) -> Result<Vec<u8>, Memory>
    requires { IsPlan plan }
    ensures { IfOk result (λ text. IsRunOf plan text.items) }
{
    let world = World::new(alloc, plan)?;
    let run = world.run()?;
    write_replies(alloc, &run)
}

fn bad(alloc: Global, broken: Broken) -> Result<Answer, ReadAllError>
    ensures ok { IfOk result (λ a. (a.status ≡ Status.Bad) × (a.text.items ≡ bad_line broken)) }
    ensures err { IfErr result (λ e. e ≡ ReadAllError.Memory) }
{
    let Ok(text) = bad_text(alloc, broken) else {
        return Err(ReadAllError::Memory);
    };
    Ok(Answer {
        status: Status::Bad,
        text: text.into_bytes(),
    })
}

fn bad_text(alloc: Global, broken: Broken) -> Result<String, AllocError>
    ensures { IfOk result (λ text. string_bytes text ≡ bad_line broken) }
{
    let rule = broken.rule;
    let place = broken.place;
    format!(in alloc; "bad rule={rule} place={place}\n")
}

//! What `main` calls, with all that it would else decide.

ghost use Rattle.std.specs.Prelude.{◌≡◌, ◌≢◌, false, drop, IsTrue, IsErr, IfOk};
ghost use Rattle.std.specs.Io.KnownBytes.{Keeps};
ghost use Rattle.std.specs.Process.{exit_status};
ghost use Rattle.std.specs.Vec.Iter.{into_iter_items};
ghost use Rattle.meta_top.specs.Command.{exit_number, words_of, LacksMemory};
ghost use Rattle.meta_top.specs.Top.{is_step, IsSilentStatus, TellsReadFault, TellsWriteFault, WritesFront, WritesRule, WritesRun, WritesUsage};

use crate::top::{Status, plain_main};
use fs_base::Memory;
use fs_io::{Sink, Source};
use std::alloc::Global;
use std::env::Args;
use std::io;
use std::process::ExitCode;

/// Does what the command line says, which begins with the program's name: `plain_main` for the words behind
/// it.
///
/// A word that isn't Unicode is in no grammar, so that it is as if there were no words.
pub fn command<I: Source, O: Sink>(
    alloc: Global,
    came: io::Result<Args>,
    input: &mut I,
    output: &mut O,
) -> Status
    ensures ok { result ≡ Status.Ok
        → WritesRun (words_of came) (I.left input.old) (I.left input.new)
        (O.written output.old) (O.written output.new) }
    ensures bad { result ≡ Status.Bad
        → WritesRule (words_of came) (I.left input.old) (I.left input.new)
        (O.written output.old) (O.written output.new) }
    ensures usage { result ≡ Status.Usage → WritesUsage (words_of came) (O.written output.old) (O.written output.new) }
    ensures front { result ≡ Status.WriteFault
        → WritesFront (words_of came) (I.left input.old) (I.left input.new)
        (O.written output.old) (O.written output.new) }
    ensures silent { IsSilentStatus result → Keeps (O.written output.old) (O.written output.new) }
    ensures no_audit { result ≢ Status.AuditNo }
    ensures untouched { is_step (words_of came) ≡ false → input.new ≡ input.old }
    ensures read_words { result ≡ Status.ReadFault → IsTrue (is_step (words_of came)) }
    ensures read_cause { TellsReadFault (I.faults input.old) (I.faults input.new) result }
    ensures write_cause { TellsWriteFault (O.faults output.old) (O.faults output.new) result }

    // Without memory for the words nothing is written.
    ensures no_memory { LacksMemory came → result ≡ Status.Memory }
    ensures unwritten { LacksMemory came → output.new ≡ output.old }
{
    match words_behind_name(alloc, came) {
        Ok(words) => plain_main(alloc, words.as_slice(), input, output),
        Err(Memory) => Status::Memory,
    }
}

/// The words, where there is memory for them.
fn words_behind_name(alloc: Global, came: io::Result<Args>) -> Result<Vec<String>, Memory>
    ensures words { IfOk result (λ words. words.items ≡ words_of came) }
    ensures memory { LacksMemory came → IsErr result }
    ensures not_unicode { IsErr came → IsErr result → LacksMemory came }
{
    match came {
        Ok(args) => behind_first(alloc, args),
        Err(error) if error.kind() == io::ErrorKind::OutOfMemory => Err(Memory),
        Err(_) => Ok(Vec::new(alloc)),
    }
}

fn behind_first(alloc: Global, args: Args) -> Result<Vec<String>, Memory>
    ensures { IfOk result (λ words. words.items ≡ drop 1 (into_iter_items args)) }
{
    let words = args.skip(1).collect(alloc)?;
    Ok(words)
}

/// The number that the process ends with.
pub fn exit_code(status: Status) -> ExitCode
    ensures { exit_status result ≡ exit_number status }
{
    ExitCode::from(status as u8)
}

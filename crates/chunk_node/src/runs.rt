ghost use Rattle.std.specs.Prelude.{◌≡◌, ◌≤◌, ◌<◌, ◌+◌, ◌++◌, nat_le, get_or, length, take, drop, IfOk, OnOk, OnErr};
ghost use Rattle.chunk_node.specs.Reading.{InRow, RunsAreLeast, run_bytes};
ghost use Rattle.chunk_node.specs.Joining.{ended_runs, IsJoined, IsFront, IsRest};

use fs_base::Memory;

/// So many bytes of one value at an offset of a chunk.
#[derive(Clone, Copy, Debug, PartialEq, Eq)]
pub struct Run {
    pub offset: u32,
    pub len: u32,
    pub fill: u8,
}

/// Runs, where no two neighbours are of one value, are the least list with their bytes. It does nothing.
pub fn runs_are_least()
    ensures { RunsAreLeast }
{}

/// Adds a run, unless it is empty.
pub fn end_run(runs: &mut Vec<Run>, run: Run) -> Result<(), Memory>
    ensures { OnOk result (runs.new.items ≡ ended_runs runs.old.items run) }
{
    if run.len > 0 {
        runs.push(run)?;
    }
    Ok(())
}

/// The run that goes on behind so many bytes; the one before is added where it is of another value.
pub fn joined(runs: &mut Vec<Run>, run: Run, len: u32, fill: u8) -> Result<Run, Memory>
    requires { run.offset + run.len + len ≤ 4294967295 }
    ensures joined { IfOk result (λ next. IsJoined runs.old.items run len fill runs.new.items next) }
    ensures ends { IfOk result (λ next. next.offset + next.len ≡ run.offset + run.len + len) }
{
    if len == 0 {
        return Ok(run);
    }
    if run.fill == fill {
        return Ok(Run {
            offset: run.offset,
            len: run.len + len,
            fill: run.fill,
        });
    }
    end_run(runs, run)?;
    Ok(Run {
        offset: run.offset + run.len,
        len,
        fill,
    })
}

/// How many runs end before the byte at an offset.
pub fn ended_by(runs: &[Run], at: u32) -> usize
    requires { InRow 0 runs.now }
    ensures within { result ≤ length runs.now }
    ensures ended { length (run_bytes (take result runs.now)) ≤ at }
    ensures next { (d : Run) → result < length runs.now
        → at < (get_or runs.now result d).offset + (get_or runs.now result d).len }
{
    runs.partition_point(
        |run: &Run| -> bool
            ensures { result ≡ nat_le (run.now.offset + run.now.len) at }
        { u64::from(run.offset) + u64::from(run.len) <= u64::from(at) },
    )
}

/// The first bytes, so many: how many runs lie wholly in them, and the part of the next that does.
pub fn front(runs: &[Run], size: u32) -> (usize, Run)
    requires row { InRow 0 runs.now }
    requires within { size ≤ length (run_bytes runs.now) }
    ensures { IsFront runs.now size result.0 result.1 }
{
    let count = ended_by(runs, size.saturating_sub(1));
    if count == runs.len() {
        return (
            count,
            Run {
                offset: 0,
                len: 0,
                fill: 0,
            },
        );
    }
    let next = runs[count];
    (
        count,
        Run {
            offset: next.offset,
            len: size - next.offset,
            fill: next.fill,
        },
    )
}

/// The bytes behind the first so many: behind how many runs the whole ones begin, and the part of the one
/// before them.
pub fn rest(runs: &[Run], size: u32) -> (usize, Run)
    requires row { InRow 0 runs.now }
    ensures { IsRest runs.now size result.0 result.1 }
{
    let count = ended_by(runs, size);
    if count == runs.len() {
        return (
            count,
            Run {
                offset: size,
                len: 0,
                fill: 0,
            },
        );
    }
    let next = runs[count];
    (
        count + 1,
        Run {
            offset: size,
            len: next.len - (size - next.offset),
            fill: next.fill,
        },
    )
}

/// Puts runs in place of those between two places. What lies behind is moved once.
pub fn replace(runs: &mut Vec<Run>, from: usize, to: usize, mut new: Vec<Run>) -> Result<(), Memory>
    requires rising { from ≤ to }
    requires within { to ≤ length runs.old.items }
    ensures ok { OnOk result
        (runs.new.items ≡ take from runs.old.items ++ new.items ++ drop to runs.old.items) }
    ensures err { OnErr result (runs.new.items ≡ runs.old.items) }
{
    runs.reserve(new.len())?;
    let mut behind = runs.split_off(to)?;
    runs.truncate(from);
    if runs.append(&mut new).is_err() {
        unreachable!()
    }
    if runs.append(&mut behind).is_err() {
        unreachable!()
    }
    Ok(())
}

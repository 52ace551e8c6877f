ghost use Rattle.std.specs.Prelude.{◌≡◌, Some, IfOk};
ghost use Rattle.txn_task.specs.Pages.{IsWantPages, next_page, page_behind, reads_range, rows_of_page, start_after, start_behind};
ghost use Rattle.txn_task.specs.declared.messages.Ask.TheVariants as asks;

use crate::messages::Ask;
use crate::txn::Txn;
use conflict_sets::{RangeRead, compare};
use fs_base::limits::PAGE_ROWS;
use fs_base::{Memory, Row, Text};
use std::alloc::Global;

/// Whether a range was read with these bounds and this limit.
pub(crate) fn reads_range(range: &RangeRead, lo: &[u8], hi: &[u8], limit: u32) -> bool
    ensures { result ≡ reads_range lo.now hi.now limit range.now }
{
    range.limit == limit
        && compare(range.lo.as_slice(), lo).is_eq()
        && compare(range.hi.as_slice(), hi).is_eq()
}

/// Right after this key. No store gives one before `lo` among the rows from there on; any answer is right
/// then.
fn start_behind(lo: &[u8], key: &Text) -> Result<Option<Text>, Memory>
    ensures { IfOk result (λ start. start ≡ start_behind lo.now key.now) }
{
    if compare(lo, key.as_slice()).is_gt() {
        return Ok(None);
    }
    let mut next = key.try_clone()?;
    next.push(0)?;
    Ok(Some(next))
}

/// Where the page behind these rows starts. There is none behind fewer rows than a page has.
fn start_after(lo: &[u8], rows: &[Row]) -> Result<Option<Text>, Memory>
    ensures { IfOk result (λ start. start ≡ start_after lo.now rows.now) }
{
    if rows.len() != PAGE_ROWS as usize {
        return Ok(None);
    }
    match rows {
        [.., last] => start_behind(lo, &last.key),
        [] => Ok(None),
    }
}

/// Where the next page starts behind a range. A range that isn't the page expected leaves the start.
pub(crate) fn page_behind(
    hi: &[u8],
    start: Option<Text>,
    range: &RangeRead,
) -> Result<Option<Text>, Memory>
    ensures { IfOk result (λ behind. behind ≡ page_behind hi.now start range.now) }
{
    let Some(start) = start else {
        return Ok(None);
    };
    if reads_range(range, start.as_slice(), hi, PAGE_ROWS) {
        return start_after(start.as_slice(), range.rows.as_slice());
    }
    Ok(Some(start))
}

/// The rows of a range, where it is the page expected.
pub(crate) fn rows_of_page<'a>(hi: &[u8], start: &Option<Text>, range: &'a RangeRead) -> &'a [Row]
    ensures { result.now ≡ rows_of_page hi.now start.now range.now }
{
    match start {
        Some(start) if reads_range(range, start.as_slice(), hi, PAGE_ROWS) => range.rows.as_slice(),
        _ => &[],
    }
}

/// Where the next page of the rows from `lo` on starts; none where all were read.
fn next_page(
    alloc: Global,
    lo: &[u8],
    hi: &[u8],
    ranges: &[RangeRead],
) -> Result<Option<Text>, Memory>
    ensures { IfOk result (λ start. start ≡ next_page hi.now (Some lo.now) ranges.now) }
{
    let mut start = Some(Text::from_slice(alloc, lo)?);
    for range in ranges {
        start = page_behind(hi, start, range)?;
    }
    Ok(start)
}

fn page_from(lo: Text, hi: Text) -> Ask
    ensures { result ≡ asks.Range lo hi PAGE_ROWS }
{
    let limit = PAGE_ROWS;
    Ask::Range { lo, hi, limit }
}

/// The next page of a range that is still to be asked for; `None` where all of them were read.
///
/// Which of the ranges read are its pages is told by their bounds and limit alone; others may stand between
/// them. They are looked through each time, the first pages often; so nothing that was read is kept twice.
pub fn want_pages(alloc: Global, txn: &Txn, lo: &[u8], hi: &[u8]) -> Result<Option<Ask>, Memory>
    ensures { IfOk result (λ want. IsWantPages want txn.now.reads lo.now hi.now) }
{
    match next_page(alloc, lo, hi, txn.ranges())? {
        None => Ok(None),
        Some(lo) => Ok(Some(page_from(lo, Text::from_slice(alloc, hi)?))),
    }
}

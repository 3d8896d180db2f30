//! Used numbers as ranges.
//!
//! A range has all usable numbers of one terminal from its first to its last. No two overlap or
//! touch. So a terminal that uses its numbers in order has one range, however many it used, and a
//! number that is left out splits it in two until it comes.

ghost use Rattle.std.specs.Prelude.{◌≡◌, ◌≢◌, ◌<◌, ◌↔◌, IsTrue, IfOk, IfSome, OnOk, OnErr, MatchOption};
ghost use Rattle.std.specs.Bool.{MatchBool};
ghost use Rattle.std.specs.BTreeMap.{IsOrdered, IsUnchanged};
ghost use Rattle.std.specs.Ordering.{nat_cmp};
ghost use Rattle.duk_tree.specs.Next.{IsLast, IsNextUsable};
ghost use Rattle.duk_tree.specs.Path.{IsUsable};
ghost use Rattle.duk_tree.specs.Serial.{IsSerial};
ghost use Rattle.duk_host.specs.inner.Index.{AreApart, AreRanges, BeginsWith, EndsWith, HasNoneAfter, HasNoneBefore, HasNoneUpTo, HoldsOneMore, IsHeld, IsLastBefore, IsLastUpTo, IsNextNumber, IsOfTerminal, IsPut, IsRangeAfter, Reaches, iksn_of};

use duk_tree::{Ksn, next_usable, usable};
use std::alloc::AllocError;
use std::collections::BTreeMap;

/// The bits of a counter, the low ones of a key serial number.
const COUNTER_BITS: u32 = 21;

/// A range: the number that it begins at, and the counter that it ends at.
#[derive(Clone, Copy)]
struct Range {
    first: u128,
    last: u32,
}

/// Whether a key serial number is in one of the ranges.
pub(crate) fn contains(ranges: &BTreeMap<u128, u32>, ksn: Ksn) -> bool
    requires ranges { AreRanges ranges.now }
    ensures held { IsTrue result ↔ IsHeld ranges.now ksn }
    ensures ordered { IsOrdered nat_cmp ranges.now }
{
    reaches(range_before(ranges, ksn), ksn.counter()) && usable(ksn.counter())
}

/// Adds a key serial number, and reports whether it was in no range before. It joins the range that
/// ends right before it, and the one that begins right after it. If there is no memory, the ranges
/// stay as they were.
pub(crate) fn insert(ranges: &mut BTreeMap<u128, u32>, ksn: Ksn) -> Result<bool, AllocError>
    requires ranges { AreRanges ranges.old }
    requires usable { IsUsable ksn.counter }
    ensures ranges { AreRanges ranges.new }
    ensures added { IfOk result (λ _. HoldsOneMore ranges.old ksn ranges.new) }
    ensures fresh { IfOk result (λ fresh.
        MatchBool fresh (¬ IsHeld ranges.old ksn) (IsHeld ranges.old ksn)) }
    ensures same { OnErr result (IsUnchanged ranges.old ranges.new) }
    ensures was_ordered { IsOrdered nat_cmp ranges.old }
    ensures ordered { IsOrdered nat_cmp ranges.new }
{
    let (before, after) = neighbours(ranges, ksn);
    if reaches(before, ksn.counter()) {
        return Ok(false);
    }
    let range = Range {
        first: first_with(ksn, before),
        last: last_with(ksn.counter(), after),
    };
    put(ranges, range, after)?;
    Ok(true)
}

/// The ranges that a key serial number may join: the last of its terminal that begins at or below
/// it, and the one that begins right after it.
fn neighbours(ranges: &BTreeMap<u128, u32>, ksn: Ksn) -> (Option<Range>, Option<Range>)
    requires ranges { AreRanges ranges.now }
    ensures before { MatchOption result.0
        (HasNoneBefore ranges.now ksn) (IsLastBefore ranges.now ksn) }
    ensures after { MatchOption result.1
        (HasNoneAfter ranges.now ksn) (IsRangeAfter ranges.now ksn) }
    ensures ordered { IsOrdered nat_cmp ranges.now }
{
    duk_tree::laws::paths();
    let Some(next) = next_number(ksn) else {
        return (range_before(ranges, ksn), None);
    };
    // Where no range begins at the next number, one search finds the range before.
    let Some(range) = last_up_to(ranges, next) else {
        return (None, None);
    };
    if range.first == next {
        (range_before(ranges, ksn), Some(range))
    } else {
        (of_terminal(range, ksn), None)
    }
}

/// The last range of its terminal that begins at or below a key serial number.
fn range_before(ranges: &BTreeMap<u128, u32>, ksn: Ksn) -> Option<Range>
    ensures found { MatchOption result
        (HasNoneBefore ranges.now ksn) (IsLastBefore ranges.now ksn) }
    ensures ordered { IsOrdered nat_cmp ranges.now }
{
    match last_up_to(ranges, ksn.number()) {
        Some(range) => of_terminal(range, ksn),
        None => None,
    }
}

/// The last range that begins at or below a number, of whichever terminal.
fn last_up_to(ranges: &BTreeMap<u128, u32>, number: u128) -> Option<Range>
    ensures found { MatchOption result
        (HasNoneUpTo ranges.now number) (IsLastUpTo ranges.now number) }
    ensures ordered { IsOrdered nat_cmp ranges.now }
{
    let (first, last) = ranges.range(..=number).next_back()?;
    Some(Range {
        first: *first,
        last: *last,
    })
}

/// A range, if it is of the terminal of a key serial number.
fn of_terminal(range: Range, ksn: Ksn) -> Option<Range>
    ensures { MatchOption result
        (iksn_of range.first ≢ ksn.iksn) (IsOfTerminal range ksn) }
{
    if range.first >> COUNTER_BITS == ksn.number() >> COUNTER_BITS {
        Some(range)
    } else {
        None
    }
}

/// Whether a range was found, and reaches a counter.
fn reaches(range: Option<Range>, counter: u32) -> bool
    ensures { IsTrue result ↔ Reaches range counter }
{
    match range {
        Some(range) => counter <= range.last,
        None => false,
    }
}

/// Where the range begins that a key serial number comes into, behind the range before it.
fn first_with(ksn: Ksn, before: Option<Range>) -> u128
    requires usable { IsUsable ksn.counter }
    requires ends { IfSome before (λ before. before.last < ksn.counter) }
    ensures { BeginsWith ksn before result }
{
    let Some(before) = before else {
        return ksn.number();
    };
    if comes_right_after(before.last, ksn.counter()) {
        before.first
    } else {
        ksn.number()
    }
}

/// Whether a terminal uses a counter right after another, which is below it.
fn comes_right_after(last: u32, counter: u32) -> bool
    requires usable { IsUsable counter }
    requires above { last < counter }
    ensures { MatchBool result (IsNextUsable last counter) (AreApart last counter) }
{
    next_usable(last) == Some(counter)
}

/// Where the range ends that a number with this counter comes into, before the range after it.
fn last_with(counter: u32, after: Option<Range>) -> u32
    ensures { EndsWith counter after result }
{
    match after {
        Some(after) => after.last,
        None => counter,
    }
}

/// The number that the terminal uses after a key serial number, if it has one.
fn next_number(ksn: Ksn) -> Option<u128>
    ensures next { MatchOption result (IsLast ksn.counter) (IsNextNumber ksn) }
    ensures serial { IsSerial ksn }
{
    duk_tree::laws::bits();
    match next_usable(ksn.counter()) {
        Some(next) => Some(ksn.with_counter(next).number()),
        None => None,
    }
}

/// Puts a range in, and takes out the one after, which it ends with. If there is no memory, all
/// ranges stay as they were.
fn put(
    ranges: &mut BTreeMap<u128, u32>,
    range: Range,
    after: Option<Range>,
) -> Result<(), AllocError>
    requires above { IfSome after (λ after. range.first < after.first) }
    ensures put { OnOk result (IsPut ranges.old ranges.new range after) }
    ensures same { OnErr result (IsUnchanged ranges.old ranges.new) }
    ensures ordered { IsOrdered nat_cmp ranges.new }
{
    ranges.insert(range.first, range.last)?;
    if let Some(after) = after {
        ranges.remove(&after.first);
    }
    Ok(())
}

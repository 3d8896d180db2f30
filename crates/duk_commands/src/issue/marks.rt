//! Marks of the terminals whose keys were issued, one for each place of an order.

ghost use Rattle.std.specs.Prelude.{◌≡◌, ◌≤◌, MatchOption, length};
ghost use Rattle.duk_commands.specs.Numbers.{most_terminals};
ghost use Rattle.duk_commands.specs.inner.Marks.{AreMarkedBefore, HasMarks, IsFirstMarked, IsFirstUnmarked, IsMarkedAlso, IsUnmarkedBefore, unmarked};

use crate::issue::serial::place_of;
use duk_tree::Iksn;

/// Marks the place of a number after the first, where there is one.
pub(crate) fn mark(marks: &mut [bool], first: Iksn, iksn: Iksn)
    ensures { IsMarkedAlso marks.old marks.new first iksn }
{
    let Some(place) = place_of(first, iksn) else {
        return;
    };
    if place >= marks.len() as u128 {
        return;
    }
    marks[place as usize] = true;
}

/// The first place with a mark.
pub(crate) fn first_marked(marks: &[bool]) -> Option<usize>
    ensures { MatchOption result (IsUnmarkedBefore marks.now (length marks.now))
        (IsFirstMarked marks.now) }
{
    marks.iter().position(|marked| *marked)
}

/// The first place without a mark.
pub(crate) fn first_unmarked(marks: &[bool]) -> Option<usize>
    ensures { MatchOption result (AreMarkedBefore marks.now (length marks.now))
        (IsFirstUnmarked marks.now) }
{
    marks.iter().position(|marked| !*marked)
}

/// How many places have a mark, of so many as an order has at most.
pub(crate) fn count_marked(marks: &[bool]) -> u32
    requires { length marks.now ≤ most_terminals }
    ensures { HasMarks marks.now result }
{
    (marks.len() - count_unmarked(marks)) as u32
}

/// How many places have no mark.
pub(crate) fn count_unmarked(marks: &[bool]) -> usize
    ensures count { result ≡ length (unmarked marks.now 0) }
    ensures few { result ≤ length marks.now }
{
    let mut count = 0;
    for marked in marks {
        if !*marked {
            count += 1;
        }
    }
    count
}

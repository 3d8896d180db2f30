//! What a log has of each terminal, found by its initial key serial number.

ghost use Rattle.std.specs.Prelude.{◌≡◌, ◌<◌, ◌^◌, [], IfErr, IfOk, IfSome, OnOk, Some, flat_map, nat_eq};
ghost use Rattle.duk_show.specs.Log.{terminal_lines};
ghost use Rattle.duk_show.specs.declared.fault.ShowFault.TheVariants.{OutOfMemory};
ghost use Rattle.duk_show.specs.inner.Tallies.{next_tally, tally_line};
ghost use Rattle.indexmap.specs.IndexMap.{IsUnique, Updates, get, insert_entry, values};

use crate::fault::ShowFault;
use duk_tree::Ksn;
use indexmap::IndexMap;
use std::alloc::Global;

/// The numbers that a log has of one terminal.
#[derive(Clone, Copy)]
pub(crate) struct Tally {
    /// The first of them.
    pub(crate) first: Ksn,
    /// How many they are.
    pub(crate) count: usize,
    /// The last of them.
    pub(crate) last: Ksn,
}

/// The tallies of terminals, in the order of their first numbers, each under the number that its
/// initial key serial number is.
pub(crate) type Tallies = IndexMap<u128, Tally>;

/// The tallies of the terminals of these numbers, in a time that grows with the numbers alone.
pub(crate) fn tallies_of(alloc: Global, numbers: &[Ksn]) -> Result<Tallies, ShowFault>
    ensures lines { IfOk result
        (λ tallies. flat_map tally_line (values tallies) ≡ terminal_lines [] numbers.now) }
    ensures refused { IfErr result (λ why. why ≡ OutOfMemory) }
{
    let mut tallies = IndexMap::new(alloc);
    for number in numbers {
        count_number(&mut tallies, *number)?;
    }
    Ok(tallies)
}

/// Counts a number for its terminal.
fn count_number(tallies: &mut Tallies, number: Ksn) -> Result<(), ShowFault>
    requires fits { IfSome (get nat_eq tallies.old number.iksn) (λ tally. tally.count < 2 ^ 63) }
    ensures entries { OnOk result (tallies.new.entries ≡ insert_entry nat_eq tallies.old.entries
        number.iksn (next_tally (get nat_eq tallies.old number.iksn) number)) }
    ensures updates { OnOk result (Updates nat_eq tallies.old tallies.new number.iksn
        (Some (next_tally (get nat_eq tallies.old number.iksn) number))) }
    ensures unique { OnOk result (IsUnique nat_eq tallies.new) }
    ensures refused { IfErr result (λ why. why ≡ OutOfMemory) }
{
    let key = number.iksn().number();
    let tally = match tallies.get(&key) {
        Some(tally) => one_more(tally, number),
        None => Tally {
            first: number,
            count: 1,
            last: number,
        },
    };
    match tallies.insert(key, tally) {
        Ok(_) => Ok(()),
        Err(_) => Err(ShowFault::OutOfMemory),
    }
}

/// The tally of a terminal with one number more.
fn one_more(tally: &Tally, number: Ksn) -> Tally
    requires { tally.now.count < 2 ^ 63 }
    ensures { result ≡ next_tally (Some tally.now) number }
{
    Tally {
        first: tally.first,
        count: tally.count + 1,
        last: number,
    }
}

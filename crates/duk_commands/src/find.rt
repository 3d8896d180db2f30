//! The command `find`: which number, and which of its keys, made something.

ghost use Rattle.std.specs.Prelude.{◌≡◌, ◌≤◌, ℕ, List, IfErr, IfOk, IsOk, MatchResult, None, Some};
ghost use Rattle.std.specs.Option.{option_copied};
ghost use Rattle.duk_commands.specs.Answer.{streams};
ghost use Rattle.duk_commands.specs.KeyArgument.{key_in};
ghost use Rattle.duk_commands.specs.Find.{HasFound, HasFoundNothing, IsFindDone, IsFindFailed, IsStartOf, IsWindowSize, find_arguments, found_line};
ghost use Rattle.duk_commands.specs.inner.Find.{find_key_fault};
ghost use Rattle.duk_commands.specs.declared.find_fault.FindFault.TheVariants.{KsnRefused, WindowRefused};
ghost use Rattle.duk_tree.specs.Serial.{Serial};

use crate::count::read_decimal;
use crate::find_fault::FindFault;
use crate::key_argument::KeyArgument;
use crate::lines::{Lines, push_end, push_text};
use crate::search::{Found, first_found};
use crate::sought::{Clue, Sought, read_sought};
use duk_io::{Sink, append_hex, write_text};
use duk_tdes::Key;
use duk_tree::Ksn;
use std::alloc::Global;

/// The most numbers that are tried, where no other number is given.
const MOST_TRIED: u32 = 100_000;

/// Writes the line of the first number that has a key which makes `what`, and of its first such
/// key: `found`, the key serial number, the key and, of a MAC, `retail` or `cmac`.
///
/// The numbers tried are the usable ones of the terminal of `from`, from that one on, `window` of
/// them at most; of a frame `from` may be missing, and then they begin with the first number of the
/// frame's own terminal. The keys of a number are tried in this order: the transaction key, its
/// variants for PINs, requests and responses, and the keys for the data of requests and responses
/// (ANSI X9.24-1:2009 annex A).
///
/// A long search, which is one for the MAC of a text, writes on `fault` about each second how many
/// numbers it has tried, as `tried 93750 of 100000`. What cannot be written of that is lost.
///
/// The faults, in this order: `BDK refused`, or `initial refused` of an initial key; `WHAT
/// refused`; `TEXT refused`, `PAN refused` or `BLOCK refused`; `KSN refused`; `window refused` (no
/// number from 1 to 100,000); `not found`; then `write failed`. Memory for a frame and for a text
/// may be refused. The caller reports the fault.
pub fn find_command<W: Sink, F: Sink>(
    alloc: Global,
    key: KeyArgument<'_>,
    what: &str,
    clue: Clue<'_>,
    from: Option<&str>,
    window: Option<&str>,
    output: &mut W,
    fault: &mut F,
) -> Result<(), FindFault>
    ensures done { IsOk result → IsFindDone (find_arguments key.entry what.now clue.entry
        (option_copied from.entry) (option_copied window.entry))
        (streams (W.known output.old) (W.known output.new)
        (F.known fault.old) (F.known fault.new)) }
    ensures failed { IfErr result (λ why. IsFindFailed (find_arguments key.entry what.now clue.entry
        (option_copied from.entry) (option_copied window.entry)) why
        (streams (W.known output.old) (W.known output.new)
        (F.known fault.old) (F.known fault.new))) }
{
    duk_io::laws::writes();
    let lines = find_lines(alloc, key, what, clue, from, window, fault)?;
    match write_text(output, lines.as_slice()) {
        Ok(()) => Ok(()),
        Err(_) => Err(FindFault::WriteFailed),
    }
}

/// The line of what is found, or why nothing is. A long search tells its progress on `fault`.
fn find_lines<F: Sink>(
    alloc: Global,
    given: KeyArgument<'_>,
    what: &str,
    clue: Clue<'_>,
    from: Option<&str>,
    window: Option<&str>,
    fault: &mut F,
) -> Result<Lines, FindFault>
    ensures lines { IfOk result (λ lines. HasFound (find_arguments given.entry what.now clue.entry
        (option_copied from.entry) (option_copied window.entry)) lines.items
        (F.known fault.old) (F.known fault.new)) }
    ensures refused { IfErr result (λ why. HasFoundNothing (find_arguments given.entry what.now
        clue.entry (option_copied from.entry) (option_copied window.entry)) why
        (F.known fault.old) (F.known fault.new)) }
{
    duk_tree::laws::chain();
    let key = read_key(given)?;
    let sought = read_sought(alloc, what, clue)?;
    let start = read_start_of(from, &sought)?;
    let most = read_window(window)?;
    let initial = given.initial_key(&key, start.iksn());
    match first_found(&initial, start, most, &sought, fault) {
        Some(found) => Ok(line_of(&found)),
        None => Err(FindFault::NotFound),
    }
}

/// The key that is given.
fn read_key(given: KeyArgument<'_>) -> Result<Key<16>, FindFault>
    ensures { MatchResult result (λ key. key_in given.entry ≡ Some key)
        (λ why. (key_in given.entry ≡ None) × (why ≡ find_key_fault given.entry)) }
{
    match given.read() {
        Ok(key) => Ok(key),
        Err(_) => Err(fault_of_key(given)),
    }
}

/// The fault of an argument that writes no key.
fn fault_of_key(given: KeyArgument<'_>) -> FindFault
    ensures { result ≡ find_key_fault given.entry }
{
    match given {
        KeyArgument::Base(_) => FindFault::BdkRefused,
        KeyArgument::Initial(_) => FindFault::InitialRefused,
    }
}

/// The number from which the search starts.
fn read_start_of(from: Option<&str>, sought: &Sought) -> Result<Ksn, FindFault>
    ensures { MatchResult result (IsStartOf (option_copied from.entry) sought.now)
        (λ why. (why ≡ KsnRefused)
        × ((start : Serial) → ¬ IsStartOf (option_copied from.entry) sought.now start)) }
{
    match from {
        Some(text) => Ksn::parse(text).ok_or(FindFault::KsnRefused),
        None => match sought {
            Sought::Frame { ksn, .. } => Ok(ksn.with_counter(1)),
            _ => Err(FindFault::KsnRefused),
        },
    }
}

/// How many numbers are tried at most.
fn read_window(window: Option<&str>) -> Result<u32, FindFault>
    ensures { MatchResult result (IsWindowSize (option_copied window.entry))
        (λ why. (why ≡ WindowRefused)
        × ((most : ℕ) → ¬ IsWindowSize (option_copied window.entry) most)) }
{
    let Some(text) = window else {
        return Ok(MOST_TRIED);
    };
    match read_decimal(text, MOST_TRIED) {
        Some(most) if most > 0 => Ok(most),
        _ => Err(FindFault::WindowRefused),
    }
}

/// The line of what is found.
fn line_of(found: &Found) -> Lines
    ensures { result.items ≡ found_line found.now.ksn found.now.origin }
{
    let mut lines = Lines::new();
    push_text(&mut lines, b"found ");
    append_hex(&mut lines, &found.ksn.bytes());
    push_text(&mut lines, b" ");
    push_text(&mut lines, found.origin.key.name().as_bytes());
    push_text(&mut lines, found.origin.way.text().as_bytes());
    push_end(&mut lines);
    lines
}

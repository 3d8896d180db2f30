//! The command `walk`: a terminal from its first number on.

ghost use Rattle.std.specs.Prelude.{◌≡◌, ◌+◌, ◌≤◌, ◌++◌, ℕ, OnOk, OnErr, IfOk, IfErr, IsSome, IsNone};
ghost use Rattle.std.specs.Option.{option_copied};
ghost use Rattle.arrayvec.specs.ArrayVec.{array_vec_len};
ghost use Rattle.duk_commands.specs.Answer.{IsDone, IsNotDone};
ghost use Rattle.duk_commands.specs.Walk.{AreWalkArguments, Asked, IsWalkRefused, number_text, spent_line, walk_of, walk_arguments};
ghost use Rattle.duk_commands.specs.inner.Walk.{HasPrinted, HasPrintedInPart, HasWalked, HasWalkedInPart, IsAskedFor, IsSpentWithin, Passes, before_first};

use crate::count::{read_count, read_skip};
use crate::fault::Fault;
use crate::key_argument::KeyArgument;
use duk_group::KeysInOrder;
use duk_io::{
    BUFFER_ROOM, Buffer, Sink, WriteFailed, append_hex, make_room, write_out, write_text,
};
use duk_tdes::Key;
use duk_tree::{Iksn, Ksn};

/// The bytes of the longest line: 20 digits, a space, 32 digits and LF.
const LONGEST_LINE: usize = 54;

/// What the arguments ask for: a terminal, and how many numbers it passes and then prints.
#[derive(Drop)]
struct Walk {
    initial: Key<16>,
    iksn: Iksn,
    skip: u32,
    count: u32,
}

/// Passes `skip` numbers of the terminal with this initial key and initial key serial number, and
/// then writes up to `count`, a line each: the key serial number and, unless `alone`, its
/// transaction key. The line `spent` comes where a number is to be passed or written and none is
/// left.
///
/// `key` is to be 32 hexadecimal digits of either case, `iksn` 20 with a counter of zero, `count`
/// and `skip` decimal digits with a value of at most 1,048,576. The faults, in this order: `BDK
/// refused`, or `initial refused` of an initial key; `IKSN refused`, `count refused` (of either
/// number); then `write failed`, where a write to `output` failed or took no byte.
pub fn walk_command<W: Sink>(
    key: KeyArgument<'_>,
    iksn: &str,
    count: &str,
    skip: Option<&str>,
    alone: bool,
    output: &mut W,
) -> Result<(), Fault>
    ensures done { OnOk result (IsDone
        (walk_of (walk_arguments key.entry iksn.now count.now (option_copied skip.entry) alone))
        (W.known output.old) (W.known output.new)) }
    ensures not_done { IfErr result (λ why. IsNotDone
        (walk_of (walk_arguments key.entry iksn.now count.now (option_copied skip.entry) alone))
        why (W.known output.old) (W.known output.new)) }
{
    duk_io::laws::writes();
    let walk = read_walk(key, iksn, count, skip)?;
    match write_walk(walk, alone, output) {
        Ok(()) => Ok(()),
        Err(_) => Err(Fault::WriteFailed),
    }
}

/// What the arguments ask for, or their first fault.
fn read_walk(
    given: KeyArgument<'_>,
    iksn: &str,
    count: &str,
    skip: Option<&str>,
) -> Result<Walk, Fault>
    ensures loaded { IfOk result (λ walk. (asked : Asked)
        × AreWalkArguments given.entry iksn.now count.now (option_copied skip.entry) asked
        × IsAskedFor asked walk.initial walk.iksn walk.skip walk.count) }
    ensures refused { IfErr result
        (IsWalkRefused given.entry iksn.now count.now (option_copied skip.entry)) }
{
    let key = given.read()?;
    let iksn = Iksn::parse(iksn).ok_or(Fault::IksnRefused)?;
    let count = read_count(count).ok_or(Fault::CountRefused)?;
    let skip = read_skip(skip).ok_or(Fault::CountRefused)?;
    Ok(Walk {
        initial: given.initial_key(&key, iksn),
        iksn,
        skip,
        count,
    })
}

/// Passes numbers and writes the lines of those after them.
fn write_walk<W: Sink>(walk: Walk, alone: bool, output: &mut W) -> Result<(), WriteFailed>
    ensures written { OnOk result
        (HasWalked (before_first walk.initial walk.iksn) alone walk.skip walk.count
        (W.known output.old) (W.known output.new)) }
    ensures cut { OnErr result
        (HasWalkedInPart (before_first walk.initial walk.iksn) alone walk.skip walk.count
        (W.known output.old) (W.known output.new)) }
{
    let mut keys = KeysInOrder::new(walk.initial, walk.iksn);
    match pass_numbers(&mut keys, walk.skip) {
        Some(()) => write_numbers(&mut keys, walk.count, alone, output),
        None => write_text(output, b"spent\n"),
    }
}

/// Passes so many numbers. None: the terminal was spent before that.
fn pass_numbers(keys: &mut KeysInOrder, skip: u32) -> Option<()>
    ensures passed { IsSome result → Passes keys.old skip keys.new }
    ensures spent { IsNone result → IsSpentWithin keys.old skip }
{
    for _passed in 0..skip {
        keys.pass()?;
    }
    Some(())
}

/// Uses so many numbers and writes the line of each, and `spent` where none is left.
fn write_numbers<W: Sink>(
    keys: &mut KeysInOrder,
    count: u32,
    alone: bool,
    output: &mut W,
) -> Result<(), WriteFailed>
    ensures written { OnOk result
        (HasPrinted keys.old alone count (W.known output.old) (W.known output.new)) }
    ensures cut { OnErr result
        (HasPrintedInPart keys.old alone count (W.known output.old) (W.known output.new)) }
{
    duk_io::laws::writes();
    let mut lines = Buffer::new();
    for _printed in 0..count {
        make_room(&mut lines, LONGEST_LINE, output)?;
        let Some(used) = keys.use_next() else {
            push_spent(&mut lines);
            return write_out(&mut lines, output);
        };
        push_number(&mut lines, used.1, &used.0, alone);
    }
    write_out(&mut lines, output)
}

/// Appends the line of a number.
fn push_number(lines: &mut Buffer, ksn: Ksn, key: &Key<16>, alone: bool)
    requires { array_vec_len lines.old + LONGEST_LINE ≤ BUFFER_ROOM }
    ensures line { lines.new.items ≡ lines.old.items ++ number_text ksn key.now alone }
    ensures len { array_vec_len lines.new ≤ array_vec_len lines.old + LONGEST_LINE }
{
    append_hex(lines, &ksn.bytes());
    if !alone {
        lines.push(b' ');
        append_hex(lines, &key.bytes());
    }
    lines.push(b'\n');
}

/// Appends the line that says that no number is left.
fn push_spent(lines: &mut Buffer)
    requires { array_vec_len lines.old + LONGEST_LINE ≤ BUFFER_ROOM }
    ensures { lines.new.items ≡ lines.old.items ++ spent_line }
{
    lines.try_extend_from_slice(b"spent\n").unwrap();
}

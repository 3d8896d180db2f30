//! The command `registers`: the registers of a terminal at a number.

ghost use Rattle.std.specs.Prelude.{◌≡◌, ◌↔◌, ◌+◌, ◌-◌, ◌<◌, ◌≤◌, ◌^◌, ◌++◌, ℕ, List, IfErr, IfOk, IfSome, IsNone};
ghost use Rattle.arrayvec.specs.ArrayVec.{array_vec_len};
ghost use Rattle.duk_commands.specs.Registers.{AreRegisterLines, IsRegisterLine, IsRegistersText, empty_line, held_line, register_name};
ghost use Rattle.duk_commands.specs.Start.{IsStartRefused};
ghost use Rattle.duk_regs.specs.Registers.{IsEmptyAt, lowest_place};
ghost use Rattle.duk_tree.specs.Frontier.{IsInFrontier};
ghost use Rattle.duk_tree.specs.Path.{IsUsable};

use crate::fault::Fault;
use crate::key_argument::KeyArgument;
use crate::lines::{LINES_ROOM, Lines, push_end, push_text};
use crate::small_number::push_small;
use crate::start::{Start, read_start};
use duk_io::append_hex;
use duk_tree::{transaction_key, usable};

/// The bit places of a counter, each with a register.
const PLACES: u32 = 21;

/// The lines of the 21 registers of a terminal whose next number this is: the bit place of each,
/// its number in the standard (Future Key Register #21 is that of place 0), and the number whose
/// key it holds, with that key, or that it is empty (ANSI X9.24-1:2009 annex A).
///
/// The faults, in this order: `BDK refused`, or `initial refused` of an initial key; `KSN refused`;
/// `counter refused`.
pub fn registers_lines(given: KeyArgument<'_>, ksn: &str) -> Result<Lines, Fault>
    ensures lines { IfOk result (λ lines. IsRegistersText given.entry ksn.now lines.items) }
    ensures refused { IfErr result (IsStartRefused given.entry ksn.now) }
{
    let start = read_start(given, ksn)?;
    Ok(lines_at(&start))
}

/// The lines of the registers at a number.
fn lines_at(start: &Start) -> Lines
    requires { IsUsable start.now.ksn.counter }
    ensures { AreRegisterLines start.now.initial start.now.ksn 21 result.items }
{
    let mut lines = Lines::new();
    for place in 0..PLACES {
        push_register(&mut lines, start, place);
    }
    lines
}

/// Appends the line of the register of a place.
fn push_register(lines: &mut Lines, start: &Start, place: u32)
    requires room { array_vec_len lines.old + 70 ≤ LINES_ROOM }
    requires usable { IsUsable start.now.ksn.counter }
    requires place { place < 21 }
    ensures line { (line : List ℕ) × IsRegisterLine start.now.initial start.now.ksn place line
        × (lines.new.items ≡ lines.old.items ++ line) }
    ensures len { array_vec_len lines.new ≤ array_vec_len lines.old + 70 }
{
    duk_tree::laws::bits();
    match node_at(start.ksn.counter(), place) {
        Some(node) => push_held(lines, start, place, node),
        None => push_empty(lines, place),
    }
}

/// Appends the line of a register that holds the key of a node.
fn push_held(lines: &mut Lines, start: &Start, place: u32, node: u32)
    requires room { array_vec_len lines.old + 70 ≤ LINES_ROOM }
    requires place { place < 21 }
    requires node { node < 2 ^ 21 }
    ensures line { lines.new.items
        ≡ lines.old.items ++ held_line start.now.initial start.now.ksn.iksn place node }
    ensures len { array_vec_len lines.new ≤ array_vec_len lines.old + 70 }
{
    let ksn = start.ksn.with_counter(node);
    push_text(lines, b"register");
    push_text(lines, b" ");
    push_name(lines, place);
    append_hex(lines, &ksn.bytes());
    push_text(lines, b" ");
    append_hex(lines, &transaction_key(&start.initial, ksn).bytes());
    push_end(lines);
}

/// Appends the line of a register that holds no key.
fn push_empty(lines: &mut Lines, place: u32)
    requires room { array_vec_len lines.old + 70 ≤ LINES_ROOM }
    requires place { place < 21 }
    ensures line { lines.new.items ≡ lines.old.items ++ empty_line place }
    ensures len { array_vec_len lines.new ≤ array_vec_len lines.old + 70 }
{
    push_text(lines, b"register");
    push_text(lines, b" ");
    push_name(lines, place);
    push_text(lines, b"empty");
    push_end(lines);
}

/// Appends a register's place, and its number in the standard.
fn push_name(lines: &mut Lines, place: u32)
    requires room { array_vec_len lines.old + 6 ≤ LINES_ROOM }
    requires place { place < 21 }
    ensures name { lines.new.items ≡ lines.old.items ++ register_name place }
    ensures len { array_vec_len lines.new ≤ array_vec_len lines.old + 6 }
{
    push_small(lines, place);
    push_text(lines, b" ");
    push_small(lines, PLACES - place);
    push_text(lines, b" ");
}

/// The node of the frontier at this counter whose lowest one bit is at this place, if there is one.
/// It could only be the one whose parent is the greatest multiple of the next power of two below
/// the counter.
fn node_at(counter: u32, place: u32) -> Option<u32>
    requires some { 1 ≤ counter }
    requires fits { counter ≤ 2 ^ 21 }
    requires place { place < 21 }
    ensures none { IsNone result ↔ IsEmptyAt counter place }
    ensures found { IfSome result (λ node.
        IsInFrontier counter node × (lowest_place node ≡ place)) }
    ensures fits { IfSome result (λ node. node < 2 ^ 21) }
{
    duk_tree::laws::bits();
    duk_tree::laws::candidates();
    let parent = (counter - 1) >> (place + 1) << (place + 1);
    let node = parent + (1 << place);
    if node >= counter && usable(node) {
        Some(node)
    } else {
        None
    }
}

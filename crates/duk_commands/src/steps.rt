//! The derivation of a transaction key step by step.

ghost use Rattle.std.specs.Prelude.{◌≡◌, ◌+◌, ◌≤◌, ◌<◌, ◌^◌, ◌++◌, List, ℕ};
ghost use Rattle.arrayvec.specs.ArrayVec.{array_vec_len};
ghost use Rattle.duk_commands.specs.Keys.{step_line, step_lines};
ghost use Rattle.duk_tree.specs.Path.{IsPath, path_of, value_of};

use crate::lines::{LINES_ROOM, Lines, push_end, push_text};
use duk_io::append_hex;
use duk_tdes::Key;
use duk_tree::{Ksn, transaction_key};

/// The bits of a counter.
const COUNTER_BITS: u32 = 21;

/// Appends the line of each node on the way to a number, from the highest one bit of its counter
/// on, and that of the number.
pub(crate) fn push_steps(lines: &mut Lines, initial: &Key<16>, ksn: Ksn)
    requires { array_vec_len lines.old + 1239 ≤ LINES_ROOM }
    ensures lines { lines.new.items ≡ lines.old.items ++ step_lines initial.now ksn.iksn
        (path_of ksn.counter) }
    ensures len { array_vec_len lines.new ≤ array_vec_len lines.old + 1239 }
{
    duk_tree::laws::paths();
    let mut left = ksn.counter();
    let mut reached = 0;
    for place in (0..COUNTER_BITS).rev() {
        let bit = 1 << place;
        if left >= bit {
            left -= bit;
            reached += bit;
            push_step(lines, initial, ksn.with_counter(reached));
        }
    }
}

/// Appends the line of a node.
fn push_step(lines: &mut Lines, initial: &Key<16>, node: Ksn)
    requires { array_vec_len lines.old + 59 ≤ LINES_ROOM }
    ensures line { (path : List ℕ) → IsPath path → value_of path ≡ node.counter
        → lines.new.items ≡ lines.old.items ++ step_line initial.now node.iksn path }
    ensures len { array_vec_len lines.new ≡ array_vec_len lines.old + 59 }
{
    duk_tree::laws::paths();
    push_text(lines, b"step");
    push_text(lines, b" ");
    append_hex(lines, &node.bytes());
    push_text(lines, b" ");
    append_hex(lines, &transaction_key(initial, node).bytes());
    push_end(lines);
}

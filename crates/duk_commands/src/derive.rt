//! The command `derive`: the keys of one key serial number.

ghost use Rattle.std.specs.Prelude.{◌≡◌, ◌⊎◌, IfOk, IfErr, OnOk};
ghost use Rattle.duk_commands.specs.Answer.{HasReported, IsDone, IsNotDone, streams};
ghost use Rattle.duk_commands.specs.Derive.{IsDeriveRefused, IsDeriveText, derive_of, key_lines};
ghost use Rattle.duk_io.specs.Sink.{IsUntouched};

use crate::answer::{tell, write_lines};
use crate::fault::Fault;
use crate::lines::{Lines, push_line};
use duk_io::Sink;
use duk_tdes::Key;
use duk_tree::{Ksn, derive, initial_key, pin_key, usable};

/// Writes the initial key, the transaction key and the PIN key of a key serial number, a line each
/// (ANSI X9.24-1:2009 annex A), and gives the status: 0, or 1 with a line on `fault`.
///
/// `bdk` is to be 32 hexadecimal digits of either case, `ksn` 20. The faults, in this order: `BDK
/// refused`, `KSN refused`, `counter refused` (zero, or more than ten one bits); then `write
/// failed`, where a write to `output` failed or took no byte.
pub fn derive_command<W: Sink, F: Sink>(bdk: &str, ksn: &str, output: &mut W, fault: &mut F) -> u8
    ensures status { (result ≡ 0) ⊎ (result ≡ 1) }
    ensures done { result ≡ 0
        → IsDone (derive_of bdk.now ksn.now) (W.known output.old) (W.known output.new) }
    ensures no_fault { result ≡ 0 → IsUntouched (F.known fault.old) (F.known fault.new) }
    ensures not_done { result ≡ 1 → HasReported (derive_of bdk.now ksn.now)
        (streams (W.known output.old) (W.known output.new)
        (F.known fault.old) (F.known fault.new)) }
{
    duk_io::laws::writes();
    match write_derived(bdk, ksn, output) {
        Ok(()) => 0,
        Err(why) => {
            tell(fault, why.line().as_slice());
            1
        }
    }
}

/// Writes the three lines of the two arguments.
fn write_derived<W: Sink>(bdk: &str, ksn: &str, output: &mut W) -> Result<(), Fault>
    ensures done { OnOk result
        (IsDone (derive_of bdk.now ksn.now) (W.known output.old) (W.known output.new)) }
    ensures not_done { IfErr result (λ why.
        IsNotDone (derive_of bdk.now ksn.now) why (W.known output.old) (W.known output.new)) }
{
    duk_io::laws::writes();
    let lines = derive_lines(bdk, ksn)?;
    write_lines(&lines, output)
}

/// The three lines of the two arguments, or their first fault.
fn derive_lines(bdk: &str, ksn: &str) -> Result<Lines, Fault>
    ensures lines { IfOk result (λ lines. IsDeriveText bdk.now ksn.now lines.items) }
    ensures refused { IfErr result (IsDeriveRefused bdk.now ksn.now) }
{
    let bdk = Key::<16>::parse(bdk).ok_or(Fault::BdkRefused)?;
    let ksn = Ksn::parse(ksn).ok_or(Fault::KsnRefused)?;
    if !usable(ksn.counter()) {
        return Err(Fault::CounterRefused);
    }
    Ok(key_lines(&bdk, ksn))
}

/// The lines of the initial key, the transaction key and its PIN variant.
fn key_lines(bdk: &Key<16>, ksn: Ksn) -> Lines
    ensures { result.items ≡ key_lines bdk.now ksn }
{
    let initial = initial_key(bdk, ksn.iksn());
    let key = derive(bdk, ksn);
    let mut lines = Lines::new();
    push_line(&mut lines, b"initial", &initial.bytes());
    push_line(&mut lines, b"key", &key.bytes());
    push_line(&mut lines, b"pin", &pin_key(&key).bytes());
    lines
}

//! The commands over keys: `derive` with its options, and `initial`.

ghost use Rattle.std.specs.Prelude.{◌≡◌, ◌+◌, ◌≤◌, ◌++◌, true, IfErr, IfOk};
ghost use Rattle.arrayvec.specs.ArrayVec.{array_vec_len};
ghost use Rattle.duk_commands.specs.Keys.{IsDerivedText, IsInitialRefused, IsInitialText, data_key_lines, derived_lines, initial_lines, mac_lines, other_lines, three_lines};
ghost use Rattle.duk_commands.specs.Start.{IsStartRefused};
ghost use Rattle.duk_tree.specs.Derivation.{transaction_key_of};

use crate::fault::Fault;
use crate::key_argument::KeyArgument;
use crate::lines::{LINES_ROOM, Lines, push_line};
use crate::start::read_start;
use crate::steps::push_steps;
use duk_data::{request_data_key, response_data_key};
use duk_mac::check_value;
use duk_tdes::Key;
use duk_tree::{Iksn, Ksn, initial_key, pin_key, request_key, response_key};

/// The lines of a number's keys: the initial key, the transaction key and its PIN variant; before
/// them, with `trace`, the key of each node on the way to the number, and the number's; after them,
/// with `all`, the variants of the two MACs, and the two keys for data (ANSI X9.24-1:2009 annex A).
///
/// The faults, in this order: `BDK refused`, or `initial refused` of an initial key; `KSN refused`;
/// `counter refused` (zero, or more than ten one bits).
pub fn derived_lines(
    given: KeyArgument<'_>,
    ksn: &str,
    trace: bool,
    all: bool,
) -> Result<Lines, Fault>
    ensures lines { IfOk result (λ lines. IsDerivedText given.entry ksn.now trace all lines.items) }
    ensures refused { IfErr result (IsStartRefused given.entry ksn.now) }
{
    let start = read_start(given, ksn)?;
    Ok(lines_of_derived(&start.initial, &start.key(), start.ksn, trace, all))
}

/// The same lines, of an initial key and a transaction key that are there.
pub(crate) fn lines_of_derived(
    initial: &Key<16>,
    key: &Key<16>,
    ksn: Ksn,
    trace: bool,
    all: bool,
) -> Lines
    requires { key.now ≡ transaction_key_of initial.now ksn.iksn ksn.counter }
    ensures { result.items ≡ derived_lines trace all initial.now ksn }
{
    let mut lines = Lines::new();
    if trace {
        push_steps(&mut lines, initial, ksn);
    }
    push_three(&mut lines, initial, key);
    if all {
        push_others(&mut lines, key);
    }
    lines
}

/// Appends the lines of the initial key, the transaction key and its PIN variant.
fn push_three(lines: &mut Lines, initial: &Key<16>, key: &Key<16>)
    requires { array_vec_len lines.old + 115 ≤ LINES_ROOM }
    ensures lines { lines.new.items ≡ lines.old.items ++ three_lines initial.now key.now }
    ensures len { array_vec_len lines.new ≡ array_vec_len lines.old + 115 }
{
    push_line(lines, b"initial", &initial.bytes());
    push_line(lines, b"key", &key.bytes());
    push_line(lines, b"pin", &pin_key(key).bytes());
}

/// Appends the lines of the keys of MACs, and of those for data.
fn push_others(lines: &mut Lines, key: &Key<16>)
    requires { array_vec_len lines.old + 184 ≤ LINES_ROOM }
    ensures { lines.new.items ≡ lines.old.items ++ other_lines true key.now }
{
    push_macs(lines, key);
    push_data_keys(lines, key);
}

/// Appends the lines of the variants for the MACs of a request and of a response.
fn push_macs(lines: &mut Lines, key: &Key<16>)
    requires { array_vec_len lines.old + 91 ≤ LINES_ROOM }
    ensures lines { lines.new.items ≡ lines.old.items ++ mac_lines key.now }
    ensures len { array_vec_len lines.new ≡ array_vec_len lines.old + 91 }
{
    push_line(lines, b"mac-request", &request_key(key).bytes());
    push_line(lines, b"mac-response", &response_key(key).bytes());
}

/// Appends the lines of the keys for the data of a request and of a response.
fn push_data_keys(lines: &mut Lines, key: &Key<16>)
    requires { array_vec_len lines.old + 93 ≤ LINES_ROOM }
    ensures { lines.new.items ≡ lines.old.items ++ data_key_lines key.now }
{
    push_line(lines, b"data-request", &request_data_key(key).bytes());
    push_line(lines, b"data-response", &response_data_key(key).bytes());
}

/// The lines of a terminal's initial key and of its check value.
///
/// The faults, in this order: `BDK refused`, `IKSN refused` (not 20 digits with a counter of zero).
pub fn initial_lines(bdk: &str, iksn: &str) -> Result<Lines, Fault>
    ensures lines { IfOk result (λ lines. IsInitialText bdk.now iksn.now lines.items) }
    ensures refused { IfErr result (IsInitialRefused bdk.now iksn.now) }
{
    let bdk = Key::<16>::parse(bdk).ok_or(Fault::BdkRefused)?;
    let iksn = Iksn::parse(iksn).ok_or(Fault::IksnRefused)?;
    Ok(lines_of_initial(&initial_key(&bdk, iksn)))
}

/// The two lines of an initial key.
fn lines_of_initial(key: &Key<16>) -> Lines
    ensures { result.items ≡ initial_lines key.now }
{
    let mut lines = Lines::new();
    push_line(&mut lines, b"initial", &key.bytes());
    push_line(&mut lines, b"kcv", &check_value(key));
    lines
}

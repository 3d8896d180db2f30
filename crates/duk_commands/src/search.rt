//! The search over the numbers of a terminal, and over the keys of each.

ghost use Rattle.std.specs.Prelude.{◌≡◌, ◌≢◌, ◌↔◌, ◌<◌, ◌≤◌, ℕ, List, IfNone, IfSome, None, Some, if◌then◌else◌, length, take};
ghost use Rattle.duk_commands.specs.Find.{IsWindow};
ghost use Rattle.duk_commands.specs.Origin.{origin_rank};
ghost use Rattle.duk_commands.specs.Sought.{Makes, MakesBy};
ghost use Rattle.duk_commands.specs.inner.Search.{AreLeft, IsFirstFrom, IsFirstWay, IsFoundTelling, IsNotFoundTelling, search_in};
ghost use Rattle.duk_commands.specs.inner.Sought.{HasMessage};
ghost use Rattle.duk_io.specs.FirstFault.{IsFirst};
ghost use Rattle.duk_mac.specs.Cmac.{cmac_of};
ghost use Rattle.duk_mac.specs.Retail.{retail_of};
ghost use Rattle.duk_regs.specs.Registers.{AreFutureKeysOf};
ghost use Rattle.duk_tree.specs.Path.{IsUsable};

use crate::origin::{KeyUse, Origin, USES, Way};
use crate::progress::tell_progress;
use crate::sought::Sought;
use duk_frame::mac_text;
use duk_io::Sink;
use duk_mac::{cmac, retail, same_mac};
use duk_pin::decode;
use duk_regs::Registers;
use duk_tdes::{Key, tdes_decrypt, tdes_encrypt};
use duk_tree::{Ksn, next_usable, usable};

/// A number with a key that makes what is looked for, and how.
#[derive(Clone, Copy)]
pub(crate) struct Found {
    pub(crate) ksn: Ksn,
    pub(crate) origin: Origin,
}

/// The first number with a key that makes what is looked for, and the first such key, of the usable
/// numbers of a terminal from this one on, so many at most. A long search tells its progress on
/// `fault`.
pub(crate) fn first_found<F: Sink>(
    initial: &Key<16>,
    from: Ksn,
    most: u32,
    sought: &Sought,
    fault: &mut F,
) -> Option<Found>
    requires { HasMessage sought.now }
    ensures found { (window : List ℕ) → IsWindow from.counter most window → IfSome result
        (λ found. IsFoundTelling (search_in sought.now initial.now from.iksn window) most found.ksn
        found.origin (F.known fault.old) (F.known fault.new)) }
    ensures none { (window : List ℕ) → IsWindow from.counter most window → IfNone result
        (IsNotFoundTelling (search_in sought.now initial.now from.iksn window) most
        (F.known fault.old) (F.known fault.new)) }
{
    let first = first_usable(from)?;
    let registers = Registers::at(initial, first)?;
    first_among(registers, most, sought, fault)
}

/// The first usable number of a terminal from this one on: itself where it is usable.
fn first_usable(from: Ksn) -> Option<Ksn>
    ensures first { IfSome result (λ first. (first.iksn ≡ from.iksn)
        × IsFirstFrom from.counter first.counter) }
    ensures none { IfNone result
        ((other : ℕ) → IsUsable other → ¬ (from.counter ≤ other)) }
{
    duk_tree::laws::bits();
    let counter = from.counter();
    if usable(counter) {
        return Some(from);
    }
    let next = next_usable(counter)?;
    Some(from.with_counter(next))
}

/// The same of the numbers that a terminal has left.
fn first_among<F: Sink>(
    mut registers: Registers,
    most: u32,
    sought: &Sought,
    fault: &mut F,
) -> Option<Found>
    requires { HasMessage sought.now }
    ensures found { (initial numbers : List ℕ) → AreFutureKeysOf initial registers
        → AreLeft registers.counter numbers → IfSome result (λ found.
        IsFoundTelling (search_in sought.now initial registers.iksn (take most numbers)) most
        found.ksn found.origin (F.known fault.old) (F.known fault.new)) }
    ensures none { (initial numbers : List ℕ) → AreFutureKeysOf initial registers
        → AreLeft registers.counter numbers → IfNone result
        (IsNotFoundTelling (search_in sought.now initial registers.iksn (take most numbers)) most
        (F.known fault.old) (F.known fault.new)) }
{
    duk_tree::laws::bits();
    for tried in 0..most {
        let taken = registers.use_next()?;
        tell_progress(sought, tried, most, fault);
        if let Some(origin) = origin_of(sought, &taken.0) {
            return Some(Found {
                ksn: taken.1,
                origin,
            });
        }
    }
    None
}

/// The first key of a transaction key that makes what is looked for, and how.
fn origin_of(sought: &Sought, key: &Key<16>) -> Option<Origin>
    requires { HasMessage sought.now }
    ensures first { IfSome result (IsFirst origin_rank (λ origin. ¬ Makes sought.now key.now origin)
        (Makes sought.now key.now)) }
    ensures none { IfNone result ((origin : Origin) → ¬ Makes sought.now key.now origin) }
{
    for place in 0..USES {
        let key_use = KeyUse::at(place);
        if let Some(way) = way_of(sought, &key_use.key(key)) {
            return Some(Origin { key: key_use, way });
        }
    }
    None
}

/// The first way in which a key makes what is looked for.
fn way_of(sought: &Sought, key: &Key<16>) -> Option<Way>
    requires { HasMessage sought.now }
    ensures first { IfSome result (IsFirstWay sought.now key.now) }
    ensures none { IfNone result ((way : Way) → ¬ MakesBy sought.now key.now way) }
{
    match sought {
        Sought::Frame { bytes, mac, .. } => {
            way_where(
                same_mac(&retail(key, mac_text(bytes.as_slice())), mac),
                Way::Retail,
            )
        }
        Sought::Mac { message, mac } => mac_of(key, message.as_slice(), *mac),
        Sought::PinBlock { pan, block } => {
            way_where(
                decode(tdes_decrypt(key, *block), pan).is_some(),
                Way::Cipher,
            )
        }
        Sought::Ciphertext { clear, block } => {
            way_where(tdes_encrypt(key, *clear) == *block, Way::Cipher)
        }
    }
}

/// The first MAC of a message that this is.
fn mac_of(key: &Key<16>, message: &[u8], mac: [u8; 8]) -> Option<Way>
    requires { 0 < length message.now }
    ensures retail { result ≡ Some Way.Retail ↔ (retail_of key.now message.now ≡ mac) }
    ensures cmac { result ≡ Some Way.Cmac ↔ ((retail_of key.now message.now ≢ mac)
        × (cmac_of key.now message.now ≡ mac)) }
    ensures no_cipher { result ≢ Some Way.Cipher }
{
    if same_mac(&retail(key, message), &mac) {
        Some(Way::Retail)
    } else {
        way_where(same_mac(&cmac(key, message), &mac), Way::Cmac)
    }
}

/// This way, where it is one.
fn way_where(is_one: bool, way: Way) -> Option<Way>
    ensures { result ≡ (if is_one then Some way else None) }
{
    if is_one { Some(way) } else { None }
}

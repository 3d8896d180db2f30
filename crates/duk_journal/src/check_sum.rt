//! Check sums of entries, by which a list that is read a second time shows that it is the same.

ghost use Rattle.std.specs.Prelude.{◌≡◌, []};
ghost use Rattle.duk_tree.specs.Serial.{serial_bytes};
ghost use Rattle.byteorder.specs.Endian.{big_number};
ghost use Rattle.duk_journal.specs.CheckSum.{check_sum_of, decision_word, folded, with_entry};

use crate::entry::{Decided, Entry};
use byteorder::{BigEndian, ByteOrder};
use duk_tree::Ksn;

/// The prime by which the hash FNV of 128 bits multiplies.
const MULTIPLIER: u128 = 309_485_009_821_345_068_724_781_371;

/// The check sum of a list of entries: what their numbers come to, what was decided under them, and
/// the MACs of their requests. Lists that differ in one entry have different ones. It is no MAC:
/// whoever writes entries can make others with the same.
#[derive(Clone, Copy, PartialEq, Eq)]
pub struct CheckSum {
    /// Of the key serial numbers.
    pub numbers: u128,
    /// Of what was decided.
    pub decisions: u128,
    /// Of the MACs.
    pub macs: u128,
}

impl CheckSum {
    /// That of no entries.
    pub fn new() -> Self
        ensures { result ≡ check_sum_of [] }
    {
        CheckSum {
            numbers: 0,
            decisions: 0,
            macs: 0,
        }
    }

    /// Takes in the next entry.
    pub fn take_in(&mut self, entry: &Entry)
        ensures { self.new ≡ with_entry self.old entry.now }
    {
        self.numbers = folded(self.numbers, number_word(entry.number));
        self.decisions = folded(self.decisions, decision_word(entry.decided));
        self.macs = folded(self.macs, mac_word(entry.mac));
    }
}

/// A sum with one word more.
fn folded(sum: u128, word: u128) -> u128
    ensures { result ≡ folded sum word }
{
    sum.wrapping_mul(MULTIPLIER).wrapping_add(word)
}

/// The number that the ten bytes of a key serial number spell.
fn number_word(number: Ksn) -> u128
    ensures { result ≡ big_number 10 (serial_bytes number) }
{
    BigEndian::read_uint128(&number.bytes(), 10)
}

/// What a record has of a decision, as one number.
fn decision_word(decided: Decided) -> u128
    ensures { result ≡ decision_word decided }
{
    let head = u128::from(decided.kind()) * (1 << 32) + u128::from(decided.figure());
    head * (1 << 8) + u128::from(decided.outcome())
}

/// The number that the eight bytes of a MAC spell.
fn mac_word(mac: [u8; 8]) -> u128
    ensures { result ≡ big_number 8 mac }
{
    BigEndian::read_uint128(&mac, 8)
}

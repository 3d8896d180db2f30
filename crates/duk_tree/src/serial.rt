//! Key serial numbers: 80 bits, written as ten bytes or twenty hexadecimal digits.

ghost use Rattle.std.proofs.Common.{rules};
ghost use Rattle.std.specs.Cmp.{nat_eq_equiv, partial_equiv_from_equiv};
ghost use Rattle.std.specs.Cmp.Rules.{comparing};
ghost use Rattle.std.specs.Ordering.{eq_of_both, on};
ghost use Rattle.std.specs.Prelude.{◌≡◌, ◌*◌, ◌^◌, ◌<◌, ◌≤◌, ◌↔◌, nat_eq, length, IsSome, IfSome};
ghost use Rattle.std.specs.List.{AllPass};
ghost use Rattle.byteorder.specs.Endian.{big_bytes};
ghost use Rattle.hex.specs.Hex.{is_hex_digit};
ghost use Rattle.duk_tree.specs.Serial.{IsIksn, IsSerial, serial_bytes, serial_of_bytes, iksn_bytes, iksn_prefix_of, ksn_of_text, iksn_of_text, low_bytes, prefix_of, serial_number};

use byteorder::{BigEndian, ByteOrder};
use duk_tdes::array_of;
use hex::FromHex;
use std::marker::Model;

/// The bits of a counter.
pub(crate) const COUNTER_BITS: u32 = 21;

/// The bytes of a prefix: those by which a base derivation key is found.
pub const PREFIX_LENGTH: usize = 5;

/// An initial key serial number: the 59 bits above the counter.
#[derive(Clone, Copy, Debug)]
pub struct Iksn {
    number: u64,
}

impl Model for Iksn {
    ghost use Rattle.std.specs.Prelude.{ℕ, ◌*◌, ◌/◌, ◌^◌, ◌<◌};

    ghost Value = { ℕ };

    ghost view = { λ iksn. iksn.number * 2 ^ 21 };

    ghost invariant = { λ iksn. iksn.number < 2 ^ 59 };

    ghost inverse = { λ iksn. record { number = iksn / 2 ^ 21 } };
}

impl Iksn {
    /// Reads the key serial number with counter zero: twenty hexadecimal digits of either case.
    pub fn parse(text: &str) -> Option<Iksn>
        ensures value { result ≡ iksn_of_text text.now }
        ensures iksn { IfSome result IsIksn }
    {
        let ksn = Ksn::parse(text)?;
        if ksn.counter == 0 {
            Some(ksn.iksn)
        } else {
            None
        }
    }

    /// The ten bytes of the key serial number with counter zero.
    #[tactic(auto, unfolding(crate::specs::Serial::serial_bytes))]
    pub fn bytes(self) -> [u8; 10]
        ensures bytes { result ≡ iksn_bytes self }
        ensures iksn { IsIksn self }
    {
        number_bytes(self.number())
    }

    /// The number that the key serial number with counter zero is, of 80 bits.
    pub fn number(self) -> u128
        ensures value { result ≡ self }
        ensures iksn { IsIksn self }
    {
        (self.number as u128) << COUNTER_BITS
    }

    /// The first five bytes, which are those of each of its key serial numbers.
    pub fn prefix(self) -> [u8; PREFIX_LENGTH]
        ensures { result ≡ iksn_prefix_of self }
    {
        self.with_counter(0).prefix()
    }

    /// The key serial number of this terminal with this counter.
    pub fn with_counter(self, counter: u32) -> Ksn
        requires { counter < 2 ^ 21 }
        ensures value { result ≡ record { iksn = self; counter = counter } }
        ensures serial { IsSerial result }
    {
        Ksn {
            iksn: self,
            counter,
        }
    }
}

/// Compares what the model shows, which a derive would not.
impl PartialEq for Iksn {
    ghost eq = { nat_eq };

    ghost laws = { partial_equiv_from_equiv nat_eq_equiv };

    fn eq(&self, other: &Self) -> bool {
        self.number == other.number
    }
}

impl Eq for Iksn {
    ghost laws = { nat_eq_equiv };
}

/// A key serial number: an initial key serial number and a counter of 21 bits.
#[derive(Clone, Copy, Debug)]
pub struct Ksn {
    iksn: Iksn,
    counter: u32,
}

impl Model for Ksn {
    ghost use Rattle.duk_tree.specs.Serial.{Serial, IsSerial};

    ghost Value = { Serial };

    ghost view = { λ ksn. record { iksn = ksn.iksn; counter = ksn.counter } };

    ghost invariant = { λ ksn. IsSerial (record { iksn = ksn.iksn; counter = ksn.counter }) };

    ghost inverse = { λ serial. record { iksn = serial.iksn; counter = serial.counter } };
}

impl Ksn {
    /// Reads twenty hexadecimal digits of either case.
    pub fn parse(text: &str) -> Option<Ksn>
        ensures value { result ≡ ksn_of_text text.now }
        ensures found { IsSome result ↔ ((length text.now ≡ 20) × AllPass is_hex_digit text.now) }
        ensures serial { IfSome result IsSerial }
    {
        <[u8; 10] as FromHex>::from_hex(text)
            .ok()
            .map(Ksn::from_bytes)
    }

    /// The key serial number of ten bytes, the highest first.
    pub fn from_bytes(bytes: [u8; 10]) -> Ksn
        ensures value { result ≡ serial_of_bytes bytes }
        ensures bytes { serial_bytes result ≡ bytes }
        ensures serial { IsSerial result }
    {
        ksn_at(&bytes)
    }

    /// The ten bytes, the highest first.
    #[tactic(auto, unfolding(crate::specs::Serial::serial_bytes))]
    pub fn bytes(self) -> [u8; 10]
        ensures bytes { result ≡ serial_bytes self }
        ensures serial { IsSerial self }
    {
        number_bytes(self.number())
    }

    /// The number that the ten bytes spell, of 80 bits.
    pub fn number(self) -> u128
        ensures value { result ≡ serial_number self }
        ensures serial { IsSerial self }
    {
        self.iksn.number() + u128::from(self.counter)
    }

    /// The first five bytes, by which a base derivation key is found.
    pub fn prefix(self) -> [u8; PREFIX_LENGTH]
        ensures { result ≡ prefix_of self }
    {
        array_of(&self.bytes()[..PREFIX_LENGTH])
    }

    /// The low 64 bits, which the key generation process starts from.
    pub fn low_bytes(self) -> [u8; 8]
        ensures { result ≡ low_bytes self }
    {
        let Ksn { iksn, counter } = self;
        ((iksn.number << COUNTER_BITS) + counter as u64).to_be_bytes()
    }

    /// The initial key serial number.
    pub fn iksn(self) -> Iksn
        ensures value { result ≡ self.iksn }
        ensures serial { IsSerial self }
    {
        self.iksn
    }

    /// The counter, at most 1FFFFF.
    pub fn counter(self) -> u32
        ensures value { result ≡ self.counter }
        ensures serial { IsSerial self }
    {
        self.counter
    }

    /// The key serial number of the same terminal with this counter.
    pub fn with_counter(self, counter: u32) -> Ksn
        requires { counter < 2 ^ 21 }
        ensures value { result ≡ record self { counter = counter } }
        ensures serial { IsSerial result }
    {
        Ksn { counter, ..self }
    }
}

impl PartialEq for Ksn {
    ghost eq = { eq_of_both (on (λ serial. serial.iksn) nat_eq)
        (on (λ serial. serial.counter) nat_eq) };

    ghost laws = { Prim.search (comparing, rules) };

    fn eq(&self, other: &Self) -> bool {
        (self.iksn, self.counter) == (other.iksn, other.counter)
    }
}

impl Eq for Ksn {
    ghost laws = { Prim.search (comparing, rules) };
}

/// The ten bytes of a number, the highest first.
fn number_bytes(number: u128) -> [u8; 10]
    requires { number < 2 ^ 80 }
    ensures { result ≡ big_bytes 10 number }
{
    let mut bytes = [0; 10];
    BigEndian::write_uint128(&mut bytes, number, 10);
    bytes
}

/// The key serial number in ten bytes.
#[tactic(auto, unfolding(crate::specs::Serial::serial_of_bytes))]
fn ksn_at(bytes: &[u8]) -> Ksn
    requires { length bytes.now ≡ 10 }
    ensures value { result ≡ serial_of_bytes bytes.now }
    ensures bytes { serial_bytes result ≡ bytes.now }
    ensures serial { IsSerial result }
{
    let number = BigEndian::read_uint128(bytes, 10);
    let iksn = Iksn {
        number: (number >> COUNTER_BITS) as u64,
    };
    Ksn {
        iksn,
        counter: (number % (1 << COUNTER_BITS)) as u32,
    }
}

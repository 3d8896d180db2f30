//! The registers of a terminal, from one number to the next.

ghost use Rattle.std.specs.Prelude.{◌≡◌, ◌≢◌, ◌↔◌, ◌≤◌, [], ℕ, List, Some, None, All, AllPairs, Contains, IsErr, OnOk, IfOk, IfErr, IsNone, IsSome, IsTrue, IfSome, if◌then◌else◌, ◌==◌, length, slice_index};
ghost use Rattle.duk_tree.specs.Derivation.{transaction_key_of};
ghost use Rattle.duk_tree.specs.Next.{spent_counter};
ghost use Rattle.duk_tree.specs.Path.{IsUsable};
ghost use Rattle.duk_tree.specs.Serial.{IsIksn};
ghost use Rattle.duk_regs.specs.Registers.{HaveSixteenBytes, IsPastOf, IsRegisterSet, IsSpentIksn, AreFutureKeysOf, IsTaken};
ghost use Rattle.duk_regs.specs.Reload.{IsReloaded};
ghost use Rattle.duk_regs.specs.Image.{IsImage, image_bytes, image_bytes_of_version_1, set_in};

use crate::fault::ReloadFault;
use crate::frontier::{PLACES, SPENT, fill_below, first_registers, no_key, registers_at};
use crate::image::{IMAGE_LENGTH, read_image, write_image};
use crate::laws;
use crate::past::Past;
use duk_tdes::Key;
use duk_tree::{Iksn, Ksn, next_usable, usable};
use std::marker::Model;

/// What a terminal keeps: its initial key serial number, the counter that it uses next, twenty-one
/// registers, and the initial key serial numbers that it had before. It has no `Debug`, so that no
/// key is printed by chance.
#[derive(Drop)]
pub struct Registers {
    iksn: Iksn,
    counter: u32,
    registers: [Key<16>; PLACES],
    past: Past,
}

impl Model for Registers {
    ghost use Rattle.duk_regs.specs.Registers.{RegisterSet, IsRegisterSet};

    ghost Value = { RegisterSet };

    ghost view = { λ set. record {
      iksn = set.iksn;
      counter = set.counter;
      registers = set.registers;
      past = set.past;
    } };

    ghost invariant = { λ set. IsRegisterSet (record {
      iksn = set.iksn;
      counter = set.counter;
      registers = set.registers;
      past = set.past;
    }) };
}

impl Registers {
    /// The registers of a terminal that has used no number yet: the keys of the powers of two. None
    /// of them is that of the root, whose key is the initial key. No other initial key serial
    /// number is past.
    pub fn load(initial: Key<16>, iksn: Iksn) -> Registers
        ensures iksn { result.iksn ≡ iksn }
        ensures counter { result.counter ≡ 1 }
        ensures past { result.past ≡ [] }
        ensures future_keys { AreFutureKeysOf initial result }
        ensures set { IsRegisterSet result }
    {
        Registers::before_first(&initial, iksn, Past::none())
    }

    /// The registers of a terminal whose next number is this one, where this initial key was loaded
    /// under its initial key serial number: what `load` leaves once each number before it is taken.
    /// No other initial key serial number is past. None: the counter numbers no transaction.
    pub fn at(initial: &Key<16>, ksn: Ksn) -> Option<Registers>
        ensures usable { IsSome result ↔ IsUsable ksn.counter }
        ensures iksn { IfSome result (λ registers. registers.iksn ≡ ksn.iksn) }
        ensures counter { IfSome result (λ registers. registers.counter ≡ ksn.counter) }
        ensures past { IfSome result (λ registers. registers.past ≡ []) }
        ensures future_keys { IfSome result (AreFutureKeysOf initial.now) }
        ensures set { IfSome result IsRegisterSet }
    {
        if !usable(ksn.counter()) {
            return None;
        }
        Some(Registers {
            iksn: ksn.iksn(),
            counter: ksn.counter(),
            registers: registers_at(initial, ksn),
            past: Past::none(),
        })
    }

    /// Whether the terminal had this initial key serial number before the one that it has.
    pub fn is_past(&self, iksn: Iksn) -> bool
        ensures past { IsTrue result ↔ IsPastOf iksn self.now }
    {
        self.past.contains(iksn)
    }

    /// Whether `reload` takes this initial key serial number. Refused with, in this order:
    /// `IksnSpent`, where it is the present one or past; `LoadsSpent`, where eight are past.
    pub fn check_reload(&self, iksn: Iksn) -> Result<(), ReloadFault>
        ensures iksn_spent { (result ≡ Err ReloadFault.IksnSpent) ↔ IsSpentIksn iksn self.now }
        ensures loads_spent { (result ≡ Err ReloadFault.LoadsSpent)
            ↔ ((¬ IsSpentIksn iksn self.now) × (length self.now.past ≡ 8)) }
    {
        if iksn == self.iksn || self.past.contains(iksn) {
            return Err(ReloadFault::IksnSpent);
        }
        if self.past.is_full() {
            return Err(ReloadFault::LoadsSpent);
        }
        Ok(())
    }

    /// The registers of a terminal that is given another initial key: those of `load`, with the
    /// past initial key serial numbers followed by the present one. Refused as `check_reload` says.
    #[tactic(auto, using(crate::proofs::PastIksns::different_push))]
    pub fn reload(&self, initial: Key<16>, iksn: Iksn) -> Result<Registers, ReloadFault>
        ensures iksn_spent { (result ≡ Err ReloadFault.IksnSpent) ↔ IsSpentIksn iksn self.now }
        ensures loads_spent { (result ≡ Err ReloadFault.LoadsSpent)
            ↔ ((¬ IsSpentIksn iksn self.now) × (length self.now.past ≡ 8)) }
        ensures reloaded { IfOk result (IsReloaded initial iksn self.now) }
    {
        self.check_reload(iksn)?;
        let past = self.past.with(self.iksn);
        Ok(Registers::before_first(&initial, iksn, past))
    }

    /// Registers before the first number of an initial key.
    fn before_first(initial: &Key<16>, iksn: Iksn, past: Past) -> Registers
        requires iksns { All IsIksn past }
        requires at_most_8 { length past ≤ 8 }
        requires different { AllPairs (λ one other. one ≢ other) past }
        requires not_past { ¬ Contains past iksn }
        ensures iksn { result.iksn ≡ iksn }
        ensures counter { result.counter ≡ 1 }
        ensures past { result.past ≡ past }
        ensures future_keys { AreFutureKeysOf initial.now result }
        ensures set { IsRegisterSet result }
    {
        laws::first();
        Registers {
            iksn,
            counter: 1,
            registers: first_registers(initial, iksn),
            past,
        }
    }

    /// The key serial number that the terminal uses next, or none if it is spent.
    pub fn ksn(&self) -> Option<Ksn>
        ensures { result ≡ (if self.now.counter == spent_counter
            then None
            else Some (record { iksn = self.now.iksn; counter = self.now.counter })) }
    {
        duk_tree::laws::bits();
        if self.counter == SPENT {
            return None;
        }
        Some(self.iksn.with_counter(self.counter))
    }

    /// Uses the next number: its key, its key serial number, and the registers afterwards. The
    /// register of its node is emptied; where the registers stood for an initial key, each one
    /// afterwards is empty or has the key of a node that is not used. A terminal that is spent is
    /// handed back.
    pub fn take(self) -> Result<(Key<16>, Ksn, Registers), Registers>
        ensures spent { IsErr result ↔ (self.counter ≡ spent_counter) }
        ensures set { IsRegisterSet self }
        ensures usable { OnOk result (IsUsable self.counter) }
        ensures unchanged { IfErr result (λ registers. registers ≡ self) }
        ensures serial { IfOk result
            (λ taken. taken.1 ≡ record { iksn = self.iksn; counter = self.counter }) }
        ensures taken { IfOk result (λ taken. IsTaken self taken.0 taken.2) }
        ensures future_keys { (initial : List ℕ) → AreFutureKeysOf initial self
            → IfOk result
            (λ taken. (taken.0 ≡ transaction_key_of initial self.iksn self.counter)
            × AreFutureKeysOf initial taken.2) }
    {
        let mut left = self;
        match left.use_next() {
            Some((key, ksn)) => Ok((key, ksn, left)),
            None => Err(left),
        }
    }

    /// Uses the next number as `take` does, in place. None: the terminal is spent, and nothing
    /// changes.
    pub fn use_next(&mut self) -> Option<(Key<16>, Ksn)>
        ensures spent { IsNone result ↔ (self.old.counter ≡ spent_counter) }
        ensures set { IsRegisterSet self.old }
        ensures usable { IfSome result (λ taken. IsUsable self.old.counter) }
        ensures unchanged { IsNone result → self.new ≡ self.old }
        ensures serial { IfSome result
            (λ taken. taken.1 ≡ record { iksn = self.old.iksn; counter = self.old.counter }) }
        ensures taken { IfSome result (λ taken. IsTaken self.old taken.0 self.new) }
        ensures future_keys { (initial : List ℕ) → AreFutureKeysOf initial self.old
            → IfSome result
            (λ taken. (taken.0 ≡ transaction_key_of initial self.old.iksn self.old.counter)
            × AreFutureKeysOf initial self.new) }
    {
        duk_tree::laws::bits();
        laws::transactions();
        let counter = self.counter;
        if counter == SPENT {
            return None;
        }
        let place = counter.trailing_zeros() as usize;
        let key = self.registers[place];
        self.registers[place] = no_key();
        fill_below(&mut self.registers, &key, self.iksn, counter);
        self.counter = next_usable(counter).unwrap_or(SPENT);
        Some((key, self.iksn.with_counter(counter)))
    }

    /// The image that a terminal stores: version 2, the initial key serial number in 10 bytes, the
    /// next counter in 3 (200000 where it is spent), the registers of 16 bytes, register 0 first,
    /// how many initial key serial numbers are past in 1, and eight places of 10 bytes with these,
    /// in order of their loading, and zeros after them.
    pub fn image(&self) -> [u8; IMAGE_LENGTH]
        ensures image { result ≡ image_bytes self.now }
        ensures is_image { IsImage result }
        ensures read { set_in result ≡ self.now }
        ensures set { IsRegisterSet self.now }
        ensures sixteen { HaveSixteenBytes self.now.registers }
    {
        duk_tree::laws::bits();
        laws::images();
        write_image(self.iksn, self.counter, &self.registers, self.past.iksns())
    }

    /// The registers of an image of version 2 or 1, where these bytes are one. In version 1 no
    /// initial key serial number is past.
    pub fn from_image(image: &[u8]) -> Option<Registers>
        ensures found { IsSome result ↔ IsImage image.now }
        ensures set { IfSome result (λ registers. registers ≡ set_in image.now) }
        ensures version_2 { IfSome result (λ registers. slice_index image.now 0 ≡ 2
            → image_bytes registers ≡ image.now) }
        ensures version_1 { IfSome result (λ registers. slice_index image.now 0 ≡ 1
            → image_bytes_of_version_1 registers ≡ image.now) }
        ensures no_past { IfSome result (λ registers. slice_index image.now 0 ≡ 1
            → registers.past ≡ []) }
    {
        let (iksn, counter, registers, past) = read_image(image)?;
        Some(Registers {
            iksn,
            counter,
            registers,
            past,
        })
    }
}

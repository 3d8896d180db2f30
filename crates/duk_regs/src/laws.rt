//! Laws of the registers, each the contract of a function that does nothing.

ghost use Rattle.std.specs.Prelude.{◌≡◌, ◌<◌, ◌≤◌, ◌⊎◌, ◌^◌, [], ℕ, List, length};
ghost use Rattle.duk_tdes.specs.Key.{IsKey};
ghost use Rattle.duk_tree.specs.Path.{IsUsable};
ghost use Rattle.duk_tree.specs.Derivation.{step_of, transaction_key_of};
ghost use Rattle.duk_tree.specs.Serial.{low_bytes};
ghost use Rattle.duk_regs.specs.Registers.{HaveSixteenBytes, RegisterSet, IsRegisterSet, AreFutureKeysOf, IsTaken, IsKeyOfNode, register_at, empty_register};
ghost use Rattle.duk_regs.specs.Image.{IsImage, IsImageOfVersion1, IsImageOfVersion2, image_bytes, image_bytes_of_version_1, set_in};
ghost use Rattle.duk_regs.specs.declared.past.Past.TheInside as past;
ghost use Rattle.duk_regs.specs.declared.past.Past.TheView as past_view;
ghost use Rattle.duk_regs.specs.declared.registers.Registers.TheInside as registers;
ghost use Rattle.duk_regs.specs.declared.registers.Registers.TheView as registers_view;

/// Registers with the keys of the powers of two hold the future keys of the initial key at the
/// first number.
pub fn first()
    ensures usable { IsUsable 1 }
    ensures future_keys { (initial : List ℕ) (set : RegisterSet) → set.counter ≡ 1
        → length set.registers ≡ 21
        → ((place : ℕ) → place < 21
        → register_at set.registers place
        ≡ step_of initial (low_bytes (record { iksn = set.iksn; counter = 2 ^ place })))
        → AreFutureKeysOf initial set }
{
    duk_tree::laws::paths();
    duk_tree::laws::bits();
    duk_tree::laws::moves();
}

/// A transaction takes the key of its number from registers with the future keys of an initial key,
/// and leaves registers with the future keys of it at the next number.
pub fn transactions()
    ensures key { (initial : List ℕ) (old new : RegisterSet) (key : List ℕ) → IsUsable old.counter
        → IsTaken old key new
        → AreFutureKeysOf initial old
        → key ≡ transaction_key_of initial old.iksn old.counter }
    ensures future_keys { (initial : List ℕ) (old new : RegisterSet) (key : List ℕ)
        → IsUsable old.counter
        → IsTaken old key new
        → AreFutureKeysOf initial old
        → AreFutureKeysOf initial new }
    ensures set { (old new : RegisterSet) (key : List ℕ) → IsUsable old.counter
        → IsTaken old key new
        → IsRegisterSet old
        → IsRegisterSet new }
{
    duk_tree::laws::paths();
    duk_tree::laws::bits();
    duk_tree::laws::frontier();
    duk_tree::laws::moves();
    duk_tree::laws::children();
}

/// Each register holds no key or that of a node of the frontier. So an initial key, a serial
/// number, a counter and the past serial numbers determine what a terminal keeps.
pub fn uniqueness()
    ensures register { (initial : List ℕ) (set : RegisterSet) (place : ℕ) → 1 ≤ set.counter
        → AreFutureKeysOf initial set → place < 21
        → (register_at set.registers place ≡ empty_register) ⊎ IsKeyOfNode initial set place }
    ensures same { (initial : List ℕ) (one other : RegisterSet) → 1 ≤ one.counter
        → one.iksn ≡ other.iksn → one.counter ≡ other.counter → one.past ≡ other.past
        → AreFutureKeysOf initial one → AreFutureKeysOf initial other
        → one ≡ other }
{
    duk_tree::laws::candidates();
}

/// Registers with the future keys of an initial key have sixteen bytes each.
pub fn sixteen_bytes()
    ensures { (initial : List ℕ) (set : RegisterSet) → IsKey 16 initial → IsRegisterSet set
        → AreFutureKeysOf initial set
        → HaveSixteenBytes set.registers }
{
    duk_tree::laws::keys();
    duk_tree::laws::bits();
    uniqueness();
}

/// What a terminal keeps is found again in its image, and in that of version 1 where none of its
/// initial key serial numbers is past.
pub fn images()
    ensures length { (set : RegisterSet) → IsRegisterSet set
        → HaveSixteenBytes set.registers
        → length (image_bytes set) ≡ 431 }
    ensures read { (set : RegisterSet) → IsRegisterSet set
        → HaveSixteenBytes set.registers
        → set_in (image_bytes set) ≡ set }
    ensures is_image { (set : RegisterSet) → IsRegisterSet set
        → HaveSixteenBytes set.registers
        → IsImage (image_bytes set) }
    ensures length_of_version_1 { (set : RegisterSet) → IsRegisterSet set
        → HaveSixteenBytes set.registers
        → length (image_bytes_of_version_1 set) ≡ 350 }
    ensures read_of_version_1 { (set : RegisterSet) → IsRegisterSet set
        → HaveSixteenBytes set.registers
        → set.past ≡ []
        → set_in (image_bytes_of_version_1 set) ≡ set }
    ensures is_image_of_version_1 { (set : RegisterSet) → IsRegisterSet set
        → HaveSixteenBytes set.registers
        → IsImage (image_bytes_of_version_1 set) }
    ensures length_as_version_2 { (image : List ℕ) → IsImageOfVersion2 image
        → length image ≡ 431 }
    ensures length_as_version_1 { (image : List ℕ) → IsImageOfVersion1 image
        → length image ≡ 350 }
{
    duk_tree::laws::serials();
    duk_tree::laws::bits();
}

/// Nothing is hidden beside what contracts see: registers that are equal to them are equal in each
/// field.
pub fn nothing_else()
    ensures registers { (one other : registers.Inside)
        → registers_view.view one ≡ registers_view.view other → one ≡ other }
    ensures past { (one other : past.Inside)
        → past_view.invariant one → past_view.invariant other
        → past_view.view one ≡ past_view.view other → one ≡ other }
{}

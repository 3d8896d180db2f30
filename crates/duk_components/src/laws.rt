//! Laws of components, each the contract of a function that does nothing.

ghost use Rattle.std.specs.Prelude.{◌≡◌, ◌++◌, ◌∷◌, ◌/◌, ◌%◌, List, Some, count_ones, ℕ};
ghost use Rattle.std.specs.List.{AllByRecursion};
ghost use Rattle.std.specs.List.Sorted.{IsPermutation};
ghost use Rattle.duk_commands.specs.CheckValues.{combined};
ghost use Rattle.duk_components.specs.Components.{IsOfSize, component_of};
ghost use Rattle.duk_components.specs.NewComponent.{IsWholeKey, with_odd_parity, written_component};
ghost use Rattle.duk_tdes.specs.KeyBytes.{bytes_of};
ghost use Rattle.duk_tdes.specs.declared.key.KeyBytes.{KeyBytes as KeyValue};

/// All components but one leave every local master key of their length possible: whatever key it is,
/// there is a component for the place of the missing one with which it comes out.
pub fn every_key()
    ensures { (size : ℕ) (before after : List KeyValue) (lmk : KeyValue)
        → AllByRecursion (IsOfSize size) before → AllByRecursion (IsOfSize size) after
        → IsOfSize size lmk → (last : KeyValue) × IsOfSize size last
        × (combined (before ++ last ∷ after) ≡ bytes_of lmk) }
{
    duk_tdes::laws::keys();
}

/// The local master key is the same in whatever order its components come.
pub fn any_order()
    ensures { (size : ℕ) (components others : List KeyValue)
        → AllByRecursion (IsOfSize size) components → IsPermutation components others
        → combined components ≡ combined others }
{}

/// The line of a component is read as that component.
pub fn written_is_read()
    ensures { (key : KeyValue) → IsWholeKey key
        → component_of (written_component key) ≡ Some key }
{
    duk_tdes::laws::blocks();
}

/// Odd parity makes the number of one bits in a byte odd, and changes its last bit alone.
pub fn odd_parity()
    ensures odd { (byte : ℕ) → count_ones (with_odd_parity byte) % 2 ≡ 1 }
    ensures others { (byte : ℕ) → with_odd_parity byte / 2 ≡ byte / 2 }
{}

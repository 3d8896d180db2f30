//! Words that hold one bit of each lane.

ghost use Rattle.std.specs.Prelude.{◌≡◌, ◌<◌, ℕ, Bool, not, ◌&&◌, ◌||◌};
ghost use Rattle.std.specs.Bool.{xor};

/// A word that holds one bit of each lane, and the gates over all of its lanes.
pub trait Lanes: Copy {
    ghost use Rattle.std.specs.Prelude.{ℕ, Bool};

    /// How many lanes a word has.
    ghost count: { ℕ };

    /// The bit of a word in a lane, counted from 0.
    ghost lane: { Self → ℕ → Bool };

    fn and(self, other: Self) -> Self
        ensures { (i : ℕ) → i < count → lane result i ≡ lane self i && lane other i };

    fn or(self, other: Self) -> Self
        ensures { (i : ℕ) → i < count → lane result i ≡ lane self i || lane other i };

    fn xor(self, other: Self) -> Self
        ensures { (i : ℕ) → i < count → lane result i ≡ xor (lane self i) (lane other i) };

    /// What this word has and the other one has not.
    fn and_not(self, other: Self) -> Self
        ensures { (i : ℕ) → i < count → lane result i ≡ lane self i && not (lane other i) };

    fn not(self) -> Self
        ensures { (i : ℕ) → i < count → lane result i ≡ not (lane self i) };
}

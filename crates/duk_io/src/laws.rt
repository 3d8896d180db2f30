//! Laws of writing and reading, each the contract of a function that does nothing.

ghost use Rattle.std.specs.Prelude.{◌++◌, ◌+◌, ℕ, List, [], Option};
ghost use Rattle.duk_io.specs.Known.{Rose, Stayed, Known};
ghost use Rattle.duk_io.specs.Sink.{IsCut, IsTried, IsUntouched, IsWritten};
ghost use Rattle.duk_io.specs.Source.{AreBytesRead, AreReadsMade, IsBroken};

/// What writes leave that come one after another, from what each of them leaves.
pub fn writes()
    ensures none { (now : Known) → IsWritten now now [] }
    ensures untouched { (now : Known) → IsUntouched now now }
    ensures then { (before between after : Known) (first second : List ℕ)
        → IsWritten before between first
        → IsWritten between after second → IsWritten before after (first ++ second) }
    ensures cut_later { (before between after : Known) (first second : List ℕ)
        → IsWritten before between first
        → IsCut between after second → IsCut before after (first ++ second) }
    ensures tried_later { (before between after : Known) (text : List ℕ)
        → IsUntouched before between
        → IsTried between after text → IsTried before after text }
{}

/// What two calls leave of a count of failures, from what each of them leaves of it.
pub fn failures()
    ensures stayed { (before between after : Option ℕ) → Stayed before between
        → Stayed between after
        → Stayed before after }
    ensures rose { (before between after : Option ℕ) → Stayed before between → Rose between after
        → Rose before after }
{}

/// What reads leave that come one after another, from what each of them leaves.
pub fn reads()
    ensures none { (now : Known) → AreBytesRead now now [] }
    ensures then { (before between after : Known) (first second : List ℕ)
        → AreBytesRead before between first
        → AreBytesRead between after second → AreBytesRead before after (first ++ second) }
    ensures broken_later { (before between after : Known) (first second : List ℕ)
        → AreBytesRead before between first
        → IsBroken between after second → IsBroken before after (first ++ second) }
    ensures no_reads { (now : Option ℕ) → AreReadsMade now now 0 }
    ensures more_reads { (before between after : Option ℕ) (first second : ℕ)
        → AreReadsMade before between first
        → AreReadsMade between after second → AreReadsMade before after (first + second) }
{}

//! Laws of the check sum, each the contract of a function that does nothing.

ghost use Rattle.std.specs.Prelude.{◌≡◌, ◌<◌, ◌^◌, ◌++◌, ◌∷◌, ℕ, List, All};
ghost use Rattle.duk_crc.specs.Crc32.{crc32};

/// Bytes of which one was changed, at whatever place, have another check sum.
pub fn one_byte()
    ensures { (before after : List ℕ) (one other : ℕ)
        → All (λ byte. byte < 2 ^ 8) (before ++ one ∷ after) → other < 2 ^ 8
        → crc32 (before ++ one ∷ after) ≡ crc32 (before ++ other ∷ after) → one ≡ other }
{}

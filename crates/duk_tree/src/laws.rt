//! Laws of the key tree and of key serial numbers, each the contract of a function that does
//! nothing.

ghost use Rattle.std.specs.Prelude.{◌≡◌, ◌<◌, ◌^◌, ℕ, List, length, ◌≢◌, ◌≤◌, ◌+◌, ◌⊎◌, ◌↔◌, [], ◌∷◌, ◌++◌, count_ones};
ghost use Rattle.std.specs.List.{All, Contains};
ghost use Rattle.duk_des.specs.Block.{IsBlock};
ghost use Rattle.duk_tdes.specs.Key.{IsKey};
ghost use Rattle.duk_tree.specs.Derivation.{initial_key_of, step_of, node_key, pin_key_of, request_key_of, response_key_of};
ghost use Rattle.duk_tree.specs.Path.{IsPath, value_of, path_of, IsUsable, last_place};
ghost use Rattle.duk_tree.specs.Serial.{Serial, IsSerial, iksn_prefix_of, prefix_of, serial_bytes, serial_of_bytes};
ghost use Rattle.std.specs.Int.{trailing_zeros, w32};
ghost use Rattle.duk_tree.specs.Next.{ComesAfter, IsChainAfter};
ghost use Rattle.duk_tree.specs.Frontier.{IsInFrontier, HasOneInFrontier, IsAncestorOrSelf, IsChild, candidate_at};

/// Each counter of 21 bits is the value of exactly one path.
pub fn paths()
    ensures path_of_counter { (counter : ℕ) → counter < 2 ^ 21 → IsPath (path_of counter) }
    ensures value { (counter : ℕ) → counter < 2 ^ 21 → value_of (path_of counter) ≡ counter }
    ensures counter_of_path { (path : List ℕ) → IsPath path → value_of path < 2 ^ 21 }
    ensures only { (path : List ℕ) → IsPath path → path_of (value_of path) ≡ path }
{}

/// A key serial number is written as ten bytes and found again in them, and any ten bytes are those
/// of one.
pub fn serials()
    ensures ten { (serial : Serial) → length (serial_bytes serial) ≡ 10 }
    ensures are_bytes { (serial : Serial) → All (λ byte. byte < 2 ^ 8) (serial_bytes serial) }
    ensures found { (serial : Serial) → IsSerial serial
        → serial_of_bytes (serial_bytes serial) ≡ serial }
    ensures written { (bytes : List ℕ) → length bytes ≡ 10 → All (λ byte. byte < 2 ^ 8) bytes
        → serial_bytes (serial_of_bytes bytes) ≡ bytes }
    ensures serial { (bytes : List ℕ) → All (λ byte. byte < 2 ^ 8) bytes
        → IsSerial (serial_of_bytes bytes) }
{}

/// A key serial number has the prefix of its initial key serial number. So all the numbers of a
/// terminal have one base derivation key, that from which its initial key is made.
#[tactic(auto, using(crate::proofs::OnePrefix::one_prefix))]
pub fn prefixes()
    ensures { (ksn : Serial) → IsSerial ksn → prefix_of ksn ≡ iksn_prefix_of ksn.iksn }
{}

/// Every key of the tree and every variant is a key of sixteen bytes.
pub fn keys()
    ensures initial { (bdk : List ℕ) (iksn : ℕ) → IsKey 16 bdk
        → IsKey 16 (initial_key_of bdk iksn) }
    ensures child { (key crypto_register : List ℕ) → IsKey 16 key → IsBlock crypto_register
        → IsKey 16 (step_of key crypto_register) }
    ensures node { (initial : List ℕ) (iksn : ℕ) (path : List ℕ) → IsKey 16 initial
        → IsKey 16 (node_key initial iksn path) }
    ensures pin { (key : List ℕ) → IsKey 16 key → IsKey 16 (pin_key_of key) }
    ensures request { (key : List ℕ) → IsKey 16 key → IsKey 16 (request_key_of key) }
    ensures response { (key : List ℕ) → IsKey 16 key → IsKey 16 (response_key_of key) }
{
    duk_des::laws::inverse();
    duk_tdes::laws::inverse();
    duk_tdes::laws::keys();
}

/// A usable counter has 21 bits, and a path of one to ten places. A counter has as many one bits as
/// its path has places, and the lowest of them at the last place.
pub fn bits()
    ensures usable { (counter : ℕ) → IsUsable counter
        → (counter < 2 ^ 21) × (1 ≤ length (path_of counter)) × (length (path_of counter) ≤ 10) }
    ensures place { (counter : ℕ) → IsUsable counter → last_place (path_of counter) < 21 }
    ensures ones { (counter : ℕ) → counter < 2 ^ 21
        → count_ones counter ≡ length (path_of counter) }
    ensures lowest { (counter : ℕ) → 0 < counter → counter < 2 ^ 21
        → trailing_zeros w32 counter ≡ last_place (path_of counter) }
{}

/// The frontier covers the usable numbers that are left, each once, and none that is used; no two
/// of its nodes have one last place.
pub fn frontier()
    ensures one { (counter node : ℕ) → 1 ≤ counter → IsUsable node → counter ≤ node
        → HasOneInFrontier counter node }
    ensures none_used { (counter held node : ℕ) → counter ≤ 2 ^ 21 → IsInFrontier counter held
        → node < counter
        → ¬ IsAncestorOrSelf held node }
    ensures places { (counter a b : ℕ) → IsInFrontier counter a → IsInFrontier counter b
        → last_place (path_of a) ≡ last_place (path_of b)
        → a ≡ b }
{}

/// The first frontier is the powers of two. From a number to the next, the frontier loses that
/// number and gains its usable children.
pub fn moves()
    ensures first { (node : ℕ) → IsInFrontier 1 node ↔ ((place : ℕ) × (place < 21) × (node ≡ 2 ^ place)) }
    ensures moves { (counter next node : ℕ) → IsUsable counter → ComesAfter counter next
        → IsInFrontier next node
        ↔ ((IsInFrontier counter node × (node ≢ counter)) ⊎ (IsUsable node × IsChild counter node)) }
{}

/// The children of a usable number stand at the places below its last one, and are usable where it
/// has fewer than ten ones.
pub fn children()
    ensures child { (counter place : ℕ) → IsUsable counter → length (path_of counter) < 10
        → place < last_place (path_of counter)
        → IsUsable (counter + 2 ^ place)
        × (path_of (counter + 2 ^ place) ≡ place ∷ path_of counter) }
    ensures value { (counter child place : ℕ) → IsUsable counter → IsUsable child
        → path_of child ≡ place ∷ path_of counter
        → (place < last_place (path_of counter)) × (child ≡ counter + 2 ^ place) }
{}

/// At each place the frontier has one candidate, the only node that it may have there.
pub fn candidates()
    ensures held { (counter node : ℕ) → IsInFrontier counter node
        → node ≡ candidate_at counter (last_place (path_of node)) }
    ensures candidate { (counter place : ℕ) → 1 ≤ counter → place < 21
        → IsUsable (candidate_at counter place)
        → counter ≤ candidate_at counter place
        → IsInFrontier counter (candidate_at counter place)
        × (last_place (path_of (candidate_at counter place)) ≡ place) }
    ensures either { (counter place : ℕ) → 1 ≤ counter → place < 21
        → (IsInFrontier counter (candidate_at counter place)
        × (last_place (path_of (candidate_at counter place)) ≡ place))
        ⊎ ((node : ℕ) → IsInFrontier counter node → last_place (path_of node) ≢ place) }
{}

/// A terminal has 1,048,575 numbers. After each counter there is one chain of numbers, each the
/// least usable one above the one before it, as `next_usable` finds it, and none above the last.
/// After zero it has all the usable counters (ANSI X9.24-1:2009 annex A), 1,048,575 of them, and
/// ends at 1FF800.
pub fn chain()
    ensures exists { (counter : ℕ) → (numbers : List ℕ) × IsChainAfter counter numbers }
    ensures only { (counter : ℕ) (a b : List ℕ) → IsChainAfter counter a → IsChainAfter counter b
        → a ≡ b }
    ensures all { (numbers : List ℕ) → IsChainAfter 0 numbers
        → (counter : ℕ) → Contains numbers counter ↔ IsUsable counter }
    ensures count { (numbers : List ℕ) → IsChainAfter 0 numbers → length numbers ≡ 1_048_575 }
    ensures last { (numbers : List ℕ) → IsChainAfter 0 numbers
        → (earlier : List ℕ) × (numbers ≡ earlier ++ 0x1F_F800 ∷ []) }
{}

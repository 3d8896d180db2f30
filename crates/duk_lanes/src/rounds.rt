//! The rounds of DES in lanes (NIST SP 800-67 section 2).

ghost use Rattle.std.specs.Prelude.{◌≡◌, ◌<◌, ◌≤◌, ℕ, IsTrue, length, map, nat_le};
ghost use Rattle.std.specs.List.{list_all};
ghost use Rattle.duk_des.specs.Bits.{permute, xor_bits};
ghost use Rattle.duk_des.specs.Des.{Halves, cipher_function, rounds};
ghost use Rattle.duk_lanes.specs.Lanes.{lane_of};
ghost use Rattle.duk_lanes.specs.inner.Schedule.{round_key_at};
ghost use Rattle.duk_lanes.specs.inner.Wiring.{are_places};

use crate::Lanes;
use crate::boxes::{select1, select2, select3, select4, select5, select6, select7, select8};
use crate::wiring::{EXPANSION_PLACES, OUTPUT_PLACES, ROUND_KEY_PLACES, wired, xor_at, xor_into};

/// Xors into L what a selection function gives of its six bits of E(R) xor K.
macro_rules! add_box {
    ($left:ident $right:ident $half:ident: $select:ident $row:literal) => {
        let six = keyed(
            &EXPANSION_PLACES[$row],
            $right,
            &ROUND_KEY_PLACES[$row],
            $half,
        );
        let four = $select(six[0], six[1], six[2], six[3], six[4], six[5]);
        xor_at($left, &OUTPUT_PLACES[$row], &four);
    };
}

/// Sixteen rounds on the halves L and R of a block: L' = R, and R' = L xor f(R, K). The halves C and
/// D of a key are each written twice, and `totals` says how far they are rotated in all in each
/// round.
pub(crate) fn rounds<L: Lanes>(
    left: &mut [L; 32],
    right: &mut [L; 32],
    c: &[L; 56],
    d: &[L; 56],
    totals: &[u8; 16],
)
    requires { IsTrue (list_all (λ total. nat_le total 28) totals.now) }
    ensures { (i : ℕ) → i < L.count
        → let keys = map (round_key_at (lane_of L.lane i c.now) (lane_of L.lane i d.now)) totals.now in
        let before : Halves =
        record { left = lane_of L.lane i left.old; right = lane_of L.lane i right.old } in
        record { left = lane_of L.lane i left.new; right = lane_of L.lane i right.new }
        ≡ rounds keys before }
{
    for k in 0..8 {
        add_function(left, right, c, d, totals[2 * k] as usize);
        add_function(right, left, c, d, totals[2 * k + 1] as usize);
    }
}

/// Xors f(R, K) into L, where K is the round key of C and D, rotated by this many places in all.
#[inline(always)]
fn add_function<L: Lanes>(
    left: &mut [L; 32],
    right: &[L; 32],
    c: &[L; 56],
    d: &[L; 56],
    total: usize,
)
    requires { total ≤ 28 }
    ensures { (i : ℕ) → i < L.count
        → lane_of L.lane i left.new
        ≡ xor_bits (lane_of L.lane i left.old)
        (cipher_function (lane_of L.lane i right.now)
        (round_key_at (lane_of L.lane i c.now) (lane_of L.lane i d.now) total)) }
{
    let c = &c[..];
    let d = &d[..];
    let end = total + 28;
    let c = &c[total..end];
    let d = &d[total..end];
    add_box!(left right c: select1 0);
    add_box!(left right c: select2 1);
    add_box!(left right c: select3 2);
    add_box!(left right c: select4 3);
    add_box!(left right d: select5 4);
    add_box!(left right d: select6 5);
    add_box!(left right d: select7 6);
    add_box!(left right d: select8 7);
}

/// The six bits of E(R) xor K that a selection function takes.
#[inline(always)]
fn keyed<L: Lanes>(places: &[u8; 6], right: &[L; 32], key_places: &[u8; 6], half: &[L]) -> [L; 6]
    requires places { IsTrue (are_places 32 places.now) }
    requires key_places { IsTrue (are_places 28 key_places.now) }
    requires half { length half.now ≡ 28 }
    ensures { (i : ℕ) → i < L.count
        → lane_of L.lane i result
        ≡ xor_bits (permute places.now (lane_of L.lane i right.now))
        (permute key_places.now (lane_of L.lane i half.now)) }
{
    let mut sum = wired(places, right);
    xor_into(&mut sum, &wired(key_places, half));
    sum
}

//! S4 as a circuit. Made by tools/circuits of tools/circuits.txt.

ghost use Rattle.std.specs.Prelude.{◌≡◌, ◌<◌, ℕ, [], ◌∷◌};
ghost use Rattle.duk_des.specs.Des.{substitute};
ghost use Rattle.duk_des.specs.Tables.{box4};
ghost use Rattle.duk_lanes.specs.Lanes.{lane_of};

use crate::lanes::Lanes;

/// The selection function S4 in each lane: 36 gates.
pub(crate) fn select4<L: Lanes>(a: L, b: L, c: L, d: L, e: L, f: L) -> [L; 4]
    ensures { (i : ℕ) → i < L.count → lane_of L.lane i result
        ≡ substitute box4 (L.lane a i ∷ L.lane b i ∷ L.lane c i ∷ L.lane d i ∷ L.lane e i ∷ L.lane f i ∷ []) }
{
    let x1 = e.xor(d);
    let x2 = x1.and(e);
    let x3 = x2.xor(c);
    let x4 = x3.and(x1);
    let x5 = x4.xor(d);
    let x6 = a.and_not(x5);
    let x7 = x6.or(b);
    let x8 = x3.and(d);
    let x9 = x6.xor(x1);
    let x10 = x9.not();
    let x11 = x10.xor(b);
    let x12 = x8.and(x11);
    let x13 = x7.xor(x12);
    let x14 = a.and_not(x13);
    let x15 = e.and_not(x14);
    let x16 = x3.xor(a);
    let x17 = x16.xor(x11);
    let x18 = x17.or(x4);
    let x19 = x15.xor(x18);
    let x20 = x19.xor(f);
    let x21 = x20.and(x19);
    let x22 = x19.and(d);
    let x23 = x22.xor(c);
    let x24 = x23.or(b);
    let x25 = x10.xor(x24);
    let x26 = x25.xor(x5);
    let x27 = x21.xor(x26);
    let x28 = x20.xor(x27);
    let x29 = x13.and(x3);
    let x30 = x29.xor(x11);
    let x31 = x30.or(f);
    let x32 = x16.xor(x13);
    let x33 = x31.xor(x32);
    let x34 = x33.xor(x30);
    let x35 = x34.not();
    let x36 = x35.xor(f);
    [x27, x28, x36, x33]
}

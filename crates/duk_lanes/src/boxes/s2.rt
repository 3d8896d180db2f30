//! S2 as a circuit. Made by tools/circuits of tools/circuits.txt.

ghost use Rattle.std.specs.Prelude.{◌≡◌, ◌<◌, ℕ, [], ◌∷◌};
ghost use Rattle.duk_des.specs.Des.{substitute};
ghost use Rattle.duk_des.specs.Tables.{box2};
ghost use Rattle.duk_lanes.specs.Lanes.{lane_of};

use crate::lanes::Lanes;

/// The selection function S2 in each lane: 50 gates.
pub(crate) fn select2<L: Lanes>(a: L, b: L, c: L, d: L, e: L, f: L) -> [L; 4]
    ensures { (i : ℕ) → i < L.count → lane_of L.lane i result
        ≡ substitute box2 (L.lane a i ∷ L.lane b i ∷ L.lane c i ∷ L.lane d i ∷ L.lane e i ∷ L.lane f i ∷ []) }
{
    let x1 = e.xor(b);
    let x2 = x1.xor(f);
    let x3 = f.or(a);
    let x4 = x2.xor(x3);
    let x5 = x4.and(e);
    let x6 = x5.or(x1);
    let x7 = a.xor(b);
    let x8 = x7.or(x2);
    let x9 = x8.and(x6);
    let x10 = x5.or(b);
    let x11 = x10.not();
    let x12 = x9.or(x11);
    let x13 = x2.and_not(x9);
    let x14 = x7.xor(x13);
    let x15 = x12.and_not(x14);
    let x16 = x5.xor(x3);
    let x17 = x16.and(x12);
    let x18 = x14.and_not(x17);
    let x19 = c.and_not(x18);
    let x20 = d.and_not(x11);
    let x21 = x19.xor(x20);
    let x22 = x15.xor(x21);
    let x23 = x6.xor(x22);
    let x24 = f.and(c);
    let x25 = x11.xor(f);
    let x26 = x25.xor(x5);
    let x27 = x26.xor(x13);
    let x28 = x24.or(x27);
    let x29 = x28.and(d);
    let x30 = x6.xor(x29);
    let x31 = x30.xor(x7);
    let x32 = x26.or(c);
    let x33 = x31.xor(x32);
    let x34 = x12.and(d);
    let x35 = x34.xor(x8);
    let x36 = x35.xor(x25);
    let x37 = x36.and_not(x13);
    let x38 = x37.xor(f);
    let x39 = c.and_not(x17);
    let x40 = x38.and_not(x39);
    let x41 = x1.xor(x40);
    let x42 = x41.and_not(x23);
    let x43 = x42.or(x26);
    let x44 = x43.and(c);
    let x45 = x36.xor(x39);
    let x46 = x45.and_not(x30);
    let x47 = x46.xor(x20);
    let x48 = x44.xor(x47);
    let x49 = x41.and(a);
    let x50 = x48.xor(x49);
    [x23, x33, x50, x45]
}

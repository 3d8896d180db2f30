//! S7 as a circuit. Made by tools/circuits of tools/circuits.txt.

ghost use Rattle.std.specs.Prelude.{◌≡◌, ◌<◌, ℕ, [], ◌∷◌};
ghost use Rattle.duk_des.specs.Des.{substitute};
ghost use Rattle.duk_des.specs.Tables.{box7};
ghost use Rattle.duk_lanes.specs.Lanes.{lane_of};

use crate::lanes::Lanes;

/// The selection function S7 in each lane: 49 gates.
pub(crate) fn select7<L: Lanes>(a: L, b: L, c: L, d: L, e: L, f: L) -> [L; 4]
    ensures { (i : ℕ) → i < L.count → lane_of L.lane i result
        ≡ substitute box7 (L.lane a i ∷ L.lane b i ∷ L.lane c i ∷ L.lane d i ∷ L.lane e i ∷ L.lane f i ∷ []) }
{
    let x1 = e.and(d);
    let x2 = b.and_not(x1);
    let x3 = x2.not();
    let x4 = x1.xor(b);
    let x5 = x3.xor(x4);
    let x6 = x4.xor(d);
    let x7 = x3.or(x6);
    let x8 = x7.and(c);
    let x9 = x8.xor(b);
    let x10 = x9.xor(d);
    let x11 = x5.and_not(x10);
    let x12 = c.xor(x6);
    let x13 = x11.or(x12);
    let x14 = x4.xor(a);
    let x15 = x13.xor(x14);
    let x16 = b.and_not(x12);
    let x17 = x15.and_not(x16);
    let x18 = f.and_not(x17);
    let x19 = x18.xor(x16);
    let x20 = x19.xor(x6);
    let x21 = x11.and(a);
    let x22 = x20.xor(x21);
    let x23 = x22.xor(x5);
    let x24 = x23.xor(e);
    let x25 = x18.and_not(x8);
    let x26 = x25.xor(x11);
    let x27 = x26.xor(f);
    let x28 = x24.xor(x27);
    let x29 = c.and_not(x6);
    let x30 = x14.xor(e);
    let x31 = x29.xor(x30);
    let x32 = c.xor(x30);
    let x33 = x32.and(x6);
    let x34 = x33.and(a);
    let x35 = x34.xor(x7);
    let x36 = x35.and(f);
    let x37 = x31.xor(x36);
    let x38 = x37.or(x30);
    let x39 = x38.xor(x15);
    let x40 = x39.and(x22);
    let x41 = x40.and(a);
    let x42 = x28.xor(x41);
    let x43 = d.and_not(x41);
    let x44 = x8.and_not(x43);
    let x45 = x3.and_not(x44);
    let x46 = x41.xor(x37);
    let x47 = x46.or(f);
    let x48 = x45.xor(x47);
    let x49 = x48.xor(x27);
    [x42, x24, x49, x37]
}

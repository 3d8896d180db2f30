//! S6 as a circuit. Made by tools/circuits of tools/circuits.txt.

ghost use Rattle.std.specs.Prelude.{◌≡◌, ◌<◌, ℕ, [], ◌∷◌};
ghost use Rattle.duk_des.specs.Des.{substitute};
ghost use Rattle.duk_des.specs.Tables.{box6};
ghost use Rattle.duk_lanes.specs.Lanes.{lane_of};

use crate::lanes::Lanes;

/// The selection function S6 in each lane: 51 gates.
pub(crate) fn select6<L: Lanes>(a: L, b: L, c: L, d: L, e: L, f: L) -> [L; 4]
    ensures { (i : ℕ) → i < L.count → lane_of L.lane i result
        ≡ substitute box6 (L.lane a i ∷ L.lane b i ∷ L.lane c i ∷ L.lane d i ∷ L.lane e i ∷ L.lane f i ∷ []) }
{
    let x1 = a.xor(d);
    let x2 = x1.and(b);
    let x3 = f.xor(e);
    let x4 = d.and(a);
    let x5 = x3.xor(x4);
    let x6 = x1.xor(x2);
    let x7 = a.and_not(x6);
    let x8 = f.and_not(x7);
    let x9 = x5.or(x8);
    let x10 = x1.xor(x9);
    let x11 = f.and_not(x10);
    let x12 = x11.or(x6);
    let x13 = x12.xor(x5);
    let x14 = x2.xor(x13);
    let x15 = x14.xor(x4);
    let x16 = x15.and_not(e);
    let x17 = x16.xor(b);
    let x18 = x17.not();
    let x19 = x18.xor(x10);
    let x20 = x19.xor(e);
    let x21 = x20.and(x11);
    let x22 = x21.xor(x18);
    let x23 = x22.or(c);
    let x24 = x23.xor(x15);
    let x25 = x13.and_not(f);
    let x26 = x25.or(x16);
    let x27 = x26.and(a);
    let x28 = x13.xor(x19);
    let x29 = x27.xor(x28);
    let x30 = x1.and_not(x8);
    let x31 = x30.xor(x19);
    let x32 = x11.and_not(x20);
    let x33 = x32.xor(x24);
    let x34 = x33.and(d);
    let x35 = x34.xor(x20);
    let x36 = x35.and_not(c);
    let x37 = x31.xor(x36);
    let x38 = x12.xor(x9);
    let x39 = x37.and(x38);
    let x40 = x39.or(c);
    let x41 = x29.xor(x40);
    let x42 = x37.or(x15);
    let x43 = x35.xor(x25);
    let x44 = x42.and_not(x43);
    let x45 = x44.or(f);
    let x46 = x45.and(e);
    let x47 = x43.and_not(e);
    let x48 = x47.or(c);
    let x49 = x46.xor(x48);
    let x50 = x49.xor(x14);
    let x51 = x50.xor(x19);
    [x24, x41, x51, x37]
}

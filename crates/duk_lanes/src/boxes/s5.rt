//! S5 as a circuit. Made by tools/circuits of tools/circuits.txt.

ghost use Rattle.std.specs.Prelude.{◌≡◌, ◌<◌, ℕ, [], ◌∷◌};
ghost use Rattle.duk_des.specs.Des.{substitute};
ghost use Rattle.duk_des.specs.Tables.{box5};
ghost use Rattle.duk_lanes.specs.Lanes.{lane_of};

use crate::lanes::Lanes;

/// The selection function S5 in each lane: 57 gates.
pub(crate) fn select5<L: Lanes>(a: L, b: L, c: L, d: L, e: L, f: L) -> [L; 4]
    ensures { (i : ℕ) → i < L.count → lane_of L.lane i result
        ≡ substitute box5 (L.lane a i ∷ L.lane b i ∷ L.lane c i ∷ L.lane d i ∷ L.lane e i ∷ L.lane f i ∷ []) }
{
    let x1 = a.xor(c);
    let x2 = x1.and_not(a);
    let x3 = x2.or(e);
    let x4 = x1.and_not(e);
    let x5 = x4.xor(b);
    let x6 = x5.xor(x2);
    let x7 = x3.xor(x6);
    let x8 = x1.xor(x2);
    let x9 = x7.or(x8);
    let x10 = x5.xor(a);
    let x11 = x10.and_not(x1);
    let x12 = e.xor(x11);
    let x13 = x12.xor(x3);
    let x14 = x13.or(d);
    let x15 = x7.xor(x14);
    let x16 = x15.or(e);
    let x17 = x9.xor(x16);
    let x18 = x10.and_not(x6);
    let x19 = x18.or(x4);
    let x20 = x19.xor(x11);
    let x21 = x20.and(d);
    let x22 = x17.xor(x21);
    let x23 = x19.xor(x1);
    let x24 = x12.and_not(x23);
    let x25 = x24.or(x8);
    let x26 = b.and_not(x25);
    let x27 = x26.xor(x25);
    let x28 = x27.xor(x7);
    let x29 = x28.and_not(x2);
    let x30 = x24.or(x19);
    let x31 = x29.and(x30);
    let x32 = x16.xor(x26);
    let x33 = x27.or(x23);
    let x34 = x33.and(d);
    let x35 = x32.and_not(x34);
    let x36 = x2.xor(x35);
    let x37 = x36.and_not(f);
    let x38 = x31.xor(x37);
    let x39 = x34.xor(x10);
    let x40 = x38.xor(x39);
    let x41 = x40.or(x11);
    let x42 = x41.and(x22);
    let x43 = x42.xor(x19);
    let x44 = x43.or(d);
    let x45 = x25.xor(x44);
    let x46 = x45.or(f);
    let x47 = x22.xor(x46);
    let x48 = x18.and_not(d);
    let x49 = x48.or(f);
    let x50 = x15.xor(x49);
    let x51 = x40.not();
    let x52 = x34.and(x30);
    let x53 = x52.xor(x28);
    let x54 = x42.or(e);
    let x55 = x54.xor(x8);
    let x56 = x55.and(f);
    let x57 = x53.xor(x56);
    [x47, x50, x51, x57]
}

//! S1 as a circuit. Made by tools/circuits of tools/circuits.txt.

ghost use Rattle.std.specs.Prelude.{◌≡◌, ◌<◌, ℕ, [], ◌∷◌};
ghost use Rattle.duk_des.specs.Des.{substitute};
ghost use Rattle.duk_des.specs.Tables.{box1};
ghost use Rattle.duk_lanes.specs.Lanes.{lane_of};

use crate::lanes::Lanes;

/// The selection function S1 in each lane: 54 gates.
pub(crate) fn select1<L: Lanes>(a: L, b: L, c: L, d: L, e: L, f: L) -> [L; 4]
    ensures { (i : ℕ) → i < L.count → lane_of L.lane i result
        ≡ substitute box1 (L.lane a i ∷ L.lane b i ∷ L.lane c i ∷ L.lane d i ∷ L.lane e i ∷ L.lane f i ∷ []) }
{
    let x1 = d.xor(c);
    let x2 = x1.and_not(d);
    let x3 = f.and_not(x2);
    let x4 = x3.xor(c);
    let x5 = x4.and(e);
    let x6 = x5.or(d);
    let x7 = f.and_not(x1);
    let x8 = e.and_not(d);
    let x9 = x8.or(x5);
    let x10 = x7.and_not(x9);
    let x11 = d.xor(x5);
    let x12 = x10.xor(x11);
    let x13 = x12.xor(e);
    let x14 = x6.xor(x13);
    let x15 = x14.and(c);
    let x16 = x15.xor(b);
    let x17 = x16.and(e);
    let x18 = x11.xor(f);
    let x19 = x18.xor(x4);
    let x20 = x17.and(x19);
    let x21 = x20.and(a);
    let x22 = x18.and_not(x13);
    let x23 = x2.or(b);
    let x24 = x8.xor(x23);
    let x25 = x22.xor(x24);
    let x26 = x25.xor(x3);
    let x27 = x26.or(b);
    let x28 = x27.and_not(x22);
    let x29 = x28.and(a);
    let x30 = x29.xor(x19);
    let x31 = x13.or(b);
    let x32 = x30.xor(x31);
    let x33 = x32.xor(x9);
    let x34 = x33.xor(x11);
    let x35 = a.and_not(x34);
    let x36 = x35.xor(x26);
    let x37 = x36.not();
    let x38 = x15.xor(x37);
    let x39 = x21.xor(x38);
    let x40 = x9.and(x23);
    let x41 = x40.xor(x33);
    let x42 = x41.not();
    let x43 = x24.and_not(x35);
    let x44 = x43.xor(x19);
    let x45 = x44.or(x12);
    let x46 = x45.and(a);
    let x47 = x46.xor(x34);
    let x48 = x47.xor(x38);
    let x49 = x7.and(x45);
    let x50 = x48.xor(x49);
    let x51 = b.and_not(x14);
    let x52 = x11.and_not(x20);
    let x53 = x51.xor(x52);
    let x54 = x46.xor(x53);
    [x39, x42, x50, x54]
}

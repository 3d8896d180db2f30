//! S8 as a circuit. Made by tools/circuits of tools/circuits.txt.

ghost use Rattle.std.specs.Prelude.{◌≡◌, ◌<◌, ℕ, [], ◌∷◌};
ghost use Rattle.duk_des.specs.Des.{substitute};
ghost use Rattle.duk_des.specs.Tables.{box8};
ghost use Rattle.duk_lanes.specs.Lanes.{lane_of};

use crate::lanes::Lanes;

/// The selection function S8 in each lane: 45 gates.
pub(crate) fn select8<L: Lanes>(a: L, b: L, c: L, d: L, e: L, f: L) -> [L; 4]
    ensures { (i : ℕ) → i < L.count → lane_of L.lane i result
        ≡ substitute box8 (L.lane a i ∷ L.lane b i ∷ L.lane c i ∷ L.lane d i ∷ L.lane e i ∷ L.lane f i ∷ []) }
{
    let x1 = c.xor(a);
    let x2 = x1.xor(b);
    let x3 = x2.or(b);
    let x4 = x3.and(a);
    let x5 = x4.or(e);
    let x6 = x5.not();
    let x7 = x6.xor(x2);
    let x8 = x6.and_not(a);
    let x9 = e.xor(b);
    let x10 = x8.or(x9);
    let x11 = x10.and(x5);
    let x12 = d.and_not(x11);
    let x13 = x7.xor(x12);
    let x14 = e.and_not(c);
    let x15 = x14.xor(d);
    let x16 = x12.and(x9);
    let x17 = x16.xor(x1);
    let x18 = x15.xor(x17);
    let x19 = x18.xor(x3);
    let x20 = x19.xor(x10);
    let x21 = x20.xor(x4);
    let x22 = x15.and(x4);
    let x23 = x22.or(f);
    let x24 = x21.xor(x23);
    let x25 = x24.xor(x5);
    let x26 = x25.xor(x9);
    let x27 = d.or(c);
    let x28 = x27.and(x17);
    let x29 = x12.or(x4);
    let x30 = x29.and(x10);
    let x31 = x28.and(x30);
    let x32 = x26.xor(x31);
    let x33 = x20.or(x15);
    let x34 = x33.xor(a);
    let x35 = x32.xor(x34);
    let x36 = x27.xor(x33);
    let x37 = x35.and_not(x36);
    let x38 = x37.or(f);
    let x39 = x13.xor(x38);
    let x40 = x30.or(b);
    let x41 = f.and_not(x34);
    let x42 = x41.xor(x18);
    let x43 = x40.xor(x42);
    let x44 = x32.and(f);
    let x45 = x44.xor(x13);
    [x39, x24, x43, x45]
}

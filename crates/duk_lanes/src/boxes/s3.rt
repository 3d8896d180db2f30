//! S3 as a circuit. Made by tools/circuits of tools/circuits.txt.

ghost use Rattle.std.specs.Prelude.{◌≡◌, ◌<◌, ℕ, [], ◌∷◌};
ghost use Rattle.duk_des.specs.Des.{substitute};
ghost use Rattle.duk_des.specs.Tables.{box3};
ghost use Rattle.duk_lanes.specs.Lanes.{lane_of};

use crate::lanes::Lanes;

/// The selection function S3 in each lane: 49 gates.
pub(crate) fn select3<L: Lanes>(a: L, b: L, c: L, d: L, e: L, f: L) -> [L; 4]
    ensures { (i : ℕ) → i < L.count → lane_of L.lane i result
        ≡ substitute box3 (L.lane a i ∷ L.lane b i ∷ L.lane c i ∷ L.lane d i ∷ L.lane e i ∷ L.lane f i ∷ []) }
{
    let x1 = f.and(a);
    let x2 = c.xor(a);
    let x3 = x1.xor(x2);
    let x4 = e.or(a);
    let x5 = f.xor(x2);
    let x6 = x5.xor(b);
    let x7 = x4.and(x6);
    let x8 = x3.and_not(x7);
    let x9 = b.and_not(x8);
    let x10 = x1.and(c);
    let x11 = f.and_not(x8);
    let x12 = x11.xor(e);
    let x13 = x12.and_not(a);
    let x14 = x13.xor(x11);
    let x15 = x14.or(d);
    let x16 = x8.or(e);
    let x17 = x15.xor(x16);
    let x18 = x13.and_not(x17);
    let x19 = x10.or(x18);
    let x20 = x19.or(b);
    let x21 = x20.xor(x6);
    let x22 = x9.xor(x21);
    let x23 = x22.not();
    let x24 = x23.and_not(a);
    let x25 = x24.or(d);
    let x26 = x12.and_not(x1);
    let x27 = x20.xor(x26);
    let x28 = c.and_not(x27);
    let x29 = x28.or(e);
    let x30 = x29.xor(x21);
    let x31 = x25.xor(x30);
    let x32 = f.and_not(a);
    let x33 = x32.and_not(x31);
    let x34 = x33.or(e);
    let x35 = x19.or(x8);
    let x36 = x35.xor(x24);
    let x37 = x34.xor(x36);
    let x38 = x28.xor(x37);
    let x39 = x26.or(x6);
    let x40 = x38.or(e);
    let x41 = x9.and_not(a);
    let x42 = x40.xor(x41);
    let x43 = x39.xor(x42);
    let x44 = x43.or(d);
    let x45 = x38.xor(x44);
    let x46 = x42.xor(b);
    let x47 = x46.and(d);
    let x48 = x37.xor(x47);
    let x49 = x17.xor(x6);
    [x31, x45, x48, x49]
}

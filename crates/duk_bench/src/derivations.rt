//! Transaction keys of key serial numbers at random.

ghost use Rattle.std.specs.Prelude.{◌≤◌};
ghost use Rattle.duk_group.specs.declared.transposed.TheConstants.{WIDTH};

use crate::random::Random;
use duk_group::{WIDTH, derive_group};
use duk_tdes::Key;
use duk_tree::{Ksn, derive};
use std::io;
use std::io::Write;

const BDK: u128 = 0x01234567_89ABCDEF_FEDCBA98_76543210;

/// What the random numbers begin with.
const SEED: u64 = 88_172_645_463_325_252;

/// Writes the transaction keys of so many key serial numbers, in 16 bytes each.
pub fn derive_at_random<W: Write>(count: u32, output: &mut W) -> io::Result<()> {
    let bdk = Key::new(BDK.to_be_bytes());
    let mut random = Random::from(SEED);
    for _ in 0..count {
        let key = derive(&bdk, next_number(&mut random));
        output.write_all(&key.bytes())?;
    }
    Ok(())
}

/// Writes the same keys, made `WIDTH` at once.
pub fn derive_in_groups<W: Write>(count: u32, output: &mut W) -> io::Result<()> {
    let bdk = Key::new(BDK.to_be_bytes());
    let mut random = Random::from(SEED);
    for _ in 0..count / WIDTH as u32 {
        write_group(&bdk, WIDTH, &mut random, output)?;
    }
    write_group(&bdk, (count % WIDTH as u32) as usize, &mut random, output)
}

/// Writes the keys of a group of at most `WIDTH` numbers.
fn write_group<W: Write>(
    bdk: &Key<16>,
    size: usize,
    random: &mut Random,
    output: &mut W,
) -> io::Result<()>
    requires { size ≤ WIDTH }
{
    let mut numbers = [Ksn::from_bytes([0; 10]); WIDTH];
    for place in 0..size {
        numbers[place] = next_number(random);
    }
    let keys = derive_group(bdk, &numbers[..size]);
    for key in &keys[..size] {
        output.write_all(&key.bytes())?;
    }
    Ok(())
}

fn next_number(random: &mut Random) -> Ksn {
    random.serial([0xFF, 0xFF])
}

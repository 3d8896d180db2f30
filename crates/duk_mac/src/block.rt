//! The last block of a message, which may be a part of one.

ghost use Rattle.std.specs.Prelude.{◌≡◌, ◌<◌, ◌≤◌, ◌-◌, ◌++◌, length, replicate};
ghost use Rattle.duk_mac.specs.Cmac.{padded};

/// The block with zero bytes after what is there.
pub fn fill_block(part: &[u8]) -> [u8; 8]
    requires { length part.now ≤ 8 }
    ensures { result ≡ part.now ++ replicate (8 - length part.now) 0 }
{
    let mut block = [0; 8];
    block[..part.len()].copy_from_slice(part);
    block
}

/// The block with a one bit and zero bits after what is there, which is less than a block.
pub fn pad_block(part: &[u8]) -> [u8; 8]
    requires { length part.now < 8 }
    ensures { result ≡ padded part.now }
{
    let mut block = fill_block(part);
    block[part.len()] = 0x80;
    block
}

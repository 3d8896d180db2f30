//! Laws of MACs, each the contract of a function that does nothing.

ghost use Rattle.std.specs.Prelude.{◌<◌, ◌^◌, ℕ, List};
ghost use Rattle.std.specs.List.{All};
ghost use Rattle.duk_des.specs.Block.{IsBlock};
ghost use Rattle.duk_tdes.specs.Tdes.{IsTdesKey};
ghost use Rattle.duk_mac.specs.Cmac.{cmac_of};
ghost use Rattle.duk_mac.specs.Retail.{retail_of};

/// The CMAC of any message of bytes under a TDES key is a block.
pub fn cmac_is_a_block()
    ensures { (key message : List ℕ) → IsTdesKey key → All (λ byte. byte < 2 ^ 8) message
        → IsBlock (cmac_of key message) }
{
    duk_tdes::laws::inverse();
    duk_tdes::laws::xor_of_blocks();
}

/// The retail MAC of any message under any key is a block.
pub fn retail_is_a_block()
    ensures { (key message : List ℕ) → IsBlock (retail_of key message) }
{
    duk_des::laws::blocks();
}

//! Laws of key blocks, each the contract of a function that does nothing.

ghost use Rattle.std.specs.Prelude.{◌≡◌, ◌≤◌, ◌++◌, ℕ, List, length};
ghost use Rattle.std.specs.List.{All, concat};
ghost use Rattle.duk_tdes.specs.Tdes.{IsTdesKey};
ghost use Rattle.duk_block.specs.declared.header.Header.{Header};
ghost use Rattle.duk_block.specs.Derived.{derivation_step, derived_key, encryption_usage, mac_usage};
ghost use Rattle.duk_block.specs.Faults.{IsFirstFault};
ghost use Rattle.duk_block.specs.KeyBlock.{IsKeyBlock, Wraps};
ghost use Rattle.duk_block.specs.Optional.{IsFirstContent, IsOptionalBlock};
ghost use Rattle.duk_block.specs.declared.fault.BlockFault.{BlockFault};

/// The keys derived for enciphering and for MACs are TDES keys.
pub fn derived_keys()
    ensures encryption { (protection_key : List ℕ) → IsTdesKey protection_key
        → IsTdesKey (derived_key encryption_usage protection_key) }
    ensures mac { (protection_key : List ℕ) → IsTdesKey protection_key
        → IsTdesKey (derived_key mac_usage protection_key) }
{
    duk_mac::laws::cmac_is_a_block();
}

/// A derived key is its steps one after the other: two for a protection key of 16 bytes, three for
/// one of 24.
pub fn derived_in_steps()
    ensures double { (usage protection_key : List ℕ) → length protection_key ≡ 16
        → derived_key usage protection_key
        ≡ derivation_step usage protection_key 1 ++ derivation_step usage protection_key 2 }
    ensures triple { (usage protection_key : List ℕ) → length protection_key ≡ 24
        → derived_key usage protection_key
        ≡ derivation_step usage protection_key 1 ++ derivation_step usage protection_key 2
        ++ derivation_step usage protection_key 3 }
{}

/// Under one protection key a text is a key block of at most one header and one key. So what was
/// wrapped is unwrapped to the same header and key.
pub fn one_reading()
    ensures { (text protection_key : List ℕ) (header other_header : Header) (key other_key : List ℕ)
        → IsTdesKey protection_key
        → IsKeyBlock text protection_key header key
        → IsKeyBlock text protection_key other_header other_key
        → (header ≡ other_header) × (key ≡ other_key) }
{
    derived_keys();
    duk_tdes::laws::cbc_inverse();
}

/// A text that wraps a key under a protection key has no fault under it. So what was wrapped is not
/// refused.
pub fn no_fault()
    ensures { (protection_key text : List ℕ) (header : Header) (key : List ℕ) (fault : BlockFault)
        → IsTdesKey protection_key
        → Wraps protection_key text header key
        → ¬ IsFirstFault text protection_key fault }
{
    derived_keys();
    duk_tdes::laws::cbc_inverse();
}

/// A text is divided into optional blocks in at most one way. So the optional blocks that were
/// given to be written are those that are read.
pub fn one_division()
    ensures { (blocks others : List (List ℕ))
        → All IsOptionalBlock blocks → All IsOptionalBlock others
        → concat blocks ≡ concat others → blocks ≡ others }
{}

/// The content of an optional block has at most 251 characters: two digits give the length of the
/// whole block, and four characters stand before the content.
pub fn contents_fit()
    ensures { (blocks : List (List ℕ)) (id content : List ℕ) → All IsOptionalBlock blocks
        → IsFirstContent blocks id content
        → length content ≤ 251 }
{}

//! Tests of ciphers, MACs, PIN blocks, key blocks, derived keys and registers, with values from
//! outside.
#![tactic(auto)]

#[cfg(test)]
mod block_cipher;
#[cfg(test)]
mod changed_key_blocks;
#[cfg(test)]
mod derived_keys;
#[cfg(test)]
mod key_blocks;
#[cfg(test)]
mod macs;
#[cfg(test)]
mod pin_blocks;
#[cfg(test)]
mod registers;
#[cfg(test)]
mod triple_cipher;

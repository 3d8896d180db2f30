//! One block of DES, the block cipher of NIST SP 800-67 section 2.
//!
//! A key and a block are 8 bytes. The eight parity bits of a key, the lowest of each byte, are
//! neither checked nor used. The blocks are made in words of 32 bits, and those of [`plain`] bit by
//! bit, as the standard writes it.
#![tactic(auto)]

mod bits;
mod bytes;
mod cipher;
mod cipher_function;
pub mod laws;
pub mod plain;
mod schedule;
mod words;

pub use bytes::xor_bytes;
pub use cipher::{
    Des, decrypt_block, encrypt_block, encrypt_both, triple_decrypt, triple_encrypt,
    triple_encrypt_both,
};
pub use words::entry;

//! CRC-32 (ISO 3309, ITU-T V.42): it finds stored bytes that were changed by accident.
//!
//! It is no MAC: whoever can write the bytes can write their check sum too.
#![tactic(auto)]

mod checksum;
pub mod laws;
mod table;

pub use checksum::{Division, crc32};

//! What this project offers to programs in other languages: keys, registers, ciphers, MACs, PIN
//! blocks, key blocks and frames, each call over slices of bytes.
//!
//! A call is total: it tests each length, gives its first fault, and then has written
//! nothing. What it writes goes in the front of slices that the caller lends, which may be longer;
//! the bytes behind it stay as they were. No slice overlaps another.
//! Nothing here takes memory.
#![tactic(auto)]

ghost use Rattle.std.specs.Prelude.{◌≡◌};

mod answering;
mod arguments;
mod blocks;
mod cards;
mod ciphers;
mod fault;
mod frames;
mod judging;
mod keys;
pub mod laws;
mod macs;
mod many_keys;
mod many_requests;
mod module_keys;
mod modules;
mod numbers;
mod optional;
mod pins;
mod registers;
mod replies;
mod requests;
mod reversals;

pub use answering::host_answer;
pub use blocks::{unwrap, unwrap_for, wrap};
pub use ciphers::{cbc_decrypt, cbc_encrypt, tdes_decrypt, tdes_encrypt};
pub use fault::{Fault, status};
pub use frames::frame_length;
pub use judging::host_judge;
pub use keys::{
    derive, derive_from_initial, initial_key, pin_key, request_data_key, request_key,
    response_data_key, response_key,
};
pub use macs::{check_value, cmac, cmac_check_value, retail_mac};
pub use many_keys::derive_many;
pub use many_requests::check_requests;
pub use modules::{module_load_bdk, module_load_zone, module_new};
pub use numbers::{check_usable, next_number};
pub use optional::{unwrap_optional, wrap_with};
pub use pins::{pin_block, pin_of_block};
pub use registers::{
    registers_at, registers_load, registers_next, registers_number, registers_reload,
};
pub use replies::{check_reply, read_refusal, read_reply, request_refusal, request_reply};
pub use requests::{check_request, payment_request, read_request, request_pin};
pub use reversals::{
    check_reversal, check_reversal_reply, read_reversal, read_reversal_reply, reversal_reply,
    reversal_request,
};

/// The version of the calls, 0.1.0: major, minor and patch, a byte each, from the third byte down.
pub fn version() -> u32
    ensures { result ≡ 0x0001_00 }
{
    0x0001_00
}

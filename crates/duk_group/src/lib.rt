//! Work on many terminals at once: a lane for each, `WIDTH` at a time.
//!
//! A word holds one bit of each lane, so that one computation enciphers a block of each lane under
//! the lane's own key. Every result is, lane by lane, that of the function for one terminal.
#![tactic(auto)]

mod block;
mod check_value;
mod cipher;
mod derivation;
mod in_order;
mod initial;
mod key;
mod key_blocks;
mod masks;
mod modes;
mod nodes;
mod one_key;
mod protection;
mod retail;
mod transposed;
mod turns;
mod variants;
mod walk;

pub use check_value::check_values;
pub use cipher::{des_decrypt, des_encrypt};
pub use derivation::{derive_group, derive_many, derived_keys, transaction_keys};
pub use in_order::KeysInOrder;
pub use initial::{initial_group, initial_key};
pub use key::LaneKeys;
pub use key_blocks::{KEY_BLOCK, wrap_group};
pub use masks::{chosen, masked, xor};
pub use modes::{cbc_under, cmac_under};
pub use nodes::{initial_keys, step};
pub use one_key::encrypt_under;
pub use retail::retail_macs;
pub use transposed::{WIDTH, Word, gather_blocks, gather_keys, scatter_keys, spread_key};

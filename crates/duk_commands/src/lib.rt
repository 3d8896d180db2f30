//! The commands over keys, PINs, MACs, data, key blocks and frames, each over the arguments that it
//! is given: what it reads of them, the lines that it writes, and the faults that it reports. `batch`
//! does those that take an argument from each line of an input, `issue` that of a key injection facility.
#![tactic(auto)]

mod answer;
mod asked;
mod batch;
mod check_values;
mod count;
mod derive;
mod encipher;
mod ending;
mod fault;
mod find;
mod find_fault;
mod frames;
mod hexadecimal;
pub mod issue;
mod key_argument;
mod keys;
mod lines;
mod mac;
mod origin;
mod pin;
mod pin_blocks;
mod progress;
mod registers;
mod reversals;
mod search;
mod small_number;
mod sought;
mod start;
mod steps;
mod told;
mod unwrap;
mod walk;
mod weak_keys;
mod wrap;

pub use answer::{tell, write_lines};
pub use batch::{BatchFault, DeriveItems, Items, Kept, Refused, do_batch};
pub use check_values::{MOST_KEYS, add_component, values_lines};
pub use count::read_decimal;
pub use derive::derive_command;
pub use encipher::data_lines;
pub use ending::hand_on;
pub use fault::Fault;
pub use find::find_command;
pub use find_fault::FindFault;
pub use frames::{Reply, reply_lines, request_lines};
pub use key_argument::KeyArgument;
pub use keys::{derived_lines, initial_lines};
pub use lines::{LINES_ROOM, Lines, push_end, push_line, push_text, push_text_line};
pub use mac::mac_lines;
pub use pin::{pans_ready, pin_lines, pins_ready};
pub use pin_blocks::{translate_lines, unpin_lines};
pub use registers::registers_lines;
pub use reversals::reversal_lines;
pub use sought::Clue;
pub use unwrap::{unwrap_lines, unwrap_ready};
pub use walk::walk_command;
pub use weak_keys::is_weak_key;
pub use wrap::wrap_line;

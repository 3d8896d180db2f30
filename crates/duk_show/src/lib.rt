//! The command `show`: what a frame, a key block, a terminal's image, a log of used numbers or a
//! journal says, each as the lines that it makes of its argument, or the fault and the place at which
//! reading it stops. Nothing is deciphered
//! but the PIN block of a request, where a key is given and it is to be shown.
#![tactic(auto)]

mod block;
mod checked_frame;
mod decimal;
mod fault;
mod frame;
mod frame_fault;
mod hexadecimal;
mod image;
mod image_fault;
mod journal;
mod journal_tallies;
mod key_names;
mod ledger;
mod log;
mod one_log;
mod shown_text;
mod standing;
mod stored;
mod tallies;

pub use block::block_lines;
pub use checked_frame::checked_frame_lines;
pub use fault::ShowFault;
pub use frame::frame_lines;
pub use frame_fault::FrameFault;
pub use image::image_lines;
pub use image_fault::ImageFault;
pub use journal::journal_lines;
pub use ledger::ledger_lines;
pub use log::{damaged_record, log_lines};
pub use one_log::take_in;

//! Text and bytes in and out: writers that take text, readers that give bytes, a buffer before a
//! writer, and bytes in hexadecimal.
#![tactic(auto)]

mod buffer;
mod hexadecimal;
pub mod laws;
mod sink;
mod source;

pub use buffer::{BUFFER_ROOM, Buffer, make_room, write_out};
pub use hexadecimal::append_hex;
pub use sink::{Sink, WriteFailed, write_text};
pub use source::Source;

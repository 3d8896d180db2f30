//! The frames between terminals and host: a length of two bytes, and a contents that it counts. A
//! format of this project's own.
//!
//! A request goes from a terminal to the host, an accepted reply or a refusal comes back. Request
//! and reply have a MAC, which is made over `mac_text`. A `Feeder` takes frames out of a stream,
//! however its bytes are cut. Nothing here takes memory.
#![tactic(auto)]

mod answer;
mod code;
mod feeder;
mod frame;
pub mod laws;
mod payment;
mod request;
mod text;

pub use answer::{AnswerFrame, read_answer, reply_text, write_refusal, write_reply};
pub use code::Code;
pub use feeder::{Feeder, FrameFault};
pub use frame::{Frame, mac_text};
pub use payment::{is_payment_reply, payment_request};
pub use request::{Request, read_request, request_text, write_request};
pub use text::MacText;

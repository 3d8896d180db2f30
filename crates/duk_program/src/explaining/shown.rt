//! What is shown, and refused at a place.

use crate::explaining::arguments::PAIRS;
use crate::explaining::seen::{Found, Seen};
use crate::explaining::texts::About;
use duk_block::BlockFault;
use duk_show::{FrameFault, ImageFault};

/// A frame.
pub(crate) fn frame_shown(about: About<'_, '_>, place: usize, why: FrameFault) -> Seen {
    shown(about, place, why == FrameFault::Hex).wanted(match why {
        FrameFault::Hex => PAIRS,
        FrameFault::Length => "the length of the frame in its first two bytes",
        FrameFault::Version => "01",
        FrameFault::Kind => "01 to 05",
        FrameFault::Size => "the size of its kind",
        FrameFault::PanLength => "0C to 13, and 35 less than the frame has bytes",
        FrameFault::PanDigit => "decimal digits",
        FrameFault::Code => "00, 14, 30, 51 or 55",
        FrameFault::Reason => "01 to 06",
        FrameFault::Reversed => "another usable number of the same IKSN",
        FrameFault::State => "00 or 01",
    })
}

/// A key block.
pub(crate) fn block_shown(about: About<'_, '_>, place: usize, why: BlockFault) -> Seen {
    shown(about, place, why == BlockFault::Hex).wanted(match why {
        BlockFault::Length => "80 to 512 characters in eights, and their number at 1",
        BlockFault::Version => "B",
        BlockFault::HeaderField => "printable fields, and two decimal digits at 12",
        BlockFault::OptionalBlock => {
            "as many optional blocks as are told at 12, and 64 digits or more"
        }
        BlockFault::Hex => "hexadecimal digits",
        BlockFault::Mac | BlockFault::Payload | BlockFault::PadLength => "a key block of version B",
    })
}

/// A terminal's image.
pub(crate) fn image_shown(about: About<'_, '_>, place: usize, why: ImageFault) -> Seen {
    shown(about, place, why == ImageFault::Hex).wanted(match why {
        ImageFault::Hex => PAIRS,
        ImageFault::Version => "01 or 02",
        ImageFault::Length => "350 bytes of version 1, 431 of version 2",
        ImageFault::Iksn => "a counter of zero",
        ImageFault::Counter => "a counter with 1 to 10 one bits, or 200000",
        ImageFault::Registers => "zeros in each register without a number",
        ImageFault::Past => "past numbers with counters of zero, each once, then zeros",
    })
}

/// A text that is shown. The place is told where a character is no digit; else it is a byte's.
fn shown(about: About<'_, '_>, place: usize, is_of_character: bool) -> Seen {
    let length = about.text("WHAT", 0).len();
    let wrong = if is_of_character { Some(place) } else { None };
    Seen::new("WHAT", Found::Text(length, wrong))
}

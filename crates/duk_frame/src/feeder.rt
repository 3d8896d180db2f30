//! Frames out of a stream, however its bytes are cut.

ghost use Rattle.std.specs.Prelude.{◌≡◌, ◌↔◌, ◌≤◌, ◌⊎◌, ◌++◌, [], false, IsTrue, IsErr, IsSome, IfOk, IfNone, IfSome, OnErr, length, slice_get};
ghost use Rattle.duk_frame.specs.Feeder.{HandsOutFrame, TakesAll};
ghost use Rattle.duk_frame.specs.inner.Feeder.{IsFront};
ghost use Rattle.duk_frame.specs.Stream.{BeginsTooLong, IsPart, said_length};

use crate::frame::{Frame, append};
use byteorder::{BigEndian, ByteOrder};
use std::marker::Model;
use std::mem;
use thiserror::Error;

/// The bytes of a frame's length.
const LENGTH: usize = 2;

/// The most bytes that a contents may have.
const LONGEST_CONTENTS: usize = 62;

/// Why a stream holds no further frame. `Display` writes the name.
#[derive(Debug, Clone, Copy, PartialEq, Eq, Error)]
pub enum FrameFault {
    /// A length above 62 stands where a frame would begin.
    #[error("TooLong")]
    TooLong,
}

/// Takes the bytes of a stream in pieces, and hands out its frames. What it holds is the part of a
/// frame that is not whole yet.
#[derive(Drop)]
pub struct Feeder {
    rest: Frame,
    failed: bool,
}

impl Model for Feeder {
    ghost use Rattle.duk_frame.specs.Feeder.{Feeding};
    ghost use Rattle.duk_frame.specs.Stream.{IsPart};

    ghost Value = { Feeding };

    ghost view = { λ feeder. record { rest = feeder.rest.items; failed = feeder.failed } };

    ghost invariant = { λ feeder. IsPart feeder.rest.items };
}

impl Feeder {
    /// A feeder of a stream of which nothing has come yet.
    pub fn new() -> Self
        ensures { result ≡ record { rest = []; failed = false } }
    {
        Feeder {
            rest: Frame::new(),
            failed: false,
        }
    }

    /// Takes bytes of a piece up to the end of the first whole frame, and hands that out; or takes
    /// them all, where no frame is whole yet. It gives how many bytes it took.
    ///
    /// Refused with `TooLong` where a length above 62 stands where a frame would begin, and ever
    /// after. What is held then stays.
    pub fn feed(&mut self, piece: &[u8]) -> Result<(usize, Option<Frame>), FrameFault>
        ensures frame { IfOk result (λ answer. IfSome answer.1
            (λ frame. HandsOutFrame self.old self.new piece.now answer.0 frame.items)) }
        ensures none { IfOk result (λ answer. IfNone answer.1
            (TakesAll self.old self.new piece.now answer.0)) }
        ensures too_long { IsErr result
            ↔ (IsTrue self.old.failed ⊎ BeginsTooLong (self.old.rest ++ piece.now)) }
        ensures stays { OnErr result (self.new.rest ≡ self.old.rest) }
        ensures ever_after { IsTrue self.new.failed ↔ IsErr result }
    {
        if self.failed {
            return Err(FrameFault::TooLong);
        }
        match front_of(self.rest.as_slice(), piece) {
            Front::Part => {
                append(&mut self.rest, piece);
                Ok((piece.len(), None))
            }
            Front::Whole(taken) => {
                let mut frame = mem::replace(&mut self.rest, Frame::new());
                append(&mut frame, &piece[..taken]);
                Ok((taken, Some(frame)))
            }
            Front::TooLong => {
                self.failed = true;
                Err(FrameFault::TooLong)
            }
        }
    }

    /// How many bytes of a frame that is not whole yet are held.
    pub fn held(&self) -> usize
        ensures { result ≡ length self.now.rest }
    {
        self.rest.len()
    }
}

/// What the bytes after the last whole frame begin with.
enum Front {
    /// The part of a frame, and that is all.
    Part,
    /// A whole frame, which this many bytes of the piece end.
    Whole(usize),
    /// A length above 62.
    TooLong,
}

/// What a rest and the piece after it begin with.
fn front_of(rest: &[u8], piece: &[u8]) -> Front
    requires { IsPart rest.now }
    ensures { IsFront rest.now piece.now result }
{
    let Some(contents) = length_said(rest, piece) else {
        return Front::Part;
    };
    if contents > LONGEST_CONTENTS {
        return Front::TooLong;
    }
    let wanting = LENGTH + contents - rest.len();
    if wanting > piece.len() {
        return Front::Part;
    }
    Front::Whole(wanting)
}

/// The length that a rest and the piece after it begin with, where both its bytes are there.
fn length_said(rest: &[u8], piece: &[u8]) -> Option<usize>
    ensures there { IsSome result ↔ (LENGTH ≤ length (rest.now ++ piece.now)) }
    ensures said { IfSome result (λ contents. contents ≡ said_length (rest.now ++ piece.now)) }
{
    let high = byte_at(rest, piece, 0)?;
    let low = byte_at(rest, piece, 1)?;
    Some(usize::from(BigEndian::read_u16(&[high, low])))
}

/// The byte at a place of a rest and the piece after it.
fn byte_at(rest: &[u8], piece: &[u8], place: usize) -> Option<u8>
    ensures { result ≡ slice_get (rest.now ++ piece.now) place }
{
    if place < rest.len() {
        Some(rest[place])
    } else {
        piece.get(place - rest.len()).copied()
    }
}

//! A stream whose lines are counted as they pass.

ghost use Rattle.std.specs.Prelude.{◌≡◌, ◌<◌, MatchResult, length, take};
ghost use Rattle.std.specs.Io.{ReadsAtMost, WritesAtMost};
ghost use Rattle.std.specs.Io.KnownBytes.{ReadConsumes, WriteAppends};
ghost use Rattle.duk_io.specs.Known.{Rose, Stayed};
ghost use Rattle.duk_io.specs.Sink.{CountsFailure};
ghost use Rattle.duk_io.specs.Source.{AreReadsMade};
ghost use Rattle.dukpt.specs.inner.Meter.{AreEndsCounted, ends_among};

use crate::progress::meter::Meter;
use crate::progress::pace::Pace;
use duk_io::{Sink, Source};
use std::io;

/// A stream, with the count of its lines, where they are counted. It makes known what the stream does.
#[derive(Drop)]
pub(crate) struct Counted<T, E> {
    stream: T,
    lines: Option<Meter<E>>,
}

impl<T, E: Sink> Counted<T, E> {
    /// A stream of which lines stand on `errors` at a pace, or, where there is none, not.
    pub(crate) fn over(stream: T, pace: Option<Pace>, errors: E) -> Self
    where
        E: Drop,
    {
        Counted {
            stream,
            lines: match pace {
                Some(pace) => Some(Meter::new(pace, errors)),
                None => None,
            },
        }
    }

    /// The stream.
    pub(crate) fn into_stream(self) -> T
    where
        E: Drop,
    {
        self.stream
    }
}

impl<W: Sink, E: Sink> Sink for Counted<W, E> {
    ghost known = { λ counted. W.known counted.stream };

    ghost held_back = { λ counted. W.held_back counted.stream };

    fn put(&mut self, bytes: &[u8]) -> io::Result<usize>
        requires { 0 < length bytes.now }
        ensures bound { WritesAtMost result bytes.now }
        ensures bytes { WriteAppends (W.known self.old.stream).contents
            (W.known self.new.stream).contents result bytes.now }
        ensures counted { CountsFailure (W.known self.old.stream) (W.known self.new.stream)
            result }
        ensures lines { MatchResult result
            (λ taken. AreEndsCounted E.known self.old.lines self.new.lines (take taken bytes.now))
            (λ _. self.new.lines ≡ self.old.lines) }
    {
        match self.stream.put(bytes) {
            Ok(taken) => {
                count_ends(&mut self.lines, &bytes[..taken]);
                Ok(taken)
            }
            Err(error) => Err(error),
        }
    }

    fn flush(&mut self) -> io::Result<()> {
        self.stream.flush()
    }
}

impl<R: Source, E: Sink> Source for Counted<R, E> {
    ghost known = { λ counted. R.known counted.stream };

    ghost reads = { λ counted. R.reads counted.stream };

    fn get(&mut self, buffer: &mut [u8]) -> io::Result<usize>
        requires { 0 < length buffer.old }
        ensures bound { ReadsAtMost result buffer.new }
        ensures room { length buffer.new ≡ length buffer.old }
        ensures bytes { ReadConsumes (R.known self.old.stream).contents
            (R.known self.new.stream).contents result buffer.new }
        ensures counted { MatchResult result
            (λ _. Stayed (R.known self.old.stream).failures (R.known self.new.stream).failures)
            (λ _. Rose (R.known self.old.stream).failures (R.known self.new.stream).failures) }
        ensures one_read { AreReadsMade (R.reads self.old.stream) (R.reads self.new.stream) 1 }
        ensures lines { MatchResult result
            (λ given. AreEndsCounted E.known self.old.lines self.new.lines
            (take given buffer.new))
            (λ _. self.new.lines ≡ self.old.lines) }
    {
        match self.stream.get(buffer) {
            Ok(given) => {
                count_ends(&mut self.lines, &buffer[..given]);
                Ok(given)
            }
            Err(error) => Err(error),
        }
    }
}

/// Counts the lines that end among some bytes, where they are counted.
fn count_ends<E: Sink>(lines: &mut Option<Meter<E>>, bytes: &[u8])
    ensures { AreEndsCounted E.known lines.old lines.new bytes.now }
{
    if let Some(lines) = lines {
        lines.add(ends_among(bytes));
    }
}

/// How many lines end among some bytes.
fn ends_among(bytes: &[u8]) -> u64
    ensures { result ≡ ends_among bytes.now }
{
    bytes.iter().filter(|byte| **byte == b'\n').count() as u64
}

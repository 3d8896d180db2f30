//! Writers as the program sees them: each may make known its bytes, its failures, and what it holds
//! back.

ghost use Rattle.std.specs.Prelude.{◌≡◌, ◌<◌, ℕ, Option, length, None, MatchResult, OnOk, OnErr};
ghost use Rattle.std.specs.Io.{WritesAtMost};
ghost use Rattle.std.specs.Io.KnownBytes.{Keeps, WriteAppends};
ghost use Rattle.duk_io.specs.Known.{Known, Rose, Stayed};
ghost use Rattle.duk_io.specs.Sink.{CountsFailure, IsHandedOn, IsWritten, IsCut};

use std::io;
use std::io::Write;

/// A writer that may make known, for contracts to say, which bytes it holds, how often it failed,
/// and how many bytes it holds back.
///
/// Each `Write` is one: it makes its bytes known where its type does, and never its failures or what
/// it holds back, of which the contracts of `Write` say nothing. A type that makes them known has
/// this trait in place of `Write`.
pub trait Sink {
    /// The bytes that the writer holds and how many writes and flushes failed, where it makes them
    /// known.
    ghost known: { Self → Known };

    /// How many of the bytes that were written the writer still holds back, where it makes that
    /// known.
    ghost held_back: { Self → Option ℕ };

    /// One write, of some bytes. It gives how many were taken; to take none is a failure.
    fn put(&mut self, bytes: &[u8]) -> io::Result<usize>
        requires { 0 < length bytes.now }
        ensures bound { WritesAtMost result bytes.now }
        ensures bytes { WriteAppends (known self.old).contents (known self.new).contents
            result bytes.now }
        ensures counted { CountsFailure (known self.old) (known self.new) result };

    /// Hands on what is still held back.
    fn flush(&mut self) -> io::Result<()>
        ensures bytes { Keeps (known self.old).contents (known self.new).contents }
        ensures counted { MatchResult result
            (λ _. Stayed (known self.old).failures (known self.new).failures)
            (λ _. Rose (known self.old).failures (known self.new).failures) }
        ensures handed_on { OnOk result (IsHandedOn (held_back self.new)) };
}

impl<W: Write> Sink for W {
    ghost known = { λ writer. record { contents = W.contents writer; failures = None } };

    ghost held_back = { λ _. None };

    fn put(&mut self, bytes: &[u8]) -> io::Result<usize> {
        Write::write(self, bytes)
    }

    fn flush(&mut self) -> io::Result<()> {
        Write::flush(self)
    }
}

/// A write failed or took no byte.
#[derive(Clone, Copy, Debug, PartialEq, Eq)]
pub struct WriteFailed;

/// Writes the whole text, by as many writes as it takes. The first that fails, for whatever cause,
/// or takes no byte is the last.
pub fn write_text<S: Sink>(sink: &mut S, text: &[u8]) -> Result<(), WriteFailed>
    ensures written { OnOk result (IsWritten (S.known sink.old) (S.known sink.new) text.now) }
    ensures cut { OnErr result (IsCut (S.known sink.old) (S.known sink.new) text.now) }
{
    let mut done = 0;
    while done < text.len() {
        match sink.put(&text[done..]) {
            Ok(taken) if taken > 0 => done += taken,
            _ => return Err(WriteFailed),
        }
    }
    Ok(())
}

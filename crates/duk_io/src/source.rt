//! Readers as the program sees them: each may make known its bytes, its failures and its reads.

ghost use Rattle.std.specs.Prelude.{◌≡◌, ◌<◌, ℕ, Option, length, None, MatchResult};
ghost use Rattle.std.specs.Io.{ReadsAtMost};
ghost use Rattle.std.specs.Io.KnownBytes.{ReadConsumes};
ghost use Rattle.duk_io.specs.Known.{Known, Rose, Stayed};
ghost use Rattle.duk_io.specs.Source.{AreReadsMade};

use std::io;
use std::io::Read;

/// A reader that may make known, for contracts to say, which bytes it has left, how often it failed
/// and how often it was read.
///
/// Each `Read` is one: it makes its bytes known where its type does, and never its failures or its
/// reads. A type that makes these known has this trait in place of `Read`.
pub trait Source {
    /// The bytes that reads will give and how many reads failed, where the reader makes them known.
    ghost known: { Self → Known };

    /// How many reads were made, those that failed among them, where the reader makes that known.
    ghost reads: { Self → Option ℕ };

    /// One read, into the front of `buffer`. It says how many bytes it gave: none only at the
    /// end.
    fn get(&mut self, buffer: &mut [u8]) -> io::Result<usize>
        requires { 0 < length buffer.old }
        ensures bound { ReadsAtMost result buffer.new }
        ensures room { length buffer.new ≡ length buffer.old }
        ensures bytes { ReadConsumes (known self.old).contents (known self.new).contents
            result buffer.new }
        ensures counted { MatchResult result
            (λ _. Stayed (known self.old).failures (known self.new).failures)
            (λ _. Rose (known self.old).failures (known self.new).failures) }
        ensures one_read { AreReadsMade (reads self.old) (reads self.new) 1 };
}

impl<R: Read> Source for R {
    ghost known = { λ reader. record { contents = R.remaining reader; failures = None } };

    ghost reads = { λ _. None };

    fn get(&mut self, buffer: &mut [u8]) -> io::Result<usize> {
        Read::read(self, buffer)
    }
}

//! The key from which a command starts: a base derivation key, or the initial key of one terminal.

ghost use Rattle.std.specs.Prelude.{◌≡◌, None, Some, MatchResult};
ghost use Rattle.duk_commands.specs.KeyArgument.{initial_from, key_argument, key_fault, key_in};

use crate::fault::Fault;
use duk_group::initial_key;
use duk_tdes::Key;
use duk_tree::Iksn;

/// The key from which a command starts, as written.
#[derive(Clone, Copy)]
pub enum KeyArgument<'a> {
    /// A base derivation key, of which the initial keys of its terminals are made.
    Base(&'a str),
    /// The initial key of one terminal.
    Initial(&'a str),
}

impl<'a> KeyArgument<'a> {
    /// The argument with this text, which is an initial key where `initial` says so.
    pub fn new(text: &'a str, initial: bool) -> Self
        ensures { result ≡ key_argument text.entry initial }
    {
        if initial {
            KeyArgument::Initial(text)
        } else {
            KeyArgument::Base(text)
        }
    }

    /// The key of 32 hexadecimal digits of either case. Refused with `BdkRefused`, or with
    /// `InitialRefused` where it is to be an initial key.
    pub fn read(self) -> Result<Key<16>, Fault>
        ensures { MatchResult result (λ key. key_in self.entry ≡ Some key)
            (λ why. (key_in self.entry ≡ None) × (why ≡ key_fault self.entry)) }
    {
        match self {
            KeyArgument::Base(text) => Key::<16>::parse(text).ok_or(Fault::BdkRefused),
            KeyArgument::Initial(text) => Key::<16>::parse(text).ok_or(Fault::InitialRefused),
        }
    }

    /// The initial key of a terminal, where `key` is the key that was read.
    pub fn initial_key(self, key: &Key<16>, iksn: Iksn) -> Key<16>
        ensures { result ≡ initial_from self.entry key.now iksn }
    {
        match self {
            KeyArgument::Base(_) => initial_key(key, iksn),
            KeyArgument::Initial(_) => *key,
        }
    }
}

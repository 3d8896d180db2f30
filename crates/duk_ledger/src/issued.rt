//! What a ledger keeps of an initial key that was issued.

ghost use Rattle.std.specs.Prelude.{◌≡◌};
ghost use Rattle.duk_ledger.specs.Issued.{run_of};

use duk_tree::Iksn;

/// An initial key that was issued.
#[derive(Clone, Copy)]
pub struct Issued {
    /// The initial key serial number.
    pub number: Iksn,
    /// How the key was made. Nothing is known where the number was copied from a ledger in the form
    /// of a log, which has no more than numbers.
    pub made: Option<Made>,
}

/// How an initial key was made.
#[derive(Clone, Copy)]
pub struct Made {
    /// The check value of the initial key.
    pub key: [u8; 3],
    /// The check value of the base derivation key.
    pub key_set: [u8; 3],
    /// The number of the run that issued it.
    pub run: u32,
}

impl Issued {
    /// The number of the run that issued it, or 0 where that is not known.
    pub fn run(&self) -> u32
        ensures { result ≡ run_of self.now.made }
    {
        match self.made {
            Some(made) => made.run,
            None => 0,
        }
    }
}

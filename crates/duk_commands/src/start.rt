//! The key and the key serial number from which a command starts.

ghost use Rattle.std.specs.Prelude.{◌≡◌, IfErr, IfOk};
ghost use Rattle.duk_commands.specs.Start.{IsStart, IsStartRefused};
ghost use Rattle.duk_tree.specs.Derivation.{transaction_key_of};

use crate::fault::Fault;
use crate::key_argument::KeyArgument;
use duk_tdes::Key;
use duk_tree::{Ksn, transaction_key, usable};

/// A terminal's initial key, and one of its numbers.
#[derive(Clone, Copy)]
pub(crate) struct Start {
    pub(crate) initial: Key<16>,
    pub(crate) ksn: Ksn,
}

impl Start {
    /// The transaction key of the number.
    pub(crate) fn key(&self) -> Key<16>
        ensures { result ≡ transaction_key_of self.now.initial self.now.ksn.iksn
            self.now.ksn.counter }
    {
        transaction_key(&self.initial, self.ksn)
    }
}

/// What the two arguments give. Refused with, in this order: `BdkRefused`, or `InitialRefused` of an
/// initial key; `KsnRefused`; `CounterRefused`.
pub(crate) fn read_start(given: KeyArgument<'_>, ksn: &str) -> Result<Start, Fault>
    ensures found { IfOk result (λ start. IsStart given.entry ksn.now start.initial start.ksn) }
    ensures refused { IfErr result (IsStartRefused given.entry ksn.now) }
{
    let key = given.read()?;
    let ksn = Ksn::parse(ksn).ok_or(Fault::KsnRefused)?;
    if !usable(ksn.counter()) {
        return Err(Fault::CounterRefused);
    }
    let initial = given.initial_key(&key, ksn.iksn());
    Ok(Start { initial, ksn })
}

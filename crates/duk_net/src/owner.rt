//! Which terminal becomes the owner of an initial key serial number.
//!
//! A load whose store failed records an owner too: the cell may have kept the image, and a restart
//! may find it. After every other refusal nothing was kept. An owner may ask for its number again,
//! and its terminal refuses it while it keeps it.

ghost use Rattle.std.specs.Prelude.{◌<◌};
ghost use Rattle.std.specs.Vec.{vec_capacity, vec_len};
ghost use Rattle.duk_net.specs.Load.{ChangesOwners};

use crate::outcome::Outcome;
use duk_stations::{Owner, add_owner};
use duk_term::TermFault;
use duk_tree::Iksn;

/// Records what comes of a load: terminal `t` owns the initial key serial number from then on,
/// where it was loaded or its store failed.
pub(crate) fn record_owner(owners: &mut Vec<Owner>, outcome: &Outcome, iksn: Iksn, t: u32)
    requires { vec_len owners.old < vec_capacity owners.old }
    ensures { ChangesOwners outcome.now owners.old.items iksn t owners.new.items }
{
    match outcome {
        Outcome::Loaded { .. }
        | Outcome::TermFaulted {
            fault: TermFault::Store(_),
            ..
        } => add_owner(owners, iksn, t),
        _ => {}
    }
}

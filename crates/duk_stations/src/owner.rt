//! Which station owns which initial key serial number.

ghost use Rattle.std.specs.Prelude.{◌<◌, ◌↔◌, IsTrue};
ghost use Rattle.std.specs.Vec.{vec_capacity, vec_len};
ghost use Rattle.duk_stations.specs.Owner.{BecomesOwner, IsElsewhere};

use crate::places::push_within;
use duk_tree::Iksn;

/// An initial key serial number, and the station that owns it: the one that was loaded with it, or
/// whose terminal's cell failed in that load.
#[derive(Clone, Copy, Debug, PartialEq, Eq)]
pub struct Owner {
    /// The initial key serial number.
    pub iksn: Iksn,
    /// The station, counted from 1.
    pub t: u32,
}

/// Adds an owner, where there is none yet.
pub fn add_owner(owners: &mut Vec<Owner>, iksn: Iksn, t: u32)
    requires { vec_len owners.old < vec_capacity owners.old }
    ensures { BecomesOwner owners.old.items iksn t owners.new.items }
{
    if !owners.iter().any(|owner| owner.iksn == iksn) {
        push_within(owners, Owner { iksn, t });
    }
}

/// Whether a station other than `t` owns an initial key serial number.
pub fn is_elsewhere(owners: &[Owner], iksn: Iksn, t: u32) -> bool
    ensures { IsTrue result ↔ IsElsewhere owners.now iksn t }
{
    owners
        .iter()
        .any(|owner| owner.iksn == iksn && owner.t != t)
}

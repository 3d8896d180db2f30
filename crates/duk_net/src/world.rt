//! A world of terminals and one host.

ghost use Rattle.std.specs.Prelude.{◌≡◌, All};
ghost use Rattle.duk_net.specs.AcceptedOnce.{KeepsAccepted};
ghost use Rattle.duk_net.specs.First.{IsNewHost, IsNewTerminal, first_world};
ghost use Rattle.duk_net.specs.Images.{FindVersion2};
ghost use Rattle.duk_net.specs.UsedOnce.{AreUsedOwned, UsedOnce};
ghost use Rattle.duk_net.specs.OwnKey.{IsOwnKeyReply, IsOwnKeyRequest};
ghost use Rattle.duk_net.specs.NoUsedKey.{NoUsedKey, InEachTerminal, OwnsAboveUsed};
ghost use Rattle.duk_net.specs.World.{meanings_of};

use crate::laws;
use crate::system::System;
use duk_frame::Frame;
use duk_host::{Host, Issuer, TableIssuer};
use duk_stations::Owner;
use duk_store::{Cell, MemCell, MemLog, UsedLog};
use duk_tdes::Key;
use duk_term::Terminal;
use std::alloc::Global;
use std::marker::Model;

/// Terminals and one host, and a network between them that keeps every frame which was ever sent.
/// Any frame may be delivered at any time, again, late or never.
#[derive(Drop)]
pub struct World<const N: usize, C: Cell, L: UsedLog, I: Issuer> {
    pub(crate) system: System<N, C, L, I>,
}

/// A world over stores in memory, whose host asks a table of cards.
pub type MemoryWorld<const N: usize> = World<N, MemCell, MemLog, TableIssuer>;

impl<const N: usize, C: Cell, L: UsedLog, I: Issuer> Model for World<N, C, L, I> {
    ghost use Rattle.duk_net.specs.Reached.{Reached};
    ghost use Rattle.duk_net.specs.World.{WorldOf, meanings_of};

    ghost Value = { WorldOf C L I };

    ghost view = { λ world. world.system };

    ghost invariant = { λ world. Reached (meanings_of C.meaning L.meaning I.decides) world.system };
}

impl<const N: usize, C: Cell, L: UsedLog, I: Issuer> World<N, C, L, I> {
    /// A world of this host and these terminals, all of them newly made over stores in which
    /// nothing was ever kept. `loading` is the key under which the host's security module issues
    /// initial keys to terminals. This takes no memory.
    pub fn new(
        alloc: Global,
        host: Host<N, L, I>,
        loading: Key<16>,
        terminals: Vec<Terminal<C>>,
    ) -> Self
        requires host { IsNewHost (meanings_of C.meaning L.meaning I.decides) host }
        requires terminals { All (IsNewTerminal (meanings_of C.meaning L.meaning I.decides))
            terminals.items }
        ensures first { result ≡ first_world host loading terminals.items }
        ensures used_once { UsedOnce result.requests }
        ensures used_are_owned { AreUsedOwned result.requests result.owners }
        ensures accepted_is_kept { KeepsAccepted
            (meanings_of C.meaning L.meaning I.decides) result }
        ensures own_key_of_requests { All (IsOwnKeyRequest result.host.keys) result.requests }
        ensures own_key_of_replies { All (IsOwnKeyReply result.host.keys) result.answers }
        ensures above_used { InEachTerminal (meanings_of C.meaning L.meaning I.decides)
            (OwnsAboveUsed result.host.keys result.requests result.owners) result.terminals }
        ensures no_used_key { InEachTerminal (meanings_of C.meaning L.meaning I.decides)
            (λ t. NoUsedKey result.host.keys result.requests) result.terminals }
        ensures version_2 { FindVersion2
            (meanings_of C.meaning L.meaning I.decides) result.terminals }
    {
        laws::used_once::<C, L, I>();
        laws::no_used_key::<C, L, I>();
        laws::accepted_once::<C, L, I>();
        laws::own_key::<C, L, I>();
        World {
            system: System {
                host,
                loading,
                terminals,
                requests: Vec::new(alloc),
                answers: Vec::new(alloc),
                owners: Vec::new(alloc),
            },
        }
    }

    /// The frames of all requests that were ever sent, in order.
    pub fn requests(&self) -> &[Frame]
        ensures { result.now ≡ self.now.requests }
    {
        self.system.requests.as_slice()
    }

    /// The frames of all answers that were ever sent, in order.
    pub fn answers(&self) -> &[Frame]
        ensures { result.now ≡ self.now.answers }
    {
        self.system.answers.as_slice()
    }

    /// Which terminal owns which initial key serial number: the one that was loaded with it, or
    /// whose store failed in that load, whatever was restarted since.
    pub fn owners(&self) -> &[Owner]
        ensures { result.now ≡ self.now.owners }
    {
        self.system.owners.as_slice()
    }

    /// The terminals, in the order of their numbers.
    pub fn terminals(&self) -> &[Terminal<C>]
        ensures { result.now ≡ self.now.terminals }
    {
        self.system.terminals.as_slice()
    }

    /// The host.
    pub fn host(&self) -> &Host<N, L, I>
        ensures { result.now ≡ self.now.host }
    {
        &self.system.host
    }
}

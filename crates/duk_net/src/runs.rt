//! Runs of events.

ghost use Rattle.std.specs.Prelude.{◌≡◌, ◌++◌, ◌∷◌, [], ℕ, All, IfOk, IfErr, OnErr};
ghost use Rattle.duk_net.specs.AcceptedOnce.{AcceptedOnce, KeepsAccepted};
ghost use Rattle.duk_net.specs.Calm.{FailsOnceArmed, HasSoundStores, IsCalmAt, StaysCalm, ReportsNoDamage};
ghost use Rattle.duk_net.specs.CompletedByHost.{CompletedByHost};
ghost use Rattle.duk_net.specs.declared.event.End.{End};
ghost use Rattle.duk_net.specs.Gained.{EachGained, GainedMeet};
ghost use Rattle.duk_net.specs.Images.{FindVersion2};
ghost use Rattle.duk_net.specs.UsedOnce.{AreUsedOwned, IsSentByOwner, UsedOnce};
ghost use Rattle.duk_stations.specs.Owner.{IsOwner, Owns};
ghost use Rattle.duk_net.specs.OwnKey.{IsOwnKeyReply, IsOwnKeyRequest, IsRefusedAsUsedOrFull};
ghost use Rattle.duk_net.specs.Run.{IsRefusedMemory, IsRun, RunRefused};
ghost use Rattle.duk_net.specs.inner.Run.{IsStepInto};
ghost use Rattle.duk_net.specs.Sent.{SentByOwners};
ghost use Rattle.duk_net.specs.Step.{Step};
ghost use Rattle.duk_net.specs.NoUsedKey.{NoUsedKey, InEachTerminal, OwnsAboveUsed};
ghost use Rattle.duk_net.specs.World.{meanings_of};

use crate::event::{End, Event};
use crate::laws;
use crate::outcome::Outcome;
use crate::system::System;
use crate::world::World;
use duk_host::Issuer;
use duk_stations::push_within;
use duk_store::{Cell, UsedLog};
use std::alloc::AllocError;
use thiserror::Error;

/// Why a run of events ends before its last.
#[derive(Debug, Clone, Copy, PartialEq, Eq, Error)]
pub enum NetFault {
    /// Memory was refused to an event: those before it are done, and it is not. A run from that
    /// event on goes on from there. Only where it restarts the host, the host may be left stopped.
    #[error("NoMemory after {done}")]
    NoMemory {
        /// How many events are done.
        done: usize,
    },
}

/// Lets the events happen to a world, one after the other, and puts what comes of each at the end
/// of `out`.
///
/// What holds of a world and of this call, whatever the events are and however it ends: no two
/// transactions use one number; the host accepts each number at most once, and each request and
/// reply is made under the terminal's own key; a terminal completes only with the host's reply to
/// its number; and no terminal holds, or may find after a stop, the key of a used number or of an
/// ancestor of one. Where all stores are sound, no end reports that its store is damaged; and one
/// whose store is calm reports no failed device step before it was armed.
pub fn run<const N: usize, C: Cell, L: UsedLog, I: Issuer>(
    world: &mut World<N, C, L, I>,
    events: &[Event],
    out: &mut Vec<Outcome>,
) -> Result<(), NetFault>
    // What the call does.
    ensures run { IfOk result (λ _. IsRun
        (meanings_of C.meaning L.meaning I.decides)
        world.old events.now out.old.items out.new.items world.new) }
    ensures refused { IfErr result (RunRefused
        (meanings_of C.meaning L.meaning I.decides)
        world.old events.now out.old.items out.new.items world.new) }
    // What stays: who owns an initial key serial number, alone, and the keys of the security module.
    ensures owners_stay { (iksn t : ℕ)
        → Owns world.old.owners iksn t → IsOwner world.new.owners iksn t }
    ensures keys_stay { world.new.host.keys ≡ world.old.host.keys }
    // No two transactions use one number, and each is sent by the terminal that owned its initial
    // key serial number just before, and owns it at the end.
    ensures used_once { UsedOnce world.new.requests }
    ensures used_are_owned { AreUsedOwned world.new.requests world.new.owners }
    ensures owned_when_sent { GainedMeet
        (SentByOwners (meanings_of C.meaning L.meaning I.decides) world.old)
        out.old.items out.new.items }
    ensures sent_by_owner { EachGained (IsSentByOwner world.new.owners) out.old.items out.new.items }
    // The host accepts each number at most once.
    ensures accepted_once { GainedMeet
        (AcceptedOnce world.old.answers) out.old.items out.new.items }
    ensures accepted_is_kept { KeepsAccepted (meanings_of C.meaning L.meaning I.decides) world.new }
    // Each request and each reply is made under the terminal's own key.
    ensures own_key_of_requests { All (IsOwnKeyRequest world.new.host.keys) world.new.requests }
    ensures own_key_of_replies { All (IsOwnKeyReply world.new.host.keys) world.new.answers }
    ensures refused_as_used_or_full { EachGained IsRefusedAsUsedOrFull out.old.items out.new.items }
    // A terminal completes only with the host's reply to its number.
    ensures completed_by_host { GainedMeet
        (CompletedByHost (meanings_of C.meaning L.meaning I.decides) world.old world.new.terminals)
        out.old.items out.new.items }
    // No terminal holds the key of a used number or of its ancestors, nor finds it after a stop.
    // Its registers remember each initial key serial number under which it sent, its present one or
    // a past one, so that a load of one of these is refused. All images are of version 2.
    ensures above_used { InEachTerminal (meanings_of C.meaning L.meaning I.decides)
        (OwnsAboveUsed world.new.host.keys world.new.requests world.new.owners)
        world.new.terminals }
    ensures no_used_key { InEachTerminal (meanings_of C.meaning L.meaning I.decides)
        (λ t. NoUsedKey world.new.host.keys world.new.requests) world.new.terminals }
    ensures version_2 { FindVersion2
        (meanings_of C.meaning L.meaning I.decides) world.new.terminals }
    // Sound stores report no damage, and calm ones fail only once they were armed.
    ensures sound { let m = meanings_of C.meaning L.meaning I.decides in
        HasSoundStores m world.old → HasSoundStores m world.new }
    ensures no_damage { HasSoundStores (meanings_of C.meaning L.meaning I.decides) world.old
        → EachGained ReportsNoDamage out.old.items out.new.items }
    ensures calm { let m = meanings_of C.meaning L.meaning I.decides in
        (end : End) → IsCalmAt m world.old end
        → GainedMeet (StaysCalm m end world.new) out.old.items out.new.items }
    ensures once_armed { (end : End)
        → IsCalmAt (meanings_of C.meaning L.meaning I.decides) world.old end
        → GainedMeet (FailsOnceArmed end) out.old.items out.new.items }
{
    laws::used_once::<C, L, I>();
    laws::no_used_key::<C, L, I>();
    laws::accepted_once::<C, L, I>();
    laws::own_key::<C, L, I>();
    laws::completed_by_host::<C, L, I>();
    laws::calm_stores::<C, L, I>();
    laws::what_stays::<C, L, I>();
    run_system(&mut world.system, events, out)
}

/// Lets the events happen, one after the other.
fn run_system<const N: usize, C: Cell, L: UsedLog, I: Issuer>(
    system: &mut System<N, C, L, I>,
    events: &[Event],
    out: &mut Vec<Outcome>,
) -> Result<(), NetFault>
    ensures run { IfOk result (λ _. IsRun (meanings_of C.meaning L.meaning I.decides)
        system.old events.now out.old.items out.new.items system.new) }
    ensures refused { IfErr result (RunRefused (meanings_of C.meaning L.meaning I.decides)
        system.old events.now out.old.items out.new.items system.new) }
{
    let mut done = 0;
    for event in events {
        match step_into(system, event, out) {
            Ok(()) => done += 1,
            Err(AllocError) => return Err(NetFault::NoMemory { done }),
        }
    }
    Ok(())
}

/// Lets an event happen, and puts what comes of it at the end of `out`.
fn step_into<const N: usize, C: Cell, L: UsedLog, I: Issuer>(
    system: &mut System<N, C, L, I>,
    event: &Event,
    out: &mut Vec<Outcome>,
) -> Result<(), AllocError>
    ensures step { IfOk result (λ _. IsStepInto (meanings_of C.meaning L.meaning I.decides)
        system.old event.now out.old.items out.new.items system.new) }
    ensures out { OnErr result (out.new.items ≡ out.old.items) }
    ensures left { OnErr result (IsRefusedMemory
        (meanings_of C.meaning L.meaning I.decides) system.old event.now system.new) }
{
    out.reserve(1)?;
    let outcome = step(system, event)?;
    push_within(out, outcome);
    Ok(())
}

/// Lets an event happen.
fn step<const N: usize, C: Cell, L: UsedLog, I: Issuer>(
    system: &mut System<N, C, L, I>,
    event: &Event,
) -> Result<Outcome, AllocError>
    ensures step { IfOk result (λ outcome. Step
        (meanings_of C.meaning L.meaning I.decides) system.old event.now outcome system.new) }
    ensures left { OnErr result (IsRefusedMemory
        (meanings_of C.meaning L.meaning I.decides) system.old event.now system.new) }
{
    match *event {
        Event::Load { t, iksn } => system.load(t, iksn),
        Event::Begin { t, purchase } => system.begin(t, &purchase),
        Event::Up { k } => system.up(k),
        Event::Down { k, t } => Ok(system.down(k, t)),
        Event::RestartTerm { t } => Ok(system.restart_terminal(t)),
        Event::RestartHost => system.restart_host(),
        Event::Arm { end: End::Host, n } => Ok(system.arm_host(n)),
        Event::Arm {
            end: End::Term(t),
            n,
        } => Ok(system.arm_terminal(t, n)),
    }
}

//! Runs of events.

ghost use Rattle.std.specs.Prelude.{◌≡◌, ℕ, All, IfOk, IfErr, OnErr};
ghost use Rattle.duk_books.specs.AcceptedOnce.{AcceptedOnce, HaveOneReply, KeepsAccepted};
ghost use Rattle.duk_books.specs.Agree.{BooksAgree};
ghost use Rattle.duk_books.specs.Books.{meanings_of};
ghost use Rattle.duk_books.specs.Came.{KeepsWhatWasSent};
ghost use Rattle.duk_books.specs.Calm.{FailsOnceArmed, HasSoundStores, IsCalmAt, ReportsNoDamage, StaysCalm};
ghost use Rattle.duk_books.specs.Completed.{CompletedByHost, KnowFromHost};
ghost use Rattle.duk_books.specs.declared.event.End.{End};
ghost use Rattle.duk_books.specs.Gained.{EachGained, GainedMeet};
ghost use Rattle.duk_books.specs.Images.{FindLast, FindVersion2};
ghost use Rattle.duk_books.specs.NoUsedKey.{InEachTill, NoUsedKey, OwnsAboveUsed};
ghost use Rattle.duk_books.specs.Numbers.{AreUsedOwned, IsSentByOwner, UsedOnce};
ghost use Rattle.duk_stations.specs.Owner.{IsOwner, Owns};
ghost use Rattle.duk_books.specs.OwnKeyOfReplies.{IsOwnKeyReply, IsRefusedAsUsedOrFull};
ghost use Rattle.duk_books.specs.OwnKeyOfRequests.{IsOwnKeySent};
ghost use Rattle.duk_books.specs.Run.{IsRefusedMemory, IsRun, RunRefused};
ghost use Rattle.duk_books.specs.Sent.{SentByOwners};
ghost use Rattle.duk_books.specs.Step.{Step};
ghost use Rattle.duk_books.specs.Told.{HasWhatWasTold};
ghost use Rattle.duk_books.specs.Totals.{TotalsAgree};
ghost use Rattle.duk_books.specs.inner.Run.{IsStepInto};

use crate::books::Books;
use crate::event::{End, Event};
use crate::laws;
use crate::outcome::Outcome;
use crate::system::System;
use duk_host::Issuer;
use duk_journal::Journal;
use duk_stations::push_within;
use duk_store::Cell;
use std::alloc::AllocError;
use thiserror::Error;

/// Why a run of events ends before its last.
#[derive(Debug, Clone, Copy, PartialEq, Eq, Error)]
pub enum RunFault {
    /// Memory was refused to an event: those before it are done, and it is not. A run from that
    /// event on goes on from there. Only where a frame reaches the host, or it is restarted, the
    /// host may be left stopped.
    #[error("NoMemory after {done}")]
    NoMemory {
        /// How many events are done.
        done: usize,
    },
}

/// Lets the events happen, one after the other, and puts what comes of each at the end of `out`.
///
/// Whatever the events are and however the call ends, the merchants' book and that of the host agree:
/// each payment that a till was told as approved stands at the host, with its amount; and once a till
/// is at rest, no other payment of it does. So the totals agree: at rest, what stands for an initial
/// key serial number adds up to what its till was told as approved.
///
/// No two requests or reversals use one number, and each is made under the till's own key for its
/// number; and no till holds, or may find after a stop, the key of a used number or of an ancestor of
/// one.
///
/// The host accepts each number at most once, and each of its replies is made under the till's own
/// key; and a purchase ends only by the host's reply to its number, and at most once.
///
/// Where all stores are sound, none of them is reported as damaged; and of one that is calm no failed
/// device step is reported before it was armed.
pub fn run<const N: usize, C: Cell, B: Cell, J: Journal, I: Issuer>(
    books: &mut Books<N, C, B, J, I>,
    events: &[Event],
    out: &mut Vec<Outcome>,
) -> Result<(), RunFault>
    ensures run { IfOk result (λ _. IsRun
        (meanings_of C.meaning B.meaning J.meaning I.decides)
        books.old events.now out.old.items out.new.items books.new) }
    ensures refused { IfErr result (RunRefused
        (meanings_of C.meaning B.meaning J.meaning I.decides)
        books.old events.now out.old.items out.new.items books.new) }
    ensures agree { BooksAgree
        (meanings_of C.meaning B.meaning J.meaning I.decides) books.new }
    // The total that stands for an initial key serial number is the total that its till, once at
    // rest, was told as approved.
    ensures totals { TotalsAgree
        (meanings_of C.meaning B.meaning J.meaning I.decides) books.new }
    // The host keeps nothing that no till sent.
    ensures sent { KeepsWhatWasSent
        (meanings_of C.meaning B.meaning J.meaning I.decides) books.new }
    // The payments that outcomes tell their tills as approved come to the merchants' book, with the
    // amount where the outcome has one, and nothing else does.
    ensures told { GainedMeet
        (λ outcomes. HasWhatWasTold books.old.sales outcomes books.new.sales)
        out.old.items out.new.items }
    // What stays: who owns an initial key serial number, alone, and the keys of the security module.
    ensures owners_stay { (iksn t : ℕ)
        → Owns books.old.owners iksn t → IsOwner books.new.owners iksn t }
    ensures keys_stay { books.new.host.keys ≡ books.old.host.keys }
    // No two requests or reversals use one number, and each is sent by the till that owned its
    // initial key serial number just before, and owns it at the end.
    ensures used_once { UsedOnce books.new.requests }
    ensures used_are_owned { AreUsedOwned books.new.requests books.new.owners }
    ensures owned_when_sent { GainedMeet
        (SentByOwners (meanings_of C.meaning B.meaning J.meaning I.decides) books.old)
        out.old.items out.new.items }
    ensures sent_by_owner { EachGained (IsSentByOwner books.new.owners) out.old.items out.new.items }
    // Each request and each reversal is made under the till's own key.
    ensures own_key_of_requests { All (IsOwnKeySent books.new.host.keys) books.new.requests }
    // No till's terminal holds the key of a used number or of its ancestors, nor finds it after a
    // stop. Its registers remember each initial key serial number under which it sent, its present
    // one or a past one, so that a load of one of these is refused. All its images are of version 2.
    // A till's book has no key.
    ensures above_used { InEachTill (meanings_of C.meaning B.meaning J.meaning I.decides)
        (OwnsAboveUsed books.new.host.keys books.new.requests books.new.owners) books.new.tills }
    ensures no_used_key { InEachTill (meanings_of C.meaning B.meaning J.meaning I.decides)
        (λ t. NoUsedKey books.new.host.keys books.new.requests) books.new.tills }
    ensures version_2 { FindVersion2
        (meanings_of C.meaning B.meaning J.meaning I.decides) books.new.tills }
    ensures books_have_no_key { FindLast
        (meanings_of C.meaning B.meaning J.meaning I.decides) books.new.tills }
    // The host accepts each number at most once, and has one reply to it.
    ensures accepted_once { GainedMeet
        (AcceptedOnce books.old.answers) out.old.items out.new.items }
    ensures one_reply { HaveOneReply books.new.answers }
    ensures accepted_is_kept { KeepsAccepted
        (meanings_of C.meaning B.meaning J.meaning I.decides) books.new }
    // Each reply is made under the till's own key, and a refusal is of a used number, or for want of
    // room.
    ensures own_key_of_replies { All (IsOwnKeyReply books.new.host.keys) books.new.answers }
    ensures refused_as_used_or_full { EachGained IsRefusedAsUsedOrFull out.old.items out.new.items }
    // A purchase ends only by the host's reply to its number, and at most once; and what a till
    // knows of its last purchase, whatever was restarted since, is the host's reply.
    ensures completed_by_host { GainedMeet
        (CompletedByHost (meanings_of C.meaning B.meaning J.meaning I.decides) books.old
        books.new) out.old.items out.new.items }
    ensures known_from_host { KnowFromHost
        (meanings_of C.meaning B.meaning J.meaning I.decides) books.new }
    // Sound stores report no damage, and calm ones fail only once they were armed.
    ensures sound { let m = meanings_of C.meaning B.meaning J.meaning I.decides in
        HasSoundStores m books.old → HasSoundStores m books.new }
    ensures no_damage { HasSoundStores
        (meanings_of C.meaning B.meaning J.meaning I.decides) books.old
        → EachGained ReportsNoDamage out.old.items out.new.items }
    ensures calm { let m = meanings_of C.meaning B.meaning J.meaning I.decides in
        (end : End) → IsCalmAt m books.old end
        → GainedMeet (StaysCalm m end books.new) out.old.items out.new.items }
    ensures once_armed { (end : End)
        → IsCalmAt (meanings_of C.meaning B.meaning J.meaning I.decides) books.old end
        → GainedMeet (FailsOnceArmed end) out.old.items out.new.items }
{
    laws::agreement::<C, B, J, I>();
    laws::numbers::<C, B, J, I>();
    laws::no_used_key::<C, B, J, I>();
    laws::own_key_of_requests::<C, B, J, I>();
    laws::what_stays::<C, B, J, I>();
    laws::accepted_once::<C, B, J, I>();
    laws::own_key_of_replies::<C, B, J, I>();
    laws::refusals::<C, B, J, I>();
    laws::completed_by_host::<C, B, J, I>();
    laws::calm_stores::<C, B, J, I>();
    run_system(&mut books.system, events, out)
}

/// Lets the events happen, one after the other.
fn run_system<const N: usize, C: Cell, B: Cell, J: Journal, I: Issuer>(
    system: &mut System<N, C, B, J, I>,
    events: &[Event],
    out: &mut Vec<Outcome>,
) -> Result<(), RunFault>
    ensures run { IfOk result (λ _. IsRun
        (meanings_of C.meaning B.meaning J.meaning I.decides)
        system.old events.now out.old.items out.new.items system.new) }
    ensures refused { IfErr result (RunRefused
        (meanings_of C.meaning B.meaning J.meaning I.decides)
        system.old events.now out.old.items out.new.items system.new) }
{
    let mut done = 0;
    for event in events {
        match step_into(system, event, out) {
            Ok(()) => done += 1,
            Err(AllocError) => return Err(RunFault::NoMemory { done }),
        }
    }
    Ok(())
}

/// Lets an event happen, and puts what comes of it at the end of `out`.
fn step_into<const N: usize, C: Cell, B: Cell, J: Journal, I: Issuer>(
    system: &mut System<N, C, B, J, I>,
    event: &Event,
    out: &mut Vec<Outcome>,
) -> Result<(), AllocError>
    ensures step { IfOk result (λ _. IsStepInto
        (meanings_of C.meaning B.meaning J.meaning I.decides)
        system.old event.now out.old.items out.new.items system.new) }
    ensures out { OnErr result (out.new.items ≡ out.old.items) }
    ensures left { OnErr result (IsRefusedMemory
        (meanings_of C.meaning B.meaning J.meaning I.decides) system.old event.now system.new) }
{
    out.reserve(1)?;
    let outcome = step(system, event)?;
    push_within(out, outcome);
    Ok(())
}

/// Lets an event happen.
fn step<const N: usize, C: Cell, B: Cell, J: Journal, I: Issuer>(
    system: &mut System<N, C, B, J, I>,
    event: &Event,
) -> Result<Outcome, AllocError>
    ensures step { IfOk result (λ outcome. Step
        (meanings_of C.meaning B.meaning J.meaning I.decides)
        system.old event.now outcome system.new) }
    ensures left { OnErr result (IsRefusedMemory
        (meanings_of C.meaning B.meaning J.meaning I.decides) system.old event.now system.new) }
{
    match *event {
        Event::Load { t, iksn } => system.load(t, iksn),
        Event::Begin { t, purchase } => system.begin(t, &purchase),
        Event::Reverse { t } => system.reverse(t),
        Event::Up { k } => system.up(k),
        Event::Down { k, t } => system.down(k, t),
        Event::RestartTill { t } => system.restart_till(t),
        Event::RestartHost => system.restart_host(),
        Event::Arm { end: End::Host, n } => Ok(system.arm_host(n)),
        Event::Arm {
            end: End::Terminal(t),
            n,
        } => Ok(system.arm_terminal(t, n)),
        Event::Arm {
            end: End::Book(t),
            n,
        } => Ok(system.arm_book(t, n)),
    }
}

//! The laws of worlds, each the contract of a function that does nothing: what holds of every world
//! that was new once and then moved on by events alone, and of what came of every call.

ghost use Rattle.std.specs.Prelude.{◌≡◌, ℕ, All, List};
ghost use Rattle.duk_hsm.specs.Commands.{IsIssued};
ghost use Rattle.duk_hsm.specs.Keys.{HsmKeys};
ghost use Rattle.duk_tdes.specs.Tdes.{IsTdesKey};
ghost use Rattle.duk_term.specs.Loading.{WrapsInitialKey};
ghost use Rattle.duk_net.specs.AcceptedOnce.{AcceptedOnce, KeepsAccepted};
ghost use Rattle.duk_net.specs.Calm.{FailsOnceArmed, HasSoundStores, ReportsBroughtUp, IsCalmAt, IsRestartEvent, StaysCalm, ReportsNoDamage};
ghost use Rattle.duk_net.specs.CompletedByHost.{CompletedByHost};
ghost use Rattle.duk_net.specs.declared.event.End.{End};
ghost use Rattle.duk_net.specs.declared.event.Event.{Event};
ghost use Rattle.duk_net.specs.declared.outcome.Outcome.{Outcome};
ghost use Rattle.duk_net.specs.Images.{FindVersion2};
ghost use Rattle.duk_hsm.specs.InitialKey.{IsInitialKeyOf};
ghost use Rattle.duk_net.specs.UsedOnce.{AreUsedOwned, IsSentByOwner, UsedOnce};
ghost use Rattle.duk_stations.specs.Owner.{IsOwner, Owns};
ghost use Rattle.duk_net.specs.OwnKey.{IsOwnKeyReply, IsOwnKeyRequest, IsRefusedAsUsedOrFull};
ghost use Rattle.duk_net.specs.Reached.{CallLeads, Reached};
ghost use Rattle.duk_net.specs.Run.{Run};
ghost use Rattle.duk_net.specs.Sent.{SentByOwners};
ghost use Rattle.duk_net.specs.NoUsedKey.{NoUsedKey, InEachTerminal, OwnsAboveUsed};
ghost use Rattle.duk_net.specs.World.{WorldOf, meanings_of};

use duk_host::Issuer;
use duk_store::{Cell, UsedLog};

/// A terminal finds no other key in the key block that is issued for it than its own initial key.
pub fn own_initial_key()
    ensures { (keys : HsmKeys) (iksn : ℕ) (loading padding block initial : List ℕ)
        → IsTdesKey loading
        → IsIssued keys iksn loading padding block → WrapsInitialKey loading block initial
        → IsInitialKeyOf keys iksn initial }
{
    duk_block::laws::one_reading();
}

/// No two transactions use one number, the initial key serial number of each has one owner, and a
/// terminal sends none but under one that it owned just before, and owns for good.
pub fn used_once<C: Cell, L: UsedLog, I: Issuer>()
    ensures used_once { (world : WorldOf C L I)
        → Reached (meanings_of C.meaning L.meaning I.decides) world
        → UsedOnce world.requests }
    ensures used_are_owned { (world : WorldOf C L I)
        → Reached (meanings_of C.meaning L.meaning I.decides) world
        → AreUsedOwned world.requests world.owners }
    ensures owned_when_sent { let m = meanings_of C.meaning L.meaning I.decides in
        (old new : WorldOf C L I) (outcomes : List Outcome) → Reached m old
        → CallLeads m old outcomes new → SentByOwners m old outcomes }
    ensures sent_by_owner { let m = meanings_of C.meaning L.meaning I.decides in
        (old new : WorldOf C L I) (outcomes : List Outcome) → Reached m old
        → CallLeads m old outcomes new → All (IsSentByOwner new.owners) outcomes }
{
    own_initial_key();
    duk_term::laws::requests::<C>();
    duk_stations::laws::registers();
    duk_frame::laws::one_reading();
}

/// No register and no image that a terminal's cell may find holds the key of a used number or of an
/// ancestor of one. Each such image is of version 2.
pub fn no_used_key<C: Cell, L: UsedLog, I: Issuer>()
    ensures above_used { let m = meanings_of C.meaning L.meaning I.decides in
        (world : WorldOf C L I) → Reached m world → InEachTerminal m
        (OwnsAboveUsed world.host.keys world.requests world.owners) world.terminals }
    ensures no_used_key { let m = meanings_of C.meaning L.meaning I.decides in
        (world : WorldOf C L I) → Reached m world
        → InEachTerminal m (λ t. NoUsedKey world.host.keys world.requests) world.terminals }
    ensures version_2 { let m = meanings_of C.meaning L.meaning I.decides in
        (world : WorldOf C L I) → Reached m world → FindVersion2 m world.terminals }
{
    own_initial_key();
    duk_term::laws::requests::<C>();
    duk_stations::laws::registers();
    duk_frame::laws::one_reading();
    duk_tree::laws::frontier();
    duk_regs::laws::uniqueness();
}

/// The host accepts each number at most once, and each number that it accepted stands in every list
/// that a restart may find.
pub fn accepted_once<C: Cell, L: UsedLog, I: Issuer>()
    ensures accepted_is_kept { let m = meanings_of C.meaning L.meaning I.decides in
        (world : WorldOf C L I) → Reached m world → KeepsAccepted m world }
    ensures accepted_once { let m = meanings_of C.meaning L.meaning I.decides in
        (old new : WorldOf C L I) (outcomes : List Outcome) → Reached m old
        → CallLeads m old outcomes new → AcceptedOnce old.answers outcomes }
{
    duk_frame::laws::one_reading();
    duk_host::laws::exchanges();
    duk_host::laws::replies();
}

/// Each request and each accepted reply, given for the first time or again, is made under the
/// transaction key of its number, from the terminal's own initial key, and a running host refuses
/// no request that was sent but because its number is used or the log is full.
pub fn own_key<C: Cell, L: UsedLog, I: Issuer>()
    ensures own_key_of_requests { (world : WorldOf C L I)
        → Reached (meanings_of C.meaning L.meaning I.decides) world
        → All (IsOwnKeyRequest world.host.keys) world.requests }
    ensures own_key_of_replies { (world : WorldOf C L I)
        → Reached (meanings_of C.meaning L.meaning I.decides) world
        → All (IsOwnKeyReply world.host.keys) world.answers }
    ensures refused_as_used_or_full { let m = meanings_of C.meaning L.meaning I.decides in
        (old new : WorldOf C L I) (outcomes : List Outcome) → Reached m old
        → CallLeads m old outcomes new → All IsRefusedAsUsedOrFull outcomes }
{
    no_used_key::<C, L, I>();
    duk_term::laws::requests::<C>();
    duk_host::laws::refusals();
    duk_host::laws::exchanges();
    duk_host::laws::replies();
    duk_frame::laws::one_reading();
    duk_stations::laws::keys::<C>();
}

/// A terminal completes only with the host's reply to the number that was pending, and each number
/// at most once.
pub fn completed_by_host<C: Cell, L: UsedLog, I: Issuer>()
    ensures { let m = meanings_of C.meaning L.meaning I.decides in
        (old new : WorldOf C L I) (outcomes : List Outcome) → Reached m old
        → CallLeads m old outcomes new → CompletedByHost m old new.terminals outcomes }
{
    used_once::<C, L, I>();
    duk_host::laws::exchanges();
    duk_term::laws::requests::<C>();
    duk_frame::laws::one_reading();
}

/// Sound stores stay sound, and no end reports that its store is damaged. A store that is calm
/// stays so until it is armed, and its end reports no failed device step before.
pub fn calm_stores<C: Cell, L: UsedLog, I: Issuer>()
    ensures sound { let m = meanings_of C.meaning L.meaning I.decides in
        (old new : WorldOf C L I) (outcomes : List Outcome) → Reached m old → HasSoundStores m old
        → CallLeads m old outcomes new → HasSoundStores m new }
    ensures no_damage { let m = meanings_of C.meaning L.meaning I.decides in
        (old new : WorldOf C L I) (outcomes : List Outcome) → Reached m old → HasSoundStores m old
        → CallLeads m old outcomes new → All ReportsNoDamage outcomes }
    ensures calm { let m = meanings_of C.meaning L.meaning I.decides in
        (end : End) (old new : WorldOf C L I) (outcomes : List Outcome) → Reached m old
        → IsCalmAt m old end → CallLeads m old outcomes new → StaysCalm m end new outcomes }
    ensures once_armed { let m = meanings_of C.meaning L.meaning I.decides in
        (end : End) (old new : WorldOf C L I) (outcomes : List Outcome) → Reached m old
        → IsCalmAt m old end → CallLeads m old outcomes new → FailsOnceArmed end outcomes }
{
    own_initial_key();
    duk_term::laws::requests::<C>();
    duk_stations::laws::registers();
    duk_frame::laws::one_reading();
    duk_host::laws::exchanges();
    duk_host::laws::replies();
}

/// Restarts of ends that are there bring them all up, where all stores are sound and calm, and
/// leave the stores so.
pub fn calm_restarts<C: Cell, L: UsedLog, I: Issuer>()
    ensures brought_up { let m = meanings_of C.meaning L.meaning I.decides in
        (old new : WorldOf C L I) (events : List Event) (outcomes : List Outcome) → Reached m old
        → HasSoundStores m old → ((end : End) → IsCalmAt m old end)
        → All (IsRestartEvent old) events → Run m old events outcomes new
        → All ReportsBroughtUp outcomes }
    ensures sound { let m = meanings_of C.meaning L.meaning I.decides in
        (old new : WorldOf C L I) (events : List Event) (outcomes : List Outcome) → Reached m old
        → HasSoundStores m old → Run m old events outcomes new → HasSoundStores m new }
    ensures calm { let m = meanings_of C.meaning L.meaning I.decides in
        (old new : WorldOf C L I) (events : List Event) (outcomes : List Outcome) → Reached m old
        → HasSoundStores m old → ((end : End) → IsCalmAt m old end)
        → All (IsRestartEvent old) events → Run m old events outcomes new → (end : End)
        → IsCalmAt m new end }
{
    calm_stores::<C, L, I>();
    own_initial_key();
    duk_term::laws::requests::<C>();
    duk_stations::laws::registers();
    duk_frame::laws::one_reading();
    duk_host::laws::exchanges();
    duk_host::laws::replies();
}

/// A call leads to a world that is reached too. Who owns an initial key serial number owns it alone
/// and for good, and the security module keeps its keys.
pub fn what_stays<C: Cell, L: UsedLog, I: Issuer>()
    ensures reached { let m = meanings_of C.meaning L.meaning I.decides in
        (old new : WorldOf C L I) (outcomes : List Outcome) → Reached m old
        → CallLeads m old outcomes new → Reached m new }
    ensures owners { let m = meanings_of C.meaning L.meaning I.decides in
        (old new : WorldOf C L I) (outcomes : List Outcome) → Reached m old
        → CallLeads m old outcomes new → (iksn t : ℕ) → Owns old.owners iksn t
        → IsOwner new.owners iksn t }
    ensures keys { let m = meanings_of C.meaning L.meaning I.decides in
        (old new : WorldOf C L I) (outcomes : List Outcome) → Reached m old
        → CallLeads m old outcomes new → new.host.keys ≡ old.host.keys }
{}

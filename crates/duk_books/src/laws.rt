//! The laws of tills and a host, each the contract of a function that does nothing: what holds of all
//! that was new once and then moved on by events alone.

ghost use Rattle.std.specs.Prelude.{◌≡◌, ℕ, All, List, Some};
ghost use Rattle.duk_frame.specs.declared.code.Code.{Code};
ghost use Rattle.duk_hsm.specs.Commands.{IsIssued};
ghost use Rattle.duk_hsm.specs.Keys.{HsmKeys};
ghost use Rattle.duk_journal.specs.DiskJournal.{DiskJournalOf, disk_journal_meaning};
ghost use Rattle.duk_regs.specs.Registers.{RegisterSet};
ghost use Rattle.duk_store.specs.SlotCell.{SlotCellOf, slot_cell_meaning};
ghost use Rattle.duk_tdes.specs.Tdes.{IsTdesKey};
ghost use Rattle.duk_term.specs.Body.{set_of_body};
ghost use Rattle.duk_term.specs.Loading.{WrapsInitialKey};
ghost use Rattle.duk_term.specs.declared.purchase.Purchase.{Purchase};
ghost use Rattle.duk_term.specs.declared.state.Pending.{Pending};
ghost use Rattle.duk_term.specs.declared.state.State.{State};
ghost use Rattle.duk_term.specs.declared.state.State.TheVariants.{Loaded};
ghost use Rattle.duk_till.specs.History.{payment_of};
ghost use Rattle.duk_tree.specs.Serial.{Serial};
ghost use Rattle.duk_books.specs.AcceptedOnce.{AcceptedOnce, HaveOneReply, KeepsAccepted};
ghost use Rattle.duk_books.specs.Agree.{BooksAgree};
ghost use Rattle.duk_books.specs.Books.{BooksOf, meanings_of};
ghost use Rattle.duk_books.specs.Came.{KeepsWhatWasSent};
ghost use Rattle.duk_books.specs.CallLeads.{CallLeads};
ghost use Rattle.duk_books.specs.Calm.{FailsOnceArmed, HasSoundStores, IsCalmAt, IsRestartEvent, ReportsBroughtUp, ReportsNoDamage, StaysCalm};
ghost use Rattle.duk_books.specs.Completed.{CompletedByHost, KnowFromHost};
ghost use Rattle.duk_books.specs.Images.{FindLast, FindVersion2};
ghost use Rattle.duk_hsm.specs.InitialKey.{IsInitialKeyOf};
ghost use Rattle.duk_books.specs.NoUsedKey.{InEachTill, NoUsedKey, OwnsAboveUsed};
ghost use Rattle.duk_books.specs.Numbers.{AreUsedOwned, IsSentByOwner, UsedOnce};
ghost use Rattle.duk_stations.specs.Owner.{IsOwner, Owns};
ghost use Rattle.duk_books.specs.OwnKeyOfReplies.{IsOwnKeyReply, IsRefusedAsUsedOrFull};
ghost use Rattle.duk_books.specs.OwnKeyOfRequests.{IsOwnKeySent};
ghost use Rattle.duk_books.specs.Reached.{Reached};
ghost use Rattle.duk_books.specs.Run.{Run};
ghost use Rattle.duk_books.specs.Sent.{SentByOwners};
ghost use Rattle.duk_books.specs.StolenTill.{HasImage, HasMemory, ShowsRegisters, StandAlike, TerminalsStandAlike, WaitsWithItsReplyKey};
ghost use Rattle.duk_books.specs.Told.{HasWhatWasTold};
ghost use Rattle.duk_books.specs.Totals.{TotalsAgree};
ghost use Rattle.duk_books.specs.inner.Known.{BookLaws};
ghost use Rattle.duk_books.specs.WayIn.{IsOverAt, IsPaymentRun, KeepsPayment, OthersStay, sales_with, told_with};
ghost use Rattle.duk_books.specs.WayOut.{HasWayOut, IsAtRestAt, IsOpenAt, IsUndoneAt, OpenNumbersAreUsed, ReportsNoWear, way_out_of};
ghost use Rattle.duk_books.specs.declared.event.End.{End};
ghost use Rattle.duk_books.specs.declared.event.Event.{Event};
ghost use Rattle.duk_books.specs.declared.outcome.Outcome.{Outcome};

use duk_host::Issuer;
use duk_journal::{DiskJournal, Journal};
use duk_store::{Cell, Disk, SlotCell};

/// The merchants' book and that of the host agree, whatever the events are. Each payment that a till
/// was told as approved stands at the host, with its amount. Of a till that runs, no other payment
/// stands, but perhaps the one that is open, of which there is one at most; and of a till at rest
/// those that stand are exactly those that it was told as approved.
///
/// So the totals agree. Under each initial key serial number that a till owns, what stands, which is
/// the total that a journal is shown with, is never less than what the till was told as approved.
/// While the till runs, the two are equal, or what stands is more by the amount of the open purchase;
/// and at rest they are equal.
///
/// The host keeps nothing that no till sent: each payment was asked for by a request of that number
/// and amount, and each reversal by a reversal of that number, which names the one that is reversed.
/// Nothing of the merchants' book is lost. The payments that outcomes tell their tills as approved stand
/// there, with the amount where the outcome has one, and nothing else comes to it.
pub fn agreement<C: Cell, B: Cell, J: Journal, I: Issuer>()
    ensures agree { let m = meanings_of C.meaning B.meaning J.meaning I.decides in
        (books : BooksOf C B J I) → Reached m books → BooksAgree m books }
    ensures totals { let m = meanings_of C.meaning B.meaning J.meaning I.decides in
        (books : BooksOf C B J I) → Reached m books → TotalsAgree m books }
    ensures sent { let m = meanings_of C.meaning B.meaning J.meaning I.decides in
        (books : BooksOf C B J I) → Reached m books → KeepsWhatWasSent m books }
    ensures told { let m = meanings_of C.meaning B.meaning J.meaning I.decides in
        (old new : BooksOf C B J I) (outcomes : List Outcome) → Reached m old
        → CallLeads m old outcomes new → HasWhatWasTold old.sales outcomes new.sales }
{
    duk_journal::laws::totals();
    known::<C, B, J, I>();
}

/// So it is where all stand on disks: of each till both cells, and of the host its journal.
pub fn agreement_on_disks<D: Disk, E: Disk, F: Disk, I: Issuer>()
    ensures agree { let m = meanings_of (slot_cell_meaning D.meaning) (slot_cell_meaning E.meaning)
        (disk_journal_meaning F.meaning) I.decides in
        (books : BooksOf (SlotCellOf D) (SlotCellOf E) (DiskJournalOf F) I)
        → Reached m books → BooksAgree m books }
    ensures totals { let m = meanings_of (slot_cell_meaning D.meaning) (slot_cell_meaning E.meaning)
        (disk_journal_meaning F.meaning) I.decides in
        (books : BooksOf (SlotCellOf D) (SlotCellOf E) (DiskJournalOf F) I)
        → Reached m books → TotalsAgree m books }
{
    agreement::<SlotCell<D>, SlotCell<E>, DiskJournal<F>, I>();
}

/// A till finds no other key in the key block that is issued for it than its own initial key.
pub fn own_initial_key()
    ensures { (keys : HsmKeys) (iksn : ℕ) (loading padding block initial : List ℕ)
        → IsTdesKey loading
        → IsIssued keys iksn loading padding block → WrapsInitialKey loading block initial
        → IsInitialKeyOf keys iksn initial }
{
    duk_block::laws::one_reading();
}

/// No two requests or reversals use one number, the initial key serial number of each has one owner,
/// and a till sends none but under one that it owned just before, and owns for good.
pub fn numbers<C: Cell, B: Cell, J: Journal, I: Issuer>()
    ensures used_once { let m = meanings_of C.meaning B.meaning J.meaning I.decides in
        (books : BooksOf C B J I) → Reached m books → UsedOnce books.requests }
    ensures used_are_owned { let m = meanings_of C.meaning B.meaning J.meaning I.decides in
        (books : BooksOf C B J I) → Reached m books → AreUsedOwned books.requests books.owners }
    ensures owned_when_sent { let m = meanings_of C.meaning B.meaning J.meaning I.decides in
        (old new : BooksOf C B J I) (outcomes : List Outcome) → Reached m old
        → CallLeads m old outcomes new → SentByOwners m old outcomes }
    ensures sent_by_owner { let m = meanings_of C.meaning B.meaning J.meaning I.decides in
        (old new : BooksOf C B J I) (outcomes : List Outcome) → Reached m old
        → CallLeads m old outcomes new → All (IsSentByOwner new.owners) outcomes }
{
    own_initial_key();
    known::<C, B, J, I>();
}

/// No register of a till's terminal and no image that its cell may find holds the key of a used
/// number, of a request or of a reversal, or of an ancestor of one. Each such image is of version 2,
/// and a book may find nothing but last purchases, which have no key.
pub fn no_used_key<C: Cell, B: Cell, J: Journal, I: Issuer>()
    ensures above_used { let m = meanings_of C.meaning B.meaning J.meaning I.decides in
        (books : BooksOf C B J I) → Reached m books → InEachTill m
        (OwnsAboveUsed books.host.keys books.requests books.owners) books.tills }
    ensures no_used_key { let m = meanings_of C.meaning B.meaning J.meaning I.decides in
        (books : BooksOf C B J I) → Reached m books
        → InEachTill m (λ t. NoUsedKey books.host.keys books.requests) books.tills }
    ensures version_2 { let m = meanings_of C.meaning B.meaning J.meaning I.decides in
        (books : BooksOf C B J I) → Reached m books → FindVersion2 m books.tills }
    ensures books_have_no_key { let m = meanings_of C.meaning B.meaning J.meaning I.decides in
        (books : BooksOf C B J I) → Reached m books → FindLast m books.tills }
{
    own_initial_key();
    known::<C, B, J, I>();
    duk_tree::laws::frontier();
    duk_regs::laws::uniqueness();
}

/// What a till shows to whoever opens it. Its registers are determined by its initial key, its initial
/// key serial number, its next counter and its past initial key serial numbers: nothing in them comes
/// of a PIN, a PAN or an amount. Its images are those of such registers, and have no other byte. A
/// terminal that waits for a reply also has that number and its reply key, and nothing else. Its book
/// has a last purchase: a number, an amount, a state and a code.
///
/// The first three clauses compare two tills, of one world or of two: where they stand alike, they show
/// the same, whatever was paid at each.
pub fn stolen_till<C: Cell, B: Cell, J: Journal, I: Issuer>()
    ensures registers { let m = meanings_of C.meaning B.meaning J.meaning I.decides in
        (books others : BooksOf C B J I) (one other : RegisterSet)
        → Reached m books → Reached m others
        → ShowsRegisters m books.tills one → ShowsRegisters m others.tills other
        → StandAlike books.host.keys others.host.keys one other → one ≡ other }
    ensures images { let m = meanings_of C.meaning B.meaning J.meaning I.decides in
        (books others : BooksOf C B J I) (one other : List ℕ)
        → Reached m books → Reached m others
        → HasImage m books.tills one → HasImage m others.tills other
        → StandAlike books.host.keys others.host.keys (set_of_body one) (set_of_body other)
        → one ≡ other }
    ensures memory { let m = meanings_of C.meaning B.meaning J.meaning I.decides in
        (books others : BooksOf C B J I) (one other : State)
        → Reached m books → Reached m others
        → HasMemory books.tills one → HasMemory others.tills other
        → TerminalsStandAlike books.host.keys others.host.keys one other → one ≡ other }
    ensures reply_key { let m = meanings_of C.meaning B.meaning J.meaning I.decides in
        (books : BooksOf C B J I) (set : RegisterSet) (pending : Pending)
        → Reached m books → HasMemory books.tills (Loaded set (Some pending))
        → WaitsWithItsReplyKey books.host.keys set pending }
    ensures book { let m = meanings_of C.meaning B.meaning J.meaning I.decides in
        (books : BooksOf C B J I) → Reached m books → FindLast m books.tills }
{
    no_used_key::<C, B, J, I>();
    duk_regs::laws::transactions();
    duk_regs::laws::uniqueness();
    duk_tree::laws::bits();
}

/// Each request and each reversal is made under the transaction key of its number, from the till's
/// own initial key.
pub fn own_key_of_requests<C: Cell, B: Cell, J: Journal, I: Issuer>()
    ensures { let m = meanings_of C.meaning B.meaning J.meaning I.decides in
        (books : BooksOf C B J I) → Reached m books
        → All (IsOwnKeySent books.host.keys) books.requests }
{
    no_used_key::<C, B, J, I>();
    duk_term::laws::requests::<C>();
    duk_term::laws::reversals::<C>();
    duk_stations::laws::keys::<C>();
}

/// Who owns an initial key serial number owns it alone and for good, and the host's security module
/// keeps its keys.
pub fn what_stays<C: Cell, B: Cell, J: Journal, I: Issuer>()
    ensures owners { let m = meanings_of C.meaning B.meaning J.meaning I.decides in
        (old new : BooksOf C B J I) (outcomes : List Outcome) → Reached m old
        → CallLeads m old outcomes new → (iksn t : ℕ) → Owns old.owners iksn t
        → IsOwner new.owners iksn t }
    ensures keys { let m = meanings_of C.meaning B.meaning J.meaning I.decides in
        (old new : BooksOf C B J I) (outcomes : List Outcome) → Reached m old
        → CallLeads m old outcomes new → new.host.keys ≡ old.host.keys }
{}

/// The host accepts each number at most once. All replies to one number, to its payment or to the
/// reversal that uses it, are one frame, and no number has both. What was replied to is kept in every
/// list of entries by which the host judges or which a restart of its journal may find, and each
/// entry there used a new number.
pub fn accepted_once<C: Cell, B: Cell, J: Journal, I: Issuer>()
    ensures one_reply { let m = meanings_of C.meaning B.meaning J.meaning I.decides in
        (books : BooksOf C B J I) → Reached m books → HaveOneReply books.answers }
    ensures accepted_is_kept { let m = meanings_of C.meaning B.meaning J.meaning I.decides in
        (books : BooksOf C B J I) → Reached m books → KeepsAccepted m books }
    ensures accepted_once { let m = meanings_of C.meaning B.meaning J.meaning I.decides in
        (old new : BooksOf C B J I) (outcomes : List Outcome) → Reached m old
        → CallLeads m old outcomes new → AcceptedOnce old.answers outcomes }
{
    duk_frame::laws::one_reading();
    duk_frame::laws::payments();
    duk_journal_host::laws::new_numbers();
    duk_journal_host::laws::one_reply();
}

/// Each reply to a payment or to a reversal, given for the first time or again, is made under the
/// transaction key of its number, from the keys that the host holds.
pub fn own_key_of_replies<C: Cell, B: Cell, J: Journal, I: Issuer>()
    ensures { let m = meanings_of C.meaning B.meaning J.meaning I.decides in
        (books : BooksOf C B J I) → Reached m books
        → All (IsOwnKeyReply books.host.keys) books.answers }
{
    duk_frame::laws::one_reading();
    duk_frame::laws::payments();
    duk_journal_host::laws::new_numbers();
    duk_journal_host::laws::one_reply();
}

/// A running host refuses no request and no reversal that was sent but because its number is used or
/// there is no room.
pub fn refusals<C: Cell, B: Cell, J: Journal, I: Issuer>()
    ensures { let m = meanings_of C.meaning B.meaning J.meaning I.decides in
        (old new : BooksOf C B J I) (outcomes : List Outcome) → Reached m old
        → CallLeads m old outcomes new → All IsRefusedAsUsedOrFull outcomes }
{
    own_key_of_requests::<C, B, J, I>();
    duk_frame::laws::one_reading();
    duk_frame::laws::payments();
    duk_host::laws::refusals();
    duk_reversal::laws::one_reading();
    duk_reversal::laws::apart_from_payments();
    duk_reversal::laws::authentic();
    duk_journal_host::laws::new_numbers();
    duk_journal_host::laws::one_reply();
}

/// A purchase is complete or undone only by the host's reply to the number for which its till's
/// terminal waited, and ends at most once. What a till knows of its last purchase, whatever was
/// restarted since, is the host's reply.
pub fn completed_by_host<C: Cell, B: Cell, J: Journal, I: Issuer>()
    ensures completed_by_host { let m = meanings_of C.meaning B.meaning J.meaning I.decides in
        (old new : BooksOf C B J I) (outcomes : List Outcome) → Reached m old
        → CallLeads m old outcomes new → CompletedByHost m old new outcomes }
    ensures known_from_host { let m = meanings_of C.meaning B.meaning J.meaning I.decides in
        (books : BooksOf C B J I) → Reached m books → KnowFromHost m books }
{
    known::<C, B, J, I>();
}

/// Sound stores stay sound, and none of them is reported as damaged. A store that is calm stays so
/// until it is armed, and no failed device step of it is reported before.
pub fn calm_stores<C: Cell, B: Cell, J: Journal, I: Issuer>()
    ensures sound { let m = meanings_of C.meaning B.meaning J.meaning I.decides in
        (old new : BooksOf C B J I) (outcomes : List Outcome) → Reached m old
        → HasSoundStores m old → CallLeads m old outcomes new → HasSoundStores m new }
    ensures no_damage { let m = meanings_of C.meaning B.meaning J.meaning I.decides in
        (old new : BooksOf C B J I) (outcomes : List Outcome) → Reached m old
        → HasSoundStores m old → CallLeads m old outcomes new → All ReportsNoDamage outcomes }
    ensures calm { let m = meanings_of C.meaning B.meaning J.meaning I.decides in
        (end : End) (old new : BooksOf C B J I) (outcomes : List Outcome) → Reached m old
        → IsCalmAt m old end → CallLeads m old outcomes new → StaysCalm m end new outcomes }
    ensures once_armed { let m = meanings_of C.meaning B.meaning J.meaning I.decides in
        (end : End) (old new : BooksOf C B J I) (outcomes : List Outcome) → Reached m old
        → IsCalmAt m old end → CallLeads m old outcomes new → FailsOnceArmed end outcomes }
{
    no_used_key::<C, B, J, I>();
    known::<C, B, J, I>();
}

/// Restarts of the host and of tills that are there bring them all up, where all stores are sound
/// and calm, and leave the stores so.
pub fn calm_restarts<C: Cell, B: Cell, J: Journal, I: Issuer>()
    ensures brought_up { let m = meanings_of C.meaning B.meaning J.meaning I.decides in
        (old new : BooksOf C B J I) (events : List Event) (outcomes : List Outcome)
        → Reached m old → HasSoundStores m old → ((end : End) → IsCalmAt m old end)
        → All (IsRestartEvent old) events → Run m old events outcomes new
        → All ReportsBroughtUp outcomes }
    ensures sound { let m = meanings_of C.meaning B.meaning J.meaning I.decides in
        (old new : BooksOf C B J I) (events : List Event) (outcomes : List Outcome)
        → Reached m old → HasSoundStores m old → Run m old events outcomes new
        → HasSoundStores m new }
    ensures calm { let m = meanings_of C.meaning B.meaning J.meaning I.decides in
        (old new : BooksOf C B J I) (events : List Event) (outcomes : List Outcome)
        → Reached m old → HasSoundStores m old → ((end : End) → IsCalmAt m old end)
        → All (IsRestartEvent old) events → Run m old events outcomes new → (end : End)
        → IsCalmAt m new end }
{
    calm_stores::<C, B, J, I>();
    no_used_key::<C, B, J, I>();
    known::<C, B, J, I>();
}

/// Each till comes to rest. From all that is reached, where all stores are sound and calm, a till with
/// a number left is at rest behind five events, where the host has room for a record, no memory is
/// refused and no store is reported as worn: the till and the host are restarted, the till reverses,
/// its frame goes up, and the answer comes down. A purchase that was open is then undone.
///
/// While a purchase is open, or may be after a restart, the till's registers used its number, so that
/// the till may reverse it: those in memory did, if the terminal runs and has any, and so did those of
/// each image that its cell may find. Of a terminal without registers and of an empty cell this says
/// nothing.
pub fn way_out<C: Cell, B: Cell, J: Journal, I: Issuer>()
    ensures open_number_is_used { let m = meanings_of C.meaning B.meaning J.meaning I.decides in
        (books : BooksOf C B J I) → Reached m books → OpenNumbersAreUsed m books.tills }
    ensures at_rest { let m = meanings_of C.meaning B.meaning J.meaning I.decides in
        (old new : BooksOf C B J I) (t : ℕ) (outcomes : List Outcome) → Reached m old
        → HasWayOut m old t → Run m old (way_out_of old t) outcomes new
        → All ReportsNoWear outcomes → IsAtRestAt new.tills t }
    ensures undone { let m = meanings_of C.meaning B.meaning J.meaning I.decides in
        (old new : BooksOf C B J I) (t : ℕ) (outcomes : List Outcome) (ksn : Serial)
        → Reached m old → HasWayOut m old t → IsOpenAt old.tills t ksn
        → Run m old (way_out_of old t) outcomes new
        → All ReportsNoWear outcomes → IsUndoneAt new.tills t ksn }
{
    stolen_till::<C, B, J, I>();
    own_key_of_requests::<C, B, J, I>();
    no_used_key::<C, B, J, I>();
    duk_tree::laws::prefixes();
    duk_reversal::laws::authentic();
    known::<C, B, J, I>();
}

/// From rest a payment comes through, with the issuer's code. From all that is reached, where a till is
/// at rest and may begin, the host runs and has room for a payment, and the stores of both are calm,
/// three events are the payment: the till begins the purchase, its request goes up, and the answer comes
/// down. No memory is refused to them, and no store is reported as worn.
///
/// Then the till is told what the issuer says of the PAN, the amount and the PIN that the customer gave,
/// and of nothing else; the host keeps the payment with that code, after all that it kept; the till is at
/// rest, and has the purchase as approved exactly where the issuer approved it; so has the merchants'
/// book, to which nothing else comes; and each other till is as it was.
///
/// That the keys of till and host belong together, and that the number is new, is no premise: it holds of
/// all that is reached.
pub fn way_in<C: Cell, B: Cell, J: Journal, I: Issuer>()
    ensures told { let m = meanings_of C.meaning B.meaning J.meaning I.decides in
        (old new : BooksOf C B J I) (t : ℕ) (purchase : Purchase) (ksn : Serial) (code : Code)
        → (outcomes : List Outcome) → IsPaymentRun m old t purchase ksn code outcomes new
        → outcomes ≡ told_with old t ksn code }
    ensures at_rest { let m = meanings_of C.meaning B.meaning J.meaning I.decides in
        (old new : BooksOf C B J I) (t : ℕ) (purchase : Purchase) (ksn : Serial) (code : Code)
        → (outcomes : List Outcome) → IsPaymentRun m old t purchase ksn code outcomes new
        → IsOverAt new.tills t ksn purchase.amount code }
    ensures kept { let m = meanings_of C.meaning B.meaning J.meaning I.decides in
        (old new : BooksOf C B J I) (t : ℕ) (purchase : Purchase) (ksn : Serial) (code : Code)
        → (outcomes : List Outcome) → IsPaymentRun m old t purchase ksn code outcomes new
        → KeepsPayment m old new ksn purchase.amount code }
    ensures sold { let m = meanings_of C.meaning B.meaning J.meaning I.decides in
        (old new : BooksOf C B J I) (t : ℕ) (purchase : Purchase) (ksn : Serial) (code : Code)
        → (outcomes : List Outcome) → IsPaymentRun m old t purchase ksn code outcomes new
        → new.sales ≡ sales_with old.sales t (payment_of ksn purchase.amount) code }
    ensures others { let m = meanings_of C.meaning B.meaning J.meaning I.decides in
        (old new : BooksOf C B J I) (t : ℕ) (purchase : Purchase) (ksn : Serial) (code : Code)
        → (outcomes : List Outcome) → IsPaymentRun m old t purchase ksn code outcomes new
        → OthersStay old.tills t new.tills }
{
    no_used_key::<C, B, J, I>();
    duk_pin::laws::one_pin();
    duk_stations::laws::keys::<C>();
    known::<C, B, J, I>();
}

/// What most laws rest on: what the laws of the crates below say of registers, frames, bodies and the
/// host's answers.
fn known<C: Cell, B: Cell, J: Journal, I: Issuer>()
    ensures { BookLaws (meanings_of C.meaning B.meaning J.meaning I.decides) }
{
    duk_till::laws::one_reading();
    duk_term::laws::requests::<C>();
    duk_term::laws::reversals::<C>();
    duk_stations::laws::registers();
    duk_frame::laws::one_reading();
    duk_frame::laws::payments();
    duk_reversal::laws::one_reading();
    duk_reversal::laws::apart_from_payments();
    duk_journal_host::laws::new_numbers();
    duk_journal_host::laws::one_reply();
}

//! Laws of hosts over journals, each the contract of a function that does nothing.

ghost use Rattle.std.specs.Prelude.{◌≡◌, ◌≢◌, ◌⊎◌, ◌++◌, ℕ, [], List, Contains, length};
ghost use Rattle.std.specs.List.{concat};
ghost use Rattle.duk_frame.specs.Answer.{IsAnswer, IsRefusal};
ghost use Rattle.duk_frame.specs.Request.{IsRequest};
ghost use Rattle.duk_frame.specs.declared.answer.AnswerFrame.{AnswerFrame};
ghost use Rattle.duk_frame.specs.declared.code.Code.{Code};
ghost use Rattle.duk_frame.specs.declared.request.Request.{Request};
ghost use Rattle.duk_host.specs.Judgement.{Decision, IsAuthentic, IsReplyWith};
ghost use Rattle.duk_host.specs.Lifetime.{AcceptsAlike};
ghost use Rattle.duk_host.specs.Serve.{Supply};
ghost use Rattle.duk_host.specs.declared.fault.HostFault.{HostFault};
ghost use Rattle.duk_host.specs.declared.fault.HostFault.TheVariants as fault;
ghost use Rattle.duk_hsm.specs.Keys.{HsmKeys};
ghost use Rattle.duk_io.specs.Sink.{IsWritten};
ghost use Rattle.duk_journal.specs.DiskJournal.{DiskJournalOf, disk_journal_meaning, new_disk_journal};
ghost use Rattle.duk_journal.specs.Groups.{Entries};
ghost use Rattle.duk_journal.specs.Standing.{Stands, UseNewNumbers, reversed_numbers, used_by};
ghost use Rattle.duk_journal.specs.declared.entry.Entry.{Entry};
ghost use Rattle.duk_reversal.specs.Numbers.{Numbers};
ghost use Rattle.duk_reversal.specs.Reply.{IsReversalReply};
ghost use Rattle.duk_reversal.specs.Reversal.{IsReversal};
ghost use Rattle.duk_reversal.specs.declared.reply.ReversalReply.{ReversalReply};
ghost use Rattle.duk_reversal.specs.declared.reversal.Reversal.{Reversal};
ghost use Rattle.duk_reversal.specs.declared.state.ReversalState.{ReversalState};
ghost use Rattle.duk_store.specs.StoreState.{FindsWithin};
ghost use Rattle.duk_store.specs.declared.fault.StoreFault.TheVariants.{Damaged};
ghost use Rattle.duk_tree.specs.Serial.{Serial};
ghost use Rattle.duk_journal_host.specs.Candidate.{IsCandidate, IsItsOwnCode, IsOfCandidate};
ghost use Rattle.duk_journal_host.specs.Check.{CheckRefused, IsChecked};
ghost use Rattle.duk_journal_host.specs.Host.{HostOf, host_meaning_of};
ghost use Rattle.duk_journal_host.specs.Judged.{AreJudged, AreRepliesOf, AreReversalRepliesOf, AreTwoGroups, IsAsTold, IsReplyOf, IsReversalReplyOf, TellWhatIsKept, TellsAlike, TellsReversal};
ghost use Rattle.duk_journal_host.specs.Judgement.{IsAuthenticReversal, IsJudged, IsPaymentKept, IsReversalKept, IsReversalReplyWith, LineBasis, line_basis, with_entries};
ghost use Rattle.duk_journal_host.specs.Latest.{latest_entries};
ghost use Rattle.duk_journal_host.specs.Lifetime.{AreWrittenTo, IsLifetime, IsMadeOver, IsService, all_answers};
ghost use Rattle.duk_journal_host.specs.Restart.{HostRestartRefused, IsHostRestarted, IsUsableJournal};
ghost use Rattle.duk_journal_host.specs.Serve.{IsReadToEnd, Service, ServiceFailed};
ghost use Rattle.duk_journal_host.specs.Steps.{IsAnswerOf, IsAsked, IsCodeFor, IsDismissed, IsSettledBy, added_by};
ghost use Rattle.duk_journal_host.specs.View.{HaveOneRing, host_view};
ghost use Rattle.duk_journal_host.specs.declared.candidate.Candidate.{Candidate};
ghost use Rattle.duk_journal_host.specs.declared.check.Checked.{Checked};
ghost use Rattle.duk_journal_host.specs.declared.group.Group.TheInside as group;
ghost use Rattle.duk_journal_host.specs.declared.host.JournalHost.TheInside as host;
ghost use Rattle.duk_journal_host.specs.declared.index.Index.TheInside as index;
ghost use Rattle.duk_journal_host.specs.declared.index.Index.TheView as index_view;
ghost use Rattle.duk_journal_host.specs.declared.settlement.Settled.{Settled};
ghost use Rattle.duk_journal_host.specs.declared.workspace.Workspace.TheInside as workspace;

use duk_host::Issuer;
use duk_journal::{DiskJournal, Journal};
use duk_store::Disk;

/// It does not matter how frames are grouped: a group after another is one group, and one group is
/// any first part of it and the rest, by what that left. There are as many answers as frames.
pub fn grouping()
    ensures joined { (basis : LineBasis) (frames more answers others : List (List ℕ))
        → (added further : Entries) → AreJudged basis frames answers added
        → AreJudged (with_entries basis added) more others further
        → AreJudged basis (frames ++ more) (answers ++ others) (added ++ further) }
    ensures parted { (basis : LineBasis) (frames more answers : List (List ℕ)) (added : Entries)
        → AreJudged basis (frames ++ more) answers added
        → AreTwoGroups basis frames more answers added }
    ensures as_many { (basis : LineBasis) (frames answers : List (List ℕ)) (added : Entries)
        → AreJudged basis frames answers added → length answers ≡ length frames }
{}

/// A frame may be judged in three steps, whatever keeps the entries. What is authenticated by the
/// keys, settled by the entries, and answered with what came of that, is judged so; and so is a frame
/// that is refused whatever is kept. A candidate, whose code was given before it is settled, is one
/// that is authenticated.
pub fn steps()
    ensures dismissed { (keys : HsmKeys) (entries : Entries) (capacity room : ℕ)
        → (decides : Decision) (bytes frame : List ℕ) → IsDismissed keys bytes frame
        → IsJudged (line_basis keys entries capacity room decides) bytes frame [] }
    ensures settled { (keys : HsmKeys) (entries : Entries) (capacity room : ℕ) (decides : Decision)
        → (bytes frame : List ℕ) (settled : Settled) → IsAsked keys bytes settled
        → IsSettledBy entries capacity room (IsCodeFor keys decides bytes) settled
        → IsAnswerOf keys settled frame
        → IsJudged (line_basis keys entries capacity room decides) bytes frame (added_by settled) }
    ensures candidate { (keys : HsmKeys) (entries : Entries) (capacity room : ℕ)
        → (decides : Decision) (bytes : List ℕ) (candidate : Candidate) (settled : Settled)
        → IsCandidate keys decides bytes candidate → IsOfCandidate candidate settled
        → IsSettledBy entries capacity room (IsItsOwnCode candidate) settled
        → IsAsked keys bytes settled
        × IsSettledBy entries capacity room (IsCodeFor keys decides bytes) settled }
{
    duk_frame::laws::one_reading();
}

/// Frames in turn add no entry whose own number was used before, by a payment, by a reversal or as
/// a number that was reversed.
pub fn new_numbers()
    ensures { (basis : LineBasis) (frames answers : List (List ℕ)) (added : Entries)
        → AreJudged basis frames answers added → UseNewNumbers basis.entries
        → UseNewNumbers (basis.entries ++ added) }
{}

/// Each reply among the answers to frames is the reply to an entry of the list that they leave, and
/// stays one of each longer list. In a list in which each entry uses a new number, all replies to
/// one number are equal, byte for byte: those to its payment, or those to the reversal that uses
/// it.
pub fn one_reply()
    ensures kept { (basis : LineBasis) (frames answers : List (List ℕ)) (added : Entries)
        → AreJudged basis frames answers added
        → AreRepliesOf basis.keys (basis.entries ++ added) answers
        × AreReversalRepliesOf basis.keys (basis.entries ++ added) answers }
    ensures longer { (keys : HsmKeys) (entries added : Entries) (ksn : Serial) (frame : List ℕ)
        → IsReplyOf keys entries ksn frame → IsReplyOf keys (entries ++ added) ksn frame }
    ensures reversal_longer { (keys : HsmKeys) (entries added : Entries) (numbers : Numbers)
        → (state : ReversalState) (frame : List ℕ)
        → IsReversalReplyOf keys entries numbers state frame
        → IsReversalReplyOf keys (entries ++ added) numbers state frame }
    ensures equal { (keys : HsmKeys) (entries : Entries) (ksn : Serial) (one other : List ℕ)
        → UseNewNumbers entries → IsReplyOf keys entries ksn one
        → IsReplyOf keys entries ksn other → one ≡ other }
    ensures reversal_equal { (keys : HsmKeys) (entries : Entries) (numbers others : Numbers)
        → (state told : ReversalState) (one other : List ℕ)
        → UseNewNumbers entries → numbers.ksn ≡ others.ksn
        → IsReversalReplyOf keys entries numbers state one
        → IsReversalReplyOf keys entries others told other → one ≡ other }
    ensures one_kind { (keys : HsmKeys) (entries : Entries) (numbers : Numbers)
        → (state : ReversalState) (one other : List ℕ)
        → UseNewNumbers entries → IsReplyOf keys entries numbers.ksn one
        → ¬ IsReversalReplyOf keys entries numbers state other }
{
    duk_frame::laws::one_reading();
    duk_frame::laws::payments();
    duk_host::laws::refusals();
    duk_reversal::laws::one_reading();
    duk_reversal::laws::apart_from_payments();
    duk_reversal::laws::authentic();
}

/// A frame is answered with a refusal, with the reply to a request, or with the reply to a reversal.
pub fn answers()
    ensures { (basis : LineBasis) (frame answer : List ℕ) (added : Entries)
        → IsJudged basis frame answer added
        → ((given : AnswerFrame) × IsAnswer answer given)
        ⊎ ((reply : ReversalReply) × IsReversalReply answer reply) }
{
    duk_frame::laws::one_reading();
    duk_frame::laws::payments();
    duk_host::laws::refusals();
    duk_reversal::laws::one_reading();
    duk_reversal::laws::apart_from_payments();
    duk_reversal::laws::authentic();
}

/// An authentic request whose payment is one of the latest entries, and not undone, is given its
/// reply, and adds nothing.
pub fn answered_again()
    ensures { (basis : LineBasis) (frame answer : List ℕ) (added : Entries)
        → (request : Request) (code : Code) → UseNewNumbers basis.entries
        → IsJudged basis frame answer added → IsRequest frame request
        → IsAuthentic basis.keys request → IsPaymentKept basis request code
        → IsReplyWith basis.keys request.ksn code answer × (added ≡ []) }
{
    duk_frame::laws::one_reading();
    duk_host::laws::used_again();
    duk_reversal::laws::one_reading();
    duk_reversal::laws::apart_from_payments();
}

/// An authentic request of a number that an entry uses is refused as of a used number, and adds
/// nothing, where it has another MAC than that entry, where that is not one of the latest, and
/// where the number was reversed.
pub fn not_answered_again()
    ensures other_mac { (basis : LineBasis) (frame answer : List ℕ) (added : Entries)
        → (request : Request) (entry : Entry) → UseNewNumbers basis.entries
        → IsJudged basis frame answer added → IsRequest frame request
        → IsAuthentic basis.keys request → Contains basis.entries entry
        → entry.number ≡ request.ksn → entry.mac ≢ request.mac
        → IsRefusal answer request.ksn 5 × (added ≡ []) }
    ensures older { (basis : LineBasis) (frame answer : List ℕ) (added : Entries)
        → (request : Request) (entry : Entry) → UseNewNumbers basis.entries
        → IsJudged basis frame answer added → IsRequest frame request
        → IsAuthentic basis.keys request → Contains basis.entries entry
        → entry.number ≡ request.ksn → ¬ Contains (latest_entries basis.entries) entry
        → IsRefusal answer request.ksn 5 × (added ≡ []) }
    ensures undone { (basis : LineBasis) (frame answer : List ℕ) (added : Entries)
        → (request : Request) → IsJudged basis frame answer added → IsRequest frame request
        → IsAuthentic basis.keys request → Contains (reversed_numbers basis.entries) request.ksn
        → IsRefusal answer request.ksn 5 × (added ≡ []) }
{
    duk_frame::laws::one_reading();
    duk_host::laws::used_again();
    duk_reversal::laws::one_reading();
    duk_reversal::laws::apart_from_payments();
}

/// An authentic reversal that is one of the latest entries is given its reply, and adds nothing.
/// Any other of a used number is refused for that.
pub fn reversed_again()
    ensures again { (basis : LineBasis) (frame answer : List ℕ) (added : Entries)
        → (reversal : Reversal) (state : ReversalState) → UseNewNumbers basis.entries
        → IsJudged basis frame answer added → IsReversal frame reversal
        → IsAuthenticReversal basis.keys reversal → IsReversalKept basis reversal state
        → IsReversalReplyWith basis.keys reversal.numbers state answer × (added ≡ []) }
    ensures used { (basis : LineBasis) (frame answer : List ℕ) (added : Entries)
        → (reversal : Reversal) → IsJudged basis frame answer added → IsReversal frame reversal
        → IsAuthenticReversal basis.keys reversal
        → Contains (used_by basis.entries) reversal.numbers.ksn
        → ((state : ReversalState) → ¬ IsReversalKept basis reversal state)
        → IsRefusal answer reversal.numbers.ksn 5 × (added ≡ []) }
{
    duk_frame::laws::one_reading();
    duk_host::laws::used_again();
    duk_reversal::laws::one_reading();
    duk_reversal::laws::apart_from_payments();
}

/// By one basis whose entries each use a new number, a frame has at most one answer and adds one
/// list of entries; so do frames in turn. By the keys, the capacity, the room and the issuer a list
/// of entries thus settles what each further frame is answered with.
pub fn one_judgement()
    ensures frame { (basis : LineBasis) (frame answer other : List ℕ) (added further : Entries)
        → UseNewNumbers basis.entries → IsJudged basis frame answer added
        → IsJudged basis frame other further → (answer ≡ other) × (added ≡ further) }
    ensures frames { (basis : LineBasis) (frames answers others : List (List ℕ))
        → (added further : Entries) → UseNewNumbers basis.entries
        → AreJudged basis frames answers added → AreJudged basis frames others further
        → (answers ≡ others) × (added ≡ further) }
{
    duk_frame::laws::one_reading();
    duk_host::laws::one_answer();
    duk_host::laws::refusals();
    duk_host::laws::replies();
    duk_host::laws::used_again();
    duk_reversal::laws::one_reading();
    duk_reversal::laws::apart_from_payments();
}

/// Once a reversal of a number is kept, no entry of that number is added, whatever frames come: so
/// no payment of it is accepted that comes late. And no payment of it ever stands.
pub fn undone()
    ensures no_more { (basis : LineBasis) (frames answers : List (List ℕ)) (added : Entries)
        → (number : Serial) (entry : Entry) → AreJudged basis frames answers added
        → Contains (reversed_numbers basis.entries) number → Contains added entry
        → entry.number ≢ number }
    ensures never_stands { (basis : LineBasis) (frames answers : List (List ℕ)) (added : Entries)
        → (number : Serial) → AreJudged basis frames answers added
        → Contains (reversed_numbers basis.entries) number
        → ¬ Stands (basis.entries ++ added) number }
{}

/// Each reversal tells what is kept: that a payment is undone exactly where an approved payment of
/// the number that it reverses is kept. Frames in turn leave that so, also of the reversals before
/// them. So where a reversal was told that none stands, no payment of the number is approved later.
pub fn told_what_stands()
    ensures frames { (basis : LineBasis) (frames answers : List (List ℕ)) (added : Entries)
        → AreJudged basis frames answers added → TellWhatIsKept basis.entries
        → TellWhatIsKept (basis.entries ++ added) }
    ensures told { (keys : HsmKeys) (entries : Entries) (numbers : Numbers)
        → (state : ReversalState) (frame : List ℕ) → TellWhatIsKept entries
        → IsReversalReplyOf keys entries numbers state frame → IsAsTold entries numbers state }
{}

/// Over a journal that keeps to its model, is sound, and keeps no list but of entries that each use a
/// new number, no restart of a host is refused as damaged, and no check is. Such a
/// journal is each one that a check has passed; and it stays one through a service, however that ends.
pub fn comes_up<J: Journal, I: Issuer>()
    ensures host { (old new : HostOf J I) → IsUsableJournal (J.meaning.state_of old.journal)
        → ¬ HostRestartRefused J.meaning old new (fault.Store Damaged) }
    ensures check { (old new : J) → IsUsableJournal (J.meaning.state_of old)
        → ¬ CheckRefused J.meaning old new (fault.Store Damaged) }
    ensures checked { (old : J) (made new : HostOf J I) (found : Checked)
        → IsChecked J.meaning old made.journal found → (J.meaning.state_of old).honest
        → ¬ HostRestartRefused J.meaning made new (fault.Store Damaged) }
    ensures served { (made last : HostOf J I) (answers : List (List ℕ))
        → IsUsableJournal (J.meaning.state_of made.journal)
        → IsService (host_meaning_of J.meaning I.decides) made answers last
        → IsUsableJournal (J.meaning.state_of last.journal) }
{
    new_numbers();
}

/// So it is on a disk: over the disk that a service leaves of a usable journal, wherever a device step
/// failed, a host that is made anew goes on with the lifetime, and no restart of it is refused as
/// damaged.
pub fn comes_up_on_disks<D: Disk, I: Issuer>()
    ensures goes_on { let m = host_meaning_of (disk_journal_meaning D.meaning) I.decides in
        (made last again : HostOf (DiskJournalOf D) I) (answers : List (List ℕ))
        → IsUsableJournal (m.journal.state_of made.journal) → IsService m made answers last
        → again.journal ≡ new_disk_journal last.journal.disk
        → IsMadeOver m again.keys (m.journal.state_of last.journal).found again }
    ensures usable { let m = host_meaning_of (disk_journal_meaning D.meaning) I.decides in
        (made last again : HostOf (DiskJournalOf D) I) (answers : List (List ℕ))
        → IsUsableJournal (m.journal.state_of made.journal) → IsService m made answers last
        → again.journal ≡ new_disk_journal last.journal.disk
        → IsUsableJournal (m.journal.state_of again.journal) }
    ensures host { let m = host_meaning_of (disk_journal_meaning D.meaning) I.decides in
        (made last again new : HostOf (DiskJournalOf D) I) (answers : List (List ℕ))
        → IsUsableJournal (m.journal.state_of made.journal) → IsService m made answers last
        → again.journal ≡ new_disk_journal last.journal.disk
        → ¬ HostRestartRefused m.journal again new (fault.Store Damaged) }
{
    comes_up::<DiskJournal<D>, I>();
}

/// All that services over one journal answer, one after the other, however each of them ends, and
/// wherever a step of the journal's device fails. All accepted replies to a number that any of them
/// gives are equal, byte for byte, and so are all replies to reversals that use one number; and the
/// journal keeps the entry of each. Where reversals tell what was kept at first, as in a journal that is
/// new, what each reversal was told is so of whatever the journal keeps after the last service. And
/// where each entry used a new number at first, each does after the last: so no restart of a further
/// host whose journal is sound is refused as damaged.
pub fn lifetimes<J: Journal, I: Issuer>()
    ensures alike { (keys : HsmKeys) (first last : J)
        → (services : List (List (List ℕ)))
        → IsLifetime (host_meaning_of J.meaning I.decides) keys
        (J.meaning.state_of first).found services (J.meaning.state_of last).found
        → AcceptsAlike (all_answers services) × TellsAlike (all_answers services) }
    ensures kept { (keys : HsmKeys) (first last : J)
        → (services : List (List (List ℕ))) (entries : Entries)
        → IsLifetime (host_meaning_of J.meaning I.decides) keys
        (J.meaning.state_of first).found services (J.meaning.state_of last).found
        → (J.meaning.state_of last).found entries
        → AreRepliesOf keys entries (all_answers services)
        × AreReversalRepliesOf keys entries (all_answers services) }
    ensures told { (keys : HsmKeys) (first last : J)
        → (services : List (List (List ℕ))) (entries : Entries) (answer : List ℕ)
        → (numbers : Numbers) (state : ReversalState)
        → FindsWithin (J.meaning.state_of first) TellWhatIsKept
        → IsLifetime (host_meaning_of J.meaning I.decides) keys
        (J.meaning.state_of first).found services (J.meaning.state_of last).found
        → (J.meaning.state_of last).found entries → Contains (all_answers services) answer
        → TellsReversal numbers state answer → IsAsTold entries numbers state }
    ensures once { (keys : HsmKeys) (first last : J)
        → (services : List (List (List ℕ)))
        → FindsWithin (J.meaning.state_of first) UseNewNumbers
        → IsLifetime (host_meaning_of J.meaning I.decides) keys
        (J.meaning.state_of first).found services (J.meaning.state_of last).found
        → FindsWithin (J.meaning.state_of last) UseNewNumbers }
    ensures usable { let m = host_meaning_of J.meaning I.decides in
        (keys : HsmKeys) (first last : J) (services : List (List (List ℕ))) (made : HostOf J I)
        → FindsWithin (J.meaning.state_of first) UseNewNumbers
        → IsLifetime m keys (J.meaning.state_of first).found services
        (J.meaning.state_of last).found
        → IsMadeOver m keys (J.meaning.state_of last).found made
        → (J.meaning.state_of made.journal).sound
        → IsUsableJournal (J.meaning.state_of made.journal) }
{
    new_numbers();
    one_reply();
    told_what_stands();
}

/// What `serve` does after a restart is a service, however it ends: at the end of its input, or
/// with any fault. The answers of that service are those which the writer got, or, where a write
/// failed, those whose first bytes it got.
pub fn each_service<J: Journal, I: Issuer>()
    ensures ended { let m = host_meaning_of J.meaning I.decides in
        (made : HostOf J I) (old new : Service J I) (input left : Supply)
        → (rest : List ℕ) (found : ℕ) → IsHostRestarted m made old.host found
        → IsReadToEnd m old new input left rest → (answers : List (List ℕ))
        × IsService m made answers new.host × IsWritten old.writer new.writer (concat answers) }
    ensures failed { let m = host_meaning_of J.meaning I.decides in
        (made : HostOf J I) (old new : Service J I) (input left : Supply)
        → (found : ℕ) (why : HostFault) → IsHostRestarted m made old.host found
        → ServiceFailed m old new input left why → (answers : List (List ℕ))
        × IsService m made answers new.host × AreWrittenTo old.writer new.writer answers why }
{
    duk_io::laws::writes();
}

/// Nothing is hidden beside what contracts see, but for a host's allocator, spare room, and how the
/// latest entries lie in an index: hosts, indexes, groups and workspaces that are equal to them are
/// equal in each field.
pub fn nothing_else<const N: usize, J: Journal, I: Issuer>()
    ensures host { (one other : host.Inside N J I) → one.alloc ≡ other.alloc
        → host_view one ≡ host_view other → one ≡ other }
    ensures index { (one other : index.Inside) → HaveOneRing one other
        → index_view.view one ≡ index_view.view other → one ≡ other }
    ensures group { (one other : group.Inside) → one.answers ≡ other.answers
        → one.entries ≡ other.entries → one ≡ other }
    ensures workspace { (one other : workspace.Inside) → one.frames ≡ other.frames
        → one.group ≡ other.group → one ≡ other }
{}

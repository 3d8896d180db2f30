//! Laws of many hosts over one book, each the contract of a function that does nothing.
//!
//! Each law is over all events that may happen among the hosts and the book: frames come to any host,
//! in any order and again; what a host judged long ago may be settled now, again, or by another host;
//! and what was settled may be answered at any later time, more than once, or never.

ghost use Rattle.std.specs.Prelude.{◌≡◌, ◌≢◌, ◌-◌, ◌++◌, [], ◌∷◌, ℕ, List, Contains, Err, Ok, Option, Result, flat_map, length, map};
ghost use Rattle.duk_frame.specs.declared.code.Code.{Code};
ghost use Rattle.duk_host.specs.Judgement.{Decision};
ghost use Rattle.duk_host.specs.Lifetime.{AcceptsAlike, AcceptsNumber};
ghost use Rattle.duk_journal.specs.Groups.{Entries};
ghost use Rattle.duk_journal.specs.Standing.{Stands, UseNewNumbers, reversed_numbers};
ghost use Rattle.duk_reversal.specs.Numbers.{Numbers};
ghost use Rattle.duk_reversal.specs.declared.state.ReversalState.{ReversalState};
ghost use Rattle.duk_store.specs.declared.fault.StoreFault.{StoreFault};
ghost use Rattle.duk_term.specs.declared.answer.Answer.{Answer};
ghost use Rattle.duk_term.specs.declared.answer.Answer.TheVariants as term_answer;
ghost use Rattle.duk_term.specs.declared.answer.Begun.{Begun};
ghost use Rattle.duk_term.specs.declared.answer.ReversalAnswer.{ReversalAnswer};
ghost use Rattle.duk_term.specs.declared.answer.ReversalAnswer.TheVariants as term_reversal;
ghost use Rattle.duk_term.specs.declared.purchase.Purchase.{Purchase};
ghost use Rattle.duk_till.specs.History.{Entry};
ghost use Rattle.duk_till.specs.Lifetime.{Begin, Call, IsLifetime, Reply, Reverse, ReversalReply};
ghost use Rattle.duk_till.specs.Till.{IsAtRest, TillOf};
ghost use Rattle.duk_till.specs.declared.fault.TillFault.{TillFault};
ghost use Rattle.duk_till.specs.declared.fault.TillFault.TheVariants as till_fault;
ghost use Rattle.duk_till.specs.declared.last.Last.{Last};
ghost use Rattle.duk_till.specs.declared.state.TillState.TheVariants.{Running};
ghost use Rattle.duk_tree.specs.Serial.{Serial};
ghost use Rattle.duk_journal_host.specs.Candidate.{IsCandidate};
ghost use Rattle.duk_journal_host.specs.Judged.{AreJudged, AreRepliesOf, AreReversalRepliesOf, IsAsTold, TellWhatIsKept, TellsAlike, TellsNumber, TellsReversal};
ghost use Rattle.duk_journal_host.specs.Judgement.{line_basis};
ghost use Rattle.duk_journal_host.specs.Steps.{IsDismissed, added_by, number_in};
ghost use Rattle.duk_journal_host.specs.declared.candidate.Candidate.{Candidate};
ghost use Rattle.duk_journal_host.specs.declared.settlement.Settled.{Settled};
ghost use Rattle.duk_hosts.specs.Book.{AreSettledInTurn, Book, Bound, IsSettledIn};
ghost use Rattle.duk_hosts.specs.Events.{Answers, Ask, Event, Hosts, IsHistory, Judged, Judges, MayHappen, Outcome, Refuses, Settles, Turn, all_answers, all_outcomes, kept_after};
ghost use Rattle.duk_hosts.specs.OneHost.{DidAsOne, DoesFor, InTurn, IsTurnOf};
ghost use Rattle.duk_hosts.specs.Tills.{Agrees, AgreesButOpen, PaysAt, StandsAsTold, WereGivenIn, WereSentIn, all_sent};
ghost use Rattle.duk_hosts.specs.Told.{FindsNoRoom, IsSettledAgain, RefusesPayment, WasAccepted};

use duk_store::Cell;

/// Whatever many hosts do is what one host could have done over a journal: it has the frames in the
/// order in which they were refused or settled, keeps the same entries, and gives each answer that
/// any of them gave. Where all hosts have one issuer, these frames are judged in turn with it, so each
/// law of one host is one of many. A book without bound is a journal that is not half full and answers
/// all that it keeps again; the other laws need no such journal.
pub fn one_host()
    ensures same { (hosts : Hosts) (book : Book) (events : List Event) (capacity : ℕ)
        → IsHistory hosts book events → DoesFor book.bound (kept_after book events) capacity
        → DidAsOne hosts book events capacity }
    ensures judged { (hosts : Hosts) (decides : Decision) (entries added : Entries)
        → (capacity : ℕ) (turns : List Turn) → ((host : ℕ) → hosts.decides host ≡ decides)
        → InTurn (IsTurnOf hosts capacity) entries turns added
        → AreJudged
        (line_basis hosts.keys entries capacity (capacity - length entries) decides)
        (map (λ turn. turn.ask.frame) turns) (map (λ turn. turn.answer) turns) added }
{
    duk_journal_host::laws::steps();
}

/// Each number is used at most once by what the book keeps, where that was so at first.
pub fn at_most_once()
    ensures { (hosts : Hosts) (book : Book) (events : List Event) → IsHistory hosts book events
        → UseNewNumbers book.first → UseNewNumbers (kept_after book events) }
{
    duk_journal_host::laws::steps();
    duk_journal_host::laws::new_numbers();
}

/// An accepted reply of any host is the reply to an entry that the book keeps when it is given, and
/// stays one whatever happens later. So is a reply to a reversal.
pub fn kept()
    ensures { (hosts : Hosts) (book : Book) (events later : List Event)
        → IsHistory hosts book (events ++ later)
        → AreRepliesOf hosts.keys (kept_after book (events ++ later)) (all_answers events)
        × AreReversalRepliesOf hosts.keys (kept_after book (events ++ later)) (all_answers events) }
{
    duk_journal_host::laws::steps();
    duk_journal_host::laws::one_reply();
}

/// All accepted replies to one number are equal, byte for byte, whatever hosts give them and whenever;
/// and so are all replies to reversals that use one number. No number has replies of both kinds. Each
/// entry that the book kept at first used a new number, as in a new book.
pub fn equal_replies()
    ensures equal { (hosts : Hosts) (book : Book) (events : List Event) → IsHistory hosts book events
        → UseNewNumbers book.first
        → AcceptsAlike (all_answers events) × TellsAlike (all_answers events) }
    ensures one_kind { (hosts : Hosts) (book : Book) (events : List Event) (number : Serial)
        → (one other : List ℕ) → IsHistory hosts book events → UseNewNumbers book.first
        → Contains (all_answers events) one → Contains (all_answers events) other
        → AcceptsNumber number one → ¬ TellsNumber number other }
{
    at_most_once();
    kept();
    duk_journal_host::laws::one_reply();
}

/// Once a reversal of a number is kept, no payment of that number is accepted any more, also one that
/// a host judged before: it is settled as one of a used number. A host may still give the reply to a
/// payment that was settled before, and no other. And no payment of the number ever stands.
pub fn undone()
    ensures refused { (hosts : Hosts) (book : Book) (events later : List Event)
        → (number : Serial) (outcome : Outcome) → IsHistory hosts book (events ++ later)
        → Contains (reversed_numbers (kept_after book events)) number
        → Contains (all_outcomes later) outcome → RefusesPayment number outcome.settled }
    ensures late { (hosts : Hosts) (book : Book) (events later : List Event)
        → (number : Serial) (answer : List ℕ) → IsHistory hosts book (events ++ later)
        → Contains (reversed_numbers (kept_after book events)) number
        → Contains (all_answers later) answer → AcceptsNumber number answer
        → WasAccepted hosts events number answer }
    ensures never_stands { (hosts : Hosts) (book : Book) (events later : List Event)
        → (number : Serial) → Contains (reversed_numbers (kept_after book events)) number
        → ¬ Stands (kept_after book (events ++ later)) number }
{
    duk_journal_host::laws::steps();
    duk_journal_host::laws::one_reply();
}

/// Each reversal tells what stands: that a payment is undone exactly where an approved payment of the
/// number that it reverses is kept. What any host tells of one stays so, whatever happens later, where
/// that was so of the entries that the book kept at first.
pub fn told()
    ensures { (hosts : Hosts) (book : Book) (events later : List Event) (answer : List ℕ)
        → (numbers : Numbers) (state : ReversalState)
        → IsHistory hosts book (events ++ later) → TellWhatIsKept book.first
        → Contains (all_answers events) answer → TellsReversal numbers state answer
        → IsAsTold (kept_after book (events ++ later)) numbers state }
{
    kept();
    duk_journal_host::laws::steps();
    duk_journal_host::laws::told_what_stands();
}

/// What is settled again changes nothing that is kept. Once a number is settled, but for want of room,
/// each later settlement of it is known again, or refused as of a used number. And a candidate for
/// which there was no room once is never kept.
pub fn settled_again()
    ensures known { (hosts : Hosts) (book : Book) (events : List Event)
        → (before after : List Outcome) (earlier again : Outcome)
        → IsHistory hosts book events → all_outcomes events ≡ before ++ again ∷ after
        → Contains before earlier → number_in earlier.settled ≡ number_in again.settled
        → ¬ FindsNoRoom earlier.settled → IsSettledAgain again.settled }
    ensures nothing { (hosts : Hosts) (book : Book) (events : List Event)
        → (before after : List Outcome) (earlier again : Outcome)
        → IsHistory hosts book events → all_outcomes events ≡ before ++ again ∷ after
        → Contains before earlier → earlier.judged.candidate ≡ again.judged.candidate
        → added_by again.settled ≡ [] }
{}

/// Whatever happened, any host may judge a frame now, as its keys refuse it or find it a candidate; what any
/// host ever judged may be settled now, in groups of any size; and what was ever settled may be answered
/// now, again too. So no host waits for another, or has to know that one stopped. And a book settles each
/// candidate in some way, whatever it keeps: `MemBook` does it.
pub fn goes_on()
    ensures refused { (hosts : Hosts) (book : Book) (events : List Event) (ask : Ask)
        → (answer : List ℕ) → IsHistory hosts book events
        → IsDismissed hosts.keys ask.frame answer
        → IsHistory hosts book (events ++ Refuses ask answer ∷ []) }
    ensures judged { (hosts : Hosts) (book : Book) (events : List Event) (judged : Judged)
        → IsHistory hosts book events
        → IsCandidate hosts.keys (hosts.decides judged.ask.host) judged.ask.frame judged.candidate
        → IsHistory hosts book (events ++ Judges judged ∷ []) }
    ensures settled { (hosts : Hosts) (book : Book) (events : List Event) (group : List Judged)
        → IsHistory hosts book events
        → ((judged : Judged) → Contains group judged → Contains events (Judges judged))
        → (outcomes : List Outcome) × (map (λ outcome. outcome.judged) outcomes ≡ group)
        × IsHistory hosts book (events ++ Settles outcomes ∷ []) }
    ensures answered { (hosts : Hosts) (book : Book) (events : List Event) (outcome : Outcome)
        → IsHistory hosts book events → Contains (all_outcomes events) outcome
        → (answer : List ℕ) × IsHistory hosts book (events ++ Answers outcome answer ∷ []) }
    ensures somehow { (bound : Bound) (entries : Entries) (candidate : Candidate)
        → (settled : Settled) × IsSettledIn bound entries candidate settled }
{
    duk_journal_host::laws::steps();
}

/// What a book settles in turn of candidates that hosts judged, as `MemBook` does, may happen; and what is
/// added is kept. So these laws are true of hosts over such a book.
pub fn settled_in_turn()
    ensures happens { (hosts : Hosts) (book : Book) (events : List Event) (group : List Outcome)
        → IsHistory hosts book events
        → ((outcome : Outcome) → Contains group outcome → Contains events (Judges outcome.judged))
        → AreSettledInTurn book.bound (kept_after book events)
        (map (λ outcome. outcome.judged.candidate) group) (map (λ outcome. outcome.settled) group)
        → IsHistory hosts book (events ++ Settles group ∷ []) }
    ensures keeps { (book : Book) (events : List Event) (group : List Outcome)
        → kept_after book (events ++ Settles group ∷ [])
        ≡ kept_after book events ++ flat_map added_by (map (λ outcome. outcome.settled) group) }
{}

/// Merchants and hosts agree. A till sends its payments and reversals to any of the hosts, over a network
/// that loses, repeats and reorders frames. Whatever it told its merchant as approved stands in the book
/// that the hosts share, with its amount. While it runs, nothing else stands there under its initial key
/// serial number, but perhaps the purchase that is open; and at rest the payments that stand are those
/// that were told, and so are the totals.
///
/// The till has any lifetime of calls, stops and failed stores, and the hosts have any history. The
/// premises are that each entry that the book keeps at first used a new number, and none is under that
/// initial key serial number; that each frame under it which hosts found authentic was sent by the till;
/// and that each frame which the till took was given by a host. Nobody else has the keys, so the MACs see
/// to the last two; where till and hosts have different keys, the hosts find no frame of it authentic,
/// and it takes none. No order is
/// asked for between what happens at the till and at the hosts, and nothing of other tills: so it is of
/// each till of a world of many.
pub fn merchants_agree<C: Cell, J: Cell>()
    ensures told { (hosts : Hosts) (book : Book) (events : List Event) (iksn : ℕ)
        → (calls : List Call) (history : List Entry) (till : TillOf C J)
        → PaysAt hosts book events iksn calls → IsLifetime C.meaning J.meaning calls history till
        → StandsAsTold history iksn (kept_after book events) }
    ensures but_open { (hosts : Hosts) (book : Book) (events : List Event) (iksn : ℕ)
        → (calls : List Call) (history : List Entry) (till : TillOf C J) (last : Option Last)
        → PaysAt hosts book events iksn calls → IsLifetime C.meaning J.meaning calls history till
        → till.state ≡ Running last
        → AgreesButOpen history iksn last (kept_after book events) }
    ensures at_rest { (hosts : Hosts) (book : Book) (events : List Event) (iksn : ℕ)
        → (calls : List Call) (history : List Entry) (till : TillOf C J)
        → PaysAt hosts book events iksn calls → IsLifetime C.meaning J.meaning calls history till
        → IsAtRest till.state → Agrees history iksn (kept_after book events) }
{
    at_most_once();
    kept();
    duk_journal_host::laws::steps();
    duk_journal::laws::totals();
    duk_frame::laws::one_reading();
    duk_frame::laws::payments();
    duk_reversal::laws::one_reading();
    duk_reversal::laws::apart_from_payments();
    duk_term::laws::requests::<C>();
    duk_term::laws::reversals::<C>();
    duk_till::laws::one_reading();
    duk_till::laws::lifetimes::<C, J>();
}

/// The premises of `merchants_agree` hold at first, of a new book and a till that made no call yet; and
/// they hold again after each event at the hosts where no frame under the initial key serial number is
/// found authentic that the till did not send, and after each call of the till that takes no frame but one
/// which a host gave. So they hold in every world of tills and hosts that is made up step by step of
/// these.
///
/// A till sends the frame of each purchase and of each reversal that it begins. It takes a frame only
/// where that tells it what became of its purchase, or where its store then fails: what it refuses may
/// come from anybody.
pub fn tills_go_on()
    ensures first { (hosts : Hosts) (bound : Bound) (iksn : ℕ)
        → PaysAt hosts (record { first = []; bound = bound }) [] iksn [] }
    ensures event { (hosts : Hosts) (book : Book) (events : List Event) (event : Event) (iksn : ℕ)
        → (calls : List Call) → PaysAt hosts book events iksn calls
        → MayHappen hosts book events event → WereSentIn calls iksn (event ∷ [])
        → PaysAt hosts book (events ++ event ∷ []) iksn calls }
    ensures call { (hosts : Hosts) (book : Book) (events : List Event) (iksn : ℕ) (call : Call)
        → (calls : List Call) → PaysAt hosts book events iksn calls
        → WereGivenIn events (call ∷ []) → PaysAt hosts book events iksn (call ∷ calls) }
    ensures begin_sends { (purchase : Purchase) (begun : Begun) (calls : List Call)
        → Contains (all_sent (Begin purchase (Ok begun) ∷ calls)) begun.frame.items }
    ensures reverse_sends { (begun : Begun) (calls : List Call)
        → Contains (all_sent (Reverse (Ok begun) ∷ calls)) begun.frame.items }
    ensures stays_sent { (call : Call) (calls : List Call) (frame : List ℕ)
        → Contains (all_sent calls) frame → Contains (all_sent (call ∷ calls)) frame }
    ensures refused_reply { (events : List Event) (bytes : List ℕ)
        → (said : Result Answer TillFault) → ((code : Code) → said ≢ Ok (term_answer.Done code))
        → ((why : StoreFault) → said ≢ Err (till_fault.Store why))
        → WereGivenIn events (Reply bytes said ∷ []) }
    ensures refused_reversal_reply { (events : List Event) (bytes : List ℕ)
        → (said : Result ReversalAnswer TillFault)
        → ((found : ReversalState) → said ≢ Ok (term_reversal.Done found))
        → ((why : StoreFault) → said ≢ Err (till_fault.Store why))
        → WereGivenIn events (ReversalReply bytes said ∷ []) }
    ensures no_reply { (events : List Event) (call : Call)
        → ((bytes : List ℕ) (said : Result Answer TillFault) → call ≢ Reply bytes said)
        → ((bytes : List ℕ) (said : Result ReversalAnswer TillFault)
        → call ≢ ReversalReply bytes said) → WereGivenIn events (call ∷ []) }
{}

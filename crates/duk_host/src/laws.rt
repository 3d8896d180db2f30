//! Laws of hosts, each the contract of a function that does nothing.

ghost use Rattle.std.specs.Prelude.{◌≡◌, ◌-◌, ◌⊎◌, ◌≤◌, ◌++◌, [], ℕ, List, Some, IsSome, All, AllPairs, Contains, length};
ghost use Rattle.std.specs.List.{concat};
ghost use Rattle.duk_hsm.specs.Keys.{HsmKeys};
ghost use Rattle.duk_frame.specs.Answer.{IsRefusal, IsReply};
ghost use Rattle.duk_frame.specs.Payment.{reply_mac};
ghost use Rattle.duk_frame.specs.Request.{IsRequest};
ghost use Rattle.duk_frame.specs.Stream.{BeginsTooLong, IsPart};
ghost use Rattle.duk_frame.specs.declared.request.Request.{Request};
ghost use Rattle.duk_io.specs.Sink.{IsWritten};
ghost use Rattle.duk_host.specs.Host.{HostOf, host_meaning_of};
ghost use Rattle.duk_host.specs.Lifetime.{ServicesAcceptDifferentNumbers, AcceptsAlike, AreWrittenTo, IsLifetime, IsService, IsUnderOwnKey, all_answers};
ghost use Rattle.duk_host.specs.Recent.{Exchange, exchange, most_exchanges, reply_given, with_exchange};
ghost use Rattle.duk_host.specs.Restart.{IsHostRestarted};
ghost use Rattle.duk_host.specs.Serve.{FailsAtFrame, IsReadToEnd, IsServed, Serves, Service, ServiceFailed, Supply};
ghost use Rattle.duk_host.specs.Served.{AreJudged, FailedAfter, IsServedStream, JudgesBy, WroteAllOf, WroteFirstOf};
ghost use Rattle.duk_host.specs.Used.{AreUsable, IsUsed};
ghost use Rattle.duk_host.specs.View.{HaveOneRoom, host_view};
ghost use Rattle.duk_host.specs.declared.fault.HostFault.{HostFault};
ghost use Rattle.duk_host.specs.declared.host.Host.TheInside as host;
ghost use Rattle.duk_host.specs.declared.recent.EmptyRing.TheInside as ring;
ghost use Rattle.duk_host.specs.declared.recent.EmptyRing.TheView as ring_view;
ghost use Rattle.duk_host.specs.declared.recent.Recent.TheInside as recent;
ghost use Rattle.duk_host.specs.declared.recent.Recent.TheView as recent_view;
ghost use Rattle.duk_host.specs.Judgement.{Decision, IsAccepted, IsAnswerTo, IsAuthentic, IsMalformed, IsRefusalFor, IsRefusedRequest, JudgementBasis, basis_with, no_serial, reason_number};

use crate::issuer::Issuer;
use duk_store::UsedLog;

/// By one set of keys, used numbers, latest exchanges, room and issuer, bytes have at most one
/// answer.
pub fn one_answer()
    ensures { (basis : JudgementBasis) (bytes frame other : List ℕ)
        → IsAnswerTo basis bytes frame → IsAnswerTo basis bytes other
        → frame ≡ other }
{
    duk_frame::laws::one_reading();
    duk_pin::laws::one_pin();
}

/// By keys with a zone key, any bytes have an answer, and the frames of any stream have their
/// answers.
pub fn some_answer()
    ensures bytes { (basis : JudgementBasis) (bytes : List ℕ) → IsSome basis.keys.zone
        → (frame : List ℕ) × IsAnswerTo basis bytes frame }
    ensures stream { (basis : JudgementBasis) (bytes : List ℕ) → IsSome basis.keys.zone
        → (answers : List (List ℕ)) × (after : JudgementBasis)
        × IsServedStream basis bytes answers after }
{
    duk_tree::laws::paths();
    duk_tree::laws::bits();
    duk_frame::laws::streams();
}

/// The frame of a refusal is read as that refusal, with the key serial number of the request, or,
/// where the bytes are no request, with that of ten zero bytes.
pub fn refusals()
    ensures malformed { (bytes frame : List ℕ) → IsMalformed bytes frame
        → IsRefusal frame no_serial 1 }
    ensures request { (basis : JudgementBasis) (bytes frame : List ℕ)
        → (refused : IsRefusedRequest basis bytes frame)
        → IsRefusal frame refused.request.ksn (reason_number refused.reason) }
{}

/// Where an authentic request of a used number is refused, it is for that number.
pub fn used_again()
    ensures { (basis : JudgementBasis) (bytes frame : List ℕ) (request : Request)
        → IsRequest bytes request → IsAuthentic basis.keys request
        → IsUsed basis.used request.ksn → IsRefusalFor basis bytes frame
        → IsRefusal frame request.ksn 5 }
{
    duk_frame::laws::one_reading();
    refusals();
}

/// The frame of an accepted reply is read as that reply, with the key serial number of the request.
pub fn replies()
    ensures { (basis : JudgementBasis) (bytes : List ℕ) (request : Request) (frame : List ℕ)
        → (accepted : IsAccepted basis bytes request frame)
        → IsReply frame request.ksn accepted.reply.code
        (reply_mac accepted.reply.reply.key request.ksn accepted.reply.code) }
{
    duk_frame::laws::payments();
}

/// A reply that is given again is that of an exchange on the list; the list with one exchange more
/// has that one and none but those before it, and no more than 64.
pub fn exchanges()
    ensures given { (recent : List Exchange) (bytes frame : List ℕ)
        → reply_given recent bytes ≡ Some frame → Contains recent (exchange bytes frame) }
    ensures last { (recent : List Exchange) (last : Exchange)
        → Contains (with_exchange recent last) last }
    ensures others { (recent : List Exchange) (last other : Exchange)
        → Contains (with_exchange recent last) other → Contains recent other ⊎ (other ≡ last) }
    ensures few { (recent : List Exchange) (last : Exchange)
        → length (with_exchange recent last) ≤ most_exchanges }
{}

/// The frames of a stream have one list of answers, and leave one list of used numbers and one of
/// exchanges. The first of frames in turn have the first of their answers, and the others are
/// judged by what these left.
pub fn one_service()
    ensures all { (basis after other : JudgementBasis) (bytes : List ℕ)
        → (answers others : List (List ℕ))
        → IsServedStream basis bytes answers after → IsServedStream basis bytes others other
        → (answers ≡ others) × (after ≡ other) }
    ensures first { (basis mid after : JudgementBasis)
        → (frames others answers all : List (List ℕ))
        → AreJudged basis frames answers mid → AreJudged basis (frames ++ others) all after
        → (more : List (List ℕ)) × (all ≡ answers ++ more) × AreJudged mid others more after }
{
    duk_frame::laws::one_reading();
    duk_frame::laws::streams();
    duk_pin::laws::one_pin();
}

/// Where frames are judged in turn, the list of used numbers that they leave has none twice, if
/// that which they found had none. So no number is accepted twice among them, or again.
pub fn used_numbers()
    ensures { (basis after : JudgementBasis) (frames answers : List (List ℕ))
        → AreJudged basis frames answers after → AreUsable basis.used → AreUsable after.used }
{}

/// What a host answers to frames in turn is their judgement, each with the lists of used numbers
/// and of exchanges after the earlier ones, and its own are then those after the last. A host that
/// was restarted judges by the list that its log found, and by no exchange.
pub fn services<L: UsedLog, I: Issuer>()
    ensures judged { let m = host_meaning_of L.meaning I.decides in
        (old new : HostOf L I) (basis : JudgementBasis) → (frames answers : List (List ℕ))
        → JudgesBy m old basis → Serves m old frames answers new → (after : JudgementBasis)
        × AreJudged basis frames answers after × JudgesBy m new after }
    ensures restarted { (old new : HostOf L I) (found : ℕ)
        → (restarted : IsHostRestarted L.meaning old new found)
        → (L.meaning.state_of old.log).honest
        → JudgesBy (host_meaning_of L.meaning I.decides) new
        (basis_with new.keys restarted.numbers []
        (L.meaning.capacity new.log - L.meaning.count new.log) (I.decides new.issuer)) }
{}

/// What a service writes by both lists and the bytes that it read: all answers to their frames,
/// where it served these up to a part of one or a length above 62; and else the first of them, as
/// many as it served frames. The law also says by what its host then judges, or what its log finds
/// where that stopped it, and so it does where the service fails at the frame after those.
pub fn served_streams<L: UsedLog, I: Issuer>()
    ensures all { let m = host_meaning_of L.meaning I.decides in
        (old new : Service L I) (basis : JudgementBasis) (bytes rest : List ℕ) → (count : ℕ)
        → JudgesBy m old.host basis → IsServed m old new bytes rest count → IsPart rest
        ⊎ BeginsTooLong rest → WroteAllOf m basis old new bytes }
    ensures first { let m = host_meaning_of L.meaning I.decides in
        (old new : Service L I) (basis after : JudgementBasis)
        → (bytes rest : List ℕ) (count : ℕ) (answers : List (List ℕ)) → JudgesBy m old.host basis
        → IsServed m old new bytes rest count → IsServedStream basis bytes answers after
        → WroteFirstOf m basis old new bytes answers count }
    ensures failed { let m = host_meaning_of L.meaning I.decides in
        (old new : Service L I) (basis : JudgementBasis) (bytes : List ℕ) → (why : HostFault)
        → JudgesBy m old.host basis → FailsAtFrame m old new bytes why
        → FailedAfter m basis old new bytes why }
{
    duk_frame::laws::one_reading();
    duk_frame::laws::streams();
    duk_pin::laws::one_pin();
}

/// All that services over one log accept, one after the other. In one service all accepted replies
/// to a number are equal, since a reply may be given again; no number is accepted by two services;
/// and each accepted reply is made under the key of its number.
pub fn lifetimes<L: UsedLog, I: Issuer>()
    ensures once { (keys : HsmKeys) (decides : Decision) (first : L)
        → (services : List (List (List ℕ)))
        → IsLifetime (host_meaning_of L.meaning I.decides) keys decides
        (L.meaning.state_of first).found services
        → All AcceptsAlike services }
    ensures apart { (keys : HsmKeys) (decides : Decision) (first : L)
        → (services : List (List (List ℕ)))
        → IsLifetime (host_meaning_of L.meaning I.decides) keys decides
        (L.meaning.state_of first).found services
        → AllPairs ServicesAcceptDifferentNumbers services }
    ensures own_key { (keys : HsmKeys) (decides : Decision) (first : L)
        → (services : List (List (List ℕ)))
        → IsLifetime (host_meaning_of L.meaning I.decides) keys decides
        (L.meaning.state_of first).found services
        → All (IsUnderOwnKey keys decides) (all_answers services) }
{
    duk_frame::laws::one_reading();
    exchanges();
    refusals();
    replies();
    services::<L, I>();
}

/// What `serve` does after a restart is a service, however it ends: at the end of its input, or
/// with any fault. The answers of that service are those which the writer got, the last of them cut
/// where a write failed.
pub fn each_service<L: UsedLog, I: Issuer>()
    ensures ended { let m = host_meaning_of L.meaning I.decides in
        (made : HostOf L I) (old new : Service L I) (input left : Supply)
        → (rest : List ℕ) (found count : ℕ) → IsHostRestarted L.meaning made old.host found
        → IsReadToEnd m old new input left rest count → (answers : List (List ℕ))
        × IsService m made answers new.host × IsWritten old.writer new.writer (concat answers)
        × (length answers ≡ count) }
    ensures failed { let m = host_meaning_of L.meaning I.decides in
        (made : HostOf L I) (old new : Service L I) (input left : Supply)
        → (found : ℕ) (why : HostFault) → IsHostRestarted L.meaning made old.host found
        → ServiceFailed m old new input left why → (answers : List (List ℕ))
        × IsService m made answers new.host × AreWrittenTo old.writer new.writer answers why }
{}

/// Nothing is hidden beside what contracts see, but for the allocator and the spare room: hosts,
/// and the latest exchanges, that are equal to them are equal in each field.
pub fn nothing_else<const N: usize, L: UsedLog, I: Issuer>()
    ensures host { (one other : host.Inside N L I) → HaveOneRoom one other
        → host_view one ≡ host_view other → one ≡ other }
    ensures recent { (one other : recent.Inside)
        → recent_view.invariant one → recent_view.invariant other
        → recent_view.view one ≡ recent_view.view other → one ≡ other }
    ensures ring { (one other : ring.Inside)
        → ring_view.invariant one → ring_view.invariant other
        → ring_view.view one ≡ ring_view.view other → one ≡ other }
{}

//! Laws of a host whose book is elsewhere, each the contract of a function that does nothing.
//!
//! `host_judge` refuses a frame or finds a candidate; the book settles the candidate, and its shell
//! marks in the same 64 bytes what became of it; and `host_answer` answers what these say.

ghost use Rattle.std.specs.Prelude.{◌≡◌, ◌≢◌, ◌<◌, ◌/◌, ◌^◌, [], ◌∷◌, ℕ, List, All, length, slice_index_or};
ghost use Rattle.duk_frame.specs.declared.code.Code.{Code};
ghost use Rattle.duk_host.specs.Judgement.{Decision};
ghost use Rattle.duk_hsm.specs.Keys.{HsmKeys};
ghost use Rattle.duk_journal_host.specs.Candidate.{IsCandidate, IsOfCandidate};
ghost use Rattle.duk_journal_host.specs.Steps.{IsDismissed};
ghost use Rattle.duk_journal_host.specs.declared.authentic.Purchase.{Purchase};
ghost use Rattle.duk_journal_host.specs.declared.candidate.Candidate.{Candidate};
ghost use Rattle.duk_journal_host.specs.declared.candidate.Candidate.TheVariants as candidate;
ghost use Rattle.duk_journal_host.specs.declared.settlement.Settled.{Settled};
ghost use Rattle.duk_journal_host.specs.declared.settlement.Settled.TheVariants as settled;
ghost use Rattle.duk_journal_host.specs.declared.settlement.Settlement.TheVariants.{Kept};
ghost use Rattle.duk_calls.specs.Answer.{part_at};
ghost use Rattle.duk_calls.specs.Hosts.{BeginsWithAnswer, HoldsAnswers, HoldsJudgements, SaysAnswer, SaysJudgement, SaysSettled, asked_again, candidate_bytes, decision_of, marked, padded, with_at};
ghost use Rattle.duk_calls.specs.Modules.{IsModule};
ghost use Rattle.duk_calls.specs.Requests.{front_frame};

/// What a frame is judged to be begins with a zero exactly where it is refused whatever a book keeps,
/// with the frame that stands there. Else it is the bytes of a candidate. No frame is both, whatever
/// the issuers say that one host or another asks.
pub fn judgements()
    ensures dismissed { (keys : HsmKeys) (decides : Decision) (frame said : List ℕ)
        → SaysJudgement keys decides frame said → slice_index_or said 0 0 ≡ 0
        → IsDismissed keys frame (front_frame said) }
    ensures candidate { (keys : HsmKeys) (decides : Decision) (frame said : List ℕ)
        → SaysJudgement keys decides frame said → slice_index_or said 0 0 ≢ 0
        → (candidate : Candidate) × IsCandidate keys decides frame candidate
        × (said ≡ padded (candidate_bytes candidate)) }
    ensures apart { (keys : HsmKeys) (decides others : Decision) (frame said : List ℕ)
        → (candidate : Candidate) → IsCandidate keys decides frame candidate
        → SaysJudgement keys others frame said → slice_index_or said 0 0 ≢ 0 }
{
    duk_mac::laws::retail_is_a_block();
    duk_tree::laws::serials();
    duk_journal_host::laws::steps();
    duk_journal_host::laws::one_judgement();
}

/// A candidate that is marked with what became of it says that. Bytes say at most one thing that was
/// settled. A payment that is kept has its own code, so that its second byte alone is marked.
pub fn settlements()
    ensures says { (keys : HsmKeys) (decides : Decision) (frame : List ℕ)
        → (candidate : Candidate) (settled : Settled)
        → IsCandidate keys decides frame candidate → IsOfCandidate candidate settled
        → SaysSettled (marked settled (padded (candidate_bytes candidate))) settled }
    ensures one { (said : List ℕ) (one other : Settled) → SaysSettled said one
        → SaysSettled said other → one ≡ other }
    ensures own_code { (purchase : Purchase) (code : Code)
        → marked (settled.Payment purchase (Kept code))
        (padded (candidate_bytes (candidate.Payment purchase code)))
        ≡ with_at 1 (1 ∷ []) (padded (candidate_bytes (candidate.Payment purchase code))) }
{
    duk_tree::laws::serials();
}

/// What is answered to a candidate that is marked with what became of it is the frame that answers
/// that, and never a fault. A payment or reversal that is known again has the bytes that it had when it
/// was kept, whatever code another host decided for it meanwhile.
pub fn answers()
    ensures answered { (keys : HsmKeys) (decides : Decision) (frame answer : List ℕ)
        → (candidate : Candidate) (settled : Settled)
        → IsCandidate keys decides frame candidate → IsOfCandidate candidate settled
        → SaysAnswer keys (marked settled (padded (candidate_bytes candidate))) answer
        → BeginsWithAnswer keys settled answer }
    ensures known_again { (keys : HsmKeys) (decides others : Decision) (frame : List ℕ)
        → (first later : List ℕ) (candidate other : Candidate) (settled : Settled)
        → IsCandidate keys decides frame candidate → IsOfCandidate candidate settled
        → IsCandidate keys others frame other → IsOfCandidate other (asked_again settled)
        → SaysAnswer keys (marked settled (padded (candidate_bytes candidate))) first
        → SaysAnswer keys (marked (asked_again settled) (padded (candidate_bytes other))) later
        → later ≡ first }
{
    duk_mac::laws::retail_is_a_block();
    duk_tree::laws::serials();
    settlements();
}

/// The image of a module has one set of keys. So two calls with one image have the same keys.
pub fn one_set_of_keys()
    ensures { (image : List ℕ) (one other : HsmKeys) → All (λ byte. byte < 2 ^ 8) image
        → IsModule image one → IsModule image other → one ≡ other }
{
    duk_block::laws::one_reading();
    duk_block::laws::no_fault();
}

/// `host_judge`, a book, and `host_answer` with the same image, or with two that have the same keys: a
/// frame that is judged to be a candidate, and is marked at any place with what became of it, is
/// answered there with the frame that answers that.
pub fn two_calls()
    ensures { (image other cards frames old judged said others new : List ℕ) (i j : ℕ)
        → (candidate : Candidate) (settled : Settled) → All (λ byte. byte < 2 ^ 8) other
        → (judging : HoldsJudgements image cards frames old judged)
        → IsModule other judging.keys
        → HoldsAnswers other said others new → j < length said / 64
        → IsCandidate judging.keys (decision_of judging.zone cards)
        (front_frame (part_at 64 frames i)) candidate
        → part_at 64 judged i ≡ padded (candidate_bytes candidate)
        → IsOfCandidate candidate settled
        → part_at 64 said j ≡ marked settled (part_at 64 judged i)
        → BeginsWithAnswer judging.keys settled (part_at 64 new j) }
{
    answers();
    one_set_of_keys();
}

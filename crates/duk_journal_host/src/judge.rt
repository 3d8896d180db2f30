//! How the frames of a group are judged.

ghost use Rattle.std.specs.Prelude.{◌≡◌, ◌≤◌, ◌<◌, ◌+◌, ◌-◌, ◌++◌, ℕ, [], All, IfOk, IfSome, IsSome, OnErr, OnOk, length, map};
ghost use Rattle.std.specs.Option.{option_to_list};
ghost use Rattle.duk_hsm.specs.Keys.{HsmKeys};
ghost use Rattle.duk_journal.specs.Entry.{MayStandUnder};
ghost use Rattle.duk_tree.specs.Path.{IsUsable};
ghost use Rattle.duk_tree.specs.Serial.{Serial};
ghost use Rattle.duk_journal_host.specs.Group.{most_frames};
ghost use Rattle.duk_journal_host.specs.Host.{IndexOf};
ghost use Rattle.duk_journal_host.specs.Judgement.{room_for_payments};
ghost use Rattle.duk_journal_host.specs.inner.Draft.{AreDraftsUnder, IsDraftUnder, frame_of};
ghost use Rattle.duk_journal_host.specs.inner.Judged.{AreJudgedSoFar, IsNumberOf, JudgesFirst, JudgesFrame, JudgesFrames, MayBeAccepted, OpensBetween, OpensFrame};

use crate::authentic::authenticate;
use crate::draft::{Draft, complete};
use crate::group::Group;
use crate::index::Index;
use crate::opening::open_frames;
use crate::settle::{Room, settle};
use arrayvec::ArrayVec;
use duk_frame::Frame;
use duk_group::WIDTH;
use duk_host::Issuer;
use duk_hsm::{Hsm, HsmFault, OpenedGroup, Transaction};
use duk_journal::Entry;
use std::alloc::AllocError;

/// A frame that is judged: its answer, perhaps without its MAC, and the entry that is kept of it.
#[derive(Drop)]
pub(crate) struct Judged {
    pub(crate) answer: Draft,
    pub(crate) added: Option<Entry>,
}

/// Judges frames in turn, each with the index and the room as the earlier ones leave them, and adds
/// their answers and entries to the group. A journal keeps so many entries, and has room for so
/// many more. The numbers of `WIDTH` frames at a time are opened together, before the first of
/// these is judged, and the MACs of their replies are made together, after the last.
///
/// Where memory is refused, the frames before are judged, and there is no reason against the next.
/// The index is then no longer that of a list of entries.
pub(crate) fn judge_frames<const N: usize, I: Issuer>(
    hsm: &Hsm<N>,
    issuer: &I,
    index: &mut Index,
    kept: u64,
    room: u64,
    frames: &[Frame],
    group: &mut Group,
) -> Result<(), AllocError>
    requires few { length frames.now ≤ most_frames }
    requires zone { IsSome hsm.now.zone }
    requires no_answers { group.old.answers ≡ [] }
    requires no_entries { group.old.entries ≡ [] }
    ensures judged { OnOk result ((capacity : ℕ) → room ≡ capacity - kept
        → JudgesFrames hsm.now (I.decides issuer.now) capacity room
        (map (λ frame. frame.items) frames.now) index.old index.new group.new.answers
        group.new.entries) }
    ensures stopped { OnErr result ((capacity : ℕ) → room ≡ capacity - kept
        → JudgesFirst hsm.now (I.decides issuer.now) capacity room
        (map (λ frame. frame.items) frames.now) index.old group.new.answers
        group.new.entries) }
    ensures usable { All (λ entry. IsUsable entry.number.counter) group.new.entries }
    ensures stand { All (λ entry. MayStandUnder entry.number entry.decided) group.new.entries }
    ensures fits { length group.new.entries ≤ room }
    ensures most { length group.new.entries ≤ most_frames }
{
    let mut judged = 0;
    while judged < frames.len() {
        judged = judge_next(hsm, issuer, index, kept, room, frames, judged, group)?;
    }
    Ok(())
}

/// Judges the frames from a place on whose numbers are opened together, and gives the place after
/// them.
fn judge_next<const N: usize, I: Issuer>(
    hsm: &Hsm<N>,
    issuer: &I,
    index: &mut Index,
    kept: u64,
    room: u64,
    frames: &[Frame],
    from: usize,
    group: &mut Group,
) -> Result<usize, AllocError>
    requires few { length frames.now ≤ most_frames }
    requires zone { IsSome hsm.now.zone }
    requires from { from < length frames.now }
    requires so_far { (before : IndexOf) × AreJudgedSoFar hsm.now (I.decides issuer.now) kept room
        (map (λ frame. frame.items) frames.now) from before index.old group.old.answers
        group.old.entries }
    ensures further { IfOk result (λ to. from < to) }
    ensures within { IfOk result (λ to. to ≤ length frames.now) }
    ensures judged { IfOk result (λ to. (before : IndexOf)
        → AreJudgedSoFar hsm.now (I.decides issuer.now) kept room
        (map (λ frame. frame.items) frames.now) from before index.old group.old.answers
        group.old.entries
        → AreJudgedSoFar hsm.now (I.decides issuer.now) kept room
        (map (λ frame. frame.items) frames.now) to before index.new group.new.answers
        group.new.entries) }
    ensures stopped { OnErr result ((before : IndexOf) (capacity : ℕ)
        → AreJudgedSoFar hsm.now (I.decides issuer.now) kept room
        (map (λ frame. frame.items) frames.now) from before index.old group.old.answers
        group.old.entries
        → room ≡ capacity - kept
        → JudgesFirst hsm.now (I.decides issuer.now) capacity room
        (map (λ frame. frame.items) frames.now) before group.new.answers
        group.new.entries) }
    ensures usable { All (λ entry. IsUsable entry.number.counter) group.new.entries }
    ensures stand { All (λ entry. MayStandUnder entry.number entry.decided) group.new.entries }
    ensures fits { length group.new.entries ≤ room }
    ensures most { length group.new.entries ≤ most_frames }
{
    let to = frames.len().min(from + WIDTH);
    let opened = open_frames(hsm, &frames[from..to]);
    let mut drafts = ArrayVec::new();
    let judged = judge_opened(
        &opened,
        issuer,
        index,
        kept,
        room,
        frames,
        from,
        to,
        group,
        &mut drafts,
    );
    complete(&opened, drafts.as_slice(), group);
    match judged {
        Ok(()) => Ok(to),
        Err(refused) => Err(refused),
    }
}

/// Judges the frames between two places, whose numbers were opened to these, and adds their
/// answers to the drafts, and their entries to the group.
fn judge_opened<I: Issuer>(
    opened: &OpenedGroup,
    issuer: &I,
    index: &mut Index,
    kept: u64,
    room: u64,
    frames: &[Frame],
    from: usize,
    to: usize,
    group: &mut Group,
    drafts: &mut ArrayVec<Draft, WIDTH>,
) -> Result<(), AllocError>
    requires few { length frames.now ≤ most_frames }
    requires order { from ≤ to }
    requires within { to ≤ length frames.now }
    requires width { to ≤ from + WIDTH }
    requires no_drafts { drafts.old.items ≡ [] }
    requires so_far { (keys : HsmKeys) × (before : IndexOf) × IsSome keys.zone
        × OpensBetween keys (λ frame. frame.items) frames.now from to opened.now
        × AreJudgedSoFar keys (I.decides issuer.now) kept room
        (map (λ frame. frame.items) frames.now) from before index.old group.old.answers
        group.old.entries }
    ensures judged { OnOk result ((keys : HsmKeys) (before : IndexOf)
        → OpensBetween keys (λ frame. frame.items) frames.now from to opened.now
        → AreJudgedSoFar keys (I.decides issuer.now) kept room
        (map (λ frame. frame.items) frames.now) from before index.old group.old.answers
        group.old.entries
        → AreJudgedSoFar keys (I.decides issuer.now) kept room
        (map (λ frame. frame.items) frames.now) to before index.new
        (group.old.answers ++ map (frame_of keys) drafts.new.items) group.new.entries) }
    ensures stopped { OnErr result ((keys : HsmKeys) (before : IndexOf) (capacity : ℕ)
        → OpensBetween keys (λ frame. frame.items) frames.now from to opened.now
        → AreJudgedSoFar keys (I.decides issuer.now) kept room
        (map (λ frame. frame.items) frames.now) from before index.old group.old.answers
        group.old.entries
        → room ≡ capacity - kept
        → JudgesFirst keys (I.decides issuer.now) capacity room
        (map (λ frame. frame.items) frames.now) before
        (group.old.answers ++ map (frame_of keys) drafts.new.items) group.new.entries) }
    ensures under { (keys : HsmKeys)
        → (opens : OpensBetween keys (λ frame. frame.items) frames.now from to opened.now)
        → AreDraftsUnder keys opens.numbers drafts.new.items }
    ensures counted { length drafts.new.items ≤ to - from }
    ensures answers { group.new.answers ≡ group.old.answers }
    ensures usable { All (λ entry. IsUsable entry.number.counter) group.new.entries }
    ensures stand { All (λ entry. MayStandUnder entry.number entry.decided) group.new.entries }
    ensures fits { length group.new.entries ≤ room }
    ensures most { length group.new.entries ≤ most_frames }
{
    for place in from..to {
        let left = room_after(kept, room, group.entries().len() as u64);
        let transaction = opened.transaction(place - from);
        let judged = judge_frame(transaction, issuer, index, left, frames[place].as_slice())?;
        drafts.push(judged.answer);
        group.push_entry(judged.added);
    }
    Ok(())
}

/// The room that entries leave which are added to a journal: one that keeps so many, and has room
/// for so many more.
fn room_after(kept: u64, room: u64, added: u64) -> Room
    requires { added ≤ room }
    ensures entries { result.entries ≡ room - added }
    ensures payments { (capacity : ℕ) → room ≡ capacity - kept
        → result.payments ≡ room_for_payments capacity (room - added) }
    ensures within { result.payments ≤ result.entries }
{
    let entries = room - added;
    let capacity = u128::from(kept) + u128::from(room);
    let payments = if capacity <= 16 * u128::from(entries) {
        entries
    } else {
        0
    };
    Room { entries, payments }
}

/// Authenticates a frame, whose number was opened to this, settles it, and drafts its answer. Memory is
/// refused only where there is no reason against it.
fn judge_frame<I: Issuer>(
    opened: Result<Transaction, HsmFault>,
    issuer: &I,
    index: &mut Index,
    room: Room,
    frame: &[u8],
) -> Result<Judged, AllocError>
    requires opened { (keys : HsmKeys) × IsSome keys.zone × OpensFrame keys frame.now opened }
    requires within { room.payments ≤ room.entries }
    ensures judged { IfOk result (λ judged. (keys : HsmKeys) (capacity : ℕ)
        → OpensFrame keys frame.now opened
        → room.payments ≡ room_for_payments capacity room.entries
        → JudgesFrame keys (I.decides issuer.now) capacity room.entries frame.now
        index.old index.new (frame_of keys judged.answer) judged.added) }
    ensures under { IfOk result (λ judged. (keys : HsmKeys) (ksn : Serial)
        → OpensFrame keys frame.now opened → IsNumberOf frame.now ksn
        → IsDraftUnder keys ksn judged.answer) }
    ensures usable { IfOk result
        (λ judged. IfSome judged.added (λ entry. IsUsable entry.number.counter)) }
    ensures stands { IfOk result
        (λ judged. IfSome judged.added (λ entry. MayStandUnder entry.number entry.decided)) }
    ensures room { IfOk result (λ judged. length (option_to_list judged.added) ≤ room.entries) }
    ensures refused { OnErr result ((keys : HsmKeys) (capacity : ℕ)
        → OpensFrame keys frame.now opened
        → room.payments ≡ room_for_payments capacity room.entries
        → MayBeAccepted keys index.old capacity room.entries frame.now) }
{
    duk_frame::laws::one_reading();
    let authentic = match authenticate(opened, frame) {
        Ok(authentic) => authentic,
        Err(refusal) => {
            return Ok(Judged {
                answer: Draft::Whole(refusal),
                added: None,
            });
        }
    };
    let settled = settle(index, room, issuer, &authentic)?;
    Ok(Judged {
        answer: settled.answer(),
        added: settled.entry(),
    })
}

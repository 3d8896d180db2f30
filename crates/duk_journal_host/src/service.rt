//! A host over a journal as a service: frames in, answers out.

ghost use Rattle.std.specs.Prelude.{◌≡◌, ◌<◌, ◌≤◌, ◌*◌, ◌++◌, [], false, length, IfErr, IfOk, OnErr, OnOk, map, take};
ghost use Rattle.std.specs.List.{concat};
ghost use Rattle.duk_frame.specs.Stream.{IsPart};
ghost use Rattle.duk_host.specs.Serve.{supply};
ghost use Rattle.duk_host.specs.declared.fault.HostFault.TheVariants as fault;
ghost use Rattle.duk_io.specs.Sink.{IsCut, IsWritten};
ghost use Rattle.duk_journal_host.specs.Group.{most_frames};
ghost use Rattle.duk_journal_host.specs.Host.{host_meaning_of};
ghost use Rattle.duk_journal_host.specs.Serve.{BytesFailed, GroupFailed, IsReadToEnd, IsServed, ServiceFailed, empty_workspace, service};
ghost use Rattle.duk_journal_host.specs.inner.Serve.{AreAnswered, AreBeforeTooLong, AreCollected, HasRoomForFrames};

use crate::group::MOST_FRAMES;
use crate::host::JournalHost;
use crate::workspace::Workspace;
use arrayvec::ArrayVec;
use duk_frame::{Feeder, Frame, FrameFault};
use duk_host::{HostFault, Issuer};
use duk_io::{Sink, Source, write_text};
use duk_journal::Journal;

/// How many bytes are read at a time, at most.
const PIECE: usize = 65_536;

/// The room in which the answers of a group are joined. They have 65,536 bytes at most. The rest
/// reaches deeper into the stack than judging the group did: so zeros stand where that left keys,
/// texts and PIN blocks of many frames.
const ROOM: usize = 524_288;

/// A group of so many frames is small, and what judging it leaves behind is little.
const FEW: usize = 4;

/// The most bytes of the answers of a small group.
const FEW_ANSWERS: usize = 256;

/// Answers the frames of the input. Those that a read ends are answered together, in groups: the
/// entries of a group are kept before any of its answers is written.
///
/// Refused, as they come, with `Read`, where a read failed, and `Truncated`, where the input ends
/// inside a frame, each after all whole frames are answered; with what `answer` refuses of a group,
/// where `Store` leaves it without an answer, and `NoMemory` the frames from the first on for which
/// memory is refused; with `Write`, where a write of answers failed or took no byte; and with
/// `TooLong`, where a length above 62 stands in the place of a frame, after the group before it. A
/// run makes 2^64 - 1 reads at most, and gives `Read` after them.
///
/// Once a group is answered, or is not, zeros are written over its frames and over what was read of
/// them, since that has PANs and enciphered PIN blocks.
pub fn serve<const N: usize, J: Journal, I: Issuer, R: Source, W: Sink>(
    host: &mut JournalHost<N, J, I>,
    work: &mut Workspace,
    reader: &mut R,
    writer: &mut W,
) -> Result<(), HostFault>
    ensures served { OnOk result (IsReadToEnd (host_meaning_of J.meaning I.decides)
        (service host.old (W.known writer.old)) (service host.new (W.known writer.new))
        (supply (R.known reader.old) (R.reads reader.old))
        (supply (R.known reader.new) (R.reads reader.new)) []) }
    ensures refused { IfErr result (ServiceFailed (host_meaning_of J.meaning I.decides)
        (service host.old (W.known writer.old)) (service host.new (W.known writer.new))
        (supply (R.known reader.old) (R.reads reader.old))
        (supply (R.known reader.new) (R.reads reader.new))) }
    ensures cleared { work.new ≡ empty_workspace }
{
    duk_io::laws::reads();
    duk_io::laws::writes();
    work.clear();
    let mut piece = [0; PIECE];
    let mut feeder = Feeder::new();
    for _ in 0..u64::MAX {
        let Ok(count) = reader.get(&mut piece) else {
            return Err(HostFault::Read);
        };
        if count == 0 {
            return at_end(&feeder);
        }
        let served = serve_piece(host, work, &mut feeder, &piece[..count], writer);
        piece[..count].fill(0);
        served?;
    }
    Err(HostFault::Read)
}

/// What a service answers at the end of its input.
fn at_end(feeder: &Feeder) -> Result<(), HostFault>
    ensures between { OnOk result (feeder.now.rest ≡ []) }
    ensures inside { IfErr result
        (λ why. (why ≡ fault.Truncated) × (0 < length feeder.now.rest)) }
{
    if feeder.held() > 0 {
        return Err(HostFault::Truncated);
    }
    Ok(())
}

/// Answers the frames that end in a piece.
fn serve_piece<const N: usize, J: Journal, I: Issuer, W: Sink>(
    host: &mut JournalHost<N, J, I>,
    work: &mut Workspace,
    feeder: &mut Feeder,
    piece: &[u8],
    writer: &mut W,
) -> Result<(), HostFault>
    requires goes_on { feeder.old.failed ≡ false }
    requires some { 0 < length piece.now }
    ensures served { OnOk result (IsServed (host_meaning_of J.meaning I.decides)
        (service host.old (W.known writer.old)) (service host.new (W.known writer.new))
        (feeder.old.rest ++ piece.now) feeder.new.rest) }
    ensures part { OnOk result (IsPart feeder.new.rest) }
    ensures goes_on { OnOk result (feeder.new.failed ≡ false) }
    ensures refused { IfErr result (BytesFailed (host_meaning_of J.meaning I.decides)
        (service host.old (W.known writer.old)) (service host.new (W.known writer.new))
        (feeder.old.rest ++ piece.now)) }
    ensures cleared { work.new ≡ empty_workspace }
{
    duk_io::laws::writes();
    let mut done = 0;
    while done < piece.len() {
        done += serve_group(host, work, feeder, &piece[done..], writer)?;
    }
    Ok(())
}

/// Answers the first frames that end in a piece, as many as make a group, and gives how many bytes
/// of the piece that took.
fn serve_group<const N: usize, J: Journal, I: Issuer, W: Sink>(
    host: &mut JournalHost<N, J, I>,
    work: &mut Workspace,
    feeder: &mut Feeder,
    piece: &[u8],
    writer: &mut W,
) -> Result<usize, HostFault>
    requires goes_on { feeder.old.failed ≡ false }
    requires some { 0 < length piece.now }
    ensures served { IfOk result (λ taken. IsServed (host_meaning_of J.meaning I.decides)
        (service host.old (W.known writer.old)) (service host.new (W.known writer.new))
        (feeder.old.rest ++ take taken piece.now) feeder.new.rest) }
    ensures some { IfOk result (λ taken. 0 < taken) }
    ensures within { IfOk result (λ taken. taken ≤ length piece.now) }
    ensures part { OnOk result (IsPart feeder.new.rest) }
    ensures goes_on { OnOk result (feeder.new.failed ≡ false) }
    ensures refused { IfErr result (BytesFailed (host_meaning_of J.meaning I.decides)
        (service host.old (W.known writer.old)) (service host.new (W.known writer.new))
        (feeder.old.rest ++ piece.now)) }
    ensures cleared { work.new ≡ empty_workspace }
{
    duk_io::laws::writes();
    let collected = collect(&mut work.frames, feeder, piece);
    let answered = answer_group(host, work, writer);
    work.clear();
    answered?;
    match collected {
        Ok(taken) => Ok(taken),
        Err(FrameFault::TooLong) => Err(HostFault::TooLong),
    }
}

/// Takes the first frames that end in a piece, as many as make a group, and gives how many bytes of
/// the piece that took: all of it, where no more frames end there.
fn collect(frames: &mut Vec<Frame>, feeder: &mut Feeder, piece: &[u8]) -> Result<usize, FrameFault>
    requires goes_on { feeder.old.failed ≡ false }
    requires room { HasRoomForFrames frames.old }
    ensures collected { IfOk result (AreCollected feeder.old feeder.new piece.now
        (map (λ frame. frame.items) frames.new.items)) }
    ensures goes_on { OnOk result (feeder.new.failed ≡ false) }
    ensures too_long { OnErr result (AreBeforeTooLong feeder.old piece.now
        (map (λ frame. frame.items) frames.new.items)) }
    ensures few { length frames.new.items ≤ most_frames }
    ensures room { HasRoomForFrames frames.new }
{
    frames.clear();
    let mut done = 0;
    while frames.len() < MOST_FRAMES {
        let (taken, frame) = feeder.feed(&piece[done..])?;
        let Some(frame) = frame else {
            return Ok(piece.len());
        };
        frames.push_reserved(frame);
        done += taken;
    }
    Ok(done)
}

/// Answers the frames that were taken, and writes the answers that there are.
fn answer_group<const N: usize, J: Journal, I: Issuer, W: Sink>(
    host: &mut JournalHost<N, J, I>,
    work: &mut Workspace,
    writer: &mut W,
) -> Result<(), HostFault>
    requires few { length work.old.frames ≤ most_frames }
    ensures answered { OnOk result (AreAnswered (host_meaning_of J.meaning I.decides)
        (service host.old (W.known writer.old)) (service host.new (W.known writer.new))
        work.old.frames) }
    ensures failed { IfErr result (GroupFailed (host_meaning_of J.meaning I.decides)
        (service host.old (W.known writer.old)) (service host.new (W.known writer.new))
        work.old.frames) }
    ensures stays { work.new.frames ≡ work.old.frames }
{
    duk_io::laws::writes();
    let frames = work.frames.as_slice();
    if frames.is_empty() {
        return Ok(());
    }
    let answered = host.answer(frames, &mut work.group);
    write_answers(work.group.answers(), writer)?;
    answered
}

/// Writes the answers of a group, together. Those of a small group are joined in a small buffer: to
/// clear the large one takes longer than all else that one frame needs. It stands on the stack where
/// the group was judged.
#[inline(never)]
fn write_answers<W: Sink>(answers: &[Frame], writer: &mut W) -> Result<(), HostFault>
    requires few { length answers.now ≤ most_frames }
    ensures written { OnOk result (IsWritten (W.known writer.old) (W.known writer.new)
        (concat (map (λ answer. answer.items) answers.now))) }
    ensures cut { IfErr result (λ why. (why ≡ fault.Write)
        × IsCut (W.known writer.old) (W.known writer.new)
        (concat (map (λ answer. answer.items) answers.now))) }
{
    if answers.len() <= FEW {
        let text: ArrayVec<u8, FEW_ANSWERS> = joined(answers);
        return write_bytes(text.as_slice(), writer);
    }
    let text: ArrayVec<u8, ROOM> = joined(answers);
    write_bytes(text.as_slice(), writer)
}

/// Writes bytes.
fn write_bytes<W: Sink>(bytes: &[u8], writer: &mut W) -> Result<(), HostFault>
    ensures written { OnOk result
        (IsWritten (W.known writer.old) (W.known writer.new) bytes.now) }
    ensures cut { IfErr result (λ why. (why ≡ fault.Write)
        × IsCut (W.known writer.old) (W.known writer.new) bytes.now) }
{
    match write_text(writer, bytes) {
        Ok(()) => Ok(()),
        Err(_) => Err(HostFault::Write),
    }
}

/// The bytes of answers, one after the other.
fn joined<const CAP: usize>(answers: &[Frame]) -> ArrayVec<u8, CAP>
    requires fit { 64 * length answers.now ≤ CAP }
    ensures { result.items ≡ concat (map (λ answer. answer.items) answers.now) }
{
    let mut text = ArrayVec::new();
    for answer in answers {
        text.try_extend_from_slice(answer.as_slice()).unwrap();
    }
    text
}

//! A host as a service: frames in, answers out.

ghost use Rattle.std.specs.Prelude.{◌≡◌, ◌<◌, ◌≤◌, ◌++◌, [], false, length, IfOk, IfErr, OnOk};
ghost use Rattle.duk_frame.specs.Stream.{IsPart, IsFrame};
ghost use Rattle.duk_host.specs.Host.{host_meaning_of};
ghost use Rattle.duk_host.specs.declared.fault.HostFault.TheVariants.{Truncated};
ghost use Rattle.duk_host.specs.Serve.{AnswerFailed, BytesFailed, IsReadToEnd, IsServed, ServiceFailed, service, supply};
ghost use Rattle.duk_host.specs.inner.Serve.{IsAnswerWritten, IsPieceTried};

use crate::fault::HostFault;
use crate::host::Host;
use crate::issuer::Issuer;
use duk_frame::{Feeder, FrameFault};
use duk_io::{Sink, Source, write_text};
use duk_store::UsedLog;

/// How many reads one run makes at most.
const READS: usize = 1_000_000;

/// How many bytes are read at a time, at most.
const PIECE: usize = 4096;

/// Handles each frame of the input, writes its answer, and gives how many frames there were
/// when the input has ended.
///
/// Refused with the first of these: `Read`, where a read failed or 1,000,000 were made, none of
/// which gave the end, and `Truncated`, where the input ends inside a frame, each after all whole
/// frames are answered; `TooLong`, where a length above 62 stands in the place of a frame, after
/// all before it are; what `handle` refuses, and that frame and what is after it have no answer;
/// `Write`, where a write failed or took no byte.
pub fn serve<const N: usize, L: UsedLog, I: Issuer, R: Source, W: Sink>(
    host: &mut Host<N, L, I>,
    reader: &mut R,
    writer: &mut W,
) -> Result<u64, HostFault>
    ensures served { IfOk result (IsReadToEnd (host_meaning_of L.meaning I.decides)
        (service host.old (W.known writer.old)) (service host.new (W.known writer.new))
        (supply (R.known reader.old) (R.reads reader.old))
        (supply (R.known reader.new) (R.reads reader.new)) []) }
    ensures refused { IfErr result (ServiceFailed (host_meaning_of L.meaning I.decides)
        (service host.old (W.known writer.old)) (service host.new (W.known writer.new))
        (supply (R.known reader.old) (R.reads reader.old))
        (supply (R.known reader.new) (R.reads reader.new))) }
{
    duk_io::laws::reads();
    duk_io::laws::writes();
    let mut piece = [0; PIECE];
    let mut feeder = Feeder::new();
    let mut frames = 0;
    for _ in 0..READS {
        let Ok(count) = reader.get(&mut piece) else {
            return Err(HostFault::Read);
        };
        if count == 0 {
            return at_end(&feeder, frames);
        }
        frames += serve_piece(host, &mut feeder, &piece[..count], writer)?;
    }
    Err(HostFault::Read)
}

/// What a service answers at the end of its input, where it answered so many frames.
fn at_end(feeder: &Feeder, frames: u64) -> Result<u64, HostFault>
    ensures between { IfOk result (λ count. (count ≡ frames) × (feeder.now.rest ≡ [])) }
    ensures inside { IfErr result
        (λ why. (why ≡ Truncated) × (0 < length feeder.now.rest)) }
{
    if feeder.held() > 0 {
        return Err(HostFault::Truncated);
    }
    Ok(frames)
}

/// Serves the frames that end in a piece, and gives how many these are.
fn serve_piece<const N: usize, L: UsedLog, I: Issuer, W: Sink>(
    host: &mut Host<N, L, I>,
    feeder: &mut Feeder,
    piece: &[u8],
    writer: &mut W,
) -> Result<u64, HostFault>
    requires { feeder.old.failed ≡ false }
    ensures served { IfOk result (IsServed (host_meaning_of L.meaning I.decides)
        (service host.old (W.known writer.old)) (service host.new (W.known writer.new))
        (feeder.old.rest ++ piece.now) feeder.new.rest) }
    ensures few { IfOk result (λ count. count ≤ length piece.now) }
    ensures part { OnOk result (IsPart feeder.new.rest) }
    ensures goes_on { OnOk result (feeder.new.failed ≡ false) }
    ensures refused { IfErr result (BytesFailed (host_meaning_of L.meaning I.decides)
        (service host.old (W.known writer.old)) (service host.new (W.known writer.new))
        (feeder.old.rest ++ piece.now)) }
{
    duk_io::laws::writes();
    let mut done = 0;
    let mut frames = 0;
    while let Some(taken) = serve_frame(host, feeder, &piece[done..], writer)? {
        done += taken;
        frames += 1;
    }
    Ok(frames)
}

/// Serves the first frame that ends in a piece, and gives how many bytes of the piece that took;
/// or none, where no frame ends in it, and it was taken whole.
fn serve_frame<const N: usize, L: UsedLog, I: Issuer, W: Sink>(
    host: &mut Host<N, L, I>,
    feeder: &mut Feeder,
    piece: &[u8],
    writer: &mut W,
) -> Result<Option<usize>, HostFault>
    requires { feeder.old.failed ≡ false }
    ensures served { IfOk result (λ taken. IsPieceTried (host_meaning_of L.meaning I.decides)
        (service host.old (W.known writer.old)) (service host.new (W.known writer.new))
        feeder.old feeder.new piece.now taken) }
    ensures goes_on { OnOk result (feeder.new.failed ≡ false) }
    ensures refused { IfErr result (BytesFailed (host_meaning_of L.meaning I.decides)
        (service host.old (W.known writer.old)) (service host.new (W.known writer.new))
        (feeder.old.rest ++ piece.now)) }
{
    duk_io::laws::writes();
    match feeder.feed(piece) {
        Ok((taken, Some(frame))) => {
            answer(host, frame.as_slice(), writer)?;
            Ok(Some(taken))
        }
        Ok((_, None)) => Ok(None),
        Err(FrameFault::TooLong) => Err(HostFault::TooLong),
    }
}

/// Answers a frame.
fn answer<const N: usize, L: UsedLog, I: Issuer, W: Sink>(
    host: &mut Host<N, L, I>,
    frame: &[u8],
    writer: &mut W,
) -> Result<(), HostFault>
    ensures answered { OnOk result (IsAnswerWritten (host_meaning_of L.meaning I.decides)
        (service host.old (W.known writer.old)) (service host.new (W.known writer.new))
        frame.now) }
    ensures failed { IfErr result (AnswerFailed (host_meaning_of L.meaning I.decides)
        (service host.old (W.known writer.old)) (service host.new (W.known writer.new))
        frame.now) }
{
    let answer = host.handle(frame)?;
    if write_text(writer, answer.as_slice()).is_err() {
        return Err(HostFault::Write);
    }
    Ok(())
}

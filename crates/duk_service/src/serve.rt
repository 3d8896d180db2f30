//! The command `serve` without its files: the host of a configuration answers the frames of its
//! input.
//!
//! That a host over its log fits in memory is required, since the host has the log by value, and
//! nothing else bounds the size of an unknown type. At each type of this repository the check
//! proves it by computing.

ghost use Rattle.std.specs.Prelude.{◌≡◌, ◌⊎◌, IfErr, IfOk, OnOk};
ghost use Rattle.duk_host.specs.Host.{host_meaning_of};
ghost use Rattle.duk_config.specs.NewHost.{new_host_of};
ghost use Rattle.duk_io.specs.Sink.{IsHandedOn, IsUntouched};
ghost use Rattle.duk_service.specs.HostSize.{HostFits, HostsFit};
ghost use Rattle.duk_service.specs.Serve.{HasNotServedLog, HasServedLog, HostRefused, IsServedUp, ServeRefused, over_log, serving_of};
ghost use Rattle.duk_service.specs.ServeFault.{HasReported, IsLossIn};
ghost use Rattle.duk_tdes.specs.KeyBytes.{bytes_of};
ghost use Rattle.duk_tdes.specs.Tdes.{IsTdesLength};

use crate::left_records::RecordFormat;
use crate::serve_end::end_service;
use crate::serve_fault::ServeFault;
use duk_commands::tell;
use duk_config::{Config, new_host};
use duk_host::{Host, HostFault, Issuer, serve};
use duk_io::{Sink, Source};
use duk_store::UsedLog;
use duk_tdes::{Key, KeyBytes};
use std::alloc::{AllocError, Global};

/// Serves the frames of `input` with the host of a configuration over a log, which is brought up
/// first, and writes an answer to `output` for each. Gives the status: 0 where the input ends
/// between two frames, or 1 with the line of the fault on `fault`, which is one of `serve_over_log`.
///
/// A host over such a log has to fit in memory, as one over any log of this library does.
pub fn serve_with<L: UsedLog, R: Source, W: Sink, F: Sink>(
    alloc: Global,
    config: &Config,
    log: L,
    input: &mut R,
    output: &mut W,
    fault: &mut F,
) -> u8
    requires fits { HostsFit L.row L.UsedLog }
    ensures status { (result ≡ 0) ⊎ (result ≡ 1) }
    ensures done { result ≡ 0 → HasServedLog (over_log L.meaning) (new_host_of config.now log)
        (serving_of R.known R.reads W.known input.old input.new output.old output.new) }
    ensures no_fault { result ≡ 0 → IsUntouched (F.known fault.old) (F.known fault.new) }
    ensures handed_on { result ≡ 0 → IsHandedOn (W.held_back output.new) }
    ensures not_done { result ≡ 1 → HasReported (HasNotServedLog (over_log L.meaning)
        (new_host_of config.now log)
        (serving_of R.known R.reads W.known input.old input.new output.old output.new))
        (IsHandedOn (W.held_back output.new)) (F.known fault.old) (F.known fault.new) }
{
    duk_io::laws::writes();
    match serve_over_log(alloc, config, log, input, output) {
        Ok(()) => 0,
        Err(why) => {
            tell(fault, why.line().as_bytes());
            1
        }
    }
}

/// Serves the frames of `input` with the host of a configuration over a log, which is brought up
/// first, and writes an answer to `output` for each, until the input ends between two frames.
///
/// A host over such a log has to fit in memory, as one over any log of this library does.
///
/// The faults: `log: failed` where the log does not come up, and then nothing is read; then, as
/// they come, `serve: read failed`, also after 1,000,000 reads, `serve: input ends in a frame`,
/// `serve: frame too long`, `log: failed`, and `serve: write failed`. Where memory is refused,
/// `out of memory` stands in place of any. At the end `output` is flushed; where it cannot hand on
/// what it holds back, `serve: write failed` stands in place of any but `log: failed`, and behind
/// that.
pub fn serve_over_log<L: UsedLog, R: Source, W: Sink>(
    alloc: Global,
    config: &Config,
    log: L,
    input: &mut R,
    output: &mut W,
) -> Result<(), ServeFault>
    requires fits { HostsFit L.row L.UsedLog }
    ensures done { OnOk result (HasServedLog (over_log L.meaning) (new_host_of config.now log)
        (serving_of R.known R.reads W.known input.old input.new output.old output.new)) }
    ensures handed_on { OnOk result (IsHandedOn (W.held_back output.new)) }
    ensures not_done { IfErr result (HasNotServedLog (over_log L.meaning)
        (new_host_of config.now log)
        (serving_of R.known R.reads W.known input.old input.new output.old output.new)) }
    ensures handed_on_at_fault { IfErr result
        (IsLossIn (IsHandedOn (W.held_back output.new))) }
{
    let ended = match serve_config(alloc, config, log, input, output) {
        Ok(_) => Ok(()),
        Err(why) => Err(why),
    };
    end_service(RecordFormat::Log, ended, output)
}

/// Brings the host of a configuration up over a log, and serves: reports how many frames there
/// were.
fn serve_config<L: UsedLog, R: Source, W: Sink>(
    alloc: Global,
    config: &Config,
    log: L,
    input: &mut R,
    output: &mut W,
) -> Result<u64, HostFault>
    requires fits { HostsFit L.row L.UsedLog }
    ensures served { IfOk result (IsServedUp (over_log L.meaning) (new_host_of config.now log)
        (serving_of R.known R.reads W.known input.old input.new output.old output.new)) }
    ensures refused { IfErr result (ServeRefused (over_log L.meaning) (new_host_of config.now log)
        (serving_of R.known R.reads W.known input.old input.new output.old output.new)) }
{
    match &config.lmk {
        KeyBytes::Double(lmk) => serve_under(alloc, lmk, config, log, input, output),
        KeyBytes::Triple(lmk) => serve_under(alloc, lmk, config, log, input, output),
    }
}

/// Does what `serve_config` does, under this local master key.
fn serve_under<const N: usize, L: UsedLog, R: Source, W: Sink>(
    alloc: Global,
    lmk: &Key<N>,
    config: &Config,
    log: L,
    input: &mut R,
    output: &mut W,
) -> Result<u64, HostFault>
    requires length { IsTdesLength N }
    requires lmk { lmk.now ≡ bytes_of config.now.lmk }
    requires fits { HostFits N.row L.row L.UsedLog }
    ensures served { IfOk result (IsServedUp (over_log L.meaning) (new_host_of config.now log)
        (serving_of R.known R.reads W.known input.old input.new output.old output.new)) }
    ensures refused { IfErr result (ServeRefused (over_log L.meaning) (new_host_of config.now log)
        (serving_of R.known R.reads W.known input.old input.new output.old output.new)) }
{
    match new_host(alloc, lmk, config, log) {
        Ok(mut host) => serve_host(&mut host, input, output),
        Err(AllocError) => Err(HostFault::NoMemory),
    }
}

/// Brings a host up, and serves: reports how many frames there were. Where it does not come up,
/// nothing is read.
fn serve_host<const N: usize, L: UsedLog, I: Issuer, R: Source, W: Sink>(
    host: &mut Host<N, L, I>,
    input: &mut R,
    output: &mut W,
) -> Result<u64, HostFault>
    ensures served { IfOk result (IsServedUp (host_meaning_of L.meaning I.decides) host.old
        (serving_of R.known R.reads W.known input.old input.new output.old output.new)) }
    ensures refused { IfErr result (HostRefused (host_meaning_of L.meaning I.decides) host.old
        (serving_of R.known R.reads W.known input.old input.new output.old output.new)) }
{
    match host.restart() {
        Ok(_) => serve(host, input, output),
        Err(why) => Err(why),
    }
}

//! A host over its log.

ghost use Rattle.std.specs.Prelude.{◌≡◌, ◌↔◌, ◌<◌, ◌-◌, [], None, IfOk, IfErr, IsSome, IsTrue};
ghost use Rattle.duk_store.specs.StoreState.{StaysButCalm};
ghost use Rattle.duk_frame.specs.Request.{IsRequest};
ghost use Rattle.duk_hsm.specs.TransactionKeys.{AreTransactionKeys};
ghost use Rattle.duk_host.specs.Handle.{Answers, AnswersAs, HandleRefused, IsToAccept, IsVerdictOn, KeepRefused};
ghost use Rattle.duk_host.specs.inner.Handle.{IsNumberAdded, IsRemembered, IsReplied, IsAcceptedVerdict};
ghost use Rattle.duk_host.specs.Judgement.{IsReplyTo};
ghost use Rattle.duk_host.specs.Host.{IsUsedIn, host_meaning_of};
ghost use Rattle.duk_host.specs.inner.Host.{IsFreshIn};
ghost use Rattle.duk_host.specs.Restart.{IsHostRestarted, PreservesEnds, HostRestartRefused};
ghost use Rattle.duk_tree.specs.Path.{IsUsable};

use crate::answered::Answered;
use crate::exchange::Exchange;
use crate::fault::HostFault;
use crate::issuer::Issuer;
use crate::judge::{Judgement, judge};
use crate::payment::Payment;
use crate::reading::numbers_in;
use crate::recent::{EmptyRing, Recent};
use crate::reply::{code_for, reply_with};
use crate::running::Running;
use duk_frame::Frame;
use duk_hsm::Hsm;
use duk_store::UsedLog;
use duk_tree::Ksn;
use std::alloc::{AllocError, Global};
use std::marker::Model;

/// A host: a security module, the issuer of the cards, and the log of the used numbers. It is made
/// stopped. While it runs, the used numbers are in memory, and the last 64 requests that it
/// accepted since its restart with their replies. The room for these is made once, and kept while
/// it is stopped.
#[derive(Drop)]
pub struct Host<const N: usize, L: UsedLog, I: Issuer> {
    alloc: Global,
    hsm: Hsm<N>,
    issuer: I,
    log: L,
    state: Option<Running>,
    spare: Option<EmptyRing>,
}

impl<const N: usize, L: UsedLog, I: Issuer> Model for Host<N, L, I> {
    ghost use Rattle.duk_host.specs.Host.{HostOf};
    ghost use Rattle.duk_host.specs.inner.Host.{AgreesWithLog};

    ghost Value = { HostOf L I };

    ghost use Rattle.duk_host.specs.View.{host_view};

    ghost view = { host_view };

    ghost invariant = { λ host. AgreesWithLog host.hsm (L.meaning.state_of host.log) host.state };
}

impl<const N: usize, L: UsedLog, I: Issuer> Host<N, L, I> {
    /// A stopped host. Its security module holds a zone key, as `has_zone` reports. This takes no
    /// memory.
    pub fn new(alloc: Global, hsm: Hsm<N>, issuer: I, log: L) -> Self
        requires zone { IsSome hsm.zone }
        ensures { result ≡ record { keys = hsm.entry; issuer = issuer; log = log; state = None } }
    {
        Host {
            alloc,
            hsm,
            issuer,
            log,
            state: None,
            spare: None,
        }
    }

    /// Brings log and host up, reads the used numbers from the log, and gives how many there are.
    /// No request is known as accepted before.
    ///
    /// Refused with `Store`: of the log's fault, or with `Damaged` where a number that it keeps
    /// occurs twice or numbers no transaction; and with `NoMemory`. The host is stopped after
    /// either.
    pub fn restart(&mut self) -> Result<u64, HostFault>
        ensures restarted { IfOk result (IsHostRestarted L.meaning self.old self.new) }
        ensures refused { IfErr result (HostRestartRefused L.meaning self.old self.new) }
        ensures disarmed { L.meaning.disarmed self.new.log }
        ensures counted { IfOk result (λ found. L.meaning.count self.new.log ≡ found) }
        ensures capacity { L.meaning.capacity self.new.log ≡ L.meaning.capacity self.old.log }
    {
        stop(&mut self.state, &mut self.spare);
        let kept = match self.log.restart() {
            Ok(kept) => kept,
            Err(fault) => return Err(HostFault::Store(fault)),
        };
        let used = numbers_in(self.alloc, &mut self.log, kept)?;
        let recent = room_for_exchanges(self.alloc, &mut self.spare)?;
        self.state = Some(Running { used, recent });
        Ok(kept)
    }

    /// Judges the bytes of a request, and answers with a refusal, with an accepted reply, or with
    /// the reply that the same request was given before.
    ///
    /// A refusal has the least reason that holds: 1 where the bytes are no request's frame, and
    /// then its key serial number is ten zero bytes; 2 where no key set for the key serial number
    /// is held; 3 where the counter numbers no transaction; 4 where the MAC is not that of the
    /// request; 5 where the number is used; 6 where the log has no room. After reason 4 and before
    /// reason 5, a request that is equal in every byte to one of the last 64 that were accepted
    /// since the restart is given the reply of that one. Both change nothing and take no memory.
    /// Else the number goes into the log before the reply is handed out, with code 30 where the PIN
    /// block is that of no PIN, or with what the issuer says.
    ///
    /// Refused with, in this order: `Stopped`; and where the request is to be accepted, `NoMemory`,
    /// which changes nothing, and `Store`, after which the host is stopped.
    pub fn handle(&mut self, bytes: &[u8]) -> Result<Frame, HostFault>
        ensures answered { IfOk result (λ frame.
            Answers (host_meaning_of L.meaning I.decides) bytes.now self.old self.new frame.items) }
        ensures refused { IfErr result
            (HandleRefused (host_meaning_of L.meaning I.decides) bytes.now self.old self.new) }
    {
        Ok(self.answer(bytes)?.frame)
    }

    /// Does with the bytes of a request what `handle` does, and gives beside the frame what it
    /// says: that the request is accepted, that it was accepted before, or that it is refused.
    pub fn answer(&mut self, bytes: &[u8]) -> Result<Answered, HostFault>
        ensures reported { IfOk result (λ answered. IsVerdictOn answered.frame.items answered.says) }
        ensures answered { IfOk result (λ answered. AnswersAs
            (host_meaning_of L.meaning I.decides)
            bytes.now self.old self.new answered.frame.items answered.says) }
        ensures refused { IfErr result
            (HandleRefused (host_meaning_of L.meaning I.decides) bytes.now self.old self.new) }
    {
        let Some(running) = &self.state else {
            return Err(HostFault::Stopped);
        };
        match judge(&self.hsm, running, self.log.room(), bytes) {
            Judgement::Fresh(payment) => self.accept(&payment, bytes),
            Judgement::Settled(answered) => Ok(answered),
        }
    }

    /// Keeps the number of a request against which there is no reason, and then replies to it.
    fn accept(&mut self, payment: &Payment, bytes: &[u8]) -> Result<Answered, HostFault>
        requires acceptable { IsToAccept
            (host_meaning_of L.meaning I.decides) self.old payment.now.request }
        requires request { IsRequest bytes.now payment.now.request }
        requires opened { AreTransactionKeys
            self.old.keys payment.now.request.ksn payment.now.transaction }
        ensures replied { IfOk result (λ answered. IsReplied
            (host_meaning_of L.meaning I.decides)
            bytes.now self.old self.new payment.now.request answered.frame.items) }
        ensures reported { IfOk result (λ answered. IsAcceptedVerdict answered.frame.items answered.says) }
        ensures refused { IfErr result (KeepRefused
            (host_meaning_of L.meaning I.decides) self.old self.new payment.now.request.ksn) }
    {
        self.keep(payment.request.ksn)?;
        let last = self.reply(payment, bytes);
        let answered = last.accepted();
        self.remember(last);
        Ok(answered)
    }

    /// A request that is accepted, and its reply.
    fn reply(&self, payment: &Payment, bytes: &[u8]) -> Exchange
        requires request { IsRequest bytes.now payment.now.request }
        requires opened { AreTransactionKeys
            self.now.keys payment.now.request.ksn payment.now.transaction }
        ensures request { result.request ≡ bytes.now }
        ensures reply { IsReplyTo
            self.now.keys (I.decides self.now.issuer) payment.now.request result.reply }
    {
        let ksn = payment.request.ksn;
        let code = code_for(payment, &self.issuer);
        Exchange::new(
            ksn,
            code,
            bytes,
            reply_with(&payment.transaction, ksn, code),
        )
    }

    /// Keeps an exchange in memory as the latest. This takes no memory.
    fn remember(&mut self, last: Exchange)
        requires { IsSome self.old.state }
        ensures { IsRemembered self.old self.new last }
    {
        let Some(Running { recent, .. }) = &mut self.state else {
            return;
        };
        recent.push(last);
    }

    /// Takes a number in as used, and appends it to the log. Where the log fails, the host is
    /// stopped.
    fn keep(&mut self, ksn: Ksn) -> Result<(), HostFault>
        requires fresh { IsFreshIn self.old.state ksn }
        requires usable { IsUsable ksn.counter }
        requires room { 0 < L.meaning.capacity self.old.log - L.meaning.count self.old.log }
        ensures kept { IfOk result
            (λ _. IsNumberAdded (host_meaning_of L.meaning I.decides) self.old self.new ksn) }
        ensures refused { IfErr result
            (KeepRefused (host_meaning_of L.meaning I.decides) self.old self.new ksn) }
    {
        let Some(Running { used, .. }) = &mut self.state else {
            return Err(HostFault::Stopped);
        };
        used.insert(ksn)?;
        if let Err(fault) = self.log.append(ksn) {
            stop(&mut self.state, &mut self.spare);
            return Err(HostFault::Store(fault));
        }
        Ok(())
    }

    /// Whether a key serial number is used; none is while the host is stopped.
    pub fn is_used(&self, ksn: Ksn) -> bool
        ensures { IsTrue result ↔ IsUsedIn self.now.state ksn }
    {
        match &self.state {
            Some(running) => running.used.contains(ksn),
            None => false,
        }
    }

    /// The security module.
    pub fn hsm(&self) -> &Hsm<N>
        ensures { result.now ≡ self.now.keys }
    {
        &self.hsm
    }

    /// Lets the next `steps` device steps of the log pass and each later one fail, until a restart.
    pub fn arm(&mut self, steps: u32)
        ensures armed { L.meaning.arms self.old.log steps self.new.log }
        ensures stays { StaysButCalm
            (L.meaning.state_of self.old.log) (L.meaning.state_of self.new.log) }
        ensures counted { L.meaning.count self.new.log ≡ L.meaning.count self.old.log }
        ensures capacity { L.meaning.capacity self.new.log ≡ L.meaning.capacity self.old.log }
        ensures ends { PreservesEnds self.old self.new }
        ensures state { self.new.state ≡ self.old.state }
    {
        self.log.arm(steps);
    }
}

/// Stops a host that is in this state, and keeps the room for its exchanges.
fn stop(state: &mut Option<Running>, spare: &mut Option<EmptyRing>)
    ensures { state.new ≡ None }
{
    if let Some(running) = state.take() {
        *spare = Some(EmptyRing::of(running.recent));
    }
}

/// The room that was kept, or else new room. No exchange is in it.
fn room_for_exchanges(alloc: Global, spare: &mut Option<EmptyRing>) -> Result<Recent, AllocError>
    ensures { IfOk result (λ recent. recent ≡ []) }
{
    match spare.take() {
        Some(ring) => Ok(ring.open()),
        None => Recent::new(alloc),
    }
}

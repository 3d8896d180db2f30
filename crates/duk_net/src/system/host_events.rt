//! The host's events.

ghost use Rattle.std.specs.Prelude.{◌≡◌, ◌≢◌, IfOk, OnErr};
ghost use Rattle.duk_net.specs.Arm.{ArmsHost};
ghost use Rattle.duk_net.specs.declared.outcome.Outcome.TheVariants as came;
ghost use Rattle.duk_net.specs.Restart.{IsHostLeft, RestartsHost};
ghost use Rattle.duk_net.specs.Up.{ReachesHost};
ghost use Rattle.duk_net.specs.World.{meanings_of};

use crate::event::End;
use crate::frames::outcome_of;
use crate::outcome::Outcome;
use crate::system::System;
use duk_host::{HostFault, Issuer};
use duk_stations::{place_of, push_within};
use duk_store::{Cell, UsedLog};
use std::alloc::AllocError;

/// What comes of a fault of the host, if it is another than out of memory.
fn outcome_of_fault(fault: HostFault) -> Result<Outcome, AllocError>
    ensures other { IfOk result
        (λ outcome. (outcome ≡ came.HostFaulted fault) × (fault ≢ HostFault.NoMemory)) }
    ensures memory { OnErr result (fault ≡ HostFault.NoMemory) }
{
    match fault {
        HostFault::NoMemory => Err(AllocError),
        fault => Ok(Outcome::HostFaulted(fault)),
    }
}

impl<const N: usize, C: Cell, L: UsedLog, I: Issuer> System<N, C, L, I> {
    /// Takes a request to the host, and its answer to the network.
    pub(crate) fn up(&mut self, k: u32) -> Result<Outcome, AllocError>
        ensures outcome { IfOk result (λ outcome. ReachesHost
            (meanings_of C.meaning L.meaning I.decides) self.old k outcome self.new) }
        ensures same { OnErr result (self.new ≡ self.old) }
    {
        let Some(sent) = place_of(k, self.requests.len()) else {
            return Ok(Outcome::NoSuchFrame);
        };
        self.answers.reserve(1)?;
        match self.host.answer(self.requests[sent].as_slice()) {
            Ok(answered) => {
                let outcome = outcome_of(self.answers.len() as u64 + 1, answered.says);
                push_within(&mut self.answers, answered.frame);
                Ok(outcome)
            }
            Err(fault) => outcome_of_fault(fault),
        }
    }

    /// Restarts the host.
    pub(crate) fn restart_host(&mut self) -> Result<Outcome, AllocError>
        ensures outcome { IfOk result (λ outcome. RestartsHost
            (meanings_of C.meaning L.meaning I.decides) self.old outcome self.new) }
        ensures left { OnErr result (IsHostLeft
            (meanings_of C.meaning L.meaning I.decides) self.old self.new) }
    {
        match self.host.restart() {
            Ok(used) => Ok(Outcome::HostUsed(used)),
            Err(fault) => outcome_of_fault(fault),
        }
    }

    /// Arms the host's log.
    pub(crate) fn arm_host(&mut self, n: u32) -> Outcome
        ensures { ArmsHost (meanings_of C.meaning L.meaning I.decides) self.old n result self.new }
    {
        self.host.arm(n);
        Outcome::Armed { end: End::Host, n }
    }
}

//! The terminals' events.

ghost use Rattle.std.specs.Prelude.{◌≡◌, IfOk, OnErr};
ghost use Rattle.duk_net.specs.Arm.{ArmsTerminal};
ghost use Rattle.duk_net.specs.Begin.{Begins};
ghost use Rattle.duk_net.specs.Down.{ReachesTerminal, TakesAnswer};
ghost use Rattle.duk_net.specs.Load.{Loads, TakesLoad};
ghost use Rattle.duk_net.specs.Restart.{RestartsTerminal, TakesRestart};
ghost use Rattle.duk_net.specs.World.{meanings_of};
ghost use Rattle.duk_term.specs.Load.{loading_of};

use crate::event::End;
use crate::frames::ksn_of_answer;
use crate::outcome::Outcome;
use crate::owner::record_owner;
use crate::system::System;
use duk_block::ZERO_PADDING;
use duk_frame::Frame;
use duk_host::Issuer;
use duk_stations::{is_elsewhere, place_of, push_within};
use duk_store::{Cell, UsedLog};
use duk_tdes::Key;
use duk_term::{Answer, Purchase, Terminal};
use duk_tree::Iksn;
use std::alloc::AllocError;

impl<const N: usize, C: Cell, L: UsedLog, I: Issuer> System<N, C, L, I> {
    /// Loads a terminal with the initial key that the host's security module issues.
    pub(crate) fn load(&mut self, t: u32, iksn: Iksn) -> Result<Outcome, AllocError>
        ensures outcome { IfOk result (λ outcome. Loads
            (meanings_of C.meaning L.meaning I.decides) self.old t iksn outcome self.new) }
        ensures same { OnErr result (self.new ≡ self.old) }
    {
        let Some(place) = place_of(t, self.terminals.len()) else {
            return Ok(Outcome::NoSuchTerminal);
        };
        if is_elsewhere(self.owners.as_slice(), iksn, t) {
            return Ok(Outcome::IksnElsewhere { t });
        }
        self.owners.reserve(1)?;
        duk_tdes::laws::tdes_key(&self.loading);
        let Ok(block) = self.host.hsm().issue(iksn, &self.loading, &ZERO_PADDING) else {
            return Ok(Outcome::NoKeySet { t });
        };
        let terminal = &mut self.terminals[place];
        let outcome = load(terminal, t, &self.loading, block.as_slice(), iksn);
        record_owner(&mut self.owners, &outcome, iksn, t);
        Ok(outcome)
    }

    /// Lets a terminal begin a transaction, and takes its request to the network.
    pub(crate) fn begin(&mut self, t: u32, purchase: &Purchase) -> Result<Outcome, AllocError>
        ensures outcome { IfOk result (λ outcome. Begins
            (meanings_of C.meaning L.meaning I.decides) self.old t purchase.now outcome self.new) }
        ensures same { OnErr result (self.new ≡ self.old) }
    {
        let Some(place) = place_of(t, self.terminals.len()) else {
            return Ok(Outcome::NoSuchTerminal);
        };
        self.requests.reserve(1)?;
        match self.terminals[place].begin_numbered(purchase) {
            Ok(begun) => {
                let k = self.requests.len() as u64 + 1;
                push_within(&mut self.requests, begun.frame);
                Ok(Outcome::Sent {
                    t,
                    k,
                    ksn: begun.ksn,
                })
            }
            Err(fault) => Ok(Outcome::TermFaulted { t, fault }),
        }
    }

    /// Takes an answer to a terminal.
    pub(crate) fn down(&mut self, k: u32, t: u32) -> Outcome
        ensures { ReachesTerminal self.old k t result self.new }
    {
        let Some(place) = place_of(t, self.terminals.len()) else {
            return Outcome::NoSuchTerminal;
        };
        let Some(sent) = place_of(k, self.answers.len()) else {
            return Outcome::NoSuchFrame;
        };
        reply(&mut self.terminals[place], t, &self.answers[sent])
    }

    /// Restarts a terminal.
    pub(crate) fn restart_terminal(&mut self, t: u32) -> Outcome
        ensures { RestartsTerminal
            (meanings_of C.meaning L.meaning I.decides) self.old t result self.new }
    {
        let Some(place) = place_of(t, self.terminals.len()) else {
            return Outcome::NoSuchTerminal;
        };
        restart(&mut self.terminals[place], t)
    }

    /// Arms a terminal's cell.
    pub(crate) fn arm_terminal(&mut self, t: u32, n: u32) -> Outcome
        ensures { ArmsTerminal
            (meanings_of C.meaning L.meaning I.decides) self.old t n result self.new }
    {
        let Some(place) = place_of(t, self.terminals.len()) else {
            return Outcome::NoSuchTerminal;
        };
        self.terminals[place].arm(n);
        Outcome::Armed {
            end: End::Term(t),
            n,
        }
    }
}

/// Loads terminal `t` with the initial key in a key block.
fn load<C: Cell>(
    terminal: &mut Terminal<C>,
    t: u32,
    loading: &Key<16>,
    block: &[u8],
    iksn: Iksn,
) -> Outcome
    ensures { TakesLoad
        C.meaning t (loading_of loading.now block.now iksn) result terminal.old terminal.new }
{
    match terminal.load(loading, block, iksn) {
        Ok(()) => Outcome::Loaded { t, iksn },
        Err(fault) => Outcome::TermFaulted { t, fault },
    }
}

/// Takes an answer to terminal `t`.
fn reply<C: Cell>(terminal: &mut Terminal<C>, t: u32, frame: &Frame) -> Outcome
    ensures { TakesAnswer t frame.now result terminal.old terminal.new }
{
    match terminal.reply(frame.as_slice()) {
        Ok(Answer::Done(code)) => Outcome::Done {
            t,
            ksn: ksn_of_answer(frame),
            code,
        },
        Ok(Answer::Refused(reason)) => Outcome::GotRefusal {
            t,
            ksn: ksn_of_answer(frame),
            reason,
        },
        Err(fault) => Outcome::TermFaulted { t, fault },
    }
}

/// Restarts terminal `t`.
fn restart<C: Cell>(terminal: &mut Terminal<C>, t: u32) -> Outcome
    ensures { TakesRestart C.meaning t result terminal.old terminal.new }
{
    match terminal.restart() {
        Ok(()) => Outcome::TermNext {
            t,
            next: terminal.next(),
        },
        Err(fault) => Outcome::TermFaulted { t, fault },
    }
}

//! A terminal over its cell.

ghost use Rattle.std.specs.Prelude.{◌≡◌, ℕ, IfOk, IfErr};
ghost use Rattle.duk_store.specs.StoreState.{StaysButCalm};
ghost use Rattle.duk_tdes.specs.Tdes.{IsTdesLength};
ghost use Rattle.duk_term.specs.Begin.{BeginRefused, IsBegun, IsBegunUnder};
ghost use Rattle.duk_regs.specs.Registers.{HaveSixteenBytes, IsRegisterSet};
ghost use Rattle.duk_term.specs.Body.{body_bytes};
ghost use Rattle.duk_store.specs.Cell.{IsPut};
ghost use Rattle.duk_term.specs.Load.{IsTerminalLoaded, LoadRefused, loading_of};
ghost use Rattle.duk_term.specs.Reply.{ReportsAnswer, ReplyRefused, after_answer};
ghost use Rattle.duk_term.specs.Reversal.{IsReversalBegun, ReportsReversal, ReversalRefused, ReversalReplyRefused, after_reversal, pending_number_of};
ghost use Rattle.duk_term.specs.Restart.{IsTerminalRestarted, TerminalRestartRefused};
ghost use Rattle.duk_term.specs.Terminal.{PromisesBody, next_of};
ghost use Rattle.duk_term.specs.inner.Terminal.{IsImageNotKept};
ghost use Rattle.duk_term.specs.declared.state.State.TheVariants as state;

use crate::answer::{Answer, Begun, Next, ReversalAnswer};
use crate::body::{body_of, registers_in};
use crate::fault::TermFault;
use crate::purchase::Purchase;
use crate::state::{Pending, State};
use duk_block::{KeyUse, unwrap_double_for};
use duk_frame::{Frame, payment_request};
use duk_regs::Registers;
use duk_reversal::reversal_under;
use duk_store::{Cell, StoreFault};
use duk_tdes::Key;
use duk_tree::{Iksn, Ksn, response_key};
use std::marker::Model;

/// A terminal: it keeps the image of its registers in a cell. It is made stopped.
#[derive(Drop)]
pub struct Terminal<C: Cell> {
    cell: C,
    state: State,
}

impl<C: Cell> Model for Terminal<C> {
    ghost use Rattle.duk_term.specs.Terminal.{TerminalOf};
    ghost use Rattle.duk_term.specs.inner.Terminal.{Agrees};

    ghost Value = { TerminalOf C };

    ghost use Rattle.duk_term.specs.View.{terminal_view};

    ghost view = { terminal_view };

    ghost invariant = { λ terminal. Agrees (C.meaning.state_of terminal.cell) terminal.state };
}

impl<C: Cell> Terminal<C> {
    /// A stopped terminal over this cell.
    pub fn new(cell: C) -> Self
        ensures { result ≡ record { cell = cell; state = state.Stopped } }
    {
        Terminal {
            cell,
            state: State::Stopped,
        }
    }

    /// The cell, as it stands.
    pub fn into_cell(self) -> C
        ensures { result ≡ self.cell }
    {
        self.cell
    }

    /// Brings cell and terminal up, with the registers whose image the cell keeps, if it keeps one.
    /// What was pending is given up.
    ///
    /// Refused with `Store`: of the cell's fault, or with `Damaged` where it keeps bytes that are
    /// no image with zeros after it. The terminal is stopped then.
    pub fn restart(&mut self) -> Result<(), TermFault>
        ensures restarted { IfOk result (λ _. IsTerminalRestarted C.meaning self.old self.new) }
        ensures refused { IfErr result (TerminalRestartRefused C.meaning self.old self.new) }
        ensures disarmed { C.meaning.disarmed self.new.cell }
    {
        self.state = State::Stopped;
        let kept = match self.cell.restart() {
            Ok(kept) => kept,
            Err(fault) => return Err(TermFault::Store(fault)),
        };
        self.state = match kept {
            None => State::Empty,
            Some(body) => State::Loaded {
                registers: registers_in(&body).ok_or(TermFault::Store(StoreFault::Damaged))?,
                pending: None,
            },
        };
        Ok(())
    }

    /// Which number comes next.
    pub fn next(&self) -> Next
        ensures { result ≡ next_of self.now.state }
    {
        self.state.next()
    }

    /// Loads the terminal with the initial key in a key block of version B under the loading key
    /// (`M` is 16 or 24), at the first number of `iksn`. The block is to have usage `B1`, algorithm
    /// `T`, mode `X` or `N`, and a key of 16 bytes. A terminal that is loaded already, with numbers
    /// left or spent, keeps the initial key serial number that it had among its past ones, and what
    /// was pending is given up.
    ///
    /// Refused with, in this order: `Stopped`; `IksnSpent`, where the terminal has `iksn` or had it
    /// before; `LoadsSpent`, where it had eight before its own; `Block`, where the text is no key
    /// block; `WrongUse`, where its key is for another use; `Store`, where the image could not be
    /// kept, and then the terminal is stopped. The others change nothing.
    pub fn load<const M: usize>(
        &mut self,
        loading: &Key<M>,
        block: &[u8],
        iksn: Iksn,
    ) -> Result<(), TermFault>
        requires { IsTdesLength M }
        ensures loaded { IfOk result (λ _.
            IsTerminalLoaded C.meaning (loading_of loading.now block.now iksn) self.old self.new) }
        ensures after_put { IfOk result (λ _. PromisesBody C.meaning self.new) }
        ensures refused { IfErr result
            (LoadRefused C.meaning (loading_of loading.now block.now iksn) self.old self.new) }
    {
        self.state.may_take(iksn)?;
        let initial = unwrap_double_for(KeyUse::InitialKey, loading, block)?;
        let registers = self.state.first_registers(initial, iksn)?;
        self.keep(registers, None)
    }

    /// Begins a transaction: takes the next number, keeps the image of the registers that are left,
    /// and only then hands out the request's frame. What was pending is given up, and this
    /// transaction is pending.
    ///
    /// Refused with, in this order: `Stopped`; `NotLoaded`; `Spent`; `Store`, where the image could
    /// not be kept, and then the terminal is stopped. The others change nothing.
    pub fn begin(&mut self, purchase: &Purchase) -> Result<Frame, TermFault>
        ensures begun { IfOk result
            (λ frame. IsBegun C.meaning purchase.now self.old self.new frame.items) }
        ensures after_put { IfOk result (λ _. PromisesBody C.meaning self.new) }
        ensures refused { IfErr result (BeginRefused C.meaning self.old self.new) }
    {
        Ok(self.begin_numbered(purchase)?.frame)
    }

    /// Begins a transaction as `begin` does, and answers its number beside the request's frame.
    pub fn begin_numbered(&mut self, purchase: &Purchase) -> Result<Begun, TermFault>
        ensures begun { IfOk result (λ begun. IsBegunUnder
            C.meaning purchase.now begun.ksn begun.frame.items self.old self.new) }
        ensures after_put { IfOk result (λ _. PromisesBody C.meaning self.new) }
        ensures refused { IfErr result (BeginRefused C.meaning self.old self.new) }
    {
        let (key, ksn, left) = self.state.take_number()?;
        let Purchase { pan, pin, amount } = purchase;
        let frame = payment_request(&key, ksn, pan, pin, *amount);
        let pending = Pending {
            ksn,
            response_key: response_key(&key),
        };
        self.keep(left, Some(pending))?;
        Ok(Begun { ksn, frame })
    }

    /// Keeps the image of these registers and goes on with them. Where the cell fails, the terminal
    /// is stopped.
    fn keep(&mut self, registers: Registers, pending: Option<Pending>) -> Result<(), TermFault>
        ensures kept { IfOk result
            (λ _. IsPut C.meaning self.old.cell self.new.cell (body_bytes registers)) }
        ensures state { IfOk result (λ _. self.new.state ≡ state.Loaded registers pending) }
        ensures after_put { IfOk result
            (λ _. C.meaning.after_put self.new.cell (body_bytes registers)) }
        ensures set { IsRegisterSet registers }
        ensures sixteen { HaveSixteenBytes registers.registers }
        ensures refused { IfErr result
            (IsImageNotKept C.meaning (body_bytes registers) self.old self.new) }
    {
        self.state = State::Stopped;
        if let Err(fault) = self.cell.put(&body_of(&registers)) {
            return Err(TermFault::Store(fault));
        }
        self.state = State::Loaded { registers, pending };
        Ok(())
    }

    /// Takes what came back: the accepted reply to the pending transaction ends it, and a refusal
    /// leaves it pending.
    ///
    /// Refused with, in this order, and nothing changes: `Stopped`; `Malformed`, where the bytes
    /// are no answer's frame; `NotPending`; `NotMine`, where the answer has another key serial
    /// number; `BadMac`, of a reply.
    pub fn reply(&mut self, bytes: &[u8]) -> Result<Answer, TermFault>
        ensures reported { IfOk result (ReportsAnswer self.old.state bytes.now) }
        ensures answered { IfOk result (λ answer. self.new
            ≡ record { cell = self.old.cell; state = after_answer self.old.state answer }) }
        ensures refused { IfErr result (ReplyRefused self.old.state bytes.now) }
        ensures same { IfErr result (λ _. self.new ≡ self.old) }
    {
        let answer = self.state.judge(bytes)?;
        if let Answer::Done(_) = answer {
            self.state.complete();
        }
        Ok(answer)
    }

    /// Begins the reversal of a number that the terminal used: takes the next number, keeps the image
    /// of the registers that are left, and only then hands out the reversal's frame. What was
    /// pending is given up, and the reversal is pending under the number taken.
    ///
    /// Refused with, in this order: `Stopped`; `NotLoaded`; `Spent`; `NotMine`, where the terminal
    /// did not use the number under its initial key serial number; `Store`, where the image could
    /// not be kept, and then the terminal is stopped. The others change nothing.
    pub fn begin_reversal(&mut self, reversed: Ksn) -> Result<Begun, TermFault>
        ensures begun { IfOk result (λ begun. IsReversalBegun
            C.meaning reversed begun.ksn begun.frame.items self.old self.new) }
        ensures after_put { IfOk result (λ _. PromisesBody C.meaning self.new) }
        ensures refused { IfErr result
            (ReversalRefused C.meaning reversed self.old self.new) }
    {
        let numbers = self.state.reversal_of(reversed)?;
        let (key, number, left) = self.state.take_number()?;
        let begun = Begun {
            ksn: number,
            frame: reversal_under(&key, numbers),
        };
        let reversal = Pending::of_number(number, &key);
        self.keep(left, Some(reversal))?;
        Ok(begun)
    }

    /// The number of the transaction or the reversal that is pending, if one is.
    pub fn pending_number(&self) -> Option<Ksn>
        ensures { result ≡ pending_number_of self.now.state }
    {
        self.state.pending_number()
    }

    /// Takes what came back to the reversal of this number: the reply to it ends the pending
    /// reversal, and a refusal leaves it pending.
    ///
    /// Refused with, in this order, and nothing changes: `Stopped`; `Malformed`, where the bytes
    /// are neither a reply to a reversal nor a refusal; `NotPending`; `NotMine`, where the answer
    /// has another key serial number, or the reply another reversed one; `BadMac`, of a reply.
    pub fn reversal_reply(
        &mut self,
        reversed: Ksn,
        bytes: &[u8],
    ) -> Result<ReversalAnswer, TermFault>
        ensures reported { IfOk result (ReportsReversal self.old.state reversed bytes.now) }
        ensures answered { IfOk result (λ answer. self.new
            ≡ record { cell = self.old.cell; state = after_reversal self.old.state answer }) }
        ensures refused { IfErr result (ReversalReplyRefused self.old.state reversed bytes.now) }
        ensures same { IfErr result (λ _. self.new ≡ self.old) }
    {
        let answer = self.state.judge_reversal(reversed, bytes)?;
        if let ReversalAnswer::Done(_) = answer {
            self.state.complete();
        }
        Ok(answer)
    }

    /// Lets the next `steps` device steps of the cell pass and each later one fail, until a
    /// restart.
    pub fn arm(&mut self, steps: u32)
        ensures armed { C.meaning.arms self.old.cell steps self.new.cell }
        ensures stays { StaysButCalm
            (C.meaning.state_of self.old.cell) (C.meaning.state_of self.new.cell) }
        ensures state { self.new.state ≡ self.old.state }
    {
        self.cell.arm(steps);
    }
}

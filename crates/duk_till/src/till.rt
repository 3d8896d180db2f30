//! A till over its two cells.

ghost use Rattle.std.specs.Prelude.{◌≡◌, ℕ, IfOk, IfErr, Option, Some};
ghost use Rattle.duk_store.specs.Cell.{IsPut};
ghost use Rattle.duk_store.specs.StoreState.{StaysButCalm};
ghost use Rattle.duk_tdes.specs.Tdes.{IsTdesLength};
ghost use Rattle.duk_term.specs.Load.{loading_of};
ghost use Rattle.duk_term.specs.Terminal.{PromisesBody, next_of};
ghost use Rattle.duk_term.specs.declared.state.State.TheVariants as term_state;
ghost use Rattle.duk_till.specs.Begin.{IsTillBegun, TillBeginRefused};
ghost use Rattle.duk_till.specs.Image.{last_bytes};
ghost use Rattle.duk_till.specs.Load.{IsTillLoaded, TillLoadRefused};
ghost use Rattle.duk_till.specs.Reply.{TellsOutcome, TillReplyRefused};
ghost use Rattle.duk_till.specs.Restart.{IsTillRestarted, TillRestartRefused};
ghost use Rattle.duk_till.specs.Reversal.{IsTillReversing, TellsReversal, TillReversalReplyRefused, TillReverseRefused};
ghost use Rattle.duk_till.specs.Till.{KeepsLast, PromisesLast, SameBook};
ghost use Rattle.duk_till.specs.declared.last.Last.{Last as LastValue};
ghost use Rattle.duk_till.specs.declared.state.TillState.TheVariants as state;
ghost use Rattle.duk_till.specs.inner.Till.{IsNotKept};

use crate::checks::{check_spare, check_waits};
use crate::fault::TillFault;
use crate::image::{body_of, last_of};
use crate::last::Last;
use crate::state::TillState;
use duk_store::Cell;
use duk_tdes::Key;
use duk_term::{Answer, Begun, Next, Purchase, ReversalAnswer, Terminal};
use duk_tree::Iksn;
use std::marker::Model;

/// A terminal over its cell, and a second cell, the book, which keeps the state of the last
/// purchase. It is made stopped.
#[derive(Drop)]
pub struct Till<C: Cell, J: Cell> {
    terminal: Terminal<C>,
    book: J,
    state: TillState,
}

impl<C: Cell, J: Cell> Model for Till<C, J> {
    ghost use Rattle.duk_till.specs.Till.{TillOf};
    ghost use Rattle.duk_till.specs.inner.Till.{Agrees};

    ghost Value = { TillOf C J };

    ghost use Rattle.duk_till.specs.View.{till_view};

    ghost view = { till_view };

    ghost invariant = { λ till. Agrees (J.meaning.state_of till.book) till.state };
}

impl<C: Cell, J: Cell> Till<C, J> {
    /// A stopped till over these cells: that of its terminal, and the book.
    pub fn new(cell: C, book: J) -> Self
        ensures terminal { result.terminal ≡ record { cell = cell; state = term_state.Stopped } }
        ensures book { result.book ≡ book }
        ensures state { result.state ≡ state.Stopped }
    {
        Till {
            terminal: Terminal::new(cell),
            book,
            state: TillState::Stopped,
        }
    }

    /// The two cells, as they stand.
    pub fn into_cells(self) -> (C, J)
        ensures cell { result.0 ≡ self.terminal.cell }
        ensures book { result.1 ≡ self.book }
    {
        (self.terminal.into_cell(), self.book)
    }

    /// Which number comes next.
    pub fn next(&self) -> Next
        ensures { result ≡ next_of self.now.terminal.state }
    {
        self.terminal.next()
    }

    /// What the till knows of its book.
    pub fn state(&self) -> TillState
        ensures { result ≡ self.now.state }
    {
        self.state
    }

    /// While the till runs, a restart of an honest book would find the last purchase alone: its
    /// state, number, amount and code, whatever keys the terminal has. This says so, and does
    /// nothing.
    pub fn book_keeps(&self)
        ensures { (last : Option LastValue) → self.now.state ≡ state.Running last
            → KeepsLast (J.meaning.state_of self.now.book) last }
    {
        let _state = &self.state;
    }

    /// Brings the terminal up, and then the book, and tells the last purchase that it keeps. An open
    /// one stays open, whatever number comes next: whether its request went out, the till cannot
    /// know.
    ///
    /// The restart of a cell disarms it. That of the terminal's is always made, and that of the book
    /// where the terminal comes up; nothing is put into either.
    ///
    /// Refused with, in this order: `Terminal`, where the terminal's restart fails; `Store`, where
    /// the book's does, or keeps bytes that are no last purchase (`Damaged`). The till is stopped
    /// then.
    pub fn restart(&mut self) -> Result<TillState, TillFault>
        ensures restarted { IfOk result
            (λ _. IsTillRestarted C.meaning J.meaning self.old self.new) }
        ensures told { IfOk result (λ told. told ≡ self.new.state) }
        ensures refused { IfErr result
            (TillRestartRefused C.meaning J.meaning self.old self.new) }
        ensures disarmed { C.meaning.disarmed self.new.terminal.cell }
    {
        self.state = TillState::Stopped;
        self.terminal.restart()?;
        let kept = match self.book.restart() {
            Ok(kept) => kept,
            Err(fault) => return Err(TillFault::Store(fault)),
        };
        self.state = TillState::Running(last_of(&kept)?);
        Ok(self.state)
    }

    /// Loads the terminal, as its own `load` does. The book stays.
    ///
    /// Refused with, in this order: `Stopped`; `Open`; `Terminal`, as the terminal's `load` is.
    pub fn load<const M: usize>(
        &mut self,
        loading: &Key<M>,
        block: &[u8],
        iksn: Iksn,
    ) -> Result<(), TillFault>
        requires { IsTdesLength M }
        ensures loaded { IfOk result (λ _. IsTillLoaded
            C.meaning (loading_of loading.now block.now iksn) self.old self.new) }
        ensures after_put { IfOk result (λ _. PromisesBody C.meaning self.new.terminal) }
        ensures refused { IfErr result
            (TillLoadRefused C.meaning (loading_of loading.now block.now iksn) self.old self.new) }
    {
        self.state.at_rest()?;
        self.terminal.load(loading, block, iksn)?;
        Ok(())
    }

    /// Begins a purchase: the terminal takes the next number and keeps its image, then the book
    /// keeps the purchase as open, and only then the request is handed out.
    ///
    /// Refused with, in this order: `Stopped`; `Open`; `Terminal` with `Spent`, where the next
    /// number is one of the last two of a life, which are kept for reversals; `Terminal`, as the
    /// terminal's `begin` is; `Store`, where the book failed, and then the till is stopped, and the
    /// number is lost.
    pub fn begin(&mut self, purchase: &Purchase) -> Result<Begun, TillFault>
        ensures begun { IfOk result (λ begun. IsTillBegun C.meaning J.meaning purchase.now
            begun.ksn begun.frame.items self.old self.new) }
        ensures after_put { IfOk result (λ _. PromisesBody C.meaning self.new.terminal) }
        ensures promises { IfOk result (λ _. PromisesLast J.meaning self.new) }
        ensures refused { IfErr result
            (TillBeginRefused C.meaning J.meaning purchase.now self.old self.new) }
    {
        self.state.at_rest()?;
        check_spare(&self.terminal)?;
        let begun = self.terminal.begin_numbered(purchase)?;
        self.keep(Last::Open {
            ksn: begun.ksn,
            amount: purchase.amount,
        })?;
        Ok(begun)
    }

    /// Takes what came back to the open purchase. The outcome in the host's reply is kept by the
    /// book, and only then told; a refusal is told, and the purchase stays open.
    ///
    /// Refused with, in this order: `Stopped`; `NothingOpen`; `Terminal` with `NotPending`, where
    /// the terminal waits for the reply to a reversal; `Terminal`, as the terminal's `reply` is;
    /// `Store`, where the book failed, and then the till is stopped. The others change nothing.
    pub fn reply(&mut self, bytes: &[u8]) -> Result<Answer, TillFault>
        ensures told { IfOk result (TellsOutcome J.meaning bytes.now self.old self.new) }
        ensures refused { IfErr result
            (TillReplyRefused J.meaning bytes.now self.old self.new) }
    {
        let (ksn, amount) = self.state.open_purchase()?;
        check_waits(&self.terminal, ksn)?;
        match self.terminal.reply(bytes)? {
            Answer::Done(code) => {
                self.keep(Last::of_code(ksn, amount, code))?;
                Ok(Answer::Done(code))
            }
            Answer::Refused(reason) => Ok(Answer::Refused(reason)),
        }
    }

    /// Begins the reversal of the open purchase, under a number of its own, as the terminal's
    /// `begin_reversal` does. The purchase stays open. A reversal that was lost is begun again.
    ///
    /// Refused with, in this order: `Stopped`; `NothingOpen`; `Terminal`, as the terminal's
    /// `begin_reversal` is.
    pub fn reverse(&mut self) -> Result<Begun, TillFault>
        ensures begun { IfOk result (λ begun. IsTillReversing
            C.meaning begun.ksn begun.frame.items self.old self.new) }
        ensures after_put { IfOk result (λ _. PromisesBody C.meaning self.new.terminal) }
        ensures refused { IfErr result (TillReverseRefused C.meaning self.old self.new) }
    {
        let (ksn, _) = self.state.open_purchase()?;
        Ok(self.terminal.begin_reversal(ksn)?)
    }

    /// Takes what came back to the reversal of the open purchase. The book keeps the purchase as
    /// undone, and only then what the host found is told; a refusal is told, and the purchase stays
    /// open.
    ///
    /// Refused with, in this order: `Stopped`; `NothingOpen`; `Terminal`, as the terminal's
    /// `reversal_reply` is; `Store`, where the book failed, and then the till is stopped. The
    /// others change nothing.
    pub fn reversal_reply(&mut self, bytes: &[u8]) -> Result<ReversalAnswer, TillFault>
        ensures told { IfOk result (TellsReversal J.meaning bytes.now self.old self.new) }
        ensures refused { IfErr result
            (TillReversalReplyRefused J.meaning bytes.now self.old self.new) }
    {
        let (ksn, _) = self.state.open_purchase()?;
        match self.terminal.reversal_reply(ksn, bytes)? {
            ReversalAnswer::Done(found) => {
                self.keep(Last::Undone { ksn })?;
                Ok(ReversalAnswer::Done(found))
            }
            ReversalAnswer::Refused(reason) => Ok(ReversalAnswer::Refused(reason)),
        }
    }

    /// Has the book keep this last purchase. Where it fails, the till is stopped.
    fn keep(&mut self, last: Last) -> Result<(), TillFault>
        ensures kept { IfOk result
            (λ _. IsPut J.meaning self.old.book self.new.book (last_bytes last)) }
        ensures state { IfOk result (λ _. self.new.state ≡ state.Running (Some last)) }
        ensures after_put { IfOk result (λ _. J.meaning.after_put self.new.book (last_bytes last)) }
        ensures refused { IfErr result (IsNotKept J.meaning last self.old self.new) }
        ensures terminal { self.new.terminal ≡ self.old.terminal }
    {
        self.state = TillState::Stopped;
        if let Err(fault) = self.book.put(&body_of(&last)) {
            return Err(TillFault::Store(fault));
        }
        self.state = TillState::Running(Some(last));
        Ok(())
    }

    /// Lets the next `steps` device steps of the terminal's cell pass and each later one fail,
    /// until a restart.
    pub fn arm_terminal(&mut self, steps: u32)
        ensures armed { C.meaning.arms self.old.terminal.cell steps self.new.terminal.cell }
        ensures stays { StaysButCalm (C.meaning.state_of self.old.terminal.cell)
            (C.meaning.state_of self.new.terminal.cell) }
        ensures terminal { self.new.terminal.state ≡ self.old.terminal.state }
        ensures same_book { SameBook self.old self.new }
    {
        self.terminal.arm(steps);
    }

    /// Lets the next `steps` device steps of the book pass and each later one fail, until a
    /// restart.
    pub fn arm_book(&mut self, steps: u32)
        ensures armed { J.meaning.arms self.old.book steps self.new.book }
        ensures stays { StaysButCalm
            (J.meaning.state_of self.old.book) (J.meaning.state_of self.new.book) }
        ensures terminal { self.new.terminal ≡ self.old.terminal }
        ensures state { self.new.state ≡ self.old.state }
    {
        self.book.arm(steps);
    }
}

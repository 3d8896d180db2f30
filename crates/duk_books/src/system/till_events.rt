//! The tills' events.

ghost use Rattle.std.specs.Prelude.{◌≡◌, IfOk, OnErr};
ghost use Rattle.duk_books.specs.Arm.{ArmsTill, ArmsTerminalCell, ArmsTillBook};
ghost use Rattle.duk_books.specs.Begin.{Begins};
ghost use Rattle.duk_books.specs.Books.{meanings_of};
ghost use Rattle.duk_books.specs.Down.{ReachesTill};
ghost use Rattle.duk_books.specs.Load.{Loads, TakesLoad};
ghost use Rattle.duk_books.specs.Restart.{RestartsTill, TakesRestart};
ghost use Rattle.duk_books.specs.Reverse.{Reverses};
ghost use Rattle.duk_books.specs.declared.event.End.TheVariants as end;
ghost use Rattle.duk_term.specs.Load.{loading_of};

use crate::answers::take_answer;
use crate::event::End;
use crate::frames::reversed_by;
use crate::outcome::Outcome;
use crate::owner::record_owner;
use crate::sales::enter_approved;
use crate::system::System;
use duk_block::ZERO_PADDING;
use duk_host::Issuer;
use duk_journal::Journal;
use duk_stations::{is_elsewhere, place_of, push_within};
use duk_store::Cell;
use duk_tdes::Key;
use duk_term::Purchase;
use duk_till::Till;
use duk_tree::Iksn;
use std::alloc::AllocError;

impl<const N: usize, C: Cell, B: Cell, J: Journal, I: Issuer> System<N, C, B, J, I> {
    /// Loads a till with the initial key that the host's security module issues.
    pub(crate) fn load(&mut self, t: u32, iksn: Iksn) -> Result<Outcome, AllocError>
        ensures outcome { IfOk result (λ outcome. Loads
            (meanings_of C.meaning B.meaning J.meaning I.decides)
            self.old t iksn outcome self.new) }
        ensures same { OnErr result (self.new ≡ self.old) }
    {
        let Some(place) = place_of(t, self.tills.len()) else {
            return Ok(Outcome::NoSuchTill);
        };
        if is_elsewhere(self.owners.as_slice(), iksn, t) {
            return Ok(Outcome::IksnElsewhere { t });
        }
        self.owners.reserve(1)?;
        duk_tdes::laws::tdes_key(&self.loading);
        let Ok(block) = self.host.hsm().issue(iksn, &self.loading, &ZERO_PADDING) else {
            return Ok(Outcome::NoKeySet { t });
        };
        let till = &mut self.tills[place];
        let outcome = load(till, t, &self.loading, block.as_slice(), iksn);
        record_owner(&mut self.owners, &outcome, iksn, t);
        Ok(outcome)
    }

    /// Lets a till begin a purchase, and takes its request to the network.
    pub(crate) fn begin(&mut self, t: u32, purchase: &Purchase) -> Result<Outcome, AllocError>
        ensures outcome { IfOk result (λ outcome. Begins
            (meanings_of C.meaning B.meaning J.meaning I.decides)
            self.old t purchase.now outcome self.new) }
        ensures same { OnErr result (self.new ≡ self.old) }
    {
        let Some(place) = place_of(t, self.tills.len()) else {
            return Ok(Outcome::NoSuchTill);
        };
        self.requests.reserve(1)?;
        match self.tills[place].begin(purchase) {
            Ok(begun) => {
                let k = self.requests.len() as u64 + 1;
                push_within(&mut self.requests, begun.frame);
                Ok(Outcome::Sent {
                    t,
                    k,
                    ksn: begun.ksn,
                })
            }
            Err(fault) => Ok(Outcome::TillFaulted { t, fault }),
        }
    }

    /// Lets a till reverse its open purchase, and takes the reversal to the network.
    pub(crate) fn reverse(&mut self, t: u32) -> Result<Outcome, AllocError>
        ensures outcome { IfOk result (λ outcome. Reverses
            (meanings_of C.meaning B.meaning J.meaning I.decides) self.old t outcome self.new) }
        ensures same { OnErr result (self.new ≡ self.old) }
    {
        let Some(place) = place_of(t, self.tills.len()) else {
            return Ok(Outcome::NoSuchTill);
        };
        self.requests.reserve(1)?;
        duk_term::laws::reversals::<C>();
        match self.tills[place].reverse() {
            Ok(begun) => {
                let k = self.requests.len() as u64 + 1;
                let reversed = reversed_by(&begun.frame);
                push_within(&mut self.requests, begun.frame);
                Ok(Outcome::Reversing {
                    t,
                    k,
                    ksn: begun.ksn,
                    reversed,
                })
            }
            Err(fault) => Ok(Outcome::TillFaulted { t, fault }),
        }
    }

    /// Takes an answer to a till, and what this then has as approved into the merchants' book.
    pub(crate) fn down(&mut self, k: u32, t: u32) -> Result<Outcome, AllocError>
        ensures outcome { IfOk result (λ outcome. ReachesTill
            (meanings_of C.meaning B.meaning J.meaning I.decides) self.old k t outcome self.new) }
        ensures same { OnErr result (self.new ≡ self.old) }
    {
        let Some(place) = place_of(t, self.tills.len()) else {
            return Ok(Outcome::NoSuchTill);
        };
        let Some(sent) = place_of(k, self.answers.len()) else {
            return Ok(Outcome::NoSuchFrame);
        };
        self.sales.reserve(1)?;
        let till = &mut self.tills[place];
        let outcome = take_answer(till, t, &self.answers[sent]);
        let state = till.state();
        enter_approved(&mut self.sales, t, &state);
        Ok(outcome)
    }

    /// Restarts a till, and takes what it then has as approved into the merchants' book.
    pub(crate) fn restart_till(&mut self, t: u32) -> Result<Outcome, AllocError>
        ensures outcome { IfOk result (λ outcome. RestartsTill
            (meanings_of C.meaning B.meaning J.meaning I.decides) self.old t outcome self.new) }
        ensures same { OnErr result (self.new ≡ self.old) }
    {
        let Some(place) = place_of(t, self.tills.len()) else {
            return Ok(Outcome::NoSuchTill);
        };
        self.sales.reserve(1)?;
        let till = &mut self.tills[place];
        let outcome = restart(till, t);
        let state = till.state();
        enter_approved(&mut self.sales, t, &state);
        Ok(outcome)
    }

    /// Arms the cell of a till's terminal.
    pub(crate) fn arm_terminal(&mut self, t: u32, n: u32) -> Outcome
        ensures { ArmsTill (end.Terminal t) t
            (ArmsTerminalCell (meanings_of C.meaning B.meaning J.meaning I.decides) n)
            self.old n result self.new }
    {
        let Some(place) = place_of(t, self.tills.len()) else {
            return Outcome::NoSuchTill;
        };
        self.tills[place].arm_terminal(n);
        Outcome::Armed {
            end: End::Terminal(t),
            n,
        }
    }

    /// Arms the book of a till.
    pub(crate) fn arm_book(&mut self, t: u32, n: u32) -> Outcome
        ensures { ArmsTill (end.Book t) t
            (ArmsTillBook (meanings_of C.meaning B.meaning J.meaning I.decides) n)
            self.old n result self.new }
    {
        let Some(place) = place_of(t, self.tills.len()) else {
            return Outcome::NoSuchTill;
        };
        self.tills[place].arm_book(n);
        Outcome::Armed {
            end: End::Book(t),
            n,
        }
    }
}

/// Loads till `t` with the initial key in a key block.
fn load<C: Cell, B: Cell>(
    till: &mut Till<C, B>,
    t: u32,
    loading: &Key<16>,
    block: &[u8],
    iksn: Iksn,
) -> Outcome
    ensures { TakesLoad C.meaning B.meaning t (loading_of loading.now block.now iksn) result
        till.old till.new }
{
    match till.load(loading, block, iksn) {
        Ok(()) => Outcome::Loaded { t, iksn },
        Err(fault) => Outcome::TillFaulted { t, fault },
    }
}

/// Restarts till `t`.
fn restart<C: Cell, B: Cell>(till: &mut Till<C, B>, t: u32) -> Outcome
    ensures { TakesRestart C.meaning B.meaning t result till.old till.new }
{
    match till.restart() {
        Ok(state) => Outcome::TillNext {
            t,
            next: till.next(),
            state,
        },
        Err(fault) => Outcome::TillFaulted { t, fault },
    }
}

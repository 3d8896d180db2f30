//! The merchants' book: the payments that the tills have as approved.

ghost use Rattle.std.specs.Prelude.{◌<◌, ◌↔◌, IsTrue, Contains};
ghost use Rattle.std.specs.Vec.{vec_capacity, vec_len};
ghost use Rattle.duk_till.specs.Till.{approved_in};
ghost use Rattle.duk_books.specs.Sales.{EntersSale, TakesSale};

use duk_stations::push_within;
use duk_till::{Payment, TillState};

/// A payment that a till has as approved.
#[derive(Clone, Copy, Debug, PartialEq, Eq)]
pub struct Sale {
    /// The till, counted from 1.
    pub t: u32,
    /// The payment: its number and its amount.
    pub payment: Payment,
}

/// Enters what till `t` has as approved into the book, unless that stands there already.
pub(crate) fn enter_approved(sales: &mut Vec<Sale>, t: u32, state: &TillState)
    requires { vec_len sales.old < vec_capacity sales.old }
    ensures { TakesSale sales.old.items t (approved_in state.now) sales.new.items }
{
    match state.approved() {
        Some(payment) => enter(sales, Sale { t, payment }),
        None => {}
    }
}

/// Enters a sale into the book, unless it stands there already.
fn enter(sales: &mut Vec<Sale>, sale: Sale)
    requires { vec_len sales.old < vec_capacity sales.old }
    ensures { EntersSale sales.old.items sale sales.new.items }
{
    if !sales.iter().any(|entered| *entered == sale) {
        push_within(sales, sale);
    }
}

//! Laws of scripts, each the contract of a function that does nothing.

ghost use Rattle.std.specs.Prelude.{List};
ghost use Rattle.duk_books.specs.Agree.{BooksAgree};
ghost use Rattle.duk_books.specs.Books.{BooksOf, meanings_of};
ghost use Rattle.duk_books.specs.declared.event.Event.{Event};
ghost use Rattle.duk_books.specs.declared.outcome.Outcome.{Outcome};
ghost use Rattle.duk_play.specs.Play.{LeadsTo};

use duk_host::Issuer;
use duk_journal::Journal;
use duk_store::Cell;

/// Wherever the events of a script lead, the merchants' book and that of the host agree.
pub fn books_agree<C: Cell, B: Cell, J: Journal, I: Issuer>()
    ensures { let m = meanings_of C.meaning B.meaning J.meaning I.decides in
        (first last : BooksOf C B J I) (events : List Event) (outcomes : List Outcome)
        → LeadsTo m first events outcomes last → BooksAgree m last }
{
    duk_books::laws::agreement::<C, B, J, I>();
}

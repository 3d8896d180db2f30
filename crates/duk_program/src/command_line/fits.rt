//! Whether arguments exclude each other, of which `clap` knows nothing.

ghost use Rattle.std.specs.Prelude.{◌≡◌};
ghost use Rattle.duk_program.specs.Fits.{fits_by};

use crate::command_line::{CommandName, Request};
use crate::commands;

/// Whether the arguments of a request go together.
pub(crate) fn fits(request: &Request<'_>) -> bool
    ensures { result ≡ fits_by request.now.command request.now }
{
    match request.command() {
        CommandName::Serve => commands::serve::fits(request),
        CommandName::Request => commands::request::fits(request),
        CommandName::Find => commands::find::fits(request),
        CommandName::Show => commands::show::fits(request),
        CommandName::Lmk => commands::lmk::fits(request),
        _ => true,
    }
}

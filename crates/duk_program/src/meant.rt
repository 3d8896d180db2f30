//! What a request means: the texts that its references stand for in their places.

ghost use Rattle.std.specs.Prelude.{◌≡◌, IfErr, IfOk, false, length, map, string_bytes, List, ℕ};
ghost use Rattle.duk_program.specs.CommandLine.{row_of};
ghost use Rattle.duk_arguments.specs.Request.{texts_in};
ghost use Rattle.duk_program.specs.References.{may_refer};
ghost use Rattle.duk_program.specs.Secrets.{EachMeans, HasMeaning, secrets_in};
ghost use Rattle.duk_program.specs.declared.secrets.SecretFault.TheVariants.{NoMemory};
ghost use Rattle.duk_service.specs.Files.{FileKnown};

use crate::command_line::{Request, with_references};
use crate::secrets::SecretFault;
use std::alloc::Global;

/// A request with these texts in place of those that may be references. Memory may be refused.
pub(crate) fn meant_by<'a>(
    alloc: Global,
    request: &Request<'a>,
    texts: &'a [String],
) -> Result<Request<'a>, SecretFault>
    requires { length texts.now ≡ length (secrets_in request.now) }
    ensures command { IfOk result (λ meant. meant.command ≡ request.now.command) }
    ensures plain { IfOk result (λ meant. (argument : List ℕ)
        → may_refer argument (row_of request.now.command) ≡ false
        → texts_in argument meant ≡ texts_in argument request.now) }
    ensures meaning { IfOk result (λ meant. (held : List ℕ → FileKnown)
        → EachMeans held (secrets_in request.now) (map string_bytes texts.now)
        → HasMeaning held request.now meant) }
    ensures refused { IfErr result (λ why. why ≡ NoMemory) }
{
    match with_references(alloc, request, texts) {
        Ok(meant) => Ok(meant),
        Err(_) => Err(SecretFault::NoMemory),
    }
}

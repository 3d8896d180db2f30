//! The texts of a request that may be references.

ghost use Rattle.std.specs.Prelude.{◌≡◌, ◌<◌, IfOk, false, length, map, string_bytes};
ghost use Rattle.clap.specs.Words.{Text};
ghost use Rattle.duk_arguments.specs.Request.{flag_in, pair_of, texts_in};
ghost use Rattle.duk_program.specs.CommandLine.{row_of};
ghost use Rattle.duk_program.specs.References.{may_refer, references_in, without_references};

use crate::command_line::{Entry, Request, may_refer};
use std::alloc::{AllocError, Global};

/// The entries whose texts may be references.
pub(crate) fn references<'a>(
    alloc: Global,
    request: &Request<'a>,
) -> Result<Vec<Entry<'a>>, AllocError>
    ensures { IfOk result (λ entries. map pair_of entries.items ≡ references_in request.now) }
{
    let mut references = Vec::new(alloc);
    for entry in request.entries() {
        if may_refer(request.command(), entry.name) {
            references.push(*entry)?;
        }
    }
    Ok(references)
}

/// The same request with these texts in the place of those that may be references, in order.
pub(crate) fn with_references<'a>(
    alloc: Global,
    request: &Request<'a>,
    texts: &'a [String],
) -> Result<Request<'a>, AllocError>
    requires { length texts.now ≡ length (references_in request.now) }
    ensures command { IfOk result (λ made. made.command ≡ request.now.command) }
    ensures texts { IfOk result (λ made. map (λ entry. entry.1) (references_in made)
        ≡ map string_bytes texts.now) }
    ensures rest { IfOk result (λ made. without_references made
        ≡ without_references request.now) }
    ensures others { IfOk result (λ made. (name : Text)
        → may_refer name (row_of request.now.command) ≡ false
        → texts_in name made ≡ texts_in name request.now) }
    ensures there { IfOk result (λ made. (name : Text)
        → flag_in name made ≡ flag_in name request.now) }
{
    let mut entries = Vec::new(alloc);
    let mut next = 0;
    for entry in request.entries() {
        if may_refer(request.command(), entry.name) {
            entries.push(Entry {
                name: entry.name,
                text: texts[next].as_str(),
            })?;
            next += 1;
        } else {
            entries.push(*entry)?;
        }
    }
    Ok(Request::new(request.command(), entries))
}

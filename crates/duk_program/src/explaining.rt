//! Explains a fault by its value: a line that says what was found of an argument or a file, and
//! what is wanted in its place.
//!
//! What it tells (`Seen`) has no room for the text of an argument, but for the number that COUNT is.
//! The path beside it (`Path`) is that of a file which the request names, or the text of an argument
//! under which a file is found, and no text that may be a key. Both are told as they stand on the
//! command line: nothing is told of what a reference holds but its length, and where it is wrong.

ghost use Rattle.duk_program.specs.Own.{MayUseOwn};

mod arguments;
mod asked;
mod faults;
mod files;
mod line;
mod paths;
mod places;
mod records;
mod roots;
mod seen;
mod shown;
mod texts;

use crate::command_line::Request;
use crate::fault::Fault;
use crate::items::ItemFault;
use asked::found_in_files;
use duk_commands::Lines;
use duk_service::{FileSystem, LogFiles};
use faults::{of_command, of_fault, of_show};
use line::line_of;
use paths::{told_path, word_of};
pub(crate) use roots::equal_roots;
use std::alloc::Global;
use texts::About;

/// The line that explains why a request is not done, LF at its end: the request as it was written,
/// and as it was read. Files are asked once more.
pub(crate) fn explanation<S: FileSystem + LogFiles>(
    alloc: Global,
    files: &S,
    written: &Request<'_>,
    about: &Request<'_>,
    why: &Fault,
) -> Lines
    requires { MayUseOwn (S.may_write files.now) (S.may_make files.now) about.now }
{
    let mut seen = of_fault(
        About {
            request: about,
            item: None,
        },
        why,
    );
    if let Some(found) = found_in_files(alloc, files, about, why, &seen) {
        seen.found = found;
    }
    if word_of(written, &seen).is_none() {
        seen = seen.without_count();
    }
    line_of(&seen, told_path(files, written, &seen))
}

/// The line that explains why an item, which stands in the place of the argument with this name, is
/// refused. No file is asked.
pub(crate) fn item_explanation(
    about: &Request<'_>,
    name: &'static str,
    item: &str,
    why: &ItemFault,
) -> Lines {
    let about = About {
        request: about,
        item: Some((name, item)),
    };
    let seen = match why {
        ItemFault::Command(why) => of_command(about, *why),
        ItemFault::Show(why) => of_show(about, *why),
    };
    line_of(&seen, None)
}

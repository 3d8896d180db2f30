//! The options that the program takes before its commands know of them, `--json` and `--progress`,
//! and what is asked of a command with them.

use crate::progress::Counting;
use duk_program::{NoRequest, Request, Shape, read_request, reads_items, shape_of, take_option};
use std::alloc::{AllocError, Global};

/// Which of the options are given.
#[derive(Clone, Copy)]
pub(crate) struct Views {
    /// Whether what a command writes is written as objects.
    pub(crate) json: bool,
    /// Whether it is told how much is done.
    pub(crate) progress: bool,
}

/// What is asked of a command, as far as the arguments tell it: one that is a reference is not read.
#[derive(Clone, Copy)]
pub(crate) struct Asked {
    /// How its lines make answers.
    pub(crate) shape: Shape,
    /// Whether faults are explained.
    pub(crate) explain: bool,
    /// What is counted of it.
    pub(crate) counting: Counting,
}

/// Takes the options out of the arguments. A service and a script have no answers: there they stay, and
/// are refused as options that are not known.
pub(crate) fn take_views(arguments: &mut Vec<String>) -> Views {
    let has_answers = match command_word(arguments.as_slice()) {
        Some("run" | "serve") => false,
        _ => true,
    };
    Views {
        json: has_answers && take_option(arguments, "--json"),
        progress: has_answers && take_option(arguments, "--progress"),
    }
}

/// What is asked of a command. Where no option is given, nobody wants to know.
pub(crate) fn asked_with(
    alloc: Global,
    views: Views,
    arguments: &Vec<String>,
) -> Result<Asked, AllocError> {
    let nothing = Asked {
        shape: Shape::Text,
        explain: false,
        counting: Counting::Nothing,
    };
    if !views.json && !views.progress {
        return Ok(nothing);
    }
    let mut own = arguments.clone()?;
    let explain = take_option(&mut own, "--explain");
    match read_request(alloc, own.as_slice()) {
        Ok(request) => Ok(asked_by(&request, views, explain)),
        Err(NoRequest::NoMemory) => Err(AllocError),
        Err(_) => Ok(nothing),
    }
}

/// What a request asks.
fn asked_by(request: &Request<'_>, views: Views, explain: bool) -> Asked {
    Asked {
        shape: if views.json {
            shape_of(request)
        } else {
            Shape::Text
        },
        explain,
        counting: if views.progress {
            counting_of(request)
        } else {
            Counting::Nothing
        },
    }
}

/// What is counted of the command of a request: it follows from the arguments that it has.
fn counting_of(request: &Request<'_>) -> Counting {
    if let Some(count) = request.value("COUNT") {
        return Counting::lines_of(count);
    }
    if request.flag("RECORDS") || request.flag("NEW") {
        return Counting::Records;
    }
    if is_of_records(request.text("KIND")) {
        return Counting::LinesWritten(None);
    }
    if reads_items(request) {
        Counting::LinesRead
    } else {
        Counting::Nothing
    }
}

/// Whether `show` prints the records of a file of this kind.
fn is_of_records(kind: &str) -> bool {
    kind == "log" || kind == "journal" || kind == "ledger"
}

/// The word of the command: the first that is no option.
fn command_word(arguments: &[String]) -> Option<&str> {
    let (_, words) = arguments.split_first()?;
    for word in words {
        if !word.starts_with('-') {
            return Some(word.as_str());
        }
    }
    None
}

//! How the lines of a command make answers.

use crate::command_line::{Request, usage_of};
use crate::commands::show::shape_of_kind;

/// How the lines of a command make answers, and what their members are.
#[derive(Clone, Copy)]
pub enum Shape {
    /// They make none: the bytes are written as they are.
    Text,
    /// All lines are one answer, and each begins with its name.
    Whole,
    /// There is one line, and this is the name that it lacks.
    Bare(&'static str),
    /// Each line is an answer, of a number and its key.
    Numbers,
    /// Each line is an answer, of a number that is issued.
    Issued,
    /// There is an answer for each item: lines that begin with these names, or the line of a fault.
    Items(&'static [&'static str]),
}

/// The shape of what a command prints.
#[derive(Clone, Copy)]
pub(crate) enum Answers {
    /// This one.
    Are(Shape),
    /// With the option of this name the first, and else the second.
    ByOption(&'static str, Shape, Shape),
    /// That of the kind which KIND names.
    OfKind,
}

/// The shape of what a request prints. Whether its items are those of the input is not told by the
/// request where an argument is a reference, so of a command that may have items each is one.
pub fn shape_of(request: &Request<'_>) -> Shape {
    match usage_of(request.command()).answers {
        Answers::Are(shape) => shape,
        Answers::ByOption(option, with, _) if request.flag(option) => with,
        Answers::ByOption(_, _, without) => without,
        Answers::OfKind => shape_of_kind(request.text("KIND")),
    }
}

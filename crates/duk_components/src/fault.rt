//! Why components are refused, or what is made of them, and the line of each fault.

ghost use Rattle.std.specs.Prelude.{◌≡◌, length};
ghost use Rattle.duk_components.specs.Fault.{component_fault_line, numbered};

use duk_commands::{Fault, Lines, push_end, push_text};

/// Why components are refused, or what is made of them. It has nothing of a component or a key.
#[derive(Clone, Copy, Debug, PartialEq, Eq)]
pub enum ComponentFault {
    /// There are fewer than two, or more than nine.
    Number,
    /// That at this place, from 1: its line is none, its check value that of other digits, or its
    /// length not that of those before it.
    Component(usize),
    /// The key that they make is weak.
    Weak,
    /// Of a new component: there is not one text, it is not 32 or 48 hexadecimal digits, or the key
    /// that they write is weak.
    Random,
    /// Of the key block; or memory was refused.
    Wrap(Fault),
}

impl ComponentFault {
    /// The line that reports the fault, LF at its end.
    pub fn line(self) -> Lines
        ensures { result.items ≡ component_fault_line self }
    {
        let mut line = Lines::new();
        match self {
            ComponentFault::Number => push_text(&mut line, b"components refused"),
            ComponentFault::Component(place) => {
                push_text(&mut line, &numbered(place));
                push_text(&mut line, b" refused");
            }
            ComponentFault::Weak => push_text(&mut line, b"LMK weak"),
            ComponentFault::Random => push_text(&mut line, b"random refused"),
            ComponentFault::Wrap(why) => push_text(&mut line, why.text().as_bytes()),
        }
        push_end(&mut line);
        line
    }
}

/// What a component is called by its place, of which the last digit is told.
pub(crate) fn numbered(place: usize) -> [u8; 11]
    ensures { result ≡ numbered place }
{
    let mut name = *b"component 0";
    name[10] += (place % 10) as u8;
    name
}

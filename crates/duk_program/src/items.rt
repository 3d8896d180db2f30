//! Commands of which one argument is each line of the input.

ghost use Rattle.std.specs.Prelude.{◌≡◌, [], Bool, IfErr, IfOk, MatchOption, None, OnOk, Some, false, is_some};
ghost use Rattle.duk_program.specs.Items.{AreOthersReady, AreOthersRefused, asks_for_keys, command_of_line, is_input, items_of, pin_items, shown_items};
ghost use Rattle.duk_program.specs.declared.items.ItemFault.TheVariants.{Command, Show};
ghost use Rattle.duk_program.specs.inner.Items.{IsAsItem, item_line, items_in};

use crate::command_line::{CommandName, Request};
use crate::explaining::item_explanation;
use duk_commands::{
    DeriveItems, Items, Kept, Lines, Refused, pans_ready, pin_lines, pins_ready, unwrap_lines,
    unwrap_ready, values_lines,
};
use duk_show::{ShowFault, block_lines, frame_lines, image_lines};
use std::alloc::Global;

/// Why an item is refused.
#[derive(Clone, Copy, Debug, PartialEq, Eq)]
pub(crate) enum ItemFault {
    /// Of a command over keys and PINs.
    Command(duk_commands::Fault),
    /// Of `show`.
    Show(ShowFault),
}

impl ItemFault {
    /// The line of the fault.
    fn line(self) -> Lines
        ensures { result.items ≡ item_line self }
    {
        match self {
            ItemFault::Command(why) => why.line(),
            ItemFault::Show(why) => why.line(),
        }
    }
}

/// A command of which one argument is each line of the input.
#[derive(Clone, Copy)]
pub(crate) enum LineCommand<'a> {
    /// `derive` of key serial numbers.
    Derive(DeriveItems<'a>),
    /// `kcv` of keys.
    Kcv,
    /// `pin` of PINs.
    Pins {
        /// The PAN.
        pan: &'a str,
        /// The key under which each block is enciphered.
        key: Option<&'a str>,
    },
    /// `pin` of PANs.
    Pans {
        /// The PIN.
        pin: &'a str,
        /// The key under which each block is enciphered.
        key: Option<&'a str>,
    },
    /// `unwrap` of key blocks.
    Unwrap {
        /// The key block protection key.
        kbpk: &'a str,
    },
    /// `show frame`.
    Frames,
    /// `show block`.
    Blocks,
    /// `show image`.
    Images {
        /// Whether keys are shown.
        show: bool,
    },
}

impl LineCommand<'_> {
    /// The name of the argument that each line is.
    fn item(&self) -> &'static str {
        match self {
            LineCommand::Derive(_) => "KSN",
            LineCommand::Kcv => "KEY",
            LineCommand::Pins { .. } => "PIN",
            LineCommand::Pans { .. } => "PAN",
            LineCommand::Unwrap { .. } => "BLOCK",
            LineCommand::Frames | LineCommand::Blocks | LineCommand::Images { .. } => "WHAT",
        }
    }

    /// Whether the arguments beside the item can be used, before there is any. Refused with the first
    /// fault of theirs, which each item would have.
    pub(crate) fn ready(&self) -> Result<(), duk_commands::Fault>
        ensures ready { OnOk result (AreOthersReady (items_in self.now)) }
        ensures refused { IfErr result (AreOthersRefused (items_in self.now)) }
    {
        match *self {
            LineCommand::Derive(items) => items.ready(),
            LineCommand::Pins { pan, key } => pins_ready(pan, key),
            LineCommand::Pans { pin, key } => pans_ready(pin, key),
            LineCommand::Unwrap { kbpk } => unwrap_ready(kbpk),
            LineCommand::Kcv
            | LineCommand::Frames
            | LineCommand::Blocks
            | LineCommand::Images { .. } => Ok(()),
        }
    }

    /// The lines of an item, or why it is refused, as of the command with this item alone.
    fn lines(
        &self,
        alloc: Global,
        item: &str,
        ahead: &[u8],
        kept: &mut Kept,
    ) -> Result<Lines, ItemFault>
        ensures lines { (explained : Bool) → IfOk result (λ lines.
            (command_of_line explained (items_in self.now) item.now).writes lines.items) }
        ensures refused { (explained : Bool) → IfErr result (λ why.
            (command_of_line explained (items_in self.now) item.now).refuses (item_line why)) }
    {
        match *self {
            LineCommand::Derive(items) => of_command(items.lines(item, ahead, kept)),
            LineCommand::Kcv => of_command(values_lines(&[item], false, false)),
            LineCommand::Pins { pan, key } => of_command(pin_lines(item, pan, key)),
            LineCommand::Pans { pin, key } => of_command(pin_lines(pin, item, key)),
            LineCommand::Unwrap { kbpk } => of_command(unwrap_lines(kbpk, item)),
            LineCommand::Frames => of_show(frame_lines(alloc, item)),
            LineCommand::Blocks => of_show(block_lines(item)),
            LineCommand::Images { show } => of_show(image_lines(alloc, item, show)),
        }
    }
}

/// The lines of an item, or its fault, of a command over keys and PINs.
fn of_command(made: Result<Lines, duk_commands::Fault>) -> Result<Lines, ItemFault>
    ensures { IsAsItem Command made result }
{
    match made {
        Ok(lines) => Ok(lines),
        Err(why) => Err(ItemFault::Command(why)),
    }
}

/// The same of what is shown.
fn of_show(made: Result<Lines, ShowFault>) -> Result<Lines, ItemFault>
    ensures { IsAsItem Show made result }
{
    match made {
        Ok(lines) => Ok(lines),
        Err(why) => Err(ItemFault::Show(why)),
    }
}

/// A request of which one argument is each line of the input.
#[derive(Clone, Copy)]
pub(crate) struct LineItems<'a> {
    /// The request, with `-` in the place of an item.
    pub(crate) request: &'a Request<'a>,
    /// Its command over an item.
    pub(crate) command: LineCommand<'a>,
    /// Whether the fault of an item is explained.
    pub(crate) explain: bool,
}

impl Items for LineItems<'_> {
    ghost command = { λ it. command_of_line it.explain (items_in it.command) };

    fn lines(
        &self,
        alloc: Global,
        item: &str,
        ahead: &[u8],
        kept: &mut Kept,
    ) -> Result<Lines, Refused> {
        match self.command.lines(alloc, item, ahead, kept) {
            Ok(lines) => Ok(lines),
            Err(why) => Err(self.refused(item, why)),
        }
    }
}

impl LineItems<'_> {
    /// What stands in the place of an item that is refused.
    fn refused(&self, item: &str, why: ItemFault) -> Refused
        ensures line { result.line.items ≡ item_line why }
        ensures explanation { self.now.explain ≡ false → result.explanation.items ≡ [] }
    {
        if !self.explain {
            return Refused::unexplained(why.line());
        }
        Refused {
            line: why.line(),
            explanation: item_explanation(self.request, self.command.item(), item, &why),
        }
    }
}

/// Whether an argument of a request is each line of the input, as `-` says.
pub fn reads_items(request: &Request<'_>) -> bool
    ensures { result ≡ is_some (items_of request.now) }
{
    line_command(request).is_some()
}

/// The command of a request of which one argument is each line of the input, as `-` says.
pub(crate) fn line_command<'a>(request: &Request<'a>) -> Option<LineCommand<'a>>
    ensures { MatchOption result (items_of request.now ≡ None)
        (λ command. items_of request.now ≡ Some (items_in command)) }
{
    match request.command() {
        CommandName::Derive if is_input(request.text("KSN")) => {
            Some(LineCommand::Derive(DeriveItems {
                bdk: request.text("BDK"),
                initial: request.flag("initial"),
                trace: request.flag("trace"),
                all: request.flag("all"),
            }))
        }
        CommandName::Kcv if asks_for_keys(request) => Some(LineCommand::Kcv),
        CommandName::Pin => pin_items(request),
        CommandName::Unwrap if is_input(request.text("BLOCK")) => Some(LineCommand::Unwrap {
            kbpk: request.text("KBPK"),
        }),
        CommandName::Show if is_input(request.text("WHAT")) && !request.flag("key") => {
            shown_items(request.text("KIND"), request.flag("show"))
        }
        _ => None,
    }
}

/// The command of `pin` over the PINs of the input, or else over its PANs.
fn pin_items<'a>(request: &Request<'a>) -> Option<LineCommand<'a>>
    ensures { MatchOption result (pin_items request.now ≡ None)
        (λ command. pin_items request.now ≡ Some (items_in command)) }
{
    let (pin, pan) = (request.text("PIN"), request.text("PAN"));
    let key = request.value("key");
    if is_input(pin) {
        return Some(LineCommand::Pins { pan, key });
    }
    if is_input(pan) {
        return Some(LineCommand::Pans { pin, key });
    }
    None
}

/// The command of `show` over the texts of the input. None: of another kind there is none.
fn shown_items(kind: &str, show: bool) -> Option<LineCommand<'static>>
    ensures { MatchOption result (shown_items kind.now show ≡ None)
        (λ command. shown_items kind.now show ≡ Some (items_in command)) }
{
    if kind == "frame" {
        return Some(LineCommand::Frames);
    }
    if kind == "block" {
        return Some(LineCommand::Blocks);
    }
    if kind == "image" {
        return Some(LineCommand::Images { show });
    }
    None
}

/// Whether `kcv` is over the keys of the input: it has one text alone, which stands for them, and no
/// option.
fn asks_for_keys(request: &Request<'_>) -> bool
    ensures { result ≡ asks_for_keys request.now }
{
    request.count("KEY") == 1
        && is_input(request.text("KEY"))
        && !(request.flag("components") || request.flag("show"))
}

/// Whether a text stands for the lines of the input.
fn is_input(text: &str) -> bool
    ensures { result ≡ is_input text.now }
{
    text == "-"
}

//! The player of scripts for the page: what `dukpt run` does, as a call over slices. Built for
//! WebAssembly, it is the page's second module.
#![tactic(auto)]

ghost use Rattle.duk_calls.specs.Answer.{buffer};
ghost use Rattle.dukpt_player.specs.Run.{Reports, RunAnswers};

mod ending;
mod run;

use std::alloc::Global;

/// Plays a script under a configuration: over terminals and a host with a log, or with `journal` over
/// tills and a host with a journal. Writes the lines of the outcomes, or why there are none, in the
/// front of `text`, and how many bytes they are.
///
/// Gives 0 where the script is played to its end, and else, in this order: 1 where the bytes are no
/// configuration; 2 where a line of the script is no event, and its number, counted from 1. In the
/// place of any of these comes 3 where memory was refused, and 4 where the text does not fit in
/// `text`. Behind 3 and 4 nothing is written but `line`, which is zero behind all but 2. A script
/// may have any length, where the program takes 1,048,576 bytes.
///
/// A slice is a pointer and then a length. No slice overlaps another.
#[unsafe(no_mangle)]
pub extern "C" fn dukpt_run(
    alloc: Global,
    config: &[u8],
    script: &[u8],
    journal: bool,
    text: &mut [u8],
    length: &mut u64,
    line: &mut u64,
) -> u32
    ensures { Reports result line.new (RunAnswers journal config.now script.now
        (buffer text.old length.old) (buffer text.new length.new)) }
{
    let ending = run::run(alloc, config, script, journal, text, length);
    *line = ending.line();
    ending.number()
}

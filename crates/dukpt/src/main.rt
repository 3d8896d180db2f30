//! The program `dukpt`: one command a run, over the arguments that it is started with.
#![tactic(auto)]

mod arguments;
mod as_json;
mod handles;
mod patient;
mod progress;
mod views;

use arguments::{process_arguments, refuse_arguments, refuse_memory};
use as_json::{Answers, Faults};
use duk_program::run_program;
use handles::hold_handle;
use patient::Patient;
use progress::{Counted, Telling, Watched};
use std::alloc::AllocError;
use std::process::ExitCode;
use views::{asked_with, take_views};

fn main(rt: HostRuntime) -> ExitCode {
    // As many as there are standard streams; those that no stream needs do no harm.
    let _first = hold_handle(&rt);
    let _second = hold_handle(&rt);
    let _third = hold_handle(&rt);
    let input = Patient { stream: rt.stdin() };
    let output = Patient {
        stream: rt.stdout(),
    };
    let mut fault = Patient {
        stream: rt.stderr(),
    };
    let mut arguments = match process_arguments(&rt) {
        Ok(arguments) => arguments,
        Err(error) => return ExitCode::from(refuse_arguments(&error, &mut fault)),
    };
    let views = take_views(&mut arguments);
    let mut faults = Faults::new(rt.alloc(), views.json, fault);
    let status = match asked_with(rt.alloc(), views, &arguments) {
        Ok(asked) => {
            let telling = Telling::new(rt.alloc(), views.json, rt.stderr());
            let counting = asked.counting;
            let files = Watched::over(&rt, counting, telling);
            let mut input = Counted::over(input, counting.lines_read(), telling.errors());
            let answers = Answers::new(rt.alloc(), asked.shape, asked.explain, output);
            let mut output = Counted::over(answers, counting.lines_written(), telling.errors());
            run_program(
                rt.alloc(),
                &files,
                &mut arguments,
                &mut input,
                &mut output,
                &mut faults,
            )
        }
        Err(AllocError) => refuse_memory(&mut faults),
    };
    faults.finish(status);
    ExitCode::from(status)
}

//! A script of tills: what is read in it, what it writes, and the longest line of an outcome.

use duk_books::{End, Event, Outcome};
use duk_config::{ScriptFault, read_config};
use duk_play::{outcome_line, parse_script, play_script};
use duk_reversal::ReversalState;
use duk_store::StoreFault;
use duk_tests_support::files::BANK;
use duk_tests_support::sample::ksn;
use duk_till::TillFault;
use std::alloc::Global;

/// A payment whose reply is lost, its reversal, and a stop of the till's book.
const SCRIPT: &str = "# A reply is lost.
load t1 FFFF9876543210E00000
begin t1 4012345678909 1234 500
up 1
reverse t1
arm t1 book 0
up 2
down 2 t1
restart t1
";

const LINES: &str = "t1 loaded FFFF9876543210E00000
t1 sent 1 FFFF9876543210E00001
answer 1 accepted FFFF9876543210E00001 00
t1 reversing 2 FFFF9876543210E00002 of FFFF9876543210E00001
t1 book armed 0
answer 2 undone FFFF9876543210E00002 of FFFF9876543210E00001 01
t1 fault Store Device
t1 next FFFF9876543210E00003 open FFFF9876543210E00001
";

/// How many events a script has, and whether the fourth and the fifth are those of tills alone.
fn read(alloc: Global) -> Option<(usize, bool)> {
    let events = parse_script(alloc, SCRIPT.as_bytes()).ok()?;
    let of_tills = matches!(events.get(3), Some(Event::Reverse { t: 1 }))
        && matches!(
            events.get(4),
            Some(Event::Arm {
                end: End::Book(1),
                n: 0
            })
        );
    Some((events.len(), of_tills))
}

/// Whether a script writes these lines.
fn writes(alloc: Global, script: &str, lines: &str) -> Result<bool, ScriptFault> {
    let config = read_config(alloc, BANK.as_bytes())?;
    let mut written = Vec::new(alloc);
    play_script(alloc, &config, script.as_bytes(), &mut written)?;
    Ok(written.as_slice() == lines.as_bytes())
}

#[test]
fn a_script_of_tills(rt: HostRuntime) {
    assert_eq!(rt; read(rt.alloc()), Some((8, true)));
    assert_eq!(rt; writes(rt.alloc(), SCRIPT, LINES), Ok(true));
    assert_eq!(rt;
        writes(rt.alloc(), "up 1\nreverse t17\n", ""),
        Err(ScriptFault::NotAnEvent(2))
    );
}

/// Whether the line of an outcome is this one.
fn is_line(outcome: Outcome, line: &str) -> bool {
    outcome_line(outcome).as_slice() == line.as_bytes()
}

#[test]
fn lines_of_tills(rt: HostRuntime) {
    let reversing = Outcome::Reversing {
        t: u32::MAX,
        k: u64::MAX,
        ksn: ksn(2),
        reversed: ksn(1),
    };
    assert!(rt;
        is_line(
            reversing,
            "t4294967295 reversing 18446744073709551615 FFFF9876543210E00002 of FFFF9876543210E00001\n"
        )
    );
    let answer = Outcome::Reversed {
        k: u64::MAX,
        ksn: ksn(2),
        reversed: ksn(1),
        state: ReversalState::NoneStands,
    };
    assert!(rt;
        is_line(
            answer,
            "answer 18446744073709551615 undone FFFF9876543210E00002 of FFFF9876543210E00001 00\n"
        )
    );
    let fault = TillFault::Store(StoreFault::Damaged);
    assert!(rt;
        is_line(
            Outcome::TillFaulted { t: 1, fault },
            "t1 fault Store Damaged\n"
        )
    );
}

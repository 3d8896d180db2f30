//! Worlds in which each event happens in a call of its own.

ghost use Rattle.std.specs.Prelude.{◌≡◌, ◌∷◌, [], IfSome};
ghost use Rattle.duk_net.specs.InMemory.{new_terminal};

use duk_config::{new_host, read_config};
use duk_host::TableIssuer;
use duk_net::{Outcome, World, run};
use duk_script::{outcome_line, parse_script};
use duk_store::{MemCell, MemLog};
use duk_tdes::KeyBytes;
use duk_term::Terminal;
use duk_tests_support::files::BANK;
use duk_tests_support::sample::{LOADING, key};
use std::alloc::Global;

type SmallWorld = World<16, MemCell, MemLog, TableIssuer>;

/// A terminal over a new cell in memory.
fn terminals(alloc: Global) -> Option<Vec<Terminal<MemCell>>>
    ensures { IfSome result (λ terminals. terminals.items ≡ new_terminal ∷ []) }
{
    let mut terminals = Vec::new(alloc);
    terminals.push(Terminal::new(MemCell::new())).ok()?;
    Some(terminals)
}

/// A host of the configuration, and a terminal, over new stores in memory.
fn world(alloc: Global) -> Option<SmallWorld> {
    let config = read_config(alloc, BANK.as_bytes()).ok()?;
    let KeyBytes::Double(lmk) = &config.lmk else {
        return None;
    };
    let log = MemLog::new(alloc, 100).ok()?;
    let host = new_host(alloc, lmk, &config, log).ok()?;
    Some(World::new(alloc, host, key(LOADING), terminals(alloc)?))
}

/// What comes of the events of a script, each of which happens in a call of its own.
fn outcomes_of(alloc: Global, script: &str) -> Option<Vec<Outcome>> {
    let mut world = world(alloc)?;
    let mut outcomes = Vec::new(alloc);
    for line in script.lines() {
        let events = parse_script(alloc, line.as_bytes()).ok()?;
        run(&mut world, events.as_slice(), &mut outcomes).ok()?;
    }
    Some(outcomes)
}

/// The lines of these outcomes.
fn lines_of(alloc: Global, outcomes: &[Outcome]) -> Option<Vec<u8>> {
    let mut lines = Vec::new(alloc);
    for outcome in outcomes {
        lines
            .extend_from_slice(outcome_line(*outcome).as_slice())
            .ok()?;
    }
    Some(lines)
}

/// Whether a script writes these lines.
fn writes(alloc: Global, script: &str, lines: &str) -> Option<bool> {
    let outcomes = outcomes_of(alloc, script)?;
    Some(lines_of(alloc, outcomes.as_slice())?.as_slice() == lines.as_bytes())
}

/// Requests that come in another order than they were sent.
const ANY_ORDER: (&str, &str) = (
    "restart host
restart t1
load t1 FFFF9876543210E00000
begin t1 4012345678909 1234 1
begin t1 4012345678909 1234 1
begin t1 4012345678909 1234 1
up 3
up 1
up 2
down 2 t1
down 1 t1
restart host
up 1
",
    "host used 0
t1 empty
t1 loaded FFFF9876543210E00000
t1 sent 1 FFFF9876543210E00001
t1 sent 2 FFFF9876543210E00002
t1 sent 3 FFFF9876543210E00003
answer 1 accepted FFFF9876543210E00003 00
answer 2 accepted FFFF9876543210E00001 00
answer 3 accepted FFFF9876543210E00002 00
t1 fault NotMine
t1 done FFFF9876543210E00003 00
host used 3
answer 4 refused FFFF9876543210E00001 5
",
);

/// A terminal whose store stops.
const STOPS_OF_A_TERMINAL: (&str, &str) = (
    "restart host
restart t1
load t1 FFFF9876543210E00000
begin t1 4012345678909 1234 1
arm t1 0
begin t1 4012345678909 1234 1
begin t1 4012345678909 1234 1
restart t1
begin t1 4012345678909 1234 1
arm t1 1
begin t1 4012345678909 1234 1
restart t1
begin t1 4012345678909 1234 1
",
    "host used 0
t1 empty
t1 loaded FFFF9876543210E00000
t1 sent 1 FFFF9876543210E00001
t1 armed 0
t1 fault Store Device
t1 fault Stopped
t1 next FFFF9876543210E00002
t1 sent 2 FFFF9876543210E00002
t1 armed 1
t1 fault Store Device
t1 next FFFF9876543210E00004
t1 sent 3 FFFF9876543210E00004
",
);

/// A host whose store stops.
const STOPS_OF_THE_HOST: (&str, &str) = (
    "restart host
restart t1
load t1 FFFF9876543210E00000
begin t1 4012345678909 1234 1
begin t1 4012345678909 1234 1
arm host 0
up 1
up 1
restart host
up 1
arm host 1
up 2
restart host
up 2
",
    "host used 0
t1 empty
t1 loaded FFFF9876543210E00000
t1 sent 1 FFFF9876543210E00001
t1 sent 2 FFFF9876543210E00002
host armed 0
host fault Store Device
host fault Stopped
host used 0
answer 1 accepted FFFF9876543210E00001 00
host armed 1
host fault Store Device
host used 2
answer 2 refused FFFF9876543210E00002 5
",
);

#[test]
fn lines(rt: HostRuntime) {
    for (script, lines) in [ANY_ORDER, STOPS_OF_A_TERMINAL, STOPS_OF_THE_HOST] {
        assert_eq!(rt; writes(rt.alloc(), script, lines), Some(true));
    }
}

//! Worlds over disks in memory of which device steps fail: no two requests have one number, and no
//! number is accepted twice.

ghost use Rattle.std.specs.Prelude.{◌≡◌, [], ℕ, List, ◌↔◌, IfOk, length, replicate};
ghost use Rattle.duk_host.specs.Table.{table_decision};
ghost use Rattle.duk_net.specs.First.{IsNewTerminal, IsUnused};
ghost use Rattle.duk_net.specs.World.{meanings_of};
ghost use Rattle.duk_store.specs.DiskLog.{disk_log_meaning};
ghost use Rattle.duk_store.specs.MemoryDisk.{CouldLeave, IsHonestDisk, memory_disk_meaning};
ghost use Rattle.duk_store.specs.SlotCell.{slot_cell_meaning};

use crate::hosts::issuer;
use crate::security_module::security_module;
use duk_frame::read_request;
use duk_host::{Host, HostFault, TableIssuer};
use duk_net::{End, Event, Outcome, World, run};
use duk_pin::Pin;
use duk_store::{CELL_DISK_SIZE, DiskLog, Filling, MemDisk, SlotCell, StoreFault};
use duk_term::{Next, Purchase, TermFault, Terminal};
use duk_tests_support::sample::{LOADING, PIN, iksn, key, pan};
use duk_tree::Ksn;
use std::alloc::Global;

type DiskCell = SlotCell<MemDisk>;

type DiskWorld = World<16, DiskCell, DiskLog<MemDisk>, TableIssuer>;

/// A world, and what came of each of its events.
#[derive(Drop)]
struct Played {
    world: DiskWorld,
    outcomes: Vec<Outcome>,
}

/// A new disk of so many bytes, which leaves this at a restart, and of which this device step
/// fails.
fn failing_disk(
    alloc: Global,
    size: usize,
    filling: Filling,
    step: u32,
) -> Result<MemDisk, StoreFault>
    ensures honest { IfOk result (λ disk. IsHonestDisk disk) }
    ensures size { IfOk result (λ disk. length disk.reads ≡ size) }
    ensures zeros { IfOk result (λ disk. (bytes : List ℕ)
        → CouldLeave disk bytes ↔ (bytes ≡ replicate size 0)) }
{
    let mut disk = MemDisk::new(alloc, size)?;
    disk.filling(filling);
    disk.fail_once(step);
    Ok(disk)
}

/// A terminal over a new disk of which this device step fails.
fn new_terminal(
    alloc: Global,
    filling: Filling,
    step: u32,
) -> Result<Terminal<DiskCell>, StoreFault>
    ensures { IfOk result (IsNewTerminal (meanings_of
        (slot_cell_meaning memory_disk_meaning)
        (disk_log_meaning memory_disk_meaning) table_decision)) }
{
    let disk = failing_disk(alloc, CELL_DISK_SIZE as usize, filling, step)?;
    Ok(Terminal::new(SlotCell::new(disk)))
}

/// A log over a new disk for eight numbers, of which this device step fails.
fn new_log(alloc: Global, filling: Filling, step: u32) -> Result<DiskLog<MemDisk>, StoreFault>
    ensures { IfOk result (λ log.
        IsUnused ((disk_log_meaning memory_disk_meaning).state_of log) []) }
{
    let disk = failing_disk(alloc, 128, filling, step)?;
    Ok(DiskLog::new(disk))
}

/// A world of these new ends.
fn world_of(alloc: Global, log: DiskLog<MemDisk>, terminal: Terminal<DiskCell>) -> Option<DiskWorld>
    requires log { IsUnused ((disk_log_meaning memory_disk_meaning).state_of log) [] }
    requires terminal { IsNewTerminal (meanings_of
        (slot_cell_meaning memory_disk_meaning)
        (disk_log_meaning memory_disk_meaning) table_decision) terminal }
{
    let hsm = security_module().ok()?;
    if !hsm.has_zone() {
        return None;
    }
    let host = Host::new(alloc, hsm, issuer(alloc)?, log);
    let mut terminals = Vec::new(alloc);
    terminals.push(terminal).ok()?;
    Some(World::new(alloc, host, key(LOADING), terminals))
}

/// Which device step of the host's disk fails, and which of the terminal's, and the number of steps
/// with which each store is armed before each begin and each request.
#[derive(Clone, Copy)]
struct Trouble {
    of_host: u32,
    of_terminal: u32,
    armed: u32,
}

/// More device steps than a run makes.
const NEVER: u32 = 1000;

/// A host and a terminal over new disks that leave this at a restart.
fn new_world(alloc: Global, filling: Filling, trouble: Trouble) -> Option<Played> {
    let log = new_log(alloc, filling, trouble.of_host).ok()?;
    let terminal = new_terminal(alloc, filling, trouble.of_terminal).ok()?;
    Some(Played {
        world: world_of(alloc, log, terminal)?,
        outcomes: Vec::new(alloc),
    })
}

/// The end whose store failed in an event, if one did.
fn failed_end(outcome: &Outcome) -> Option<End> {
    match outcome {
        Outcome::TermFaulted {
            t,
            fault: TermFault::Store(_),
        } => Some(End::Term(*t)),
        Outcome::HostFaulted(HostFault::Store(_)) => Some(End::Host),
        _ => None,
    }
}

/// Lets an event happen, and reports whether a store failed in it.
fn fails(played: &mut Played, event: Event) -> Option<bool> {
    run(&mut played.world, &[event], &mut played.outcomes).ok()?;
    Some(failed_end(played.outcomes.last()?).is_some())
}

/// The end whose store failed last.
fn last_failed(played: &Played) -> Option<End> {
    failed_end(played.outcomes.last()?)
}

/// Restarts an end until this succeeds.
fn restart(played: &mut Played, end: End) -> Option<()> {
    let event = match end {
        End::Host => Event::RestartHost,
        End::Term(t) => Event::RestartTerm { t },
    };
    for _ in 0..3 {
        if !fails(played, event)? {
            return Some(());
        }
    }
    None
}

/// The number of the last of these frames.
fn last_of<T>(frames: &[T]) -> u32 {
    u32::try_from(frames.len()).unwrap_or(0)
}

/// Lets all requests reach the host once more. It is restarted where its store fails.
fn deliver_all(played: &mut Played) -> Option<()> {
    for k in 1..=last_of(played.world.requests()) {
        if fails(played, Event::Up { k })? {
            restart(played, End::Host)?;
            if fails(played, Event::Up { k })? {
                return None;
            }
        }
    }
    Some(())
}

/// The terminal is loaded.
fn load() -> Event {
    Event::Load { t: 1, iksn: iksn() }
}

/// It begins to pay 1.
fn begin() -> Option<Event> {
    let purchase = Purchase {
        pan: pan().ok()?,
        pin: Pin::parse(PIN).ok()?,
        amount: 1,
    };
    Some(Event::Begin { t: 1, purchase })
}

/// Whether the terminal was brought up and is not loaded.
fn is_empty(played: &Played) -> bool {
    match played.world.terminals().first() {
        Some(terminal) => terminal.next() == Next::Empty,
        None => false,
    }
}

/// Goes on after the store of an end failed in an event.
fn go_on(played: &mut Played, end: End, event: Event) -> Option<()> {
    restart(played, end)?;
    if is_empty(played) && fails(played, load())? {
        return None;
    }
    let is_begin = matches!(event, Event::Begin { .. });
    if is_begin && fails(played, event)? {
        return None;
    }
    deliver_all(played)
}

/// Lets an event happen, and goes on where a store fails. Answers whether one did.
fn happen(played: &mut Played, event: Event) -> Option<bool> {
    if !fails(played, event)? {
        return Some(false);
    }
    let end = last_failed(played)?;
    go_on(played, end, event)?;
    Some(true)
}

/// A payment: a begin, and the last request and the last answer delivered. Answers whether a store
/// failed.
fn pay(played: &mut Played, n: u32) -> Option<bool> {
    let end = End::Term(1);
    fails(played, Event::Arm { end, n })?;
    let begun = happen(played, begin()?)?;
    let end = End::Host;
    fails(played, Event::Arm { end, n })?;
    let k = last_of(played.world.requests());
    let answered = happen(played, Event::Up { k })?;
    let k = last_of(played.world.answers());
    let done = happen(played, Event::Down { k, t: 1 })?;
    Some(begun || answered || done)
}

/// Restarts both ends, loads the terminal and pays twice. Answers whether a store failed.
fn play(played: &mut Played, armed: u32) -> Option<bool> {
    let host = happen(played, Event::RestartHost)?;
    let terminal = happen(played, Event::RestartTerm { t: 1 })?;
    let loaded = happen(played, load())?;
    let first = pay(played, armed)?;
    let second = pay(played, armed)?;
    Some(host || terminal || loaded || first || second)
}

/// Whether no two numbers of a list are the same.
fn differ(numbers: &[Ksn]) -> bool {
    for (place, number) in numbers.iter().enumerate() {
        if numbers[..place].contains(number) {
            return false;
        }
    }
    true
}

/// The numbers of all requests.
fn requested(alloc: Global, played: &Played) -> Option<Vec<Ksn>> {
    let mut numbers = Vec::new(alloc);
    for frame in played.world.requests() {
        numbers.push(read_request(frame.as_slice())?.ksn).ok()?;
    }
    Some(numbers)
}

/// The numbers that were accepted.
fn accepted(alloc: Global, played: &Played) -> Option<Vec<Ksn>> {
    let mut numbers = Vec::new(alloc);
    for outcome in &played.outcomes {
        if let Outcome::Accepted { ksn, .. } = outcome {
            numbers.push(*ksn).ok()?;
        }
    }
    Some(numbers)
}

/// Whether the host has used all of these.
fn are_used(played: &Played, numbers: &[Ksn]) -> bool {
    for number in numbers {
        if !played.world.host().is_used(*number) {
            return false;
        }
    }
    true
}

/// Whether a store fails in a run, if at its end no two requests have one number, no number was
/// accepted twice, and those of all requests are used.
fn of_run(alloc: Global, filling: Filling, trouble: Trouble) -> Option<bool> {
    let mut played = new_world(alloc, filling, trouble)?;
    let failed = play(&mut played, trouble.armed)?;
    let requested = requested(alloc, &played)?;
    let accepted = accepted(alloc, &played)?;
    let is_so = differ(requested.as_slice()) && differ(accepted.as_slice());
    if is_so && are_used(&played, requested.as_slice()) {
        Some(failed)
    } else {
        None
    }
}

/// Where a step is one of the host's disk, one of the terminal's, or the number of steps that armed
/// stores make.
#[derive(Clone, Copy)]
enum Kind {
    OfHost,
    OfTerminal,
    Armed,
}

/// The trouble at a step.
fn trouble_at(kind: Kind, step: u32) -> Trouble {
    let (of_host, of_terminal, armed) = match kind {
        Kind::OfHost => (step, NEVER, NEVER),
        Kind::OfTerminal => (NEVER, step, NEVER),
        Kind::Armed => (NEVER, NEVER, step),
    };
    Trouble {
        of_host,
        of_terminal,
        armed,
    }
}

/// The first step at which no store fails, if all runs before it and that one are as they are to
/// be.
fn steps_of(alloc: Global, filling: Filling, kind: Kind) -> Option<u32> {
    for step in 0..100 {
        if !of_run(alloc, filling, trouble_at(kind, step))? {
            return Some(step);
        }
    }
    None
}

/// What a restart may leave of what was not synced.
const FILLINGS: [Filling; 5] = [
    Filling::Old,
    Filling::New,
    Filling::Fill(0x00),
    Filling::Fill(0x01),
    Filling::Fill(0x5A),
];

/// A host makes nine device steps at its first restart, a sync and a read of each record, and four
/// at each of two appends. A terminal makes seven at its first restart, and eight at each put: of a
/// load and of two begins. So a put has eight, where a store is armed.
#[test]
fn each_step_fails(rt: HostRuntime) {
    for filling in FILLINGS {
        assert_eq!(rt; steps_of(rt.alloc(), filling, Kind::OfHost), Some(17));
        assert_eq!(rt; steps_of(rt.alloc(), filling, Kind::OfTerminal), Some(31));
        assert_eq!(rt; steps_of(rt.alloc(), filling, Kind::Armed), Some(8));
    }
}

// Shifts: a waiting task seeks a core, or an idle core seeks a waiting task, along the chain that document 01 chooses. Wake and block are one of them after a change of the wake order.
#![tactic(auto)]

ghost use Rattle.std.specs.Prelude.{◌≡◌, ◌<◌};
ghost use Rattle.laws.specs.Decides.{Decides};
ghost use Rattle.dispatcher.specs.Limits.{slot_limit};
ghost use Rattle.order.specs.ComesBefore.{place_in, ComesBefore};
ghost use Rattle.shifting.specs.Board.{Lent};
ghost use Rattle.shifting.specs.Arriving.{Arriving, Pushing};
ghost use Rattle.shifting.specs.Filling.{Freed};
ghost use Rattle.shifting.specs.Shifts.{Arrived, Refilled, still_at, taken_by};
ghost use Rattle.shifting.specs.Tables.{SittersOf, IdleCores};
ghost use Rattle.shifting.specs.Picking.{LastOn, Held, seek_test, FirstSeeking};

use dispatcher::Dispatcher;
use search::{Route, Sitters};

// The seats after a shift, and what a call reports of it.
#[derive(Clone, Copy)]
pub struct Shift {
    pub seats: [u16; Dispatcher::CORES],
    pub moves: u8,
    // The slot that started, or NONE, and the slot that stopped, or NONE.
    pub started: u16,
    pub stopped: u16,
}

// Who sits where, and the idle cores as a mask.
#[derive(Clone, Copy)]
struct Sitting {
    sitters: Sitters,
    idle: u32,
}

// Nobody moves, starts or stops.
fn still(seats: [u16; Dispatcher::CORES]) -> Shift
    ensures { result ≡ still_at seats }
{
    Shift {
        seats,
        moves: 0,
        started: Dispatcher::NONE,
        stopped: Dispatcher::NONE,
    }
}

// The slot takes the chain.
fn taken(seats: [u16; Dispatcher::CORES], route: &Route, slot: u16, stopped: u16) -> Shift
    ensures { result ≡ taken_by seats route.now slot stopped }
{
    Shift {
        seats: search::take_chain(seats, route.cores(), slot),
        moves: route.moves(),
        started: slot,
        stopped,
    }
}

// Who sits where and which cores are idle, of the cores below the count.
fn sitters(d: &Dispatcher) -> Sitting
    requires { Lent d.now }
    ensures { SittersOf d.now result.sitters × IdleCores d.now result.idle }
{
    let count = usize::from(d.cores);
    let mut masks = [0; Dispatcher::CORES];
    let mut idle = 0;
    for core in 0..count {
        let slot = d.seats[core];
        if slot == Dispatcher::NONE {
            idle = masks::add(idle, core);
        } else {
            masks[core] = d.tasks[usize::from(slot)].mask;
        }
    }
    Sitting {
        sitters: Sitters { masks, count },
        idle,
    }
}

// Of the cores in the mask the one whose task all the others come before: the last of the lowest priority along the wake order.
fn last_on(d: &Dispatcher, seen: u32) -> Option<usize>
    requires { Held d.now seen }
    ensures { LastOn d.now seen result }
{
    let cores = order::first_places(&d.seats[..usize::from(d.cores)]);
    let mut last = None;
    let mut lowest = u8::MAX;
    for &slot in &d.order {
        if slot == Dispatcher::NONE {
            return last;
        }
        let slot = usize::from(slot);
        let priority = d.tasks[slot].priority;
        let core = usize::from(cores[slot]);
        if priority <= lowest && masks::has(u64::from(seen), core) {
            last = Some(core);
            lowest = priority;
        }
    }
    last
}

// Whether the slot stands earlier in the order than the other one; one that does not stand there comes after all that do.
fn stands_before(order: &[u16], slot: u16, other: u16) -> bool
    ensures { Decides (place_in order.now slot < place_in order.now other) result }
{
    match order.iter().find(|held| **held == slot || **held == other) {
        Some(held) => *held != other,
        None => false,
    }
}

// Whether the task in the slot comes before the one in the other slot.
fn comes_before(d: &Dispatcher, slot: u16, other: u16) -> bool
    requires { (slot < slot_limit) × (other < slot_limit) }
    ensures { Decides (ComesBefore d.now slot other) result }
{
    let priority = d.tasks[usize::from(slot)].priority;
    let its = d.tasks[usize::from(other)].priority;
    its < priority || (priority == its && stands_before(&d.order, slot, other))
}

// Whether a task that sits on this core, or on NONE, sits on none and its mask meets the cores in lead.
fn seeks(mask: u32, core: u16, lead: u32) -> bool
    ensures { result ≡ seek_test mask core lead }
{
    core == Dispatcher::NONE && mask & lead != 0
}

// Of the waiting tasks whose mask meets the cores the one that comes before the rest: the first of the highest priority along the wake order.
fn first_seeking(d: &Dispatcher, lead: u32) -> Option<u16>
    requires { Lent d.now }
    ensures { FirstSeeking d.now lead result }
{
    let cores = order::first_places(&d.seats[..usize::from(d.cores)]);
    let mut first = None;
    let mut highest = 0;
    for &slot in &d.order {
        if slot == Dispatcher::NONE {
            return first;
        }
        let at = usize::from(slot);
        let task = d.tasks[at];
        if highest < task.priority && seeks(task.mask, cores[at], lead) {
            first = Some(slot);
            highest = task.priority;
        }
    }
    first
}

// No idle core is reached: the slot pushes off the last task on the cores that it reaches, if it comes before that one.
fn push(d: &Dispatcher, sitters: &Sitters, slot: u16) -> Shift
    requires { Pushing d.now sitters.now slot }
    ensures { Arrived d.now slot result }
{
    let mask = d.tasks[usize::from(slot)].mask;
    let seen = sitters.reached(mask);
    let Some(last) = last_on(d, seen) else {
        return still(d.seats);
    };
    let loser = d.seats[last];
    if !comes_before(d, slot, loser) {
        return still(d.seats);
    }
    let target = masks::add(0, last);
    let route = sitters.search(mask, target).unwrap();
    taken(d.seats, &route, slot, loser)
}

// The task in the slot, ready and on no core, seeks one.
pub fn arrive(d: Dispatcher, slot: u16) -> Shift
    requires { Arriving d slot }
    ensures { Arrived d slot result }
{
    let sitting = sitters(&d);
    let mask = d.tasks[usize::from(slot)].mask;
    if let Some(route) = sitting.sitters.search(mask, sitting.idle) {
        return taken(d.seats, &route, slot, Dispatcher::NONE);
    }
    push(&d, &sitting.sitters, slot)
}

// The core, which is idle, seeks a waiting task.
pub fn fill(d: Dispatcher, core: usize) -> Shift
    requires { Freed d core }
    ensures { Refilled d core result }
{
    let sitters = sitters(&d).sitters;
    let target = masks::add(0, core);
    let lead = sitters.leading(target);
    let Some(first) = first_seeking(&d, lead) else {
        return still(d.seats);
    };
    let mask = d.tasks[usize::from(first)].mask;
    let route = sitters.search(mask, target).unwrap();
    taken(d.seats, &route, first, Dispatcher::NONE)
}

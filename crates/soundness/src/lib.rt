// What is unsound in a dispatcher. For each of document 01's conditions (a) to (e) the lowest slot, place or core that breaks it is searched
// for, in this order: a later search relies on what the earlier ones have found kept.
#![tactic(auto)]

ghost use Rattle.std.specs.Prelude.{◌≡◌, ◌≢◌, ◌≤◌, true, false, length};
ghost use Rattle.laws.specs.Decides.{Decides};
ghost use Rattle.laws.specs.Lowest.{Throughout};
ghost use Rattle.masks.specs.Masks.{has};
ghost use Rattle.dispatcher.specs.Limits.{slot_limit, none};
ghost use Rattle.dispatcher.specs.Slots.{Used};
ghost use Rattle.dispatcher.specs.Sound.{CountLegal, LegalTask, SlotKept, SlotsLegal, SeatKept};
ghost use Rattle.dispatcher.specs.Unsound.{unsound_refusals};
ghost use Rattle.dispatcher.specs.Promise.{Answered};
ghost use Rattle.soundness.specs.Finds.{Finds};
ghost use Rattle.soundness.specs.Entries.{EntriesEnd, TellsReady};
ghost use Rattle.soundness.specs.Parts.{Unused};

use dispatcher::{Dispatcher, Refusal, Task};

// Whether the task is none or legal. An empty slot, as most are, is passed after two tests.
fn is_kept(task: Task, cores: u8) -> bool
    ensures { Decides (Used task → LegalTask cores task) result }
{
    match (task.priority, task.mask) {
        (0, 0) => true,
        (0, _) | (_, 0) => false,
        (_, mask) => !masks::names_missing(u64::from(mask), cores),
    }
}

// (b) The lowest used slot with an illegal priority or mask.
fn illegal_slot(d: &Dispatcher) -> Option<usize>
    ensures { Finds slot_limit (SlotKept d.now) result }
{
    d.tasks.iter().position(|task| !is_kept(*task, d.cores))
}

// The entries of the wake order: the place where they end, and for each slot the place among them where it stands, or NONE.
#[derive(Clone, Copy)]
struct Woken {
    end: usize,
    places: [u16; Dispatcher::SLOTS],
}

fn is_entry(mask: u32, met: u16) -> bool
    ensures { Decides ((mask ≢ 0) × (met ≡ none)) result }
{
    mask != 0 && met == Dispatcher::NONE
}

// (c) The entries go from the first place up to the first that holds no used slot, or one that was met before it. By (b) a slot has a
// mask where it is used.
fn entries(d: &Dispatcher) -> Woken
    requires { SlotsLegal d.now }
    ensures { EntriesEnd d.now result.end result.places }
{
    let mut woken = Woken {
        end: Dispatcher::SLOTS,
        places: [Dispatcher::NONE; Dispatcher::SLOTS],
    };
    for (k, slot) in d.order.iter().enumerate() {
        let slot = usize::from(*slot);
        if Dispatcher::SLOTS <= slot || !is_entry(d.tasks[slot].mask, woken.places[slot]) {
            woken.end = k; // not where it was met: of two equal entries the later one
            break;
        }
        woken.places[slot] = k as u16;
    }
    woken
}

// Whether all places hold NONE. The loop has no exit, so that the compiler compares many places at once.
fn unused(list: &[u16]) -> bool
    ensures { Decides (Throughout (length list.now) (Unused list.now)) result }
{
    let mut all = true;
    for held in list {
        all &= *held == Dispatcher::NONE;
    }
    all
}

// The lowest place that does not hold NONE.
fn surplus(list: &[u16]) -> Option<usize>
    ensures { Finds (length list.now) (Unused list.now) result }
{
    if unused(list) {
        return None;
    }
    list.iter().position(|held| *held != Dispatcher::NONE)
}

fn may_sit(seated: bool, place: u16, mask: u32, c: usize) -> bool
    ensures { Decides ((seated ≡ false) × (place ≢ none) × (has mask c ≡ true)) result }
{
    !seated && place != Dispatcher::NONE && masks::has(u64::from(mask), c)
}

// (e) The lowest core below the count whose slot is not in the wake order, sits on a lower core too or may not use the core. By (d) the
// cores from the count on are idle.
fn misseated(d: &Dispatcher, places: &[u16; Dispatcher::SLOTS]) -> Option<usize>
    requires { CountLegal d.now × TellsReady d.now places.now }
    ensures { Finds d.now.cores (SeatKept d.now) result }
{
    let mut seated = [false; Dispatcher::SLOTS];
    let seats = &d.seats[..usize::from(d.cores)];
    for (c, sits) in seats.iter().enumerate() {
        let slot = usize::from(*sits);
        if slot < Dispatcher::SLOTS {
            if !may_sit(seated[slot], places[slot], d.tasks[slot].mask, c) {
                return Some(c); // of two cores with one slot the later one
            }
            seated[slot] = true;
        } else if *sits != Dispatcher::NONE {
            return Some(c);
        }
    }
    None
}

// The first of the conditions (a) to (e) that is broken: the count for (a), else the lowest slot, place or core that breaks it.
pub fn check(d: Dispatcher) -> Result<(), Refusal>
    ensures { Answered (unsound_refusals d) d result }
{
    if !Dispatcher::legal_count(d.cores) {
        return Err(Refusal::UnsoundCount(u16::from(d.cores)));
    }
    if let Some(slot) = illegal_slot(&d) {
        return Err(Refusal::UnsoundSlot(slot as u16));
    }
    // After the entries the lowest place in use is the lowest that breaks (c): the entries end at it, or it stands after a gap.
    let woken = entries(&d);
    if let Some(more) = surplus(&d.order[woken.end..]) {
        return Err(Refusal::UnsoundPlace((woken.end + more) as u16));
    }
    // After the dispatcher's cores the lowest in use is the lowest that breaks (d).
    let count = usize::from(d.cores);
    if let Some(more) = surplus(&d.seats[count..]) {
        return Err(Refusal::UnsoundMissingCore((count + more) as u16));
    }
    if let Some(core) = misseated(&d, &woken.places) {
        return Err(Refusal::UnsoundSeat(core as u16));
    }
    Ok(())
}

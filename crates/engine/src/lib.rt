// The plain engine of the test bench: the running set of a dispatcher worked out from nothing, whatever its seats are.
#![tactic(auto)]

ghost use Rattle.std.specs.Prelude.{◌≡◌};
ghost use Rattle.laws.specs.Decides.{Decides};
ghost use Rattle.dispatcher.specs.Slots.{Shaped};
ghost use Rattle.dispatcher.specs.Sound.{Sound};
ghost use Rattle.engine.specs.Turns.{FirstLeft, LeftOf, CanTurn, Turned};
ghost use Rattle.engine.specs.Keep.{nothing, WorkedOut, EngineKeeps};
ghost use Rattle.engine.specs.Difference.{HasCore, Difference, Compares};

mod places;

use dispatcher::{Dispatcher, Refusal};
use places::{Board, Seeking};

// What the engine keeps.
#[derive(Clone, Copy, Debug, PartialEq, Eq)]
pub struct Kept {
    // Whether the task of each slot is kept.
    pub tasks: [bool; Dispatcher::SLOTS],
    // A seating of those kept: the slot on each core, or NONE.
    pub seats: [u16; Dispatcher::CORES],
}

impl Kept {
    // Nobody is kept.
    fn nothing() -> Kept
        ensures { result ≡ nothing }
    {
        Kept {
            tasks: [false; Dispatcher::SLOTS],
            seats: [Dispatcher::NONE; Dispatcher::CORES],
        }
    }

    // The turn of the task in the slot: it is kept if a place can be found for it beside those already kept. No core has been asked yet.
    fn take_turn(&mut self, board: &Board, slot: u16)
        requires { CanTurn self.old slot }
        ensures { Turned board.now self.old slot self.new }
    {
        let mut seeking = Seeking {
            asked: 0,
            seats: self.seats,
        };
        self.tasks[slot as usize] = board.seat(&mut seeking, slot);
        self.seats = seeking.seats;
    }

    // The lowest slot whose task is kept and not run by the dispatcher, or the other way round.
    fn difference(&self, d: &Dispatcher) -> Option<u16>
        requires { Shaped d.now }
        ensures { Difference d.now self.now.tasks result }
    {
        let n = usize::from(d.cores).min(Dispatcher::CORES);
        let cores = order::first_places(&d.seats[..n]);
        self.tasks
            .iter()
            .zip(&cores)
            .position(|(marked, core)| !alike(*marked, *core))
            .map(|slot| slot as u16)
    }
}

// Of the ready tasks whose turn has not come, the place in the wake order of the one that comes before the rest: the first of the highest priority. `left`
// is the wake order without those whose turn has come.
fn first_left(d: &Dispatcher, left: &[u16; Dispatcher::SLOTS]) -> Option<usize>
    requires { LeftOf d.now left.now }
    ensures { FirstLeft d.now left.now result }
{
    let mut first = None;
    let mut highest = 0;
    for (k, slot) in left.iter().enumerate() {
        if *slot != Dispatcher::NONE {
            let priority = d.tasks[*slot as usize].priority;
            if highest < priority {
                first = Some(k);
                highest = priority;
            }
        }
    }
    first
}

// The ready tasks take their turns in their order.
fn work_out(d: Dispatcher) -> Kept
    requires { Sound d }
    ensures { WorkedOut d result }
{
    let board = Board::of(&d);
    let mut left = d.order;
    let mut kept = Kept::nothing();
    while let Some(place) = first_left(&d, &left) {
        let slot = left[place];
        left[place] = Dispatcher::NONE;
        kept.take_turn(&board, slot);
    }
    kept
}

// The tasks that the engine keeps, and a seating of them. The dispatcher's own seats are not looked at, but for the check that it is sound.
pub fn keep(d: Dispatcher) -> Result<Kept, Refusal>
    ensures { EngineKeeps d result }
{
    soundness::check(d)?;
    Ok(work_out(d))
}

// Whether a task is marked exactly if it has a core.
fn alike(marked: bool, core: u16) -> bool
    ensures { Decides (HasCore marked core) result }
{
    marked == (core != Dispatcher::NONE)
}

// The lowest slot whose task the engine keeps and the dispatcher does not run, or the other way round.
pub fn compare(d: Dispatcher) -> Result<Option<u16>, Refusal>
    ensures { Compares d result }
{
    let kept = keep(d)?;
    Ok(kept.difference(&d))
}

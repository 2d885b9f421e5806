// Wake and block by value: a task becomes ready and seeks a core, or is no longer ready and its core seeks another task.
#![tactic(auto)]

ghost use Rattle.std.specs.Prelude.{◌≡◌};
ghost use Rattle.dispatcher.specs.Promise.{Answered};
ghost use Rattle.readiness.specs.Wake.{wake_refusals, Wakes};
ghost use Rattle.readiness.specs.Block.{block_refusals, Blocks};
ghost use Rattle.readiness.specs.Seats.{CoreOf, shifted_of};

use dispatcher::{Answer, Dispatcher, Outcome, Refusal, Report};
use shifting::Shift;

fn wake_answer(d: Dispatcher, slot: u16) -> Answer
    ensures { Answered (wake_refusals d slot) d result }
{
    tasks::named(d, slot)?;
    if d.is_ready(slot) {
        return Err(Refusal::AlreadyReady);
    }
    Ok(())
}

fn block_answer(d: Dispatcher, slot: u16) -> Answer
    ensures { Answered (block_refusals d slot) d result }
{
    tasks::named(d, slot)?;
    if !d.is_ready(slot) {
        return Err(Refusal::NotReady);
    }
    Ok(())
}

// The core on which the slot sits. The wake order is searched so too: the library's `position`, and in each place its own promise.
fn core_of(seats: &[u16; Dispatcher::CORES], slot: u16) -> Option<usize>
    ensures { CoreOf seats.now slot result }
{
    seats.iter().position(|sits| *sits == slot)
}

// The dispatcher after a shift, and what is reported of it: no From makes the report, since both types are other crates'. Inlined, so that
// no copy of the dispatcher is made for the call.
#[inline(always)]
fn shifted(mut d: Dispatcher, shift: Shift) -> Outcome
    ensures { result ≡ shifted_of d shift }
{
    let seats = shift.seats;
    d.seats = seats;
    Outcome {
        report: Report {
            answer: Ok(()),
            moves: shift.moves,
            started: shift.started,
            stopped: shift.stopped,
        },
        dispatcher: d,
    }
}

// The task becomes ready, last among equals, and seeks a core.
pub fn wake(mut d: Dispatcher, slot: u16) -> Outcome
    ensures { Wakes d slot result }
{
    if let Err(refusal) = wake_answer(d, slot) {
        return Outcome {
            report: Report::still(Err(refusal)),
            dispatcher: d,
        };
    }
    let order = order::join(d.order, slot);
    d.order = order;
    shifted(d, shifting::arrive(d, slot))
}

// The task is no longer ready; if it ran, its core seeks another.
pub fn block(mut d: Dispatcher, slot: u16) -> Outcome
    ensures { Blocks d slot result }
{
    if let Err(refusal) = block_answer(d, slot) {
        return Outcome {
            report: Report::still(Err(refusal)),
            dispatcher: d,
        };
    }
    let order = order::leave(d.order, slot);
    d.order = order;
    let Some(core) = core_of(&d.seats, slot) else {
        return Outcome {
            report: Report::still(Ok(())),
            dispatcher: d,
        };
    };
    d.seats[core] = Dispatcher::NONE;
    shifted(d, shifting::fill(d, core))
}

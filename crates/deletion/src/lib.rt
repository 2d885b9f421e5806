// Delete by value: the task in a slot is ended, ready or not.
#![tactic(auto)]

ghost use Rattle.std.specs.Prelude.{◌≡◌, ◌≢◌};
ghost use Rattle.dispatcher.specs.Answers.{number_of};
ghost use Rattle.dispatcher.specs.Reports.{still_of};
ghost use Rattle.deletion.specs.Delete.{Deletes};

use dispatcher::{Dispatcher, Outcome, Refusal, Report, Task};

// What is reported after the block: that the task is not ready does not refuse its delete.
fn reported(block: Report) -> Report
    ensures not_ready { number_of block.answer ≡ 10 → result ≡ still_of (Ok tt) }
    ensures other { number_of block.answer ≢ 10 → result ≡ block }
{
    match block.answer {
        Err(Refusal::NotReady) => Report::still(Ok(())),
        _ => block,
    }
}

// A ready task is blocked first; then the slot is emptied. Where block refuses for another reason than that the task is not ready, so does delete.
pub fn delete(d: Dispatcher, slot: u16) -> Outcome
    ensures { Deletes d slot result }
{
    let blocked = readiness::block(d, slot);
    let report = reported(blocked.report);
    tasks::written(blocked.dispatcher, slot, Task::EMPTY, report)
}

// Create by value: a slot is filled, not ready. And what every call on the task in a slot refuses first.
#![tactic(auto)]

ghost use Rattle.std.specs.Prelude.{◌≡◌, ◌<◌};
ghost use Rattle.laws.specs.Answering.{Answers};
ghost use Rattle.dispatcher.specs.Limits.{slot_limit};
ghost use Rattle.dispatcher.specs.Answers.{number_of};
ghost use Rattle.dispatcher.specs.Promise.{Answered};
ghost use Rattle.tasks.specs.Table.{Settles};
ghost use Rattle.tasks.specs.Named.{named_refusals};
ghost use Rattle.tasks.specs.Create.{entry_refusals, create_refusals, Creates};

use dispatcher::{Answer, Dispatcher, Outcome, Refusal, Report, Task};

// What a task is refused for where the dispatcher is sound.
pub fn entry(d: Dispatcher, slot: u16, priority: u8, mask: u32) -> Answer
    ensures { Answers (entry_refusals d slot priority mask) (number_of result) }
{
    let held = d.tasks.get(usize::from(slot)).ok_or(Refusal::SlotAbove)?;
    if held.is_used() {
        return Err(Refusal::SlotInUse);
    }
    if priority == 0 {
        return Err(Refusal::PriorityZero);
    }
    if mask == 0 {
        return Err(Refusal::MaskEmpty);
    }
    if masks::names_missing(u64::from(mask), d.cores) {
        return Err(Refusal::MissingCore);
    }
    Ok(())
}

fn create_answer(d: Dispatcher, slot: u16, priority: u8, mask: u32) -> Answer
    ensures { Answered (create_refusals d slot priority mask) d result }
{
    soundness::check(d)?;
    entry(d, slot, priority, mask)
}

// What every call on the task in a slot refuses first.
pub fn named(d: Dispatcher, slot: u16) -> Answer
    ensures { Answered (named_refusals d slot) d result }
{
    soundness::check(d)?;
    let task = d.tasks.get(usize::from(slot)).ok_or(Refusal::SlotAbove)?;
    if !task.is_used() {
        return Err(Refusal::SlotEmpty);
    }
    Ok(())
}

// The slot gets the task where the report says done; else the dispatcher stays as it stood.
pub fn written(mut d: Dispatcher, slot: u16, t: Task, report: Report) -> Outcome
    requires { number_of report.answer ≡ 0 → slot < slot_limit }
    ensures { Settles d slot t report result }
{
    if report.answer.is_ok() {
        d.tasks[usize::from(slot)] = t;
    }
    Outcome {
        report,
        dispatcher: d,
    }
}

// Fills an empty slot.
pub fn create(d: Dispatcher, slot: u16, priority: u8, mask: u32) -> Outcome
    ensures { Creates d slot priority mask result }
{
    let answer = create_answer(d, slot, priority, mask);
    let report = Report::still(answer);
    written(d, slot, Task { priority, mask }, report)
}

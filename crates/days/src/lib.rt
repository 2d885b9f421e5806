// Replays the day that an event file says: one step makes the next call and writes its line.
#![tactic(auto)]

ghost use Rattle.std.specs.Prelude.{◌≡◌, MatchResult};
ghost use Rattle.decimals.specs.Fault.{fault_text};
ghost use Rattle.dispatcher.specs.Answers.{refusal_number};
ghost use Rattle.files.specs.Reading.{Reads};
ghost use Rattle.files.specs.Layout.{record_count_of};
ghost use Rattle.calls.specs.Call.{Does};
ghost use Rattle.days.specs.Calls.{call_of, event_call_of, ReadsCall};
ghost use Rattle.days.specs.Step.{kind_of, slot_of, Steps};
ghost use Rattle.days.specs.Replay.{Short, Replays};
ghost use Rattle.days.specs.Telling.{HearsDay, Fails};

use arrayvec::ArrayVec;
use dispatcher::{Answer, Dispatcher, Outcome, Refusal, TaskRecord};
use files::{Fault, FileEvent, Layout};
use lines::Line;

// A call of a file.
#[derive(Clone, Copy, Debug, PartialEq, Eq)]
pub enum FileCall {
    Create(TaskRecord),
    Wake(u16),
    Block(u16),
    Delete(u16),
}

impl FileCall {
    // What an event asks for. One of another kind asks for nothing and is no error, so this is no TryFrom.
    fn of_event(event: FileEvent) -> Option<FileCall>
        ensures { result ≡ event_call_of event.kind event.slot }
    {
        match event.kind {
            1 => Some(FileCall::Wake(event.slot)),
            2 => Some(FileCall::Block(event.slot)),
            3 => Some(FileCall::Delete(event.slot)),
            _ => None,
        }
    }

    // The number of its kind: 0 to 3 for C, W, B, D.
    fn kind(self) -> u8
        ensures { result ≡ kind_of (call_of self) }
    {
        match self {
            FileCall::Create(_) => 0,
            FileCall::Wake(_) => 1,
            FileCall::Block(_) => 2,
            FileCall::Delete(_) => 3,
        }
    }

    fn slot(self) -> u16
        ensures { result ≡ slot_of (call_of self) }
    {
        match self {
            FileCall::Create(record) => record.slot,
            FileCall::Wake(slot) | FileCall::Block(slot) | FileCall::Delete(slot) => slot,
        }
    }

    // Makes the call.
    fn make(self, d: Dispatcher) -> Outcome
        ensures { Does (call_of self) d result }
    {
        match self {
            FileCall::Create(task) => tasks::create(d, task.slot, task.priority, task.mask),
            FileCall::Wake(slot) => readiness::wake(d, slot),
            FileCall::Block(slot) => readiness::block(d, slot),
            FileCall::Delete(slot) => deletion::delete(d, slot),
        }
    }
}

// How much a step wrote into the bytes that it was lent, as its promise names them, and the dispatcher after its call.
#[derive(Clone, Copy, Debug, PartialEq, Eq)]
pub struct Stepped {
    pub length: usize,
    pub dispatcher: Dispatcher,
}

// How far a replay went; `length` is how much it wrote into the bytes that it was lent, as its promise names them.
#[derive(Clone, Copy, Debug, PartialEq, Eq)]
pub struct Replayed {
    // Why no further line was written: Ok where the file has no further call.
    pub answer: Answer,
    pub next: usize,
    pub length: usize,
    pub dispatcher: Dispatcher,
}

// The number of records that the file states.
fn record_count(file: &[u8]) -> usize
    ensures { result ≡ record_count_of file.now }
{
    file.get(1).map_or(0, |count| usize::from(*count))
}

// Call k of the file, from 0: a create for each record, then the events.
pub fn call(file: &[u8], k: usize) -> Option<FileCall>
    ensures { ReadsCall file.now k result }
{
    let records = record_count(file);
    if k < records {
        files::record(file, k).map(FileCall::Create)
    } else {
        FileCall::of_event(files::event(file, k - records)?)
    }
}

// Makes call k of the file and writes its line; where the file has no such call nothing is written.
pub fn step(
    file: &[u8],
    k: usize,
    d: Dispatcher,
    buffer: &mut [u8],
) -> Result<Option<Stepped>, Refusal>
    ensures steps { Steps file.now k d buffer.old buffer.new result }
    ensures short { Short file.now k d }
{
    let Some(call) = call(file, k) else {
        return Ok(None);
    };
    let made = call.make(d);
    let line = Line {
        number: k as u32 + 1,
        kind: call.kind(),
        slot: call.slot(),
        report: made.report.into(),
    };
    let length = lines::write(line, made.dispatcher, buffer)?;
    Ok(Some(Stepped {
        length,
        dispatcher: made.dispatcher,
    }))
}

// Makes the calls from k on, as long as their lines fit into the buffer.
pub fn replay(file: &[u8], k: usize, d: Dispatcher, buffer: &mut [u8]) -> Replayed
    ensures replays { Replays file.now k d buffer.old buffer.new result }
    ensures short { Short file.now result.next result.dispatcher }
{
    let mut next = k;
    let mut length = 0;
    let mut current = d;
    // No `for`: that there is no further line shows only in the step that would write it.
    let answer = loop {
        match step(file, next, current, &mut buffer[length..]) {
            Ok(Some(stepped)) => {
                next += 1;
                length += stepped.length;
                current = stepped.dispatcher;
            }
            Ok(None) => break Ok(()),
            Err(refusal) => break Err(refusal),
        }
    };
    Replayed {
        answer,
        next,
        length,
        dispatcher: current,
    }
}

// The bytes of a block of lines.
pub const BLOCK: usize = 65536;

// Tells a day's lines, as many at a time as a block holds, until the day ends or that fails.
pub fn tell<E, F: FnMut(&[u8]) -> Result<(), E>>(
    file: &[u8],
    layout: Layout,
    mut hear: F,
) -> Result<(), E>
    requires callable { F.IsAlwaysCallable hear }
    requires layout { Reads file.now (Ok layout) }
    ensures { MatchResult result (λ done. HearsDay F.FnMut hear file.now) (Fails F.FnMut hear file.now) }
{
    let calls = layout.records + layout.events;
    // Lent to `replay`, whose promise names the bytes and how many of them are lines.
    let mut block = [0u8; BLOCK];
    let mut next = 0;
    let mut current = Dispatcher::fresh(layout.cores).dispatcher;
    // No `for`: a turn passes as many calls as have room.
    while next < calls {
        let replayed = replay(file, next, current, &mut block);
        hear(&block[..replayed.length])?;
        next = replayed.next;
        current = replayed.dispatcher;
    }
    Ok(())
}

// The one line of a file that is refused.
#[tactic(auto, using(decimals::proofs::Fault::fault_longest))]
pub fn fault_line(fault: Fault) -> ArrayVec<u8, { Line::LONGEST_FAULT }>
    ensures { result.items ≡ fault_text (refusal_number fault.refusal) fault.offset }
{
    let mut line = ArrayVec::new();
    decimals::push_fault(&mut line, fault.refusal.number(), fault.offset);
    line
}

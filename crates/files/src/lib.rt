// Reads event files: the layout of a whole file or its first fault, and its records and events one by one.
#![tactic(auto)]

ghost use Rattle.std.specs.Prelude.{◌+◌, ◌*◌, ◌≤◌, ◌≡◌, length, replicate, SomeIff, MatchResult};
ghost use Rattle.laws.specs.Decides.{Decides};
ghost use Rattle.files.specs.Layout.{lowest_first, largest_file};
ghost use Rattle.files.specs.Faults.{IsEventKind, WellFormed};
ghost use Rattle.files.specs.Events.{HeadRead, FirstBad};
ghost use Rattle.files.specs.Reading.{IsFirstFault, Reads, ReadsRecord, ReadsEvent};

use dispatcher::{Dispatcher, Refusal, TaskRecord};
use std::cmp::Ordering;

// How a well-formed file is laid out.
#[derive(Clone, Copy, Debug, PartialEq, Eq)]
pub struct Layout {
    pub cores: u8,
    pub records: usize,
    pub events: usize,
}

// Why a file is refused, and at which of its bytes. cpusets has such a pair of its own refusals: neither crate stands on the other, and two fields make no third.
#[derive(Clone, Copy, Debug, PartialEq, Eq)]
pub struct Fault {
    pub refusal: Refusal,
    pub offset: usize,
}

// An event as the file has it: its kind stays a byte, since C is told any byte that stands there.
#[derive(Clone, Copy, Debug, PartialEq, Eq)]
pub struct FileEvent {
    pub kind: u8,
    pub slot: u16,
}

// The largest file that is well formed: 255 records and as many events as there may be.
pub const LARGEST: usize = RECORDS_AT + RECORD * 255 + COUNT + EVENT * Dispatcher::EVENTS;

// Where the records begin.
const RECORDS_AT: usize = 2;

// The bytes of a record: its slot, its priority and its mask.
const RECORD: usize = 6;

// The bytes of the events' count.
const COUNT: usize = 2;

// The bytes of an event: its kind and its slot.
const EVENT: usize = 2;

// Room for one byte more than any well-formed file has: so much decides every input, however long.
pub fn room() -> [u8; LARGEST + 1]
    ensures { result ≡ replicate (largest_file + 1) 0 }
{
    [0; LARGEST + 1]
}

impl Fault {
    // The file ends too early.
    fn early_end(file: &[u8]) -> Fault
        ensures { result ≡ record { refusal = Refusal.FileShort; offset = length file.now } }
    {
        Fault {
            refusal: Refusal::FileShort,
            offset: file.len(),
        }
    }
}

// A number of two bytes, lowest first, where the file has them.
fn pair(file: &[u8], at: usize) -> Option<u16>
    ensures { SomeIff result (at + 2 ≤ length file.now) (lowest_first 2 file.now at) }
{
    let bytes = file.get(at..)?.first_chunk()?;
    Some(u16::from_le_bytes(*bytes))
}

fn is_event_kind(kind: u8) -> bool
    ensures { Decides (IsEventKind kind) result }
{
    matches!(kind, 1..=3)
}

// The first event whose kind is in the file and is no event's.
fn bad_kind(file: &[u8], at: usize, events: usize) -> Option<usize>
    requires { at + 2 * events ≤ 65536 }
    ensures { FirstBad file.now at events result }
{
    for i in 0..events {
        let kind = *file.get(at + EVENT * i)?;
        if !is_event_kind(kind) {
            return Some(i);
        }
    }
    None
}

// The counts, or the first fault before the events.
fn read_head(file: &[u8]) -> Result<Layout, Fault>
    ensures { MatchResult result (HeadRead file.now) (IsFirstFault file.now) }
{
    let cores = *file.first().ok_or(Fault::early_end(file))?;
    if !Dispatcher::legal_count(cores) {
        return Err(Fault {
            refusal: Refusal::CoreCount,
            offset: 0,
        });
    }
    let records = *file.get(1).ok_or(Fault::early_end(file))?;
    let count_at = RECORDS_AT + RECORD * usize::from(records);
    let events = pair(file, count_at).ok_or(Fault::early_end(file))?;
    let layout = Layout {
        cores,
        records: usize::from(records),
        events: usize::from(events),
    };
    if Dispatcher::EVENTS < layout.events {
        return Err(Fault {
            refusal: Refusal::EventCount,
            offset: count_at,
        });
    }
    Ok(layout)
}

// The verdict on the events and on where the file ends; what stands before them is in order.
fn read_events(file: &[u8], layout: Layout) -> Result<(), Fault>
    requires { HeadRead file.now layout }
    ensures { MatchResult result (λ done. WellFormed file.now) (IsFirstFault file.now) }
{
    let events_at = RECORDS_AT + RECORD * layout.records + COUNT;
    if let Some(bad) = bad_kind(file, events_at, layout.events) {
        return Err(Fault {
            refusal: Refusal::BadKind,
            offset: events_at + EVENT * bad,
        });
    }
    let end = events_at + EVENT * layout.events;
    match file.len().cmp(&end) {
        Ordering::Less => Err(Fault::early_end(file)),
        Ordering::Equal => Ok(()),
        Ordering::Greater => Err(Fault {
            refusal: Refusal::BytesAfter,
            offset: end,
        }),
    }
}

// The layout of a well-formed file, or the first fault from the left.
pub fn read(file: &[u8]) -> Result<Layout, Fault>
    ensures { Reads file.now result }
{
    let layout = read_head(file)?;
    read_events(file, layout)?;
    Ok(layout)
}

// Record i, where the file has it.
pub fn record(file: &[u8], i: usize) -> Option<TaskRecord>
    ensures { ReadsRecord file.now i result }
{
    let records = *file.get(1)?;
    if usize::from(records) <= i {
        return None;
    }
    let at = RECORDS_AT + RECORD * i;
    let [slot, priority, a, b, c, d] = *file.get(at..)?.first_chunk::<RECORD>()?;
    Some(TaskRecord {
        slot: u16::from(slot),
        priority,
        mask: u32::from_le_bytes([a, b, c, d]),
    })
}

// Event i, where the file has it.
pub fn event(file: &[u8], i: usize) -> Option<FileEvent>
    ensures { ReadsEvent file.now i result }
{
    let records = *file.get(1)?;
    let count_at = RECORDS_AT + RECORD * usize::from(records);
    let events = pair(file, count_at)?;
    if usize::from(events) <= i {
        return None;
    }
    let at = count_at + COUNT + EVENT * i;
    let [kind, slot] = *file.get(at..)?.first_chunk::<EVENT>()?;
    Some(FileEvent {
        kind,
        slot: u16::from(slot),
    })
}

// The library for C and Rust: every call in place on the dispatcher that the kernel holds, the soundness check, the file reader, the line writer, and the
// readers and writers of core sets. Each does what the function by value does, and tells it in plain numbers.
#![tactic(auto)]

ghost use Rattle.std.specs.Prelude.{◌≡◌};
ghost use Rattle.dispatcher.specs.Unsound.{unsound_refusals};
ghost use Rattle.dispatcher.specs.Promise.{Answered};
ghost use Rattle.dispatcher.specs.Fresh.{Freshly};
ghost use Rattle.dispatcher.specs.Reports.{plain_of as plain_report_of};
ghost use Rattle.tasks.specs.Create.{Creates};
ghost use Rattle.readiness.specs.Wake.{Wakes};
ghost use Rattle.readiness.specs.Block.{Blocks};
ghost use Rattle.deletion.specs.Delete.{Deletes};
ghost use Rattle.boot.specs.Load.{Loads};
ghost use Rattle.files.specs.Reading.{Reads, ReadsRecord, ReadsEvent};
ghost use Rattle.lines.specs.Line.{Writes, WritesFault};
ghost use Rattle.cpusets.specs.Limit.{cores_of};
ghost use Rattle.cpusets.specs.Reading.{plain_of};
ghost use Rattle.cpulists.specs.Promise.{ReadsList, WritesList};
ghost use Rattle.cpumasks.specs.Promise.{ReadsMask, WritesMask};
ghost use Rattle.makxirund.specs.InPlace.{plain_load_of, InPlace, LoadsInPlace};
ghost use Rattle.makxirund.specs.Plain.{plain_answer, plain_refusal, plain_reading, plain_record, plain_event, plain_written_of, WrittenBy, InPlain};
ghost use Rattle.makxirund.specs.CoreSets.{plain_core_refusal, plain_text_of};

use boot::LoadReport;
use cpusets::PlainReading;
use dispatcher::{Answer, Dispatcher, Outcome, PlainReport, TaskRecord};
use files::{Fault, FileEvent, Layout};
use lines::Line;

// What the soundness check says: number 0 and place 0, or which condition is broken and where.
#[repr(C)]
#[derive(Clone, Copy)]
pub struct PlainAnswer {
    pub number: u8,
    pub place: u16,
}

#[repr(C)]
#[derive(Clone, Copy)]
pub struct PlainLoadReport {
    pub report: PlainReport,
    pub index: usize,
}

// What the file reader says: number 0 and the layout, or a refusal and its offset.
#[repr(C)]
#[derive(Clone, Copy)]
pub struct PlainLayout {
    pub number: u8,
    pub cores: u8,
    pub records: usize,
    pub events: usize,
    pub offset: usize,
}

// An Option for C: where the file has no such record found is false and all else 0.
#[repr(C)]
#[derive(Clone, Copy)]
pub struct PlainRecord {
    pub found: bool,
    pub slot: u16,
    pub priority: u8,
    pub mask: u32,
}

// Likewise; the kind is the byte in the file.
#[repr(C)]
#[derive(Clone, Copy)]
pub struct PlainEvent {
    pub found: bool,
    pub kind: u8,
    pub slot: u16,
}

// A Result for C: the length of what stands in the lent buffer, or a number and a place.
#[repr(C)]
#[derive(Clone, Copy)]
pub struct PlainWritten {
    pub number: u8,
    pub place: u16,
    pub length: usize,
}

impl From<dispatcher::Refusal> for PlainAnswer {
    ghost from_gives = { λ refusal plain. plain ≡ plain_refusal refusal };

    fn from(refusal: dispatcher::Refusal) -> PlainAnswer {
        PlainAnswer {
            number: refusal.number(),
            place: refusal.place(),
        }
    }
}

// A refusal of a core set knows of no dispatcher, and so of no place in one.
impl From<cpusets::Refusal> for PlainAnswer {
    ghost from_gives = { λ refusal plain. plain ≡ plain_core_refusal refusal };

    fn from(refusal: cpusets::Refusal) -> PlainAnswer {
        PlainAnswer {
            number: refusal.number(),
            place: 0,
        }
    }
}

impl From<Answer> for PlainAnswer {
    ghost from_gives = { λ answer plain. plain ≡ plain_answer answer };

    fn from(answer: Answer) -> PlainAnswer {
        PlainAnswer {
            number: dispatcher::number(answer),
            place: dispatcher::place(answer),
        }
    }
}

impl From<LoadReport> for PlainLoadReport {
    ghost from_gives = { λ told plain. plain ≡ plain_load_of told };

    fn from(told: LoadReport) -> PlainLoadReport {
        PlainLoadReport {
            report: told.report.into(),
            index: told.index,
        }
    }
}

impl From<Result<Layout, Fault>> for PlainLayout {
    ghost from_gives = { λ reading plain. plain ≡ plain_reading reading };

    fn from(reading: Result<Layout, Fault>) -> PlainLayout {
        match reading {
            Ok(layout) => PlainLayout {
                number: 0,
                cores: layout.cores,
                records: layout.records,
                events: layout.events,
                offset: 0,
            },
            Err(fault) => PlainLayout {
                number: fault.refusal.number(),
                cores: 0,
                records: 0,
                events: 0,
                offset: fault.offset,
            },
        }
    }
}

impl From<Option<TaskRecord>> for PlainRecord {
    ghost from_gives = { λ task plain. plain ≡ plain_record task };

    fn from(task: Option<TaskRecord>) -> PlainRecord {
        match task {
            Some(
                TaskRecord {
                    slot,
                    priority,
                    mask,
                },
            ) => PlainRecord {
                found: true,
                slot,
                priority,
                mask,
            },
            None => PlainRecord {
                found: false,
                slot: 0,
                priority: 0,
                mask: 0,
            },
        }
    }
}

impl From<Option<FileEvent>> for PlainEvent {
    ghost from_gives = { λ event plain. plain ≡ plain_event event };

    fn from(event: Option<FileEvent>) -> PlainEvent {
        match event {
            Some(FileEvent { kind, slot }) => PlainEvent {
                found: true,
                kind,
                slot,
            },
            None => PlainEvent {
                found: false,
                kind: 0,
                slot: 0,
            },
        }
    }
}

// What a writer says, of lines or of core sets.
impl<R: Into<PlainAnswer>> From<Result<usize, R>> for PlainWritten {
    ghost from_gives = { WrittenBy R.converts };

    fn from(written: Result<usize, R>) -> PlainWritten {
        match written {
            Ok(length) => PlainWritten {
                number: 0,
                place: 0,
                length,
            },
            Err(refusal) => {
                let plain = refusal.into();
                PlainWritten {
                    number: plain.number,
                    place: plain.place,
                    length: 0,
                }
            }
        }
    }
}

// The lent dispatcher becomes that of the call by value, and its report is told.
fn in_place(made: Outcome, d: &mut Dispatcher) -> PlainReport
    ensures stored { d.new ≡ made.dispatcher }
    ensures told { result ≡ plain_report_of made.report }
{
    *d = made.dispatcher;
    made.report.into()
}

// An empty dispatcher of so many cores; of one core where the count is refused.
#[unsafe(no_mangle)]
pub extern "C" fn makxirund_fresh(d: &mut Dispatcher, cores: u8) -> PlainReport
    ensures { InPlace (Freshly cores) d.new result }
{
    in_place(Dispatcher::fresh(cores), d)
}

#[unsafe(no_mangle)]
pub extern "C" fn makxirund_create(
    d: &mut Dispatcher,
    slot: u16,
    priority: u8,
    mask: u32,
) -> PlainReport
    ensures { InPlace (Creates d.old slot priority mask) d.new result }
{
    in_place(tasks::create(*d, slot, priority, mask), d)
}

#[unsafe(no_mangle)]
pub extern "C" fn makxirund_delete(d: &mut Dispatcher, slot: u16) -> PlainReport
    ensures { InPlace (Deletes d.old slot) d.new result }
{
    in_place(deletion::delete(*d, slot), d)
}

#[unsafe(no_mangle)]
pub extern "C" fn makxirund_wake(d: &mut Dispatcher, slot: u16) -> PlainReport
    ensures { InPlace (Wakes d.old slot) d.new result }
{
    in_place(readiness::wake(*d, slot), d)
}

#[unsafe(no_mangle)]
pub extern "C" fn makxirund_block(d: &mut Dispatcher, slot: u16) -> PlainReport
    ensures { InPlace (Blocks d.old slot) d.new result }
{
    in_place(readiness::block(*d, slot), d)
}

// Creates every record of the list, or none.
#[unsafe(no_mangle)]
pub extern "C" fn makxirund_load(d: &mut Dispatcher, list: &[TaskRecord]) -> PlainLoadReport
    ensures { LoadsInPlace (Loads d.old list.now) d.new result }
{
    let made = boot::load(*d, list);
    *d = made.dispatcher;
    made.report.into()
}

// What is unsound, and where; 0 and 0 where the dispatcher is sound.
#[unsafe(no_mangle)]
pub extern "C" fn makxirund_sound(d: &Dispatcher) -> PlainAnswer
    ensures { InPlain (Answered (unsound_refusals d.now) d.now) plain_answer result }
{
    soundness::check(*d).into()
}

// The layout of a well-formed file, or its first fault.
#[unsafe(no_mangle)]
pub extern "C" fn makxirund_read(file: &[u8]) -> PlainLayout
    ensures { InPlain (Reads file.now) plain_reading result }
{
    files::read(file).into()
}

// Record i of a file, where it has one.
#[unsafe(no_mangle)]
pub extern "C" fn makxirund_record(file: &[u8], i: usize) -> PlainRecord
    ensures { InPlain (ReadsRecord file.now i) plain_record result }
{
    files::record(file, i).into()
}

// Event i of a file, where it has one.
#[unsafe(no_mangle)]
pub extern "C" fn makxirund_event(file: &[u8], i: usize) -> PlainEvent
    ensures { InPlain (ReadsEvent file.now i) plain_event result }
{
    files::event(file, i).into()
}

// One line, with the seats of the dispatcher.
#[unsafe(no_mangle)]
pub extern "C" fn makxirund_line(line: Line, d: &Dispatcher, buffer: &mut [u8]) -> PlainWritten
    ensures { InPlain (Writes line d.now buffer.old buffer.new) plain_written_of result }
{
    lines::write(line, *d, buffer).into()
}

// The one line of a refused file.
#[unsafe(no_mangle)]
pub extern "C" fn makxirund_fault(number: u8, offset: usize, buffer: &mut [u8]) -> PlainWritten
    ensures { InPlain (WritesFault number offset buffer.old buffer.new) plain_written_of result }
{
    lines::write_fault(number, offset, buffer).into()
}

// The set that a List text means, or the first fault of the text.
#[unsafe(no_mangle)]
pub extern "C" fn makxirund_read_list(text: &[u8], limit: u8) -> PlainReading
    ensures { InPlain (ReadsList (cores_of limit) text.now) plain_of result }
{
    cpulists::read(text, limit).into()
}

// The set that a Mask text means, or the first fault of the text.
#[unsafe(no_mangle)]
pub extern "C" fn makxirund_read_mask(text: &[u8], limit: u8) -> PlainReading
    ensures { InPlain (ReadsMask (cores_of limit) text.now) plain_of result }
{
    cpumasks::read(text, limit).into()
}

// The one List text of a set.
#[unsafe(no_mangle)]
pub extern "C" fn makxirund_write_list(set: u64, limit: u8, buffer: &mut [u8]) -> PlainWritten
    ensures { InPlain (WritesList (cores_of limit) set buffer.old buffer.new) plain_text_of result }
{
    cpulists::write(set, limit, buffer).into()
}

// The one Mask text of a set.
#[unsafe(no_mangle)]
pub extern "C" fn makxirund_write_mask(set: u64, limit: u8, buffer: &mut [u8]) -> PlainWritten
    ensures { InPlain (WritesMask (cores_of limit) set buffer.old buffer.new) plain_text_of result }
{
    cpumasks::write(set, limit, buffer).into()
}

// The dispatcher by value: its type and limits, a fresh one, and what every call answers and reports.
#![tactic(auto)]

ghost use Rattle.std.specs.Prelude.{◌≡◌};
ghost use Rattle.laws.specs.Decides.{Decides};
ghost use Rattle.dispatcher.specs.Limits.{LegalCount};
ghost use Rattle.dispatcher.specs.Slots.{Used, Ready};
ghost use Rattle.dispatcher.specs.Answers.{refusal_number, refusal_place, number_of, place_of};
ghost use Rattle.dispatcher.specs.Reports.{still_of, plain_of};
ghost use Rattle.dispatcher.specs.Fresh.{empty_of, Freshly};

#[repr(C)]
#[derive(Clone, Copy, Debug, PartialEq, Eq)]
pub struct Task {
    pub priority: u8,
    pub mask: u32,
}

impl Task {
    // What an empty slot holds.
    pub const EMPTY: Task = Task {
        priority: 0,
        mask: 0,
    };

    // A slot whose priority and mask are both 0 is empty.
    pub fn is_used(self) -> bool
        ensures { Decides (Used self) result }
    {
        self != Task::EMPTY
    }
}

#[repr(C)]
#[derive(Clone, Copy, Debug, PartialEq, Eq)]
pub struct Dispatcher {
    pub cores: u8,
    // The task of each slot.
    pub tasks: [Task; Dispatcher::SLOTS],
    // The ready slots in the order in which they woke, then NONE.
    pub order: [u16; Dispatcher::SLOTS],
    // The slot that runs on each core, or NONE.
    pub seats: [u16; Dispatcher::CORES],
}

// A task and the slot that it is to fill, as boot lists and event files name it.
#[repr(C)]
#[derive(Clone, Copy, Debug, PartialEq, Eq)]
pub struct TaskRecord {
    pub slot: u16,
    pub priority: u8,
    pub mask: u32,
}

// Why a call is refused. Those whose names begin with Unsound say why a dispatcher is not sound, and carry the count found or the lowest
// slot, place or core. `number` gives the papers' number; 1, which once stood for all five, and 11, which delete of a ready task once gave,
// are no refusal's.
#[derive(Clone, Copy, Debug, PartialEq, Eq)]
pub enum Refusal {
    UnsoundCount(u16),
    UnsoundSlot(u16),
    UnsoundPlace(u16),
    UnsoundMissingCore(u16),
    UnsoundSeat(u16),
    CoreCount,
    SlotAbove,
    SlotInUse,
    SlotEmpty,
    PriorityZero,
    MaskEmpty,
    MissingCore,
    AlreadyReady,
    NotReady,
    FileShort,
    BytesAfter,
    BadKind,
    LineLong,
    EventCount,
}

impl Refusal {
    pub fn number(self) -> u8
        ensures { result ≡ refusal_number self }
    {
        match self {
            Refusal::UnsoundCount(_) => 21,
            Refusal::UnsoundSlot(_) => 22,
            Refusal::UnsoundPlace(_) => 23,
            Refusal::UnsoundMissingCore(_) => 24,
            Refusal::UnsoundSeat(_) => 25,
            Refusal::CoreCount => 2,
            Refusal::SlotAbove => 3,
            Refusal::SlotInUse => 4,
            Refusal::SlotEmpty => 5,
            Refusal::PriorityZero => 6,
            Refusal::MaskEmpty => 7,
            Refusal::MissingCore => 8,
            Refusal::AlreadyReady => 9,
            Refusal::NotReady => 10,
            Refusal::FileShort => 12,
            Refusal::BytesAfter => 13,
            Refusal::BadKind => 14,
            Refusal::LineLong => 15,
            Refusal::EventCount => 16,
        }
    }

    // Where a dispatcher is not sound; 0 where the refusal is another.
    pub fn place(self) -> u16
        ensures { result ≡ refusal_place self }
    {
        match self {
            Refusal::UnsoundCount(count) => count,
            Refusal::UnsoundSlot(slot) => slot,
            Refusal::UnsoundPlace(place) => place,
            Refusal::UnsoundMissingCore(core) | Refusal::UnsoundSeat(core) => core,
            _ => 0,
        }
    }
}

// What a call answers.
pub type Answer = Result<(), Refusal>;

// 0 where it is done.
pub fn number(answer: Answer) -> u8
    ensures { result ≡ number_of answer }
{
    match answer {
        Ok(()) => 0,
        Err(refusal) => refusal.number(),
    }
}

pub fn place(answer: Answer) -> u16
    ensures { result ≡ place_of answer }
{
    match answer {
        Ok(()) => 0,
        Err(refusal) => refusal.place(),
    }
}

#[derive(Clone, Copy, Debug, PartialEq, Eq)]
pub struct Report {
    pub answer: Answer,
    pub moves: u8,
    // The slot that started, or NONE, and the slot that stopped, or NONE.
    pub started: u16,
    pub stopped: u16,
}

// A report for C: the answer's number and place in place of the answer.
#[repr(C)]
#[derive(Clone, Copy, Debug, PartialEq, Eq)]
pub struct PlainReport {
    pub number: u8,
    pub moves: u8,
    pub started: u16,
    pub stopped: u16,
    pub place: u16,
}

impl Report {
    // Nobody moved, started or stopped.
    pub fn still(answer: Answer) -> Report
        ensures { result ≡ still_of answer }
    {
        Report {
            answer,
            moves: 0,
            started: Dispatcher::NONE,
            stopped: Dispatcher::NONE,
        }
    }
}

impl From<Report> for PlainReport {
    ghost from_gives = { λ report plain. plain ≡ plain_of report };

    fn from(report: Report) -> PlainReport {
        PlainReport {
            number: number(report.answer),
            moves: report.moves,
            started: report.started,
            stopped: report.stopped,
            place: place(report.answer),
        }
    }
}

// What a call by value gives back.
#[derive(Clone, Copy, Debug, PartialEq, Eq)]
pub struct Outcome {
    pub report: Report,
    pub dispatcher: Dispatcher,
}

impl Dispatcher {
    // At most this many cores: a mask has a bit for each.
    pub const CORES: usize = masks::WIDTH;

    pub const SLOTS: usize = 128;

    // The mark of an unused place and of an idle core.
    pub const NONE: u16 = 255;

    // At most this many events stand in an event file.
    pub const EVENTS: usize = 16_000;

    pub fn legal_count(cores: u8) -> bool
        ensures { Decides (LegalCount cores) result }
    {
        1 <= cores && usize::from(cores) <= Dispatcher::CORES
    }

    fn empty(cores: u8) -> Dispatcher
        ensures { result ≡ empty_of cores }
    {
        Dispatcher {
            cores,
            tasks: [Task::EMPTY; Dispatcher::SLOTS],
            order: [Dispatcher::NONE; Dispatcher::SLOTS],
            seats: [Dispatcher::NONE; Dispatcher::CORES],
        }
    }

    // An empty dispatcher of so many cores; of one core where the count is refused.
    pub fn fresh(cores: u8) -> Outcome
        ensures { Freshly cores result }
    {
        if Dispatcher::legal_count(cores) {
            Outcome {
                report: Report::still(Ok(())),
                dispatcher: Dispatcher::empty(cores),
            }
        } else {
            Outcome {
                report: Report::still(Err(Refusal::CoreCount)),
                dispatcher: Dispatcher::empty(1),
            }
        }
    }

    // Whether the slot stands in the wake order.
    pub fn is_ready(self, slot: u16) -> bool
        ensures { Decides (Ready self slot) result }
    {
        if Dispatcher::SLOTS <= usize::from(slot) {
            return false;
        }
        // No exit at the place where it stands, so the compiler compares many places at once; `contains` takes seven times the instructions.
        let mut found = false;
        for stands in &self.order {
            found |= *stands == slot;
        }
        found
    }
}

// What the List and Mask formats of Linux cpuset(7) share: sets of cores, the limit on cores, and what readers and writers of text answer. A set is a word,
// bit k for core k.
#![tactic(auto)]

ghost use Rattle.std.specs.Prelude.{◌≡◌};
ghost use Rattle.cpusets.specs.Answers.{number_of};
ghost use Rattle.cpusets.specs.Limit.{cores_of};
ghost use Rattle.cpusets.specs.Reading.{plain_of};
ghost use Rattle.cpusets.specs.Writing.{Equals, WritesText};

// Why a text or a set is refused. `number` gives the number of request 2.
#[derive(Clone, Copy, Debug, PartialEq, Eq)]
pub enum Refusal {
    Unexpected,
    Backward,
    AboveLimit,
    OutputShort,
}

impl Refusal {
    pub fn number(self) -> u8
        ensures { result ≡ number_of self }
    {
        match self {
            Refusal::Unexpected => 17,
            Refusal::Backward => 18,
            Refusal::AboveLimit => 19,
            Refusal::OutputShort => 20,
        }
    }
}

// Why a text means no set, and where.
#[derive(Clone, Copy, Debug, PartialEq, Eq)]
pub struct Fault {
    pub refusal: Refusal,
    pub offset: usize,
}

// What a reader answers, for C: the number and the offset are 0 where a set was read, and the set is empty where none was.
#[repr(C)]
#[derive(Clone, Copy)]
pub struct PlainReading {
    pub number: u8,
    pub offset: usize,
    pub set: u64,
}

impl From<Result<u64, Fault>> for PlainReading {
    ghost from_gives = { λ reading plain. plain ≡ plain_of reading };

    fn from(reading: Result<u64, Fault>) -> PlainReading {
        match reading {
            Ok(set) => PlainReading {
                number: 0,
                offset: 0,
                set,
            },
            Err(fault) => PlainReading {
                number: fault.refusal.number(),
                offset: fault.offset,
                set: EMPTY,
            },
        }
    }
}

// The set without a core.
pub const EMPTY: u64 = 0;

// The bits of a set, and so the most cores that a text can name.
pub const WIDTH: u8 = masks::SET_WIDTH as u8;

// How many cores a limit allows: one above the bits of a set counts as those.
pub fn cores(limit: u8) -> u8
    ensures { result ≡ cores_of limit }
{
    limit.min(WIDTH)
}

// Hands a text over to the lent buffer and gives its length, or refuses where the buffer is too short.
pub fn hand_over(text: &[u8], buffer: &mut [u8]) -> Result<usize, Refusal>
    ensures { WritesText (Equals text.now) buffer.old buffer.new result }
{
    texts::hand_over(text, buffer).ok_or(Refusal::OutputShort)
}

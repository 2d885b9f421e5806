// Sets of cores in the List format of Linux cpuset(7), as `0-4,9`. The cores that a text may name are those below a limit, of which one above 64 counts as 64.
#![tactic(auto)]

ghost use Rattle.std.specs.Prelude.{◌+◌, ◌*◌, ◌≤◌, ◌<◌, ◌++◌, min, ◌≡◌, length};
ghost use Rattle.cpusets.specs.Limit.{set_bits, cores_of};
ghost use Rattle.cpulists.specs.List.{ListOf};
ghost use Rattle.cpulists.specs.Promise.{ReadsList, WritesList};
ghost use Rattle.cpulists.specs.Progress.{ReadsNumber, Wants, FindsNumber, Opens, ReadTo, ReadsPiece, Spans, Walks, LowestRun, run_text, list_room};

use arrayvec::ArrayVec;
use cpusets::{Fault, Refusal};

// No text that we write has more bytes: three for each core, two digits and what parts it from the next.
pub const ROOM: usize = 3 * masks::SET_WIDTH;

// Digits from a place on: where they end, and what they say.
#[derive(Clone, Copy)]
struct Number {
    end: usize,
    value: u8,
}

// Cores without a gap, from the first to the last.
#[derive(Clone, Copy)]
struct Run {
    first: u8,
    last: u8,
}

impl Run {
    // The lowest run of a set: its lowest core, and those behind it up to the first that it has not.
    fn lowest(set: u64) -> Run
        requires { 0 < set }
        ensures { LowestRun set result.first result.last }
    {
        let first = set.trailing_zeros() as u8;
        let cores = (set >> first).trailing_ones() as u8;
        Run {
            first,
            last: first + cores - 1,
        }
    }

    // The set that has these cores, and no other.
    fn to_set(self) -> u64
        requires { (self.first ≤ self.last) × (self.last < set_bits) }
        ensures { Spans self.first self.last result }
    {
        (u64::MAX >> (63 - (self.last - self.first))) << self.first
    }

    // Puts the run behind a text, after a comma where it is not the first.
    fn put(self, text: &mut ArrayVec<u8, ROOM>)
        requires { length text.old.items + length (run_text (length text.old.items) (record { first = self.first; last = self.last })) ≤ list_room }
        ensures { text.new.items ≡ text.old.items ++ run_text (length text.old.items) (record { first = self.first; last = self.last }) }
    {
        if !text.is_empty() {
            text.push(b',');
        }
        decimals::push(text, u64::from(self.first));
        if self.first != self.last {
            text.push(b'-');
            decimals::push(text, u64::from(self.last));
        }
    }
}

// A number or a range, and where it ends.
#[derive(Clone, Copy)]
struct Piece {
    run: Run,
    end: usize,
}

// The next place to read, and the set so far.
#[derive(Clone, Copy)]
struct Walk {
    place: usize,
    set: u64,
}

// A text, and how many cores there may be.
#[derive(Clone, Copy)]
struct Reader<'a> {
    text: &'a [u8],
    cores: u8,
    ghost few: { cores ≤ set_bits },
}

impl Reader<'_> {
    // One digit more; the number of cores stands for every value that is not below it, so that no number is too long.
    fn more(&self, value: u8, digit: u8) -> u8
        ensures { result ≡ min (10 * value + digit) self.now.cores }
    {
        (10 * u16::from(value) + u16::from(digit)).min(u16::from(self.cores)) as u8
    }

    fn digits(&self, at: usize) -> Number
        requires { at ≤ length self.now.text.now }
        ensures { ReadsNumber self.now.cores self.now.text.now at result }
    {
        let mut value = 0;
        for (k, c) in self.text[at..].iter().enumerate() {
            if !c.is_ascii_digit() {
                return Number { end: at + k, value };
            }
            value = self.more(value, *c - b'0');
        }
        Number {
            end: self.text.len(),
            value,
        }
    }

    // The number at a place where one has to begin.
    fn number(&self, at: usize) -> Result<Number, Fault>
        requires { Wants self.now.cores self.now.text.now at }
        ensures { FindsNumber self.now.cores self.now.text.now at result }
    {
        let number = self.digits(at);
        if number.end == at {
            return Err(Fault {
                refusal: Refusal::Unexpected,
                offset: at,
            });
        }
        if self.cores <= number.value {
            return Err(Fault {
                refusal: Refusal::AboveLimit,
                offset: at,
            });
        }
        Ok(number)
    }

    // The number or range at a place where one has to begin.
    fn item(&self, at: usize) -> Result<Piece, Fault>
        requires { (at < length self.now.text.now) × Opens self.now.cores self.now.text.now at }
        ensures { ReadsPiece self.now.cores self.now.text.now at result }
    {
        let first = self.number(at)?;
        let Some(b'-') = self.text.get(first.end) else {
            let run = Run {
                first: first.value,
                last: first.value,
            };
            return Ok(Piece {
                run,
                end: first.end,
            });
        };
        let second = first.end + 1;
        let last = self.number(second)?;
        if last.value < first.value {
            return Err(Fault {
                refusal: Refusal::Backward,
                offset: second,
            });
        }
        let run = Run {
            first: first.value,
            last: last.value,
        };
        Ok(Piece { run, end: last.end })
    }

    // An item, and the comma or the end that has to follow it. After a comma the text can't end.
    fn advance(&self, walk: Walk) -> Result<Walk, Fault>
        requires { (walk.place < length self.now.text.now) × ReadTo self.now.cores self.now.text.now walk.place walk.set }
        ensures { Walks self.now.cores self.now.text.now walk.place result }
    {
        let item = self.item(walk.place)?;
        let set = walk.set | item.run.to_set();
        match &self.text[item.end..] {
            [] => Ok(Walk {
                place: item.end,
                set,
            }),
            [b',', _, ..] => Ok(Walk {
                place: item.end + 1,
                set,
            }),
            [b','] => Err(Fault {
                refusal: Refusal::Unexpected,
                offset: item.end + 1,
            }),
            _ => Err(Fault {
                refusal: Refusal::Unexpected,
                offset: item.end,
            }),
        }
    }
}

// The set that a List text means.
pub fn read(text: &[u8], limit: u8) -> Result<u64, Fault>
    ensures { ReadsList (cores_of limit) text.now result }
{
    let reader = Reader {
        text,
        cores: cpusets::cores(limit),
    };
    let mut walk = Walk { place: 0, set: 0 };
    // A turn goes as far as the item that it reads, so that no `for` has the places.
    while walk.place < text.len() {
        walk = reader.advance(walk)?;
    }
    Ok(walk.set)
}

// The one List text of a set.
fn list_of(set: u64) -> ArrayVec<u8, ROOM>
    ensures { ListOf set result.items }
{
    let mut text = ArrayVec::new();
    let mut left = set;
    // A turn takes the lowest run out, so that there are as many turns as runs, where a `for` over the cores has 64.
    while left != 0 {
        let run = Run::lowest(left);
        run.put(&mut text);
        left &= !run.to_set();
    }
    text
}

// Writes the one List text of a set.
pub fn write(set: u64, limit: u8, buffer: &mut [u8]) -> Result<usize, Refusal>
    ensures { WritesList (cores_of limit) set buffer.old buffer.new result }
{
    if masks::names_missing(set, cpusets::cores(limit)) {
        return Err(Refusal::AboveLimit);
    }
    cpusets::hand_over(&list_of(set), buffer)
}

// Reads an event file on standard input and replays it. After each call's line stands `agree`, or `differ SLOT` with the lowest slot that the plain engine keeps
// and the dispatcher does not run, or the other way round; the last line counts the lines that agree. A refused file has the one line that says why.
#![tactic(auto)]

ghost use Rattle.std.specs.Prelude.{◌<◌, ◌≡◌};
ghost use Rattle.files.specs.Reading.{Reads};
ghost use Rattle.bench.specs.Tally.{counted_of};
ghost use Rattle.bench.specs.Text.{place_text, verdict_text, last_text};

use arrayvec::ArrayVec;
use dispatcher::Dispatcher;
use files::Layout;
use lines::Line;
use std::io;
use std::io::Print;

// A line where engine and dispatcher differ, and the lowest slot that differs there.
#[derive(Clone, Copy, Debug, PartialEq, Eq)]
struct Difference {
    line: usize,
    slot: u16,
}

impl Difference {
    // Where that is.
    #[tactic(auto, using(crate::proofs::Texts::number_longest, crate::proofs::Texts::slot_longest, crate::proofs::Texts::place_put))]
    fn place(self) -> ArrayVec<u8, LONGEST_PLACE>
        ensures { result.items ≡ place_text self }
    {
        let mut text = ArrayVec::new();
        texts::put(&mut text, b"line ");
        decimals::push(&mut text, self.line as u64);
        texts::put(&mut text, b" slot ");
        decimals::push(&mut text, u64::from(self.slot));
        text
    }
}

// Of the lines so far: how many agree, and the first that does not.
#[derive(Clone, Copy, Debug, PartialEq, Eq)]
struct Tally {
    agree: usize,
    first: Option<Difference>,
}

impl Tally {
    // With one more line, by its number and the lowest slot that differs there.
    fn counted(self, line: usize, differs: Option<u16>) -> Tally
        requires { self.agree < line }
        ensures { result ≡ counted_of self line differs }
    {
        match differs {
            None => Tally {
                agree: self.agree + 1,
                ..self
            },
            Some(slot) => Tally {
                first: self.first.or(Some(Difference { line, slot })),
                ..self
            },
        }
    }
}

// No place of a difference has more bytes.
const LONGEST_PLACE: usize = 36;

// No verdict has more, its newline included.
const LONGEST_VERDICT: usize = 13;

// No last line has more.
const LONGEST_LAST: usize = 106;

// What is said after a line: whether it agrees, or the lowest slot that differs.
#[tactic(auto, using(crate::proofs::Texts::slot_longest, crate::proofs::Texts::differ_put))]
fn verdict_line(differs: Option<u16>) -> ArrayVec<u8, LONGEST_VERDICT>
    ensures { result.items ≡ verdict_text differs }
{
    let mut text = ArrayVec::new();
    match differs {
        None => texts::put(&mut text, b"agree\n"),
        Some(slot) => {
            texts::put(&mut text, b"differ ");
            decimals::push(&mut text, u64::from(slot));
            text.push(b'\n');
        }
    }
    text
}

// What is said at the end of so many lines.
#[tactic(auto, using(crate::proofs::Texts::agree_put))]
fn last_line(tally: Tally, lines: usize) -> ArrayVec<u8, LONGEST_LAST>
    ensures { result.items ≡ last_text tally lines }
{
    let mut text = ArrayVec::new();
    texts::put(&mut text, b"agree ");
    decimals::push(&mut text, tally.agree as u64);
    match tally.first {
        None => text.push(b'\n'),
        Some(first) => {
            texts::put(&mut text, b" of ");
            decimals::push(&mut text, lines as u64);
            texts::put(&mut text, b", first difference ");
            texts::put(&mut text, &first.place());
            text.push(b'\n');
        }
    }
    text
}

// Prints the day, or fails where it can't be written.
fn print_day(rt: &impl Print, file: &[u8], layout: Layout) -> io::Result<()>
    requires { Reads file.now (Ok layout) }
{
    let calls = layout.records + layout.events;
    let mut d = Dispatcher::fresh(layout.cores).dispatcher;
    let mut tally = Tally {
        agree: 0,
        first: None,
    };
    for k in 0..calls {
        // Lent to the step, whose promise names the bytes; a line has room whatever its numbers are.
        let mut line = [0u8; Line::LONGEST];
        let Ok(Some(stepped)) = days::step(file, k, d, &mut line) else {
            break;
        };
        d = stepped.dispatcher;
        // No comparison is refused: a day's dispatcher is sound (`day_agrees`).
        let differs = engine::compare(d).unwrap_or(None);
        rt.write_all(&line[..stepped.length])?;
        rt.write_all(&verdict_line(differs))?;
        tally = tally.counted(k + 1, differs);
    }
    rt.write_all(&last_line(tally, calls))
}

fn print(rt: &impl Print, file: &[u8]) -> io::Result<()> {
    match files::read(file) {
        Ok(layout) => print_day(rt, file, layout),
        Err(fault) => rt.write_all(&days::fault_line(fault)),
    }
}

// As replay begins and ends: one function of both would be passed what each prints, and be no shorter.
fn main(rt: HostRuntime) {
    let mut file = files::room();
    let n = match host::read_full(&mut rt.stdin(), &mut file) {
        Ok(n) => n,
        Err(error) => return host::fail(&rt, "standard input", error),
    };
    if let Err(error) = print(&rt, &file[..n]) {
        host::fail(&rt, "standard output", error);
    }
}

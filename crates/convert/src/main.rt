// Turns core sets from one format of Linux cpuset(7) into the other, line by line, from standard input to standard output. Its first argument is the format
// that it reads, `list` or `mask`; its second is the limit on cores, 1 to 64, and 32 where there is none. A line that is refused gives `refused N at OFFSET`.
#![tactic(auto)]

ghost use Rattle.std.specs.Prelude.{◌≡◌, ◌≤◌, ◌<◌, ℕ, List, [], length, Ok, IfOk};
ghost use Rattle.masks.specs.Masks.{NamesMissing};
ghost use Rattle.cpusets.specs.Answers.{Reading};
ghost use Rattle.cpusets.specs.Limit.{set_bits, cores_of};
ghost use Rattle.cpusets.specs.Writing.{Writes};
ghost use Rattle.cpulists.specs.List.{ListOf};
ghost use Rattle.cpulists.specs.Progress.{list_room};
ghost use Rattle.cpulists.specs.Promise.{ReadsList};
ghost use Rattle.cpumasks.specs.Mask.{words_of, MaskOf};
ghost use Rattle.cpumasks.specs.Promise.{ReadsMask};
ghost use Rattle.convert.specs.Turn.{LineOf, Turns};
ghost use Rattle.cpulists.proofs.Back.{faultless_below as list_below};
ghost use Rattle.cpulists.proofs.Room.{list_room_lem};
ghost use Rattle.cpumasks.proofs.Back.{faultless_below as mask_below};
ghost use Rattle.cpumasks.proofs.Room.{mask_room_lem};
ghost use Rattle.std.proofs.Common.{le_trans, lit≤};

use arrayvec::ArrayVec;
use cpusets::{Fault, Refusal};
use std::io::{Eprint, Print, Read};
use std::rt::Env;
use std::{io, str};

// No line that we print has more bytes, its newline included: no refusal and no mask is as long as the longest list.
const ROOM: usize = cpulists::ROOM + 1;

// The format that is read, and with it the other one, which is written; n is how many cores there may be. One type says both, so that no use of it can write
// what it reads.
trait Format {
    // What is promised of reading a text.
    ghost ReadsIn: { ℕ → List ℕ → Reading → Type 0 };

    // Which text a set has in the other format.
    ghost TextOut: { ℕ → ℕ → List ℕ → Type 0 };

    fn read(text: &[u8], limit: u8) -> Result<u64, Fault>
        ensures { ReadsIn (cores_of limit) text.now result };

    fn write(set: u64, limit: u8, buffer: &mut [u8]) -> Result<usize, Refusal>
        ensures { Writes (TextOut (cores_of limit) set) (cores_of limit) set buffer.old buffer.new result };

    // A set that was read has no core at or above the limit.
    ghost reads_below: { (n s : ℕ) (t : List ℕ) → ReadsIn n t (Ok s) → NamesMissing n s → ⊥ };

    // Its text in the other format is no longer than the longest list.
    ghost text_longest: { (n s : ℕ) (t : List ℕ) → n ≤ set_bits → (NamesMissing n s → ⊥) → TextOut n s t → length t ≤ list_room };
}

// A List is read, and a Mask is written.
struct List;

impl Format for List {
    ghost ReadsIn = { ReadsList };

    ghost TextOut = { λ n s t. MaskOf (words_of n) s t };

    fn read(text: &[u8], limit: u8) -> Result<u64, Fault> {
        cpulists::read(text, limit)
    }

    fn write(set: u64, limit: u8, buffer: &mut [u8]) -> Result<usize, Refusal> {
        cpumasks::write(set, limit, buffer)
    }

    ghost reads_below = { λ n s t h. list_below h.0 h.1 };

    ghost text_longest = { λ n s t few none m. le_trans (mask_room_lem few m) (lit≤ tt) };
}

// A Mask is read, and a List is written.
struct Mask;

impl Format for Mask {
    ghost ReadsIn = { ReadsMask };

    ghost TextOut = { λ n s t. ListOf s t };

    fn read(text: &[u8], limit: u8) -> Result<u64, Fault> {
        cpumasks::read(text, limit)
    }

    fn write(set: u64, limit: u8, buffer: &mut [u8]) -> Result<usize, Refusal> {
        cpulists::write(set, limit, buffer)
    }

    ghost reads_below = { λ n s t h. mask_below h.0 h.1 };

    ghost text_longest = { λ n s t few none w. list_room_lem few none w };
}

// Puts the line of a set.
fn put_set<F: Format>(line: &mut ArrayVec<u8, ROOM>, set: u64, limit: u8)
    requires nothing { line.old.items ≡ [] }
    requires below { NamesMissing (cores_of limit) set → ⊥ }
    ensures { LineOf (F.TextOut (cores_of limit) set) line.new.items }
{
    // The writers put a text into lent bytes, as C has it.
    let mut text = [0u8; ROOM];
    let length = F::write(set, limit, &mut text).unwrap();
    texts::put(line, &text[..length]);
    line.push(b'\n');
}

// Puts what one line gives: the set that it means in the other format, or why it means none.
#[tactic(auto, using(decimals::proofs::Fault::fault_longest))]
fn turn<F: Format>(line: &mut ArrayVec<u8, ROOM>, text: &[u8], limit: u8)
    requires { line.old.items ≡ [] }
    ensures { Turns (F.ReadsIn (cores_of limit) text.now) (F.TextOut (cores_of limit)) line.new.items }
{
    match F::read(text, limit) {
        Ok(set) => put_set::<F>(line, set, limit),
        Err(fault) => decimals::push_fault(line, fault.refusal.number(), fault.offset),
    }
}

// Why the program stops before its input ends.
#[derive(Clone, Copy)]
enum Stop {
    Input(io::Error),
    Output(io::Error),
    LineLong,
}

// Prints what one line gives.
fn print_line<F: Format>(rt: &impl Print, text: &[u8], limit: u8) -> Result<(), Stop> {
    let mut line = ArrayVec::new();
    turn::<F>(&mut line, text, limit);
    rt.write_all(&line).map_err(Stop::Output)
}

// The bytes that were read and whose lines are still to be printed. Memory is fixed, so they are lent. Those at the start are held back, of a line whose
// newline has not come.
#[derive(Drop)]
struct Window<'a> {
    bytes: &'a mut [u8],
    held: usize,
    ghost has_room: { held < length bytes.now },
}

impl Window<'_> {
    // Prints what each line gives that has its newline, and tells where the last of them ends. Among the bytes that are held back there is none.
    fn print_lines<F: Format>(
        &self,
        rt: &impl Print,
        filled: usize,
        limit: u8,
    ) -> Result<usize, Stop>
        requires { (self.now.held ≤ filled) × (filled ≤ length self.now.bytes.now) }
        ensures { IfOk result (λ n. n ≤ filled) }
    {
        let Some(last) = self.bytes[self.held..filled]
            .iter()
            .rposition(|c| *c == b'\n')
        else {
            return Ok(0);
        };
        let end = self.held + last;
        for line in self.bytes[..end].split(|c| *c == b'\n') {
            print_line::<F>(rt, line, limit)?;
        }
        Ok(end + 1)
    }

    // Holds back the bytes between two places, a line that has begun: moves them to the start. One that fills the window is too long, and the lines after it
    // are left too: where one is left out, what we print no longer stands line by line beside what we read.
    fn hold(&mut self, from: usize, to: usize) -> Result<(), Stop>
        requires { (from ≤ to) × (to ≤ length self.old.bytes.now) }
    {
        self.bytes.copy_within(from..to, 0);
        let held = to - from;
        if held == self.bytes.len() {
            return Err(Stop::LineLong);
        }
        self.held = held;
        Ok(())
    }

    // Reads once, and tells whether the input goes on. At its end the bytes that are held back are the last line.
    fn read_on<F: Format>(
        &mut self,
        rt: &impl Print,
        input: &mut impl Read,
        limit: u8,
    ) -> Result<bool, Stop> {
        let more = input
            .read(&mut self.bytes[self.held..])
            .map_err(Stop::Input)?;
        if more == 0 {
            if 0 < self.held {
                print_line::<F>(rt, &self.bytes[..self.held], limit)?;
            }
            return Ok(false);
        }
        let filled = self.held + more;
        let from = self.print_lines::<F>(rt, filled, limit)?;
        self.hold(from, filled)?;
        Ok(true)
    }
}

// Reads on until the input ends. A proved loop has to end, and nothing says that the input does: so it takes its turns from a range that no run uses up.
fn read_to_end<F: Format>(
    rt: &impl Print,
    input: &mut impl Read,
    bytes: &mut [u8],
    limit: u8,
) -> Result<(), Stop>
    requires { 0 < length bytes.old }
{
    let mut window = Window { bytes, held: 0 };
    for _ in 0..u64::MAX {
        if !window.read_on::<F>(rt, input, limit)? {
            break;
        }
    }
    Ok(())
}

// A line that does not fit, its newline included, is too long. The window stands on the stack, of which Linux gives a program 8 MiB unless it is told otherwise.
const WINDOW: usize = 4194304;

fn convert<F: Format>(rt: &impl Print, input: &mut impl Read, limit: u8) -> Result<(), Stop> {
    let mut window = [0u8; WINDOW];
    read_to_end::<F>(rt, input, &mut window, limit)
}

// A limit where none is given.
const USUAL_LIMIT: u8 = 32;

// The limit that a word says, if it is one.
fn limit_of(word: &[u8]) -> Option<u8> {
    // std reads a sign before a number, which no limit has.
    if word.starts_with(b"+") {
        return None;
    }
    let limit = str::from_utf8(word).ok()?.parse().ok()?;
    (1..=cpusets::WIDTH).contains(&limit).then_some(limit)
}

// The limit that the second argument says, or the usual one where it is the last.
fn limit(env: &impl Env) -> Option<u8> {
    match host::arg_count(env) {
        0..=2 => Some(USUAL_LIMIT),
        3 => {
            let mut word = [0u8; 64];
            limit_of(host::arg(env, 2, &mut word))
        }
        _ => None,
    }
}

fn usage(rt: &impl Eprint) {
    let _ = rt.eprintln("usage: convert list|mask [LIMIT], LIMIT from 1 to 64");
}

// Says on standard error why the program stops.
fn tell(rt: &impl Eprint, stop: Stop) {
    match stop {
        Stop::Input(error) => host::fail(rt, "standard input", error),
        Stop::Output(error) => host::fail(rt, "standard output", error),
        Stop::LineLong => {
            let _ = rt.eprintln("standard input: a line is too long");
        }
    }
}

fn main(rt: HostRuntime) {
    let Some(limit) = limit(&rt) else {
        return usage(&rt);
    };
    let mut word = [0u8; 4];
    let ended = match host::arg(&rt, 1, &mut word) {
        b"list" => convert::<List>(&rt, &mut rt.stdin(), limit),
        b"mask" => convert::<Mask>(&rt, &mut rt.stdin(), limit),
        _ => return usage(&rt),
    };
    if let Err(stop) = ended {
        tell(&rt, stop);
    }
}

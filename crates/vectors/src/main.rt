// Replays event files and compares what they print with stored lines, and the tasks that run after each call with those that the plain engine keeps. The
// arguments name pairs: an event file, and its lines; ` ok` says that both are as they should be.
#![tactic(auto)]

ghost use Rattle.files.specs.Reading.{Reads};

use dispatcher::Dispatcher;
use files::Layout;
use lines::Line;
use std::io::{Print, Read};
use std::rt::{Env, Files};
use std::{fs, str};

// Whether the stored lines go on with this text.
fn goes_on(stored: &mut impl Read, text: &[u8]) -> bool {
    let mut room = [0u8; days::BLOCK];
    // No longer text is told at once.
    let Some(next) = room.get_mut(..text.len()) else {
        return false;
    };
    matches!(host::read_full(stored, next), Ok(n) if &next[..n] == text)
}

fn is_at_end(stored: &mut impl Read) -> bool {
    matches!(stored.read(&mut [0]), Ok(0))
}

// Whether the plain engine keeps just the tasks that the dispatcher runs after each call of a day.
fn agrees(file: &[u8], layout: Layout) -> bool
    requires { Reads file.now (Ok layout) }
{
    let mut d = Dispatcher::fresh(layout.cores).dispatcher;
    for k in 0..layout.records + layout.events {
        // Lent to the step, whose promise names the bytes.
        let mut line = [0u8; Line::LONGEST];
        let Ok(Some(stepped)) = days::step(file, k, d, &mut line) else {
            return false;
        };
        d = stepped.dispatcher;
        if !matches!(engine::compare(d), Ok(None)) {
            return false;
        }
    }
    true
}

// Whether the event file prints what is stored next, and engine and dispatcher agree.
fn right_lines(file: &[u8], stored: &mut impl Read) -> bool {
    match files::read(file) {
        Ok(layout) => {
            let same = days::tell(file, layout, |lines| {
                if goes_on(stored, lines) {
                    Ok(())
                } else {
                    Err(())
                }
            });
            same.is_ok() && agrees(file, layout)
        }
        Err(fault) => goes_on(stored, &days::fault_line(fault)),
    }
}

// The file, if its name is text and it can be opened. unsound opens its files by the same two lines, whose outcome no contract can name.
fn open<R: Files>(files: &R, name: &[u8]) -> Option<R::File> {
    let path = str::from_utf8(name).ok()?;
    fs::open(files, path).ok()
}

// Whether the event file prints the stored lines and no more, and engine and dispatcher agree; nothing where one of them can't be opened or the event file can't
// be read.
fn judge<F: Read + Drop>(day: Option<F>, lines: Option<F>) -> Option<bool> {
    let mut day = day?;
    let mut stored = lines?;
    let mut file = files::room();
    let n = host::read_full(&mut day, &mut file).ok()?;
    Some(right_lines(&file[..n], &mut stored) && is_at_end(&mut stored))
}

// The system opens no file by a longer name.
const LONGEST_NAME: usize = 4096;

// One pair, by the places of its arguments. Both files are opened and the name is written before either is read, so that a pair that is never judged is named.
fn try_pair(rt: &(impl Env + Files + Print), day_at: usize, lines_at: usize) {
    let mut day = [0u8; LONGEST_NAME];
    let day = host::arg(rt, day_at, &mut day);
    let mut lines = [0u8; LONGEST_NAME];
    let lines = host::arg(rt, lines_at, &mut lines);
    let day_file = open(rt, day);
    let lines_file = open(rt, lines);
    // The one is written even where the other can't be, and the next pair is tried.
    let _ = rt.write_all(day);
    let right = judge(day_file, lines_file).unwrap_or(false);
    let _ = rt.println(if right { " ok" } else { " differs" });
}

fn main(rt: HostRuntime) {
    // The first argument is the program's own name.
    for pair in 0..host::arg_count(&rt) / 2 {
        try_pair(&rt, 2 * pair + 1, 2 * pair + 2);
    }
}

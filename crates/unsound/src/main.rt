// Says what is unsound in dispatchers that were dumped from memory. Each argument names a file with the bytes of C's `struct makxirund_dispatcher`; its line
// is `FILE NUMBER PLACE`, 0 and 0 where the dispatcher is sound, or `FILE is no dump` where the file can't be read, has a name that is not UTF-8, or has more or fewer bytes.
#![tactic(auto)]

ghost use Rattle.std.specs.Prelude.{◌+◌, ◌*◌, ◌≤◌, ◌<◌, ◌≡◌};
ghost use Rattle.dispatcher.specs.Limits.{slot_limit, none};
ghost use Rattle.dispatcher.specs.Slots.{no_task};
ghost use Rattle.files.specs.Layout.{lowest_first};
ghost use Rattle.unsound.specs.Dump.{TaskIn, NumberIn, Entries, Dumps};
ghost use Rattle.unsound.specs.Judge.{Judges};

use dispatcher::{Answer, Dispatcher, Task};
use std::io::{Eprint, Print};
use std::rt::{Env, Files};
use std::{array, fs, io, str};

// The tasks begin after the core count and padding.
const TASKS_AT: usize = 4;

// The bytes of a task: its priority, padding, and its mask.
const TASK: usize = 8;

const ORDER_AT: usize = TASKS_AT + TASK * Dispatcher::SLOTS;

// The bytes of an entry of the wake order and of a seat.
const ENTRY: usize = 2;

const SEATS_AT: usize = ORDER_AT + ENTRY * Dispatcher::SLOTS;

// The bytes of a dump.
const DUMP: usize = SEATS_AT + ENTRY * Dispatcher::CORES;

fn task_at(dump: &[u8; DUMP], slot: usize) -> Task
    requires { slot < slot_limit }
    ensures { TaskIn dump.now slot result }
{
    let at = TASKS_AT + TASK * slot;
    let [priority, _, _, _, a, b, c, d] = *dump[at..].first_chunk::<TASK>().unwrap();
    Task {
        priority,
        mask: u32::from_le_bytes([a, b, c, d]),
    }
}

fn tasks_of(dump: &[u8; DUMP]) -> [Task; Dispatcher::SLOTS]
    ensures { Entries slot_limit (TaskIn dump.now) no_task result }
{
    array::from_fn(|slot| task_at(dump, slot))
}

fn number_at(dump: &[u8; DUMP], at: usize) -> u16
    requires { at + 2 ≤ 1348 }
    ensures { result ≡ lowest_first 2 dump.now at }
{
    u16::from_le_bytes([dump[at], dump[at + 1]])
}

// Entries, as of the wake order or of the seats: the numbers that stand one after the other from a place on.
fn entries<const N: usize>(dump: &[u8; DUMP], at: usize) -> [u16; N]
    requires { at + 2 * N ≤ 1348 }
    ensures { Entries N (NumberIn dump.now at) none result }
{
    array::from_fn(|k| number_at(dump, at + ENTRY * k))
}

fn dispatcher_of(dump: &[u8; DUMP]) -> Dispatcher
    ensures { Dumps dump.now result }
{
    Dispatcher {
        cores: dump[0],
        tasks: tasks_of(dump),
        order: entries(dump, ORDER_AT),
        seats: entries(dump, SEATS_AT),
    }
}

// What the check of soundness answers of a dump, where the bytes are one.
fn judge(bytes: &[u8]) -> Option<Answer>
    ensures { Judges bytes.now result }
{
    let dump = bytes.as_array::<DUMP>()?;
    Some(soundness::check(dispatcher_of(dump)))
}

// vectors opens its files by the same two lines, whose outcome no contract can name.
fn judge_file(files: &impl Files, name: &[u8]) -> Option<Answer> {
    let path = str::from_utf8(name).ok()?;
    let mut file = fs::open(files, path).ok()?;
    // One byte more than a dump has: a longer file is known by it.
    let mut bytes = [0u8; DUMP + 1];
    let n = host::read_full(&mut file, &mut bytes).ok()?;
    judge(&bytes[..n])
}

fn print_line(rt: &(impl Files + Print), name: &[u8]) -> io::Result<()> {
    let verdict = judge_file(rt, name);
    rt.write_all(name)?;
    match verdict {
        Some(answer) => {
            let number = dispatcher::number(answer);
            let place = dispatcher::place(answer);
            println!(rt; " {number} {place}")
        }
        None => println!(rt; " is no dump"),
    }
}

// Linux hands a program no longer argument.
const LONGEST_NAME: usize = 131072;

// The lines of the files that the arguments name, of which the first is the program's own name.
fn print_lines(rt: &(impl Env + Files + Print), count: usize) -> io::Result<()> {
    let mut room = [0u8; LONGEST_NAME];
    for i in 1..count {
        print_line(rt, host::arg(rt, i, &mut room))?;
    }
    Ok(())
}

fn main(rt: HostRuntime) {
    let count = host::arg_count(&rt);
    if count < 2 {
        let _ = rt.eprintln("usage: unsound FILE...");
        return;
    }
    if let Err(error) = print_lines(&rt, count) {
        host::fail(&rt, "standard output", error);
    }
}

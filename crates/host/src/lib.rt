// What the programs ask of the system: their arguments, reads that go on until the bytes are full, and a line on standard error that says what failed.
#![tactic(auto)]

ghost use Rattle.std.specs.Prelude.{◌<◌, ◌≤◌, length, take, IfOk};
ghost use Rattle.std.specs.Io.KnownBytes.{Consumes, IsAtEnd};

use std::env::FillError;
use std::fmt::InlineText;
use std::io;
use std::io::{Eprint, Read};
use std::rt::Env;

// Reads until the bytes are full or the input ends; how many bytes were read. Each turn passes as many bytes as its read gave, and std's `read_exact` does not
// tell how many there were.
pub fn read_full<R: Read>(input: &mut R, bytes: &mut [u8]) -> io::Result<usize>
    ensures within { IfOk result (λ n. n ≤ length bytes.new) }
    ensures read { IfOk result (λ n. Consumes (R.remaining input.old) (R.remaining input.new) (take n bytes.new)) }
    ensures end { IfOk result (λ n. n < length bytes.new → IsAtEnd (R.remaining input.new)) }
{
    let mut n: usize = 0;
    while n < bytes.len() {
        match input.read(&mut bytes[n..])? {
            0 => return Ok(n),
            more => n += more,
        }
    }
    Ok(n)
}

// With no bytes to put the argument in, the answer tells only whether it is there.
fn has_arg(env: &impl Env, i: usize) -> bool {
    !matches!(env.arg(i, &mut []), Err(FillError::NotPresent))
}

// How many arguments the program was started with, its own name among them.
pub fn arg_count(env: &impl Env) -> usize {
    (0..usize::MAX)
        .find(|i| !has_arg(env, *i))
        .unwrap_or(usize::MAX)
}

// Puts an argument at the start of the bytes and gives it: nothing where it is missing or longer than the bytes.
pub fn arg<'a>(env: &impl Env, i: usize, bytes: &'a mut [u8]) -> &'a [u8]
    ensures { length result.now ≤ length bytes.old }
{
    let length = env.arg(i, bytes).unwrap_or(0);
    &bytes[..length]
}

// Long enough for the system's longest reason and its number.
const REASON: usize = 128;

// Says on standard error what failed and the system's reason, without the number that std puts after it.
pub fn fail(rt: &impl Eprint, what: &str, error: io::Error) {
    let text = InlineText::<REASON>::of(error);
    let all = text.as_str();
    let reason = match all.split_once(" (os error ") {
        Some((reason, _)) => reason,
        None => all,
    };
    let _ = eprintln!(rt; "{what}: {reason}");
}

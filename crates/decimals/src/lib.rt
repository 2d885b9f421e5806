// Numbers as decimal text, and the line of a refusal, which is made of them: put into lent bytes at a place, or pushed behind a text of fixed capacity.
#![tactic(auto)]

ghost use Rattle.std.specs.Prelude.{◌+◌, ◌≤◌, ◌<◌, ◌≡◌, ◌∷◌, ◌++◌, length};
ghost use Rattle.texts.specs.Put.{Puts};
ghost use Rattle.texts.specs.Joined.{space};
ghost use Rattle.decimals.specs.Decimal.{digit as decimal_digit, decimal};
ghost use Rattle.decimals.specs.Fault.{fault_text};

use arrayvec::ArrayVec;
use itoa::Buffer;

// No line of a refusal has more bytes, its newline included.
pub const LONGEST_FAULT: usize = 36;

fn digit(d: u64) -> u8
    requires { d < 10 }
    ensures { result ≡ decimal_digit d }
{
    48 + d as u8
}

// Puts n at a place and gives the place after it. Whoever calls has made sure of the room.
pub fn put(text: &mut [u8], at: usize, n: u64) -> usize
    requires { at + length (decimal n) ≤ length text.old }
    ensures { Puts (decimal n) at text.old text.new result }
{
    if n < 10 {
        text[at] = digit(n);
        return at + 1;
    }
    let last = put(text, at, n / 10);
    text[last] = digit(n % 10);
    last + 1
}

// A space, and a number.
pub fn put_spaced(text: &mut [u8], at: usize, n: u64) -> usize
    requires { at + length (space ∷ decimal n) ≤ length text.old }
    ensures { Puts (space ∷ decimal n) at text.old text.new result }
{
    let next = texts::put_at(text, at, b" ");
    put(text, next, n)
}

// The line of a refusal, at the start of the text.
#[tactic(auto, using(crate::proofs::Fault::fault_longest))]
pub fn put_fault(text: &mut [u8], number: u8, offset: usize) -> usize
    requires { length (fault_text number offset) ≤ length text.old }
    ensures { Puts (fault_text number offset) 0 text.old text.new result }
{
    let mut line = ArrayVec::<u8, LONGEST_FAULT>::new();
    push_fault(&mut line, number, offset);
    texts::put_at(text, 0, &line)
}

// Puts a number of one digit or two behind a text.
#[tactic(auto, using(crate::proofs::Spelling::length_small, crate::proofs::Spelling::length_more, crate::proofs::Spelling::small_put, crate::proofs::Spelling::more_put))]
fn push_short<const N: usize>(text: &mut ArrayVec<u8, N>, n: u64)
    requires { (n < 100) × (length text.old.items + length (decimal n) ≤ N) }
    ensures items { text.new.items ≡ text.old.items ++ decimal n }
    ensures len { length text.new.items ≡ length text.old.items + length (decimal n) }
{
    if 10 <= n {
        text.push(digit(n / 10));
        text.push(digit(n % 10));
    } else {
        text.push(digit(n));
    }
}

// Puts n behind a text. Whoever calls has made sure of the room.
#[tactic(auto, using(crate::proofs::Spelling::decimal_is, crate::proofs::Spelling::length_more, crate::proofs::Spelling::more_put))]
pub fn push<const N: usize>(text: &mut ArrayVec<u8, N>, n: u64)
    requires { length text.old.items + length (decimal n) ≤ N }
    ensures items { text.new.items ≡ text.old.items ++ decimal n }
    ensures len { length text.new.items ≡ length text.old.items + length (decimal n) }
{
    // The numbers of slots go digit by digit: to copy so few bytes costs more.
    if n < 100 {
        push_short(text, n);
        return;
    }
    if n < 1000 {
        push_short(text, n / 10);
        text.push(digit(n % 10));
        return;
    }
    texts::put(text, Buffer::new().format(n).as_bytes());
}

// A space, and a number, behind a text.
pub fn push_spaced<const N: usize>(text: &mut ArrayVec<u8, N>, n: u64)
    requires { length text.old.items + length (space ∷ decimal n) ≤ N }
    ensures items { text.new.items ≡ text.old.items ++ space ∷ decimal n }
    ensures len { length text.new.items ≡ length text.old.items + length (space ∷ decimal n) }
{
    text.push(b' ');
    push(text, n);
}

// The line of a refusal, behind a text.
#[tactic(auto, using(crate::proofs::Fault::fault_length, crate::proofs::Fault::fault_put))]
pub fn push_fault<const N: usize>(text: &mut ArrayVec<u8, N>, number: u8, offset: usize)
    requires { length text.old.items + length (fault_text number offset) ≤ N }
    ensures items { text.new.items ≡ text.old.items ++ fault_text number offset }
    ensures len { length text.new.items ≡ length text.old.items + length (fault_text number offset) }
{
    texts::put(text, b"refused ");
    push(text, u64::from(number));
    texts::put(text, b" at ");
    push(text, offset as u64);
    text.push(b'\n');
}

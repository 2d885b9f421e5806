// Sets of cores in the Mask format of Linux cpuset(7), as `00000000,000e3862`. The cores that a text may name are those below a limit, of which one above 64
// counts as 64; a text has exactly as many words as the limit needs.
#![tactic(auto)]

ghost use Rattle.std.specs.Prelude.{◌≤◌, ◌<◌, ◌≡◌};
ghost use Rattle.masks.specs.Masks.{NamesMissing};
ghost use Rattle.cpusets.specs.Limit.{set_bits, cores_of};
ghost use Rattle.cpumasks.specs.Mask.{words_of, mask_size, IsCommaPlace, MaskOf};
ghost use Rattle.cpumasks.specs.Promise.{ReadsMask, WritesMask};
ghost use Rattle.cpumasks.specs.Progress.{lowest_core_of, SaysHex, IsGlyph, IsWritten, MaskTo, WalksMask};

use arrayvec::ArrayVec;
use cpusets::{Fault, Refusal};

// No text has more bytes: two words and a comma.
pub const ROOM: usize = 17;

// What a character says as a hexadecimal digit, if it is one.
fn hex_value(c: u8) -> Option<u32>
    ensures { SaysHex c result }
{
    char::from(c).to_digit(16)
}

// The hexadecimal digit, in lower case.
fn glyph(digit: u8) -> u8
    requires { digit < 16 }
    ensures { IsGlyph digit result }
{
    match digit {
        0..=9 => b'0' + digit,
        _ => b'a' - 10 + digit,
    }
}

// The form that a limit gives each text: so many cores, and as many words as they need.
#[derive(Clone, Copy)]
struct Form {
    cores: u8,
    words: usize,
    ghost few: { cores ≤ set_bits },
    ghost needed: { words ≡ words_of cores },
}

impl Form {
    fn new(limit: u8) -> Form
        ensures { result.cores ≡ cores_of limit }
    {
        let cores = cpusets::cores(limit);
        Form {
            cores,
            words: usize::from(cores).div_ceil(32),
        }
    }

    // The characters of a text: eight digits to a word, and a comma after each word but the last.
    fn size(self) -> usize
        ensures { result ≡ mask_size self.words }
    {
        (9 * self.words).saturating_sub(1)
    }

    // The lowest core of the digit at a place.
    fn lowest_core(self, place: usize) -> usize
        requires { (place < mask_size self.words) × (IsCommaPlace place → ⊥) }
        ensures { result ≡ lowest_core_of self.words place }
    {
        32 * (self.words - 1 - place / 9) + 4 * (7 - place % 9)
    }

    // The set so far with the cores of the character at a place.
    fn step(self, text: &[u8], at: usize, set: u64) -> Result<u64, Refusal>
        requires { (at < mask_size self.words) × MaskTo self.cores self.words text.now at set }
        ensures { WalksMask self.cores self.words text.now at result }
    {
        let c = *text.get(at).ok_or(Refusal::Unexpected)?;
        if at % 9 == 8 {
            return if c == b',' {
                Ok(set)
            } else {
                Err(Refusal::Unexpected)
            };
        }
        let digit = hex_value(c).ok_or(Refusal::Unexpected)?;
        let bits = u64::from(digit) << self.lowest_core(at);
        if masks::names_missing(bits, self.cores) {
            Err(Refusal::AboveLimit)
        } else {
            Ok(set | bits)
        }
    }

    // The character at a place of the text of a set.
    fn character(self, set: u64, place: usize) -> u8
        requires { place < mask_size self.words }
        ensures { IsWritten self.words set place result }
    {
        if place % 9 == 8 {
            return b',';
        }
        glyph(((set >> self.lowest_core(place)) % 16) as u8)
    }

    // The text of a set.
    fn text(self, set: u64) -> ArrayVec<u8, ROOM>
        requires { NamesMissing self.cores set → ⊥ }
        ensures { MaskOf self.words set result.items }
    {
        let mut text = ArrayVec::new();
        for place in 0..self.size() {
            text.push(self.character(set, place));
        }
        text
    }
}

// The set that a Mask text means.
pub fn read(text: &[u8], limit: u8) -> Result<u64, Fault>
    ensures { ReadsMask (cores_of limit) text.now result }
{
    let form = Form::new(limit);
    let end = form.size();
    let mut set: u64 = 0;
    for at in 0..end {
        set = form.step(text, at, set).map_err(|refusal| Fault {
            refusal,
            offset: at,
        })?;
    }
    if end < text.len() {
        return Err(Fault {
            refusal: Refusal::Unexpected,
            offset: end,
        });
    }
    Ok(set)
}

// The one Mask text of a set.
pub fn write(set: u64, limit: u8, buffer: &mut [u8]) -> Result<usize, Refusal>
    ensures { WritesMask (cores_of limit) set buffer.old buffer.new result }
{
    let form = Form::new(limit);
    if masks::names_missing(set, form.cores) {
        return Err(Refusal::AboveLimit);
    }
    cpusets::hand_over(&form.text(set), buffer)
}

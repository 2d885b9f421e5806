// Writes report lines as text into lent bytes.
#![tactic(auto)]

ghost use Rattle.std.specs.Prelude.{◌+◌, ◌≤◌, ◌≡◌, ◌∷◌, ◌++◌, length};
ghost use Rattle.texts.specs.Joined.{space, each_after, joined};
ghost use Rattle.dispatcher.specs.Limits.{LegalCount};
ghost use Rattle.lines.specs.Text.{letter_of, slot_text, event_fields, report_fields, seats_text, line_text};
ghost use Rattle.lines.specs.Line.{IsLineKind, Writes, WritesFault};

use arrayvec::ArrayVec;
use dispatcher::{Dispatcher, PlainReport, Refusal};

// What a line says besides the seats. The kind is 0 to 3 for create, wake, block, delete, a byte as C has it.
#[repr(C)]
#[derive(Clone, Copy)]
pub struct Line {
    pub number: u32,
    pub kind: u8,
    pub slot: u16,
    pub report: PlainReport,
}

impl Line {
    // No line has more bytes, its newline included, whatever its numbers are.
    pub const LONGEST: usize = 231;

    // No line of a refused file has more.
    pub const LONGEST_FAULT: usize = decimals::LONGEST_FAULT;
}

type Text = ArrayVec<u8, { Line::LONGEST }>;

fn letter(kind: u8) -> u8
    requires { IsLineKind kind }
    ensures { result ≡ letter_of kind }
{
    match kind {
        0 => b'C',
        1 => b'W',
        2 => b'B',
        _ => b'D',
    }
}

// A character, and a slot or `-`.
#[tactic(auto, using(crate::proofs::Parts::slot_dash, crate::proofs::Parts::slot_number, crate::proofs::Parts::slot_put_dash, crate::proofs::Parts::slot_put_number))]
fn put_slot(text: &mut Text, c: u8, slot: u16)
    requires { length text.old.items + length (c ∷ slot_text slot) ≤ Line.LONGEST }
    ensures items { text.new.items ≡ text.old.items ++ c ∷ slot_text slot }
    ensures len { length text.new.items ≡ length text.old.items + length (c ∷ slot_text slot) }
{
    text.push(c);
    if slot == Dispatcher::NONE {
        text.push(b'-');
    } else {
        decimals::push(text, u64::from(slot));
    }
}

// A space, and the seats of the cores, joined by commas.
#[tactic(auto, using(crate::proofs::Seats::seats_room, crate::proofs::Seats::seats_length))]
fn put_seats(text: &mut Text, seats: &[u16])
    requires { LegalCount (length seats.now) × (length text.old.items + length (space ∷ seats_text seats.now) ≤ Line.LONGEST) }
    ensures items { text.new.items ≡ text.old.items ++ space ∷ seats_text seats.now }
    ensures len { length text.new.items ≡ length text.old.items + length (space ∷ seats_text seats.now) }
{
    put_slot(text, b' ', seats[0]);
    for seat in &seats[1..] {
        put_slot(text, b',', *seat);
    }
}

// The event: running number, letter and slot.
fn put_event(text: &mut Text, line: Line)
    requires { IsLineKind line.kind × (length text.old.items + length (joined space (event_fields line)) ≤ Line.LONGEST) }
    ensures items { text.new.items ≡ text.old.items ++ joined space (event_fields line) }
    ensures len { length text.new.items ≡ length text.old.items + length (joined space (event_fields line)) }
{
    decimals::push(text, u64::from(line.number));
    text.push(b' ');
    text.push(letter(line.kind));
    decimals::push_spaced(text, u64::from(line.slot));
}

// Each field of the report after a space.
fn put_report(text: &mut Text, report: PlainReport)
    requires { length text.old.items + length (each_after space (report_fields report)) ≤ Line.LONGEST }
    ensures items { text.new.items ≡ text.old.items ++ each_after space (report_fields report) }
    ensures len { length text.new.items ≡ length text.old.items + length (each_after space (report_fields report)) }
{
    decimals::push_spaced(text, u64::from(report.number));
    decimals::push_spaced(text, u64::from(report.moves));
    put_slot(text, b' ', report.started);
    put_slot(text, b' ', report.stopped);
}

// A whole line.
#[tactic(auto, using(crate::proofs::Parts::line_length, crate::proofs::Parts::line_put))]
fn put_line(text: &mut Text, line: Line, seats: &[u16])
    requires { IsLineKind line.kind × LegalCount (length seats.now) × (length text.old.items + length (line_text line seats.now) ≤ Line.LONGEST) }
    ensures { text.new.items ≡ text.old.items ++ line_text line seats.now }
{
    put_event(text, line);
    put_report(text, line.report);
    put_seats(text, seats);
    text.push(b'\n');
}

// One line, with the seats of the dispatcher.
#[tactic(auto, using(crate::proofs::Standing::writes_unsound, crate::proofs::Standing::writes_bad_kind))]
pub fn write(line: Line, d: Dispatcher, buffer: &mut [u8]) -> Result<usize, Refusal>
    ensures { Writes line d buffer.old buffer.new result }
{
    soundness::check(d)?;
    if 3 < line.kind {
        return Err(Refusal::BadKind);
    }
    let mut text = ArrayVec::new();
    let seats = &d.seats[..usize::from(d.cores)];
    put_line(&mut text, line, seats);
    texts::hand_over(&text, buffer).ok_or(Refusal::LineLong)
}

// The one line of a refused file.
#[tactic(auto, using(decimals::proofs::Fault::fault_longest, crate::proofs::Standing::stands_handed))]
pub fn write_fault(number: u8, offset: usize, buffer: &mut [u8]) -> Result<usize, Refusal>
    ensures { WritesFault number offset buffer.old buffer.new result }
{
    let mut fault = ArrayVec::<u8, { Line::LONGEST_FAULT }>::new();
    decimals::push_fault(&mut fault, number, offset);
    texts::hand_over(&fault, buffer).ok_or(Refusal::LineLong)
}

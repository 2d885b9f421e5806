// Text put together in a value of fixed capacity, and handed over to lent bytes.
#![tactic(auto)]

ghost use Rattle.std.specs.Prelude.{◌+◌, ◌≤◌, ◌≡◌, ◌++◌, length};
ghost use Rattle.texts.specs.Put.{Puts};
ghost use Rattle.texts.specs.HandOver.{HandsOver};

use arrayvec::ArrayVec;

// Puts a piece behind a text. Whoever calls has made sure of the room.
pub fn put<const N: usize>(text: &mut ArrayVec<u8, N>, piece: &[u8])
    requires { length text.old.items + length piece.now ≤ N }
    ensures items { text.new.items ≡ text.old.items ++ piece.now }
    ensures len { length text.new.items ≡ length text.old.items + length piece.now }
{
    // There is room, so this never fails.
    let _done = text.try_extend_from_slice(piece);
}

// Puts a piece into bytes at a place and gives the place after it. Whoever calls has made sure of the room.
pub fn put_at(bytes: &mut [u8], at: usize, piece: &[u8]) -> usize
    requires { at + length piece.now ≤ length bytes.old }
    ensures { Puts piece.now at bytes.old bytes.new result }
{
    let end = at + piece.len();
    bytes[at..end].copy_from_slice(piece);
    end
}

// Hands a text over, all or nothing, and tells how many bytes it has where there was room.
pub fn hand_over(text: &[u8], buffer: &mut [u8]) -> Option<usize>
    ensures { HandsOver text.now buffer.old buffer.new result }
{
    if buffer.len() < text.len() {
        return None;
    }
    Some(put_at(buffer, 0, text))
}

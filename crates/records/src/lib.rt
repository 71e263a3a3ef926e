// Records: length, kind, body, and the little-endian numbers in them.
//
// No function asks anything of a position: bytes that are not there count as 0, no record stands where it would be
// cut, and bytes that do not fit into an output are not put.
// Slice and position are given one by one: a caller keeps the slice while the position moves.
#![tactic(auto)]

ghost use Rattle.std.specs.Prelude.{◌≡◌, [], ◌∷◌, ◌+◌, ◌*◌, length, get_or, drop, leb};
ghost use Rattle.buffers.specs.Buffers.{put_whole};
ghost use Rattle.records.specs.Numbers.{little_endian, word_at, long_at};
ghost use Rattle.records.specs.Records.{head_of, begins_with};

use buffers::{behind, fits, octet, put, put_octet};
use message_rules::Position;

// Returns the number of two bytes, the low one first.
// One function a width: `from_le_bytes` belongs to the type of the number.
pub fn word(low: u8, high: u8) -> u16
    ensures { result ≡ low + high * 256 }
{
    u16::from_le_bytes([low, high])
}

// Returns the number of four bytes, the low one first.
pub fn long(a: u8, b: u8, c: u8, d: u8) -> u32
    ensures { result ≡ a + (b + (c + d * 256) * 256) * 256 }
{
    u32::from_le_bytes([a, b, c, d])
}

// Returns the byte at a position, or 0 past the end.
pub fn byte_at(s: &[u8], at: Position) -> u8
    ensures { result ≡ get_or s.now at.0 0 }
{
    octet(s, at.0)
}

// Returns the number whose two bytes start at a position, the low one first. A byte past the end counts as 0.
pub fn word_at(s: &[u8], at: Position) -> u16
    ensures { result ≡ word_at s.now at.0 }
{
    match behind(s, at.0) {
        [low, high, ..] => word(*low, *high),
        rest => word(octet(rest, 0), 0),
    }
}

// Returns the number whose four bytes start at a position, the low one first. A byte past the end counts as 0.
pub fn long_at(s: &[u8], at: Position) -> u32
    ensures { result ≡ long_at s.now at.0 }
{
    match behind(s, at.0) {
        [a, b, c, d, ..] => long(*a, *b, *c, *d),
        rest => long(octet(rest, 0), octet(rest, 1), octet(rest, 2), 0),
    }
}

// Returns whether n bytes and two more stand at a position.
fn whole(s: &[u8], at: Position, n: u16) -> bool
    ensures { result ≡ leb (at.0 + (2 + n)) (length s.now) }
{
    let size = usize::from(n) + 2;
    fits(s.len(), at.0, size)
}

// Returns whether a record of this length and kind stands at a position: whole, and with these numbers.
// The length counts what follows it: the two bytes of the kind, and the body.
pub fn stands(s: &[u8], at: Position, len: u16, kind: u16) -> bool
    ensures { result ≡ begins_with len kind (drop at.0 s.now) }
{
    if len < 2 {
        return false;
    }
    if whole(s, at, len) {
        if word_at(s, at) == len {
            let next = at.0 + 2;
            return word_at(s, Position(next)) == kind;
        }
    }
    false
}

// Puts a byte into an output at a position; nothing, where the output ends before it.
pub fn put_byte(out: &mut [u8], at: Position, b: u8)
    ensures { out.new ≡ put_whole out.old at.0 (b ∷ []) }
{
    put_octet(out, at.0, b);
}

// Puts the two bytes of a number into an output at a position, the low one first.
// Puts nothing, where they do not both fit.
pub fn put_word(out: &mut [u8], at: Position, n: u16)
    ensures { out.new ≡ put_whole out.old at.0 (little_endian 2 n) }
{
    put(out, at.0, &n.to_le_bytes());
}

// Puts the head of a record into an output at a position: its length, which counts kind and body, and its kind.
// Puts nothing, where the four bytes do not all fit.
pub fn put_head(out: &mut [u8], at: Position, len: u16, kind: u16)
    ensures { out.new ≡ put_whole out.old at.0 (head_of len kind) }
{
    let [len_low, len_high] = len.to_le_bytes();
    let [kind_low, kind_high] = kind.to_le_bytes();
    put(out, at.0, &[len_low, len_high, kind_low, kind_high]);
}

// What the readers of requests and of replies share: the tests of a frame, and the rows of the table of messages.
// A frame is first byte, length byte and checksum, for either direction and any pair of address bytes.
// Address and slice are given one by one: a struct of them would be made for one call.
#![tactic(auto)]

pub mod row;

ghost use Rattle.std.specs.Prelude.{◌≡◌, ◌<◌, get_or};
ghost use Rattle.message_rules.specs.Body.{empty_answer};
ghost use Rattle.message_rules.specs.Frame.{body_length, fits, length_byte};
ghost use Rattle.message_rules.specs.Layout.{longest};
ghost use Rattle.message_rules.specs.Refusal.{answer_number, number_of};
ghost use Rattle.message_frame.specs.Parts.{head_answer, tail_answer};
ghost use Rattle.message_frame.specs.Verdict.{read_of, verdict_by};

use crate::row::SizedRow;
use buffers::octet;
use message_rules::refusal::Refusal;
use message_rules::{Address, Direction, Position, TextOffset, limits};

// The bytes of one of a display's two texts that a message carries: a fragment's data, or those of a Table write.
#[derive(Clone, Copy)]
pub struct Carried {
    // Where they belong in the text.
    pub offset: TextOffset,
    // Where they start in the slice that the message was read from.
    pub at: Position,
    // How many they are.
    pub len: usize,
}

// The positions of a frame's first byte, of its length byte, and of the command number that a body starts with.
const FIRST_BYTE: Position = Position(0);

const LENGTH_BYTE: Position = Position(1);

const COMMAND: Position = Position(2);

// Returns the byte where a body has its command number.
pub fn command(s: &[u8]) -> u8
    ensures { result ≡ get_or s.now 2 0 }
{
    octet(s, COMMAND.0)
}

// Returns the length of the body by the length byte, in either form.
pub fn body_length(s: &[u8]) -> usize
    ensures { (result ≡ body_length s.now) × (result < 128) }
{
    usize::from(octet(s, LENGTH_BYTE.0)) % 128
}

// Returns the length byte of a body of n bytes, in either form.
fn length_byte(plain: bool, n: usize) -> usize
    requires { n < 128 }
    ensures { result ≡ length_byte plain n }
{
    if plain { n } else { 128 + n }
}

// Returns the most bytes of a body.
fn longest_body(direction: Direction) -> usize
    ensures { result ≡ longest direction }
{
    match direction {
        Direction::Request => limits::LONGEST_REQUEST,
        Direction::Reply => limits::LONGEST_REPLY,
    }
}

// Returns whether a message of n bytes agrees with its slice.
// A request is the whole of it; behind a reply anything may follow.
fn fits_slice(direction: Direction, n: usize, len: usize) -> bool
    ensures { result ≡ fits direction n len }
{
    match direction {
        Direction::Request => n == len,
        Direction::Reply => n <= len,
    }
}

// Makes the tests before the command number is looked at, and refuses with 2, 3 or 4.
// 4 is for a slice that does not agree with its length byte.
#[tactic(auto, unfolding(crate::specs::Parts::head_answer))]
pub fn head(direction: Direction, a: Address, s: &[u8]) -> Result<(), Refusal>
    ensures { answer_number result ≡ head_answer direction a s.now }
{
    if s.len() < 3 {
        return Err(Refusal::TooShort);
    }
    if octet(s, FIRST_BYTE.0) != a.first {
        return Err(Refusal::WrongFirstByte);
    }
    let n = body_length(s);
    if n <= longest_body(direction) && fits_slice(direction, n + 3, s.len()) {
        return Ok(());
    }
    Err(Refusal::WrongLength)
}

// Makes the frame's tests that are left, and refuses with 4 for the other form of length byte, then with 5.
// The last byte is compared with the checksum of those in front of it.
// A slice that ends before its last byte counts as one that has 0 there: behind the head's tests there is none.
#[tactic(auto, unfolding(crate::specs::Parts::tail_answer))]
pub fn tail(a: Address, plain: bool, s: &[u8]) -> Result<(), Refusal>
    ensures { answer_number result ≡ tail_answer a plain s.now }
{
    let n = body_length(s);
    if usize::from(octet(s, LENGTH_BYTE.0)) != length_byte(plain, n) {
        return Err(Refusal::WrongLength);
    }
    let summed = &s[..(n + 2).min(s.len())];
    if checksum::checksum(a.seed, summed) != octet(s, n + 2) {
        return Err(Refusal::WrongChecksum);
    }
    Ok(())
}

// Returns the refusal of a message without a body: only the host knows a null message.
fn no_body(direction: Direction) -> Refusal
    ensures { number_of result ≡ empty_answer direction }
{
    match direction {
        Direction::Request => Refusal::UnknownCommand,
        Direction::Reply => Refusal::NullMessage,
    }
}

// Makes the tests behind the head, but those of the fields, by the row of the message's command number.
// Returns the kind of the message, or the first refusal: 4 or 5, then 6 or 12 for no body, then the row's own.
// An empty body has no command number, so its length byte is in the common form.
#[inline(always)]
#[tactic(auto, unfolding(crate::specs::Verdict::verdict_by))]
pub fn kind_by<K: Copy>(
    direction: Direction,
    a: Address,
    row: SizedRow<K>,
    s: &[u8],
) -> Result<K, Refusal>
    ensures { read_of result ≡ verdict_by direction a row s.now }
{
    let n = body_length(s);
    tail(a, row.plain && 0 < n, s)?;
    if n == 0 {
        return Err(no_body(direction));
    }
    row.verdict
}

// Damaged variants of a message: each byte changed to each other value, each shorter slice, and a longer one.
use crate::{builder, number, reader, vector};
use message_vector_table::fields;
use message_vector_table::tally::{NONE, Tally};

// Returns the bit that a length byte has beside n: none in a reply whose body begins with 4E, else 80.
pub(crate) fn form(to_host: bool, n: u8, command: u8) -> u8 {
    if to_host && command == 0x4E && n != 0 {
        return 0;
    }
    0x80
}

// Returns document 01's answer to bytes whose checksum is wrong: the tests in front of it are 2, 3 and 4.
fn flawed(to_host: bool, s: &[u8]) -> u8 {
    if s.len() < 3 {
        return number::TOO_SHORT;
    }
    let first = if to_host { 0x6E } else { 0x51 };
    if buffers::octet(s, 0) != first {
        return number::WRONG_FIRST_BYTE;
    }
    let right = right_length(to_host, s.len(), buffers::octet(s, 1), buffers::octet(s, 2));
    if right {
        return number::WRONG_CHECKSUM;
    }
    number::WRONG_LENGTH
}

// Returns whether a length byte is right for a slice of so many bytes, and in front of this command.
// A request is the whole slice; behind a reply anything may follow.
fn right_length(to_host: bool, size: usize, byte: u8, command: u8) -> bool {
    let n = byte % 128;
    if byte != n ^ form(to_host, n, command) || n > number::LONGEST_BODY {
        return false;
    }
    let length = usize::from(n) + 3;
    if to_host {
        return size >= length;
    }
    size == length
}

// Returns whether the reader gives bytes whose checksum is wrong document 01's answer.
fn refused(to_host: bool, s: &[u8]) -> bool {
    reader::answer(to_host, s) == flawed(to_host, s)
}

// Returns the tally of the byte at index i changed to every other value; it is put back.
// No such change keeps the checksum.
fn changed_byte(to_host: bool, s: &mut [u8], i: usize) -> Tally {
    let mut sum = NONE;
    let Some(old) = s.get(i).copied() else {
        return sum;
    };
    for flaw in 1..=255u8 {
        s[i] = old ^ flaw;
        sum = sum.count(refused(to_host, s));
    }
    s[i] = old;
    sum
}

// Returns the tally of each byte changed, and of the slice cut in front of each.
fn changed(to_host: bool, s: &mut [u8]) -> Tally {
    let mut sum = NONE;
    // By index: at each one the byte is changed, and the slice is cut in front of it.
    for i in 0..s.len() {
        let bytes_changed = sum.join(changed_byte(to_host, s, i));
        sum = bytes_changed.count(refused(to_host, fields::part(s, 0, i)));
    }
    sum
}

// Returns whether the reader answers a slice with one byte more as it should.
// A byte behind a request is 4; one behind a reply is ignored.
fn longer_holds(to_host: bool, longer: &[u8], answer: u8) -> bool {
    if to_host {
        return reader::answer(true, longer) == answer;
    }
    reader::answer(false, longer) == number::WRONG_LENGTH
}

// Returns the tally of all damaged variants of one message that is read with this answer.
// There are none of bytes that no builder makes.
// Where there is no room for one byte more, that counts as one vector that fails.
pub fn variants(to_host: bool, s: &[u8], answer: u8) -> Tally {
    let mut space = [builder::BLANK; builder::WIDE];
    let room: &mut [u8] = &mut space;
    let n = s.len();
    if vector::builder_answer(answer) != number::DONE {
        return NONE;
    }
    if room.len() <= n {
        return NONE.count(false);
    }
    buffers::copy(s, room);
    let held = longer_holds(to_host, &room[0..n + 1], answer);
    changed(to_host, &mut room[0..n]).count(held)
}

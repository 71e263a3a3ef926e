// Document 01's table of messages, run whole: every command number with every length, in either form of length byte.
use crate::{damage, number, reader};
use message_vector_table::fields;
use message_vector_table::tally::{NONE, Tally};

// Returns the reader's answer to a message with this length byte and a body of n bytes: this command and zeros.
// `flaw` is what its checksum is wrong by.
fn framed(to_host: bool, length: u8, command: u8, n: u8, flaw: u8) -> u8 {
    let end = usize::from(n) + 2;
    let first = if to_host { 0x6E } else { 0x51 };
    let seed = if to_host { 0x50 } else { 0x6E };
    let mut s = [0u8; 258];
    s[0] = first;
    s[1] = length;
    s[2] = command;
    s[end] = seed ^ first ^ length ^ command ^ flaw;
    reader::answer(to_host, fields::part(&s, 0, end + 1))
}

// Returns the table's answer to a body of n bytes, this command and zeros, with the right length byte and checksum.
// Zeros are allowed in every field.
fn expected(to_host: bool, command: u8, n: u8) -> u8 {
    match fields::layout(command) {
        Some(shape) if shape.to_host == to_host => {
            let least = usize::from(shape.bytes) + usize::from(shape.words) + 1;
            let most = least + usize::from(shape.data);
            if (least..=most).contains(&usize::from(n)) {
                number::DONE
            } else {
                number::WRONG_FIELD
            }
        }
        _ => number::UNKNOWN_COMMAND,
    }
}

// Returns the tally of one command with every length.
// Each is tried with the right message, with a wrong checksum (5), and with the other form of length byte (4).
// Bodies above 35 bytes are always 4.
fn lengths(to_host: bool, command: u8) -> Tally {
    let mut sum = NONE;
    for n in 1..128u8 {
        let right = n ^ damage::form(to_host, n, command);
        let long = n > number::LONGEST_BODY;
        let wanted = if long {
            number::WRONG_LENGTH
        } else {
            expected(to_host, command, n)
        };
        let unsummed = if long {
            number::WRONG_LENGTH
        } else {
            number::WRONG_CHECKSUM
        };
        let a = sum.count(framed(to_host, right, command, n, 0) == wanted);
        let b = a.count(framed(to_host, right, command, n, 1) == unsummed);
        let other = framed(to_host, right ^ 0x80, command, n, 0);
        sum = b.count(other == number::WRONG_LENGTH);
    }
    sum
}

// Returns the tally of every command number with every length, for one direction.
pub fn all(to_host: bool) -> Tally {
    let mut sum = NONE;
    for command in 0..=255u8 {
        sum = sum.join(lengths(to_host, command));
    }
    sum
}

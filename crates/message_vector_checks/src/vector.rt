// One vector: bytes and fields, both known beforehand. The bytes are read to the fields, and built from them.
use crate::{builder, number, reader};
use message_vector_table::fields;
use message_vector_table::fields::Fields;
use message_vector_table::tally::{NONE, Tally};

// Returns the builder's answer to fields whose message is read with this answer: 7 for fields that are not allowed.
// The null message is built.
pub(crate) fn builder_answer(answer: u8) -> u8 {
    if answer == number::DONE || answer == number::NULL_MESSAGE {
        return number::DONE;
    }
    number::WRONG_FIELD
}

// Returns whether a vector holds: the bytes are built from the fields and data, and read back to them.
// The output that a reply was built into has other bytes behind it, and is read too.
pub fn holds(f: Fields, data: &[u8], s: &[u8], answer: u8) -> bool {
    let mut space = [builder::BLANK; builder::WIDE];
    let out: &mut [u8] = &mut space;
    let built = builder_answer(answer);
    if !builder::builds(f, data, s, built, out) {
        return false;
    }
    if built == number::DONE && fields::to_host(f.command) && !reader::reads(f, data, out, answer) {
        return false;
    }
    reader::reads(f, data, s, answer)
}

// Returns the tally of building into outputs of 37 and 38 bytes.
// 37 bytes are 1 before any field is judged, and 38 are enough for every message.
pub fn room(f: Fields, data: &[u8], s: &[u8], answer: u8) -> Tally {
    let mut narrow = [builder::BLANK; builder::ROOM - 1];
    let mut enough = [builder::BLANK; builder::ROOM];
    let refused = builder::builds(f, data, s, number::WRONG_SIZE, &mut narrow);
    let built = builder::builds(f, data, s, builder_answer(answer), &mut enough);
    NONE.count(refused).count(built)
}

// Returns whether the reader's answer to these bytes is this one.
pub fn answers(to_host: bool, s: &[u8], answer: u8) -> bool {
    reader::answer(to_host, s) == answer
}

// Returns the tally of a message of which only the reader's answer is judged.
// Such a message has no fields; where some are given, nothing is counted.
pub fn reading(to_host: bool, f: &[u8], s: &[u8], answer: u8) -> Tally {
    if !f.is_empty() {
        return NONE;
    }
    NONE.count(answers(to_host, s, answer))
}

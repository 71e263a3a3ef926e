// Document 01's rules for single fields, run over every value of the field.
use message_vector_checks::{number, vector};
use message_vector_table::fields::Fields;
use message_vector_table::tally::{NONE, Tally};

// Returns whether a Timing reply with this status is judged right: its bits 5 to 2 must be 0.
fn status_holds(status: u8) -> bool {
    let f = Fields {
        command: 0x4E,
        bytes: [status, 0, 0],
        words: [0x341C, 0x1770],
    };
    let sum = 0x39 ^ status;
    let s = [0x6E, 0x06, 0x4E, status, 0x34, 0x1C, 0x17, 0x70, sum];
    let answer = if status & 0x3C == 0 {
        number::DONE
    } else {
        number::WRONG_FIELD
    };
    vector::holds(f, b"", &s, answer)
}

// Returns whether a Value with this result and type is judged right: each must be 0 or 1.
fn value_holds(res: u8, kind: u8) -> bool {
    let f = Fields {
        command: 0x02,
        bytes: [res, 0x10, kind],
        words: [0x1234, 0x5678],
    };
    let sum = 0xAC ^ res ^ kind;
    let s = [
        0x6E, 0x88, 0x02, res, 0x10, kind, 0x12, 0x34, 0x56, 0x78, sum,
    ];
    let answer = if res < 2 && kind < 2 {
        number::DONE
    } else {
        number::WRONG_FIELD
    };
    vector::holds(f, b"", &s, answer)
}

// Returns whether replies of no body with this last byte are judged right.
// The null message alone has the right checksum; the plain form of length byte needs 4E in a body.
fn empty_holds(last: u8) -> bool {
    let null = [0x6E, 0x80, last];
    let plain = [0x6E, 0x00, last];
    let answer = if last == 0xBE {
        number::NULL_MESSAGE
    } else {
        number::WRONG_CHECKSUM
    };
    vector::answers(true, &plain, number::WRONG_LENGTH) && vector::answers(true, &null, answer)
}

// Returns the tally of every last byte of a reply of no body, every status,
// every result with either type, and every type with either result.
pub(crate) fn all() -> Tally {
    let mut sum = NONE;
    for field in 0..=255u8 {
        sum = sum
            .count(empty_holds(field))
            .count(status_holds(field))
            .count(value_holds(field, 0))
            .count(value_holds(field, 1))
            .count(value_holds(0, field))
            .count(value_holds(1, field));
    }
    sum
}

// Source 001's tables of settings commands, printed without their checksum.
// The source's own rule for it: all bytes and 37, by exclusive-or, are 59.
use message_vector_checks::{number, vector};
use message_vector_table::fields;
use message_vector_table::fields::Fields;
use message_vector_table::tally::{NONE, Tally};

// Returns whether the Set of a code and a value is the command with a checksum by the source's rule.
fn holds(code: u8, high: u8, low: u8) -> bool {
    let sum = 0x59 ^ 0x37 ^ 0x51 ^ 0x84 ^ 0x03 ^ code ^ high ^ low;
    let s = [0x51, 0x84, 0x03, code, high, low, sum];
    let f = Fields {
        command: 0x03,
        bytes: [code, 0, 0],
        words: [fields::word(high, low), 0],
    };
    vector::holds(f, b"", &s, number::DONE)
}

// Returns the tally of the value of these two bytes, and of so many more that go on by the two bytes of a step.
fn range(code: u8, value: [u8; 2], step: [u8; 2], more: u8) -> Tally {
    let mut sum = NONE;
    let [mut high, mut low] = value;
    for _ in 0..=more {
        sum = sum.count(holds(code, high, low));
        high = high.wrapping_add(step[0]);
        low = low.wrapping_add(step[1]);
    }
    sum
}

// Returns the tally of a row: code and value, as they are printed.
// For a range they are followed by the step, and by how many more there are.
// A row with other fields has none.
pub(crate) fn row(f: &[u8], s: &[u8]) -> Option<Tally> {
    let [code, high, low, range_of @ ..] = f else {
        return None;
    };
    let printed = [0x51, 0x84, 0x03, *code, *high, *low];
    if s != printed.as_slice() {
        return Some(NONE.count(false));
    }
    match range_of {
        [] => Some(range(*code, [*high, *low], [0, 0], 0)),
        [high_step, low_step, more] => {
            Some(range(*code, [*high, *low], [*high_step, *low_step], *more))
        }
        _ => None,
    }
}

// Rows of many settings in one call.
use crate::bench::{Bench, FILLING};
use crate::word;
use buffers::{behind, front, front_mut, octet};
use ddcci_display::ddcci_display_set_all;

// Two more than the most settings of a call: rows lend one more.
const ROOM: usize = 66;

// The bytes of a row in front of its settings: how many codes, values and answers are lent.
const COUNTS: usize = 3;

// The bytes of a setting: its code and its value.
const SETTING_SIZE: usize = 3;

// Makes a call that is lent the codes, the values and the answers of a row.
// Returns its own answer, and every answer that was lent, with those behind them.
pub(crate) fn call(b: &mut Bench, given: &[u8]) -> (u8, [u8; ROOM]) {
    let mut codes = [0u8; ROOM];
    let mut values = [0u16; ROOM];
    let places = codes.iter_mut().zip(values.iter_mut());
    for ((code, value), setting) in places.zip(behind(given, COUNTS).chunks(SETTING_SIZE)) {
        *code = octet(setting, 0);
        *value = word(setting, 1);
    }
    let mut answers = [FILLING; ROOM];
    let s = ddcci_display_set_all(
        b.display,
        front(&codes, usize::from(octet(given, 0))),
        front(&values, usize::from(octet(given, 1))),
        front_mut(&mut answers, usize::from(octet(given, 2))),
    );
    b.display = s.display;
    (s.answer, answers)
}

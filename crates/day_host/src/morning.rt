// 05:30: the settings that the tent sends in one call, with what should come of each.
use crate::declared::FULL;
use day_report::messages;
use day_report::messages::Code;
use message_rules::answer;

// How many settings they are.
const SETTINGS: usize = 4;

// Room for their answers, and for one more, which should stay as it was.
pub const ANSWERS_ROOM: usize = SETTINGS + 1;

// What every answer is before the call: no answer number.
// A number: the call for C writes its answers as bytes, and leaves what stands behind them.
pub const NOT_ANSWERED: u8 = 255;

// The codes: brightness twice, input, and the code that acts once.
const CODES: [Code; SETTINGS] = [
    Code::Brightness,
    Code::Brightness,
    Code::Input,
    Code::Degauss,
];

// Their values. The second one is above the maximum.
pub const VALUES: [u16; SETTINGS] = [70, FULL + 1, 15, 1];

// The answers that the call should leave.
const WANTED: [u8; ANSWERS_ROOM] = [
    answer::DONE,
    answer::VALUE_TOO_LARGE,
    answer::DONE,
    answer::DONE,
    NOT_ANSWERED,
];

// Returns the numbers of the codes.
// Codes and values are lists of their own, as the call for C takes them.
pub fn codes() -> [u8; SETTINGS] {
    CODES.map(u8::from)
}

// Writes what came of each setting.
fn tell(answers: &[u8]) {
    for ((code, value), answer) in CODES.iter().zip(VALUES.iter()).zip(answers) {
        messages::set(*code, *value, *answer);
    }
}

// Writes what came of the call, and of each setting.
// Returns whether the call was done and left the answers that it should.
pub fn judged(answer: u8, answers: [u8; ANSWERS_ROOM]) -> bool {
    messages::settings(SETTINGS, answer);
    tell(&answers);
    answer == answer::DONE && answers == WANTED
}

// 05:10: the tent writes the call list. Every third write arrives twice.
use crate::requests;
use crate::texts::LIST_SIZE;
use day_report::messages;
use frames::Frame;
use message_rules::limits::MOST_WRITTEN;

// How many writes carry the list.
const WRITES: usize = (LIST_SIZE + MOST_WRITTEN - 1) / MOST_WRITTEN;

// How many messages come of them.
const MESSAGES: usize = WRITES + WRITES / 3;

// Returns the message of write w of the list, counted from 0, which carries this part of it.
pub fn message(w: usize, part: &[u8]) -> Frame {
    let at = w % WRITES * MOST_WRITTEN;
    requests::write(at as u16, part)
}

// Returns whether write w arrives twice.
pub fn is_repeated(w: usize) -> bool {
    w % 3 == 2
}

// Writes what came of the writing.
// Returns whether what a display stored is the list, byte for byte.
pub fn judged(list: &[u8], stored: &[u8]) -> bool {
    let same = list == stored;
    messages::written(WRITES, MESSAGES, stored.len(), same);
    same
}

// Document 01's answer numbers in words.
use crate::text;
use message_rules::answer;

// Returns the meaning of an answer number.
// Numbers, not `Refusal`: a byte that another display sent may be none, and what C calls answers with a number.
fn words(n: u8) -> &'static [u8] {
    match n {
        answer::DONE => b"done",
        answer::WRONG_SIZE => b"wrong size lent",
        answer::TOO_SHORT => b"too few bytes",
        answer::WRONG_FIRST_BYTE => b"first byte wrong",
        answer::WRONG_LENGTH => b"length wrong",
        answer::WRONG_CHECKSUM => b"check byte wrong",
        answer::UNKNOWN_COMMAND => b"command unknown",
        answer::WRONG_FIELD => b"field or list wrong",
        answer::CODE_NOT_ALLOWED => b"code not allowed",
        answer::VALUE_TOO_LARGE => b"value above the maximum",
        answer::NOT_WANTED => b"not the fragment wanted",
        answer::TEXT_TOO_LONG => b"no room for it",
        answer::NULL_MESSAGE => b"null message",
        answer::WRONG_GRAMMAR => b"not in the grammar",
        answer::NO_NODE_ROOM => b"too many words",
        answer::TOO_DEEP => b"too deep",
        answer::TRANSFER_CLOSED => b"transfer closed",
        answer::BROKEN_RECORD => b"records broken",
        answer::NOT_DECLARABLE => b"not to be declared",
        answer::REPEATED_TOKEN => b"token called twice",
        answer::REPEATED_HOUSEHOLD => b"household called twice",
        _ => b"unknown answer",
    }
}

// Writes an answer number and its meaning, as `9, value above the maximum`.
pub fn meaning(to: i32, n: u8) {
    crate::number(to, u64::from(n), 0);
    text(to, b", ");
    text(to, words(n));
}

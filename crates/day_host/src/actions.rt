// The single messages that the tent sends, each with what should come of it.
use crate::requests;
use day_report::messages;
use day_report::messages::Code;
use frames::Frame;
use message_reply_reader::{ReplyRead, read_display_reply};
use message_rules::answer;

// A message of the tent, with what should come of it.
#[derive(Clone, Copy)]
pub enum Action {
    // A Set of a code to a value, and the answer that it should have: a number, as the step for C answers.
    Set(Code, u16, u8),
    // A Get of a code, and the value that it should find.
    Get(Code, u16),
    // A Save.
    Save,
    // A Table write that clears the list.
    Clear,
}

// Returns the message of an action. The list is cleared by a Table write at offset 0 without data.
pub fn message(a: Action) -> Frame {
    match a {
        Action::Set(code, value, _) => requests::set(code, value),
        Action::Get(code, _) => requests::get(code),
        Action::Save => requests::save(),
        Action::Clear => requests::write(0, b""),
    }
}

// Returns the present value that the reply to a Get carries, or 0.
fn value_of(reply: &Frame) -> u16 {
    match read_display_reply(&reply.bytes) {
        Ok(ReplyRead::Value { present, .. }) => present,
        _ => 0,
    }
}

// Writes what came of an action, and returns whether it is what should come of it.
// Judged are the display's answer, its reply, and how many bytes of a list are left.
pub fn judged(a: Action, answer: u8, reply: &Frame, left: usize) -> bool {
    match a {
        Action::Set(code, value, wanted) => {
            messages::set(code, value, answer);
            answer == wanted
        }
        Action::Get(code, wanted) => {
            let value = value_of(reply);
            messages::get(code, value);
            answer == answer::DONE && value == wanted
        }
        Action::Save => {
            messages::saved(answer);
            answer == answer::DONE
        }
        Action::Clear => {
            messages::cleared(left, answer);
            answer == answer::DONE && left == 0
        }
    }
}

// What an accepted message asked for, in numbers, by the bytes of the message.
#![tactic(auto)]

ghost use Rattle.std.specs.Prelude.{◌≡◌, cond, leb, length, get_or};
ghost use Rattle.message_rules.specs.Layout.{row_of};
ghost use Rattle.message_rules.specs.declared.Direction.TheVariants.{Request};
ghost use Rattle.display_asked.specs.Asked.{asked, nothing_asked, row_asked, asked_of};

use message_rules::answer;

// What a message asked for: its command number, the code, and the value of a Set. What it does not have is 0.
// Numbers, not an enum: C takes this struct as it is.
#[repr(C)]
#[derive(Clone, Copy)]
pub struct DisplayAsked {
    pub command: u8,
    pub code: u8,
    pub value: u16,
}

// Returns these numbers.
fn asked_of(command: u8, code: u8, value: u16) -> DisplayAsked
    ensures { result ≡ asked command code value }
{
    DisplayAsked {
        command,
        code,
        value,
    }
}

// Returns what a message asked for, by the row of its command number: the high byte of a value stands first.
// All is 0 for a number that has no row, and for a message that is shorter than its fields.
fn by_command(message: &[u8]) -> DisplayAsked
    ensures { result ≡ cond (leb 3 (length message.now)) (row_asked (row_of Request (get_or message.now 2 0)) message.now) nothing_asked }
{
    match message {
        [_, _, 0x01, code, ..] => asked_of(0x01, *code, 0),
        [_, _, 0x03, code, high, low, ..] => {
            asked_of(0x03, *code, u16::from_be_bytes([*high, *low]))
        }
        [_, _, 0x07, ..] => asked_of(0x07, 0, 0),
        [_, _, 0x0C, ..] => asked_of(0x0C, 0, 0),
        [_, _, 0xF3, _, _, ..] => asked_of(0xF3, 0, 0),
        [_, _, 0xE2, code, _, _, ..] => asked_of(0xE2, *code, 0),
        [_, _, 0xE7, code, _, _, ..] => asked_of(0xE7, *code, 0),
        _ => asked_of(0, 0, 0),
    }
}

// Returns what a message asked for, given the answer of its step.
// All is 0 where the answer is not 0, the message is too short for its command, or the command is not in the table.
#[tactic(auto, unfolding(crate::specs::Asked::asked_of))]
// The answer is a number, as Stepped holds it.
pub fn asked_for(answer: u8, message: &[u8]) -> DisplayAsked
    ensures { result ≡ asked_of answer message.now }
{
    if answer != answer::DONE {
        return asked_of(0, 0, 0);
    }
    by_command(message)
}

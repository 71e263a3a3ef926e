// Why a call is refused: the answer numbers of documents 01 and 02 behind 0, which is done.
ghost use Rattle.message_rules.specs.Refusal.{number_of, answer_number};
ghost use Rattle.std.specs.Prelude.{◌≡◌};

use crate::{Position, answer};

// Why a call is refused. Each stands at its answer number.
#[derive(Clone, Copy, PartialEq, Eq)]
pub enum Refusal {
    // 1: a lent output has under 38 bytes, or another lent slice has a wrong length: so have fewer answers than codes
    // to set, and arrays with fewer entries than two profiles have differences.
    WrongSize = answer::WRONG_SIZE as isize,
    // 2: a message has under 3 bytes.
    TooShort = answer::TOO_SHORT as isize,
    // 3: a message's first byte is wrong.
    WrongFirstByte = answer::WRONG_FIRST_BYTE as isize,
    // 4: a message's length byte is wrong, or the slice does not agree with it.
    WrongLength = answer::WRONG_LENGTH as isize,
    // 5: a message's checksum is wrong.
    WrongChecksum = answer::WRONG_CHECKSUM as isize,
    // 6: a message's command is not in the table of messages, or a request has no body.
    UnknownCommand = answer::UNKNOWN_COMMAND as isize,
    // 7: a body's length or a field is wrong for the command, or a builder was given such a field.
    // Or a call has over 64 settings, or unequally many codes and values.
    WrongField = answer::WRONG_FIELD as isize,
    // 8: the code is not allowed here.
    CodeNotAllowed = answer::CODE_NOT_ALLOWED as isize,
    // 9: the value is above the code's maximum.
    ValueTooLarge = answer::VALUE_TOO_LARGE as isize,
    // 10: the offset or the fragment is not the one wanted.
    NotWanted = answer::NOT_WANTED as isize,
    // 11: the text is too long for its room, or the call list is over 1,024 bytes.
    TextTooLong = answer::TEXT_TOO_LONG as isize,
    // 12: the host read the null message.
    NullMessage = answer::NULL_MESSAGE as isize,
    // 13: the capabilities string is not in the grammar.
    WrongGrammar = answer::WRONG_GRAMMAR as isize,
    // 14: the capabilities string has a word for which no node is left.
    NoNodeRoom = answer::NO_NODE_ROOM as isize,
    // 15: the capabilities string has groups more than 8 deep.
    TooDeep = answer::TOO_DEEP as isize,
    // 16: the transfer was closed already.
    TransferClosed = answer::TRANSFER_CLOSED as isize,
    // 17: the profile is broken, or a record of the call list; by a profile's form alone, its codes do not rise.
    BrokenRecord = answer::BROKEN_RECORD as isize,
    // 18: the declaration, the fragment size or the budget is not allowed.
    NotDeclarable = answer::NOT_DECLARABLE as isize,
    // 19: a record of the call list has a token of an earlier one.
    RepeatedToken = answer::REPEATED_TOKEN as isize,
    // 20: a record of the call list has a household of an earlier one.
    RepeatedHousehold = answer::REPEATED_HOUSEHOLD as isize,
}

impl From<Refusal> for u8 {
    ghost from_gives = { λ r n. n ≡ number_of r };

    // Returns the answer number of a refusal.
    fn from(refusal: Refusal) -> u8 {
        refusal as u8
    }
}

// A refusal, and the position in a slice at which it comes.
#[derive(Clone, Copy, PartialEq, Eq)]
pub struct RefusedAt {
    pub refusal: Refusal,
    pub position: Position,
}

// Returns the answer number of a call: 0 where it is done, else that of its refusal.
pub fn number<T>(answer: &Result<T, Refusal>) -> u8
    ensures { result ≡ answer_number answer.now }
{
    match answer {
        Ok(_) => answer::DONE,
        Err(refusal) => u8::from(*refusal),
    }
}

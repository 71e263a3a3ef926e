// Requests for Rust and C: the messages to the display.
// A builder puts its message into the output, and returns answer 0 and the message's length.
// A refusal returns its number and length 0, and leaves the output as it was: 1 for an output under 38 bytes, then 7.
ghost use Rattle.std.specs.Prelude.{◌≡◌};
ghost use Rattle.message_rules.specs.Message.{requests, to_display, get_feature, set_feature, timing, save, text, table_read, table_write};
ghost use Rattle.ddcci.specs.Numbers.{request_fields, request_numbers, BuildsMessageNumbers, ReadsRequest};

use crate::BuiltNumbers;
use message_request_reader::{RequestRead, read_request};
use message_rules::refusal::Refusal;
use message_rules::{TO_DISPLAY, TextOffset, answer};

// What reading a request returns. What a message does not have is 0.
// Numbers, not a Result: C takes this struct as it is.
#[repr(C)]
#[derive(Clone, Copy)]
pub struct RequestNumbers {
    // The answer number.
    pub answer: u8,
    // The command number.
    pub command: u8,
    // The code.
    pub code: u8,
    // A Set's value, or an offset.
    pub word: u16,
    // Where the data of a Table write start in the slice.
    pub position: usize,
    // How many data bytes there are.
    pub len: usize,
}

// Returns the numbers of a request without data.
fn message_numbers(command: u8, code: u8, word: u16) -> RequestNumbers
    ensures { result ≡ request_fields command code word }
{
    RequestNumbers {
        answer: answer::DONE,
        command,
        code,
        word,
        position: 0,
        len: 0,
    }
}

// Returns a request that was read, or its refusal, as numbers.
fn request_numbers(read: Result<RequestRead, Refusal>) -> RequestNumbers
    ensures { result ≡ request_numbers read }
{
    match read {
        Ok(RequestRead::Get(code)) => message_numbers(0x01, code, 0),
        Ok(RequestRead::Set { code, value }) => message_numbers(0x03, code, value),
        Ok(RequestRead::Timing) => message_numbers(0x07, 0, 0),
        Ok(RequestRead::Save) => message_numbers(0x0C, 0, 0),
        Ok(RequestRead::Text(offset)) => message_numbers(0xF3, 0, offset.0),
        Ok(RequestRead::TableRead { code, offset }) => message_numbers(0xE2, code, offset.0),
        Ok(RequestRead::TableWrite { code, data }) => RequestNumbers {
            answer: answer::DONE,
            command: 0xE7,
            code,
            word: data.offset.0,
            position: data.at.0,
            len: data.len,
        },
        Err(refusal) => RequestNumbers {
            answer: u8::from(refusal),
            command: 0,
            code: 0,
            word: 0,
            position: 0,
            len: 0,
        },
    }
}

// Returns the fields of a request to the display, or the answer that refuses it.
pub fn ddcci_read_request(message: &[u8]) -> RequestNumbers
    ensures { ReadsRequest message.now result }
{
    request_numbers(read_request(TO_DISPLAY, message))
}

// Builds a Get, which asks for the value of a code.
pub fn ddcci_build_get(code: u8, out: &mut [u8]) -> BuiltNumbers
    ensures { BuildsMessageNumbers requests to_display (get_feature code) out.old out.new result }
{
    crate::built_numbers(message_request_builder::build_get(TO_DISPLAY, code, out))
}

// Builds a Set, which sets a code to a value.
pub fn ddcci_build_set(code: u8, value: u16, out: &mut [u8]) -> BuiltNumbers
    ensures { BuildsMessageNumbers requests to_display (set_feature code value) out.old out.new result }
{
    crate::built_numbers(message_request_builder::build_set(TO_DISPLAY, code, value, out))
}

// Builds a Timing, which asks for the timing.
pub fn ddcci_build_timing(out: &mut [u8]) -> BuiltNumbers
    ensures { BuildsMessageNumbers requests to_display timing out.old out.new result }
{
    crate::built_numbers(message_request_builder::build_timing(TO_DISPLAY, out))
}

// Builds a Save, which saves every present value.
pub fn ddcci_build_save(out: &mut [u8]) -> BuiltNumbers
    ensures { BuildsMessageNumbers requests to_display save out.old out.new result }
{
    crate::built_numbers(message_request_builder::build_save(TO_DISPLAY, out))
}

// Builds a Text, which asks for the fragment of the capabilities string at an offset.
pub fn ddcci_build_text(offset: u16, out: &mut [u8]) -> BuiltNumbers
    ensures { BuildsMessageNumbers requests to_display (text offset) out.old out.new result }
{
    crate::built_numbers(message_request_builder::build_text(TO_DISPLAY, TextOffset(offset), out))
}

// Builds a Table read, which asks for the fragment of the table at an offset.
pub fn ddcci_build_table_read(code: u8, offset: u16, out: &mut [u8]) -> BuiltNumbers
    ensures { BuildsMessageNumbers requests to_display (table_read code offset) out.old out.new result }
{
    crate::built_numbers(message_request_builder::build_table_read(
        TO_DISPLAY,
        code,
        TextOffset(offset),
        out,
    ))
}

// Builds a Table write, which writes data into the table at an offset.
// More than 31 data bytes are refused with 7.
pub fn ddcci_build_table_write(code: u8, offset: u16, data: &[u8], out: &mut [u8]) -> BuiltNumbers
    ensures { BuildsMessageNumbers requests to_display (table_write code offset «data».now) out.old out.new result }
{
    crate::built_numbers(message_request_builder::build_table_write(
        TO_DISPLAY,
        code,
        TextOffset(offset),
        data,
        out,
    ))
}

// Replies for Rust and C: the messages to the host.
// A builder puts its message into the output, and returns answer 0 and the message's length.
// A refusal returns its number and length 0, and leaves the output as it was: 1 for an output under 38 bytes, then 7.
ghost use Rattle.std.specs.Prelude.{◌≡◌, true};
ghost use Rattle.message_rules.specs.Message.{replies, to_host, null, value, timing_reply, text_fragment, table_fragment};
ghost use Rattle.ddcci.specs.Numbers.{field_numbers, fragment_numbers, reply_numbers, BuildsNumbers, BuildsMessageNumbers, ReadsReply};

use crate::BuiltNumbers;
use message_frame::Carried;
use message_reply_reader::{ReplyRead, read_display_reply};
use message_rules::refusal::Refusal;
use message_rules::{TO_HOST, TextKind, TextOffset, answer};

// What reading a reply returns. What a message does not have is 0.
// Numbers, not a Result: C takes this struct as it is.
#[repr(C)]
#[derive(Clone, Copy)]
pub struct ReplyNumbers {
    // The answer number.
    pub answer: u8,
    // The command number.
    pub command: u8,
    // A Value's result, or a timing's status.
    pub status: u8,
    // A Value's code.
    pub code: u8,
    // A Value's type.
    pub kind: u8,
    // A Value's maximum, a timing's horizontal frequency, or a fragment's offset.
    pub first: u16,
    // A Value's present value, or a timing's vertical frequency.
    pub second: u16,
    // Where a fragment's data start in the slice.
    pub position: usize,
    // How many data bytes there are.
    pub len: usize,
}

// Returns the numbers of a fragment: its command number, its offset, and where its data stand.
fn fragment_numbers(command: u8, data: Carried) -> ReplyNumbers
    ensures { result ≡ fragment_numbers command «data».offset.0 «data».at.0 «data».len }
{
    ReplyNumbers {
        answer: answer::DONE,
        command,
        status: 0,
        code: 0,
        kind: 0,
        first: data.offset.0,
        second: 0,
        position: data.at.0,
        len: data.len,
    }
}

// Returns the numbers of a reply without data, or those of a refusal.
fn field_numbers(
    number: u8,
    command: u8,
    status: u8,
    code: u8,
    kind: u8,
    first: u16,
    second: u16,
) -> ReplyNumbers
    ensures { result ≡ field_numbers number command status code kind first second }
{
    ReplyNumbers {
        answer: number,
        command,
        status,
        code,
        kind,
        first,
        second,
        position: 0,
        len: 0,
    }
}

// Returns a reply that was read, or its refusal, as numbers.
fn reply_numbers(read: Result<ReplyRead, Refusal>) -> ReplyNumbers
    ensures { result ≡ reply_numbers read }
{
    match read {
        Ok(
            ReplyRead::Value {
                result,
                code,
                kind,
                max,
                present,
            },
        ) => field_numbers(answer::DONE, 0x02, result, code, kind, max, present),
        Ok(
            ReplyRead::Timing {
                status,
                horizontal,
                vertical,
            },
        ) => field_numbers(answer::DONE, 0x4E, status, 0, 0, horizontal, vertical),
        Ok(ReplyRead::Fragment { kind, data }) => match kind {
            TextKind::Capabilities => fragment_numbers(0xE3, data),
            TextKind::Table => fragment_numbers(0xE4, data),
        },
        Err(refusal) => field_numbers(u8::from(refusal), 0, 0, 0, 0, 0, 0),
    }
}

// Returns the fields of a reply to the host, or the answer that refuses it; the null message is 12.
pub fn ddcci_read_reply(message: &[u8]) -> ReplyNumbers
    ensures { ReadsReply message.now result }
{
    reply_numbers(read_display_reply(message))
}

// Builds a Value: result, code, type, maximum and present value.
// A result or a type above 1 is refused with 7.
pub fn ddcci_build_value(
    res: u8,
    code: u8,
    kind: u8,
    max: u16,
    present: u16,
    out: &mut [u8],
) -> BuiltNumbers
    ensures { BuildsMessageNumbers replies to_host (value res code kind max present) out.old out.new result }
{
    crate::built_numbers(message_reply_builder::build_value(
        TO_HOST, res, code, kind, max, present, out,
    ))
}

// Builds a Timing reply: status, horizontal and vertical frequency.
// A status with one of its bits 5 to 2 set is refused with 7.
pub fn ddcci_build_timing_reply(
    status: u8,
    horizontal: u16,
    vertical: u16,
    out: &mut [u8],
) -> BuiltNumbers
    ensures { BuildsMessageNumbers replies to_host (timing_reply status horizontal vertical) out.old out.new result }
{
    crate::built_numbers(message_reply_builder::build_timing_reply(
        TO_HOST, status, horizontal, vertical, out,
    ))
}

// Builds a fragment of the capabilities string: its offset and its data.
// More than 32 data bytes are refused with 7.
pub fn ddcci_build_text_fragment(offset: u16, data: &[u8], out: &mut [u8]) -> BuiltNumbers
    ensures { BuildsMessageNumbers replies to_host (text_fragment offset «data».now) out.old out.new result }
{
    crate::built_numbers(message_reply_builder::build_text_fragment(
        TO_HOST,
        TextOffset(offset),
        data,
        out,
    ))
}

// Builds a fragment of the table: its offset and its data.
// More than 32 data bytes are refused with 7.
pub fn ddcci_build_table_fragment(offset: u16, data: &[u8], out: &mut [u8]) -> BuiltNumbers
    ensures { BuildsMessageNumbers replies to_host (table_fragment offset «data».now) out.old out.new result }
{
    crate::built_numbers(message_reply_builder::build_table_fragment(
        TO_HOST,
        TextOffset(offset),
        data,
        out,
    ))
}

// Builds the null message: 6E 80 BE.
pub fn ddcci_build_null(out: &mut [u8]) -> BuiltNumbers
    ensures { BuildsNumbers true (null to_host) out.old out.new result }
{
    crate::built_numbers(message_reply_builder::build_null(out))
}

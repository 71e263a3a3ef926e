// Builders of replies, the messages to the host.
// Each puts its message into the output and returns the message's length.
// A refusal leaves the output as it was: 1 for an output under 38 bytes, then 7.
// Address and output are given one by one: each export has the output, and one address for all.
#![tactic(auto, unfolding(message_rules::specs::Frame::frame, message_rules::specs::Frame::plain))]

ghost use Rattle.std.specs.Prelude.{true, leb, length};
ghost use Rattle.message_rules.specs.Limits.{most_fragment};
ghost use Rattle.message_rules.specs.Message.{replies, value, timing_reply, text_fragment, table_fragment, null, to_host};
ghost use Rattle.message_output.specs.Output.{Builds, BuildsMessage};
ghost use Rattle.message_reply_builder.specs.Fragment.{fragment};

use message_output::{build, build_if, refuse};
use message_rules::fields::{status_allowed, value_allowed};
use message_rules::refusal::Refusal;
use message_rules::{Address, TextOffset, limits};

// Builds a Value: result, code, type, maximum and present value.
// A result or a type above 1 is refused with 7.
pub fn build_value(
    a: Address,
    res: u8,
    code: u8,
    kind: u8,
    max: u16,
    present: u16,
    out: &mut [u8],
) -> Result<usize, Refusal>
    ensures { BuildsMessage replies a (value res code kind max present) out.old out.new result }
{
    let [max_high, max_low] = max.to_be_bytes();
    let [present_high, present_low] = present.to_be_bytes();
    let head = [
        a.first,
        0x88,
        0x02,
        res,
        code,
        kind,
        max_high,
        max_low,
        present_high,
        present_low,
    ];
    build_if(value_allowed(res, kind), a.seed, &head, out)
}

// Builds a Timing reply: status, horizontal and vertical frequency.
// A status with one of its bits 5 to 2 set is refused with 7.
pub fn build_timing_reply(
    a: Address,
    status: u8,
    horizontal: u16,
    vertical: u16,
    out: &mut [u8],
) -> Result<usize, Refusal>
    ensures { BuildsMessage replies a (timing_reply status horizontal vertical) out.old out.new result }
{
    let [horizontal_high, horizontal_low] = horizontal.to_be_bytes();
    let [vertical_high, vertical_low] = vertical.to_be_bytes();
    let head = [
        a.first,
        0x06,
        0x4E,
        status,
        horizontal_high,
        horizontal_low,
        vertical_high,
        vertical_low,
    ];
    build_if(status_allowed(status), a.seed, &head, out)
}

// Builds a fragment of the capabilities string: its offset and its data.
// More than 32 data bytes are refused with 7.
pub fn build_text_fragment(
    a: Address,
    offset: TextOffset,
    data: &[u8],
    out: &mut [u8],
) -> Result<usize, Refusal>
    ensures { BuildsMessage replies a (text_fragment offset.0 «data».now) out.old out.new result }
{
    build_fragment(a, 0xE3, offset, data, out)
}

// Builds a fragment of the table: its offset and its data.
// More than 32 data bytes are refused with 7.
pub fn build_table_fragment(
    a: Address,
    offset: TextOffset,
    data: &[u8],
    out: &mut [u8],
) -> Result<usize, Refusal>
    ensures { BuildsMessage replies a (table_fragment offset.0 «data».now) out.old out.new result }
{
    build_fragment(a, 0xE4, offset, data, out)
}

// Builds a fragment of either text, by its command number.
fn build_fragment(
    a: Address,
    number: u8,
    offset: TextOffset,
    data: &[u8],
    out: &mut [u8],
) -> Result<usize, Refusal>
    ensures { Builds (leb (length «data».now) most_fragment) (fragment a number offset.0 «data».now) out.old out.new result }
{
    if limits::MOST_FRAGMENT < data.len() {
        return refuse(out);
    }
    let length = (0x83 + data.len()) as u8;
    let [high, low] = offset.0.to_be_bytes();
    let head = [a.first, length, number, high, low];
    build(a.seed, &head, data, out)
}

// Builds the display's null message, a fixed byte string: 6E 80 BE.
#[tactic(auto, unfolding(message_rules::specs::Frame::frame, message_rules::specs::Frame::plain, checksum::specs::Xor::xor_all))]
pub fn build_null(out: &mut [u8]) -> Result<usize, Refusal>
    ensures { Builds true (null to_host) out.old out.new result }
{
    if out.len() < limits::OUTPUT_ROOM {
        return Err(Refusal::WrongSize);
    }
    Ok(buffers::copy(b"\x6E\x80\xBE", out))
}

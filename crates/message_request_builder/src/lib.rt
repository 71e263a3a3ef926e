// Builders of requests, the messages to the display.
// Each puts its message into the output and returns the message's length.
// A refusal leaves the output as it was: 1 for an output under 38 bytes, then 7.
// Address and output are given one by one: each export has the output, and one address for all.
#![tactic(auto, unfolding(message_rules::specs::Frame::frame, message_rules::specs::Frame::plain))]

ghost use Rattle.message_rules.specs.Message.{requests, get_feature, set_feature, timing, save, text, table_read, table_write};
ghost use Rattle.message_output.specs.Output.{BuildsMessage};

use message_output::{build, refuse};
use message_rules::refusal::Refusal;
use message_rules::{Address, TextOffset, limits};

// Builds a Get, which asks for the value of a code.
pub fn build_get(a: Address, code: u8, out: &mut [u8]) -> Result<usize, Refusal>
    ensures { BuildsMessage requests a (get_feature code) out.old out.new result }
{
    let head = [a.first, 0x82, 0x01, code];
    build(a.seed, &head, b"", out)
}

// Builds a Set, which sets a code to a value.
pub fn build_set(a: Address, code: u8, value: u16, out: &mut [u8]) -> Result<usize, Refusal>
    ensures { BuildsMessage requests a (set_feature code value) out.old out.new result }
{
    let [high, low] = value.to_be_bytes();
    let head = [a.first, 0x84, 0x03, code, high, low];
    build(a.seed, &head, b"", out)
}

// Builds a Timing, which asks for the timing.
pub fn build_timing(a: Address, out: &mut [u8]) -> Result<usize, Refusal>
    ensures { BuildsMessage requests a timing out.old out.new result }
{
    let head = [a.first, 0x81, 0x07];
    build(a.seed, &head, b"", out)
}

// Builds a Save, which saves every present value.
pub fn build_save(a: Address, out: &mut [u8]) -> Result<usize, Refusal>
    ensures { BuildsMessage requests a save out.old out.new result }
{
    let head = [a.first, 0x81, 0x0C];
    build(a.seed, &head, b"", out)
}

// Builds a Text, which asks for the fragment of the capabilities string at an offset.
pub fn build_text(a: Address, offset: TextOffset, out: &mut [u8]) -> Result<usize, Refusal>
    ensures { BuildsMessage requests a (text offset.0) out.old out.new result }
{
    let [high, low] = offset.0.to_be_bytes();
    let head = [a.first, 0x83, 0xF3, high, low];
    build(a.seed, &head, b"", out)
}

// Builds a Table read, which asks for the fragment of the table at an offset.
pub fn build_table_read(
    a: Address,
    code: u8,
    offset: TextOffset,
    out: &mut [u8],
) -> Result<usize, Refusal>
    ensures { BuildsMessage requests a (table_read code offset.0) out.old out.new result }
{
    let [high, low] = offset.0.to_be_bytes();
    let head = [a.first, 0x84, 0xE2, code, high, low];
    build(a.seed, &head, b"", out)
}

// Builds a Table write, which writes data into the table at an offset.
// More than 31 data bytes are refused with 7.
pub fn build_table_write(
    a: Address,
    code: u8,
    offset: TextOffset,
    data: &[u8],
    out: &mut [u8],
) -> Result<usize, Refusal>
    ensures { BuildsMessage requests a (table_write code offset.0 «data».now) out.old out.new result }
{
    if limits::MOST_WRITTEN < data.len() {
        return refuse(out);
    }
    let length = (0x84 + data.len()) as u8;
    let [high, low] = offset.0.to_be_bytes();
    let head = [a.first, length, 0xE7, code, high, low];
    build(a.seed, &head, data, out)
}

// Replies for C: the messages to the host.
// A builder's refusal leaves the output as it was.
ghost use Rattle.std.specs.Prelude.{true};
ghost use Rattle.message_rules.specs.Message.{replies, to_host, null, value, timing_reply, text_fragment, table_fragment};
ghost use Rattle.ddcci.specs.Numbers.{BuildsNumbers, BuildsMessageNumbers, ReadsReply};

use ddcci::BuiltNumbers;
use ddcci::reply::ReplyNumbers;

// Returns the fields of a reply to the host, or the answer that refuses it; the null message is 12.
#[unsafe(no_mangle)]
pub extern "C" fn ddcci_read_reply(message: &[u8]) -> ReplyNumbers
    ensures { ReadsReply message.now result }
{
    ddcci::reply::ddcci_read_reply(message)
}

// Builds a Value: result, code, type, maximum and present value.
// A result or a type above 1 is refused with 7.
#[unsafe(no_mangle)]
pub extern "C" fn ddcci_build_value(
    res: u8,
    code: u8,
    kind: u8,
    max: u16,
    present: u16,
    out: &mut [u8],
) -> BuiltNumbers
    ensures { BuildsMessageNumbers replies to_host (value res code kind max present) out.old out.new result }
{
    ddcci::reply::ddcci_build_value(res, code, kind, max, present, out)
}

// Builds a Timing reply: status, horizontal and vertical frequency.
// A status with one of its bits 5 to 2 set is refused with 7.
#[unsafe(no_mangle)]
pub extern "C" fn ddcci_build_timing_reply(
    status: u8,
    horizontal: u16,
    vertical: u16,
    out: &mut [u8],
) -> BuiltNumbers
    ensures { BuildsMessageNumbers replies to_host (timing_reply status horizontal vertical) out.old out.new result }
{
    ddcci::reply::ddcci_build_timing_reply(status, horizontal, vertical, out)
}

// Builds a fragment of the capabilities string: its offset and its data.
// More than 32 data bytes are refused with 7.
#[unsafe(no_mangle)]
pub extern "C" fn ddcci_build_text_fragment(
    offset: u16,
    data: &[u8],
    out: &mut [u8],
) -> BuiltNumbers
    ensures { BuildsMessageNumbers replies to_host (text_fragment offset «data».now) out.old out.new result }
{
    ddcci::reply::ddcci_build_text_fragment(offset, data, out)
}

// Builds a fragment of the table: its offset and its data.
// More than 32 data bytes are refused with 7.
#[unsafe(no_mangle)]
pub extern "C" fn ddcci_build_table_fragment(
    offset: u16,
    data: &[u8],
    out: &mut [u8],
) -> BuiltNumbers
    ensures { BuildsMessageNumbers replies to_host (table_fragment offset «data».now) out.old out.new result }
{
    ddcci::reply::ddcci_build_table_fragment(offset, data, out)
}

// Builds the null message: 6E 80 BE.
#[unsafe(no_mangle)]
pub extern "C" fn ddcci_build_null(out: &mut [u8]) -> BuiltNumbers
    ensures { BuildsNumbers true (null to_host) out.old out.new result }
{
    ddcci::reply::ddcci_build_null(out)
}

// Requests for C: the messages to the display.
// A builder's refusal leaves the output as it was.
ghost use Rattle.message_rules.specs.Message.{requests, to_display, get_feature, set_feature, timing, save, text, table_read, table_write};
ghost use Rattle.ddcci.specs.Numbers.{BuildsMessageNumbers, ReadsRequest};

use ddcci::BuiltNumbers;
use ddcci::request::RequestNumbers;

// Returns the fields of a request to the display, or the answer that refuses it.
#[unsafe(no_mangle)]
pub extern "C" fn ddcci_read_request(message: &[u8]) -> RequestNumbers
    ensures { ReadsRequest message.now result }
{
    ddcci::request::ddcci_read_request(message)
}

// Builds a Get, which asks for the value of a code.
#[unsafe(no_mangle)]
pub extern "C" fn ddcci_build_get(code: u8, out: &mut [u8]) -> BuiltNumbers
    ensures { BuildsMessageNumbers requests to_display (get_feature code) out.old out.new result }
{
    ddcci::request::ddcci_build_get(code, out)
}

// Builds a Set, which sets a code to a value.
#[unsafe(no_mangle)]
pub extern "C" fn ddcci_build_set(code: u8, value: u16, out: &mut [u8]) -> BuiltNumbers
    ensures { BuildsMessageNumbers requests to_display (set_feature code value) out.old out.new result }
{
    ddcci::request::ddcci_build_set(code, value, out)
}

// Builds a Timing, which asks for the timing.
#[unsafe(no_mangle)]
pub extern "C" fn ddcci_build_timing(out: &mut [u8]) -> BuiltNumbers
    ensures { BuildsMessageNumbers requests to_display timing out.old out.new result }
{
    ddcci::request::ddcci_build_timing(out)
}

// Builds a Save, which saves every present value.
#[unsafe(no_mangle)]
pub extern "C" fn ddcci_build_save(out: &mut [u8]) -> BuiltNumbers
    ensures { BuildsMessageNumbers requests to_display save out.old out.new result }
{
    ddcci::request::ddcci_build_save(out)
}

// Builds a Text, which asks for the fragment of the capabilities string at an offset.
#[unsafe(no_mangle)]
pub extern "C" fn ddcci_build_text(offset: u16, out: &mut [u8]) -> BuiltNumbers
    ensures { BuildsMessageNumbers requests to_display (text offset) out.old out.new result }
{
    ddcci::request::ddcci_build_text(offset, out)
}

// Builds a Table read, which asks for the fragment of the table at an offset.
#[unsafe(no_mangle)]
pub extern "C" fn ddcci_build_table_read(code: u8, offset: u16, out: &mut [u8]) -> BuiltNumbers
    ensures { BuildsMessageNumbers requests to_display (table_read code offset) out.old out.new result }
{
    ddcci::request::ddcci_build_table_read(code, offset, out)
}

// Builds a Table write, which writes data into the table at an offset.
// More than 31 data bytes are refused with 7.
#[unsafe(no_mangle)]
pub extern "C" fn ddcci_build_table_write(
    code: u8,
    offset: u16,
    data: &[u8],
    out: &mut [u8],
) -> BuiltNumbers
    ensures { BuildsMessageNumbers requests to_display (table_write code offset «data».now) out.old out.new result }
{
    ddcci::request::ddcci_build_table_write(code, offset, data, out)
}

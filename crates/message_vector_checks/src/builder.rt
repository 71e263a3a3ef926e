// What the library builds from fields, compared with what it must build.
use crate::number;
use message_rules::refusal::Refusal;
use message_rules::{TO_DISPLAY, TO_HOST, TextOffset};
use message_vector_table::fields::Fields;

// What every byte of an output is before a message is built into it.
pub(crate) const BLANK: u8 = 0xA5;

// The bytes of output that every builder needs, written down once more.
pub(crate) const ROOM: usize = 38;

// An output that has bytes left behind every message.
pub(crate) const WIDE: usize = 44;

// Builds the reply with these fields and data by the library, the null message where the command is no reply's.
// By document 01's numbers, written down once more: a wrong number in the library then shows.
fn build_reply(f: Fields, data: &[u8], out: &mut [u8]) -> Result<usize, Refusal> {
    let [status, code, kind] = f.bytes;
    let [first, second] = f.words;
    let offset = TextOffset(first);
    match f.command {
        0x02 => message_reply_builder::build_value(TO_HOST, status, code, kind, first, second, out),
        0x4E => message_reply_builder::build_timing_reply(TO_HOST, status, first, second, out),
        0xE3 => message_reply_builder::build_text_fragment(TO_HOST, offset, data, out),
        0xE4 => message_reply_builder::build_table_fragment(TO_HOST, offset, data, out),
        _ => message_reply_builder::build_null(out),
    }
}

// Builds the message with these fields and data by the library.
fn build(f: Fields, data: &[u8], out: &mut [u8]) -> Result<usize, Refusal> {
    let code = f.bytes[0];
    let offset = TextOffset(f.words[0]);
    match f.command {
        0x01 => message_request_builder::build_get(TO_DISPLAY, code, out),
        0x03 => message_request_builder::build_set(TO_DISPLAY, code, f.words[0], out),
        0x07 => message_request_builder::build_timing(TO_DISPLAY, out),
        0x0C => message_request_builder::build_save(TO_DISPLAY, out),
        0xF3 => message_request_builder::build_text(TO_DISPLAY, offset, out),
        0xE2 => message_request_builder::build_table_read(TO_DISPLAY, code, offset, out),
        0xE7 => message_request_builder::build_table_write(TO_DISPLAY, code, offset, data, out),
        _ => build_reply(f, data, out),
    }
}

// Returns whether every byte is still blank.
fn blank(out: &[u8]) -> bool {
    out.iter().all(|b| *b == BLANK)
}

// Returns whether an output that was blank holds exactly the bytes s in its first n, and no other byte changed.
fn holds(out: &[u8], n: usize, s: &[u8]) -> bool {
    n <= out.len() && &out[..n] == s && blank(&out[n..])
}

// Returns whether what was built has this answer: 0 with exactly the bytes s, or a refusal that changed nothing.
fn judged(built: Result<usize, Refusal>, s: &[u8], expected: u8, out: &[u8]) -> bool {
    match built {
        Ok(n) => expected == number::DONE && holds(out, n, s),
        Err(refusal) => u8::from(refusal) == expected && blank(out),
    }
}

// Returns whether building into this blank output gives this answer, and leaves what it should.
pub(crate) fn builds(f: Fields, data: &[u8], s: &[u8], expected: u8, out: &mut [u8]) -> bool {
    let built = build(f, data, out);
    judged(built, s, expected, out)
}

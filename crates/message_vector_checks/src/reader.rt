// What the library reads from bytes, compared with what it must read.
use crate::number;
use message_frame::Carried;
use message_reply_reader::{ReplyRead, read_display_reply, read_reply};
use message_request_reader::{RequestRead, read_request};
use message_rules::{TO_DISPLAY, TO_HOST, TextKind, refusal};
use message_vector_table::fields;
use message_vector_table::fields::Fields;

// A message that was read: its fields, where data start in the slice, and how many they are.
#[derive(Clone, Copy)]
struct Reading {
    fields: Fields,
    at: usize,
    len: usize,
}

// Returns a message without data, by its command number, its single bytes and its words.
fn message(command: u8, bytes: [u8; 3], words: [u16; 2]) -> Reading {
    Reading {
        fields: Fields {
            command,
            bytes,
            words,
        },
        at: 0,
        len: 0,
    }
}

// Returns a message that carries data for an offset of a text.
fn carrier(command: u8, code: u8, data: Carried) -> Reading {
    Reading {
        at: data.at.0,
        len: data.len,
        ..message(command, [code, 0, 0], [data.offset.0, 0])
    }
}

// Returns what the library read from a request.
fn of_request(read: RequestRead) -> Reading {
    match read {
        RequestRead::Get(code) => message(0x01, [code, 0, 0], [0, 0]),
        RequestRead::Set { code, value } => message(0x03, [code, 0, 0], [value, 0]),
        RequestRead::Timing => message(0x07, [0, 0, 0], [0, 0]),
        RequestRead::Save => message(0x0C, [0, 0, 0], [0, 0]),
        RequestRead::Text(offset) => message(0xF3, [0, 0, 0], [offset.0, 0]),
        RequestRead::TableRead { code, offset } => message(0xE2, [code, 0, 0], [offset.0, 0]),
        RequestRead::TableWrite { code, data } => carrier(0xE7, code, data),
    }
}

// Returns what the library read from a reply.
fn of_reply(read: ReplyRead) -> Reading {
    match read {
        ReplyRead::Value {
            result,
            code,
            kind,
            max,
            present,
        } => message(0x02, [result, code, kind], [max, present]),
        ReplyRead::Timing {
            status,
            horizontal,
            vertical,
        } => message(0x4E, [status, 0, 0], [horizontal, vertical]),
        ReplyRead::Fragment { kind, data } => match kind {
            TextKind::Capabilities => carrier(0xE3, 0, data),
            TextKind::Table => carrier(0xE4, 0, data),
        },
    }
}

// Returns what the library reads from these bytes, or the answer number that it refuses them with.
// Of a reply, the reader for any address and that of the display must agree on the answer.
// A number, not a Refusal: DISAGREE is none, and the numbers themselves are judged.
fn read(to_host: bool, s: &[u8]) -> Result<Reading, u8> {
    if !to_host {
        return read_request(TO_DISPLAY, s)
            .map(of_request)
            .map_err(u8::from);
    }
    // The answer alone is kept of the first reading while the second is made.
    let any = refusal::number(&read_reply(TO_HOST, s));
    let own = read_display_reply(s);
    if any != refusal::number(&own) {
        return Err(number::DISAGREE);
    }
    own.map(of_reply).map_err(u8::from)
}

// Returns the answer number of reading these bytes.
pub(crate) fn answer(to_host: bool, s: &[u8]) -> u8 {
    match read(to_host, s) {
        Ok(_) => number::DONE,
        Err(refusal) => refusal,
    }
}

// Returns whether the `len` bytes from index `at` on are the data.
fn part_is(s: &[u8], at: usize, len: usize, data: &[u8]) -> bool {
    s.get(at..)
        .is_some_and(|rest| len <= rest.len() && &rest[..len] == data)
}

// Returns whether reading these bytes gives this answer, and with answer 0 the message with these fields and data.
pub(crate) fn reads(f: Fields, data: &[u8], s: &[u8], expected: u8) -> bool {
    match read(fields::to_host(f.command), s) {
        Ok(r) => expected == number::DONE && r.fields == f && part_is(s, r.at, r.len, data),
        Err(refusal) => refusal == expected,
    }
}

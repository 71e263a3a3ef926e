// What the host does before it reads.
// It starts the display, declares codes, writes the table, and sets and gets brightness.
use crate::pipe::{Fault, Host, Kind};
use buffers::{behind, front};
use frames::Frame;
use message_reply_reader::{ReplyRead, read_display_reply};
use message_request_builder::{build_get, build_set, build_table_write};
use message_rules::limits::MOST_WRITTEN;
use message_rules::{TABLE_CODE, TO_DISPLAY, TextOffset};
use std::io::Input;

// The VCP code of brightness.
const BRIGHTNESS: u8 = 0x10;

// The brightness that is set.
pub(crate) const BRIGHT: u16 = 70;

// How often a Get is sent where the line spoils its reply.
const TRIES: usize = 50;

// Sends a start, then declares brightness (80 of 100) and input (17, not continuous).
pub(crate) fn start<R: Input>(host: &mut Host<'_, R>, record: &[u8]) -> Result<(), Fault> {
    host.tell(Kind::Start, record)?;
    host.tell(Kind::Declare, b"\x10\x01\x01\x00\x01\x64\x00\x50\x00")?;
    host.tell(Kind::Declare, b"\x60\x01\x01\x00\x00\x00\x00\x11\x00")
}

// Sends a Table write of these bytes at an offset.
fn write<R: Input>(host: &mut Host<'_, R>, at: u16, bytes: &[u8]) -> Result<(), Fault> {
    let mut m = Frame::EMPTY;
    m.len = build_table_write(
        TO_DISPLAY,
        TABLE_CODE,
        TextOffset(at),
        bytes,
        &mut m.bytes,
    ).unwrap_or(0);
    host.tell(Kind::Message, m.as_slice())
}

// Sends the list in its two parts.
pub(crate) fn write_list<R: Input>(host: &mut Host<'_, R>, list: &[u8]) -> Result<(), Fault> {
    write(host, 0, front(list, MOST_WRITTEN))?;
    write(host, MOST_WRITTEN as u16, behind(list, MOST_WRITTEN))
}

// Sends a Set of brightness.
fn set<R: Input>(host: &mut Host<'_, R>, value: u16) -> Result<(), Fault> {
    let mut m = Frame::EMPTY;
    m.len = build_set(TO_DISPLAY, BRIGHTNESS, value, &mut m.bytes).unwrap_or(0);
    host.tell(Kind::Message, m.as_slice())
}

// Returns the value in a reply to a Get. A reply that the line has spoiled says nothing.
fn value_of(reply: &[u8]) -> Option<u16> {
    match read_display_reply(reply) {
        Ok(ReplyRead::Value { present, .. }) => Some(present),
        _ => None,
    }
}

// Sends a Get of brightness until a value comes, and returns it, if one does.
fn get<R: Input>(host: &mut Host<'_, R>) -> Result<Option<u16>, Fault> {
    let mut m = Frame::EMPTY;
    m.len = build_get(TO_DISPLAY, BRIGHTNESS, &mut m.bytes).unwrap_or(0);
    for _ in 0..TRIES {
        let reply = host.exchange(Kind::Message, m.as_slice())?;
        let present = value_of(reply.message.as_slice());
        if present.is_some() {
            return Ok(present);
        }
    }
    Ok(None)
}

// Sets brightness, and returns what a Get then says.
pub(crate) fn set_and_get<R: Input>(host: &mut Host<'_, R>) -> Result<Option<u16>, Fault> {
    set(host, BRIGHT)?;
    get(host)
}

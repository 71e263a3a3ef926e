// The requests that the hosts send, but for those of a transfer.
use day_report::messages::Code;
use frames::Frame;
use message_request_builder::{build_get, build_save, build_set, build_table_write};
use message_rules::{TABLE_CODE, TO_DISPLAY, TextOffset};

// Returns a Get of a code.
pub(crate) fn get(code: Code) -> Frame {
    let mut m = Frame::EMPTY;
    m.len = build_get(TO_DISPLAY, u8::from(code), &mut m.bytes).unwrap_or(0);
    m
}

// Returns a Set of a code to a value.
pub(crate) fn set(code: Code, value: u16) -> Frame {
    let mut m = Frame::EMPTY;
    m.len = build_set(TO_DISPLAY, u8::from(code), value, &mut m.bytes).unwrap_or(0);
    m
}

// Returns a Save.
pub(crate) fn save() -> Frame {
    let mut m = Frame::EMPTY;
    m.len = build_save(TO_DISPLAY, &mut m.bytes).unwrap_or(0);
    m
}

// Returns a Table write of these bytes at an offset.
pub(crate) fn write(at: u16, bytes: &[u8]) -> Frame {
    let mut m = Frame::EMPTY;
    m.len = build_table_write(
        TO_DISPLAY,
        TABLE_CODE,
        TextOffset(at),
        bytes,
        &mut m.bytes,
    ).unwrap_or(0);
    m
}

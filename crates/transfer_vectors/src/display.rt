// A conforming display with fragment lengths of its own choice.
use crate::line;
use frames::Frame;
use message_reply_builder::{build_table_fragment, build_text_fragment};
use message_request_reader::{RequestRead, read_request};
use message_rules::{TO_DISPLAY, TO_HOST, TextKind, TextOffset};

// The length of a display's fragments, where bytes are left for it.
#[derive(Clone, Copy)]
pub(crate) enum Size {
    // Always this one.
    Fixed(usize),
    // 1 to 32, by the line's seed.
    Mixed,
}

impl Size {
    // Returns the length of the next fragment: at most the bytes left.
    fn choose(self, left: usize, seed: u64) -> usize {
        let n = match self {
            Size::Fixed(n) => n,
            Size::Mixed => (1 + line::next(seed) / 8 % 32) as usize,
        };
        n.min(left)
    }
}

// The fragment that was sent last.
#[derive(Clone, Copy)]
pub(crate) struct Cursor {
    // Where it starts in the text.
    pub(crate) offset: usize,
    // Its length.
    pub(crate) size: usize,
}

impl Cursor {
    // Returns the cursor after a request for offset q.
    // Where q is behind the last fragment, the next one is sent.
    // Where q is the last one's offset, and not 0, that one is sent again.
    // Any other request goes to the start of the text.
    pub(crate) fn moved(self, q: usize, total: usize, size: Size, seed: u64) -> Cursor {
        if q != 0 && q == self.offset {
            return self;
        }
        let behind = q != 0 && q.checked_sub(self.offset) == Some(self.size);
        let offset = if behind && q <= total { q } else { 0 };
        Cursor {
            offset,
            size: size.choose(total.saturating_sub(offset), seed),
        }
    }
}

// Returns the offset that a request asks for, or 0.
// 0 and not an Option: a request for no offset goes to the start of the text.
pub(crate) fn asked(request: &Frame) -> usize {
    match read_request(TO_DISPLAY, request.as_slice()) {
        Ok(RequestRead::Text(offset) | RequestRead::TableRead { offset, .. }) => {
            usize::from(offset.0)
        }
        _ => 0,
    }
}

// Returns the message of the fragment at the cursor, or none where the text has no such part.
pub(crate) fn fragment(kind: TextKind, text: &[u8], cursor: Cursor) -> Frame {
    let behind = text.get(cursor.offset..);
    let Some(data) = behind.and_then(|left| left.get(..cursor.size)) else {
        return Frame::EMPTY;
    };
    let at = TextOffset((cursor.offset % 65536) as u16);
    let mut message = Frame::EMPTY;
    let built = match kind {
        TextKind::Capabilities => build_text_fragment(TO_HOST, at, data, &mut message.bytes),
        TextKind::Table => build_table_fragment(TO_HOST, at, data, &mut message.bytes),
    };
    message.len = built.unwrap_or(0);
    message
}

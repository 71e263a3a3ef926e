// What a display answers to reads of its two texts and to writes of the table, and what that leaves to be done to it.
// Each function is given those parts of the display that it needs.
ghost use Rattle.std.specs.Prelude.{◌≡◌, Some, leb, length, min};
ghost use Rattle.buffers.specs.Buffers.{part_of};
ghost use Rattle.message_rules.specs.Limits.{most_fragment};
ghost use Rattle.display_rules.specs.Turn.{bytes_of};
ghost use Rattle.display_rules.specs.Fragments.{next_cursor, found_bytes, fragment_reply};
ghost use Rattle.display_pending.specs.Send.{Sent};
ghost use Rattle.display_texts.specs.Answers.{reply_from, Reads, ReadsTable, WritesTable};

use crate::fragments::Texts;
use crate::{fragments, table};
use display_pending::{Pending, send};
use display_rules::{Fragment, FragmentCursor, TextState};
use message_rules::limits::MOST_FRAGMENT;
use message_rules::{Position, TABLE_CODE, TO_HOST, TextKind, TextOffset, answer};

// Sends the bytes of a fragment of one of the two texts, and returns the length of the reply.
// It is 0, and nothing is written, for more than 32 bytes or an output under 38; no step passes such on.
fn send_bytes(f: Fragment, bytes: &[u8], out: &mut [u8]) -> usize
    ensures { Sent (leb (length bytes.now) most_fragment) (bytes_of (fragment_reply f.kind f.cursor bytes.now)) out.old out.new result }
{
    let offset = f.cursor.offset;
    match f.kind {
        TextKind::Capabilities => {
            message_reply_builder::build_text_fragment(TO_HOST, offset, bytes, out).unwrap_or(0)
        }
        TextKind::Table => {
            message_reply_builder::build_table_fragment(TO_HOST, offset, bytes, out).unwrap_or(0)
        }
    }
}

// Returns the cursor of the fragment that a read at the offset q finds.
// The fragment has at most `most` bytes, and at most 32.
fn cursor_at(state: TextState, most: u16, q: TextOffset) -> FragmentCursor
    ensures { result ≡ next_cursor (min most most_fragment) state q.0 }
{
    fragments::next_cursor(most.min(MOST_FRAGMENT as u16), state, q)
}

// Sends a fragment, whose bytes are copied out of its text, and returns the length of the reply.
// It is 0, and nothing is written, where `send_bytes` says so.
fn send_fragment(f: Fragment, texts: Texts<'_>, out: &mut [u8]) -> usize
    ensures { Sent (leb (length (found_bytes texts.entry.capabilities.now texts.entry.table.now (Some f))) most_fragment) (reply_from f.kind f.cursor texts.entry.capabilities.now texts.entry.table.now) out.old out.new result }
{
    send_bytes(f, fragments::handed_back(texts, Some(f)), out)
}

// Answers a read of one of the two texts: its next fragment, of at most `most` bytes, is copied into the reply.
pub fn read(
    kind: TextKind,
    state: TextState,
    most: u16,
    texts: Texts<'_>,
    q: TextOffset,
    out: &mut [u8],
) -> Pending
    ensures { Reads kind (next_cursor (min most most_fragment) state q.0) texts.entry.capabilities.now texts.entry.table.now out.old out.new result }
{
    let cursor = cursor_at(state, most, q);
    let found = Fragment { kind, cursor };
    Pending::Moved(found, send_fragment(found, texts, out))
}

// Answers a read of the table: 8 and the null message for another code than F4.
// It does not call `read`: what they share is then small enough for the compiler to put into the step.
// Else each step copied the display once more.
pub fn table_read(
    state: TextState,
    most: u16,
    texts: Texts<'_>,
    code: u8,
    q: TextOffset,
    out: &mut [u8],
) -> Pending
    ensures { ReadsTable code (next_cursor (min most most_fragment) state q.0) texts.entry.capabilities.now texts.entry.table.now out.old out.new result }
{
    if code != TABLE_CODE {
        return Pending::Refused(answer::CODE_NOT_ALLOWED, send::null(out));
    }
    let cursor = cursor_at(state, most, q);
    let found = Fragment {
        kind: TextKind::Table,
        cursor,
    };
    Pending::Moved(found, send_fragment(found, texts, out))
}

// Answers a write to the table, which has `old` bytes.
// The data are the n bytes of the message from a position on.
pub fn write(
    old: u16,
    table: &mut [u8],
    code: u8,
    at: TextOffset,
    message: &[u8],
    from: Position,
    n: usize,
) -> Pending
    ensures { WritesTable old code at.0 (part_of message.now from.0 n) table.old table.new result }
{
    match table::write(old, table, code, at, buffers::part(message, from.0, n)) {
        Ok(length) => Pending::Written(length),
        Err(refusal) => Pending::Refused(u8::from(refusal), 0),
    }
}

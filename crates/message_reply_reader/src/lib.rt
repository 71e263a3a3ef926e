// The readers of replies, the messages to the host, proved equal to message_rules' `decode`.
#![tactic(auto)]

mod table;

ghost use Rattle.std.specs.Prelude.{◌≡◌, ◌-◌, ◌<◌, length, nat_eq};
ghost use Rattle.std.specs.List.{starts_with};
ghost use Rattle.message_rules.specs.Body.{word};
ghost use Rattle.message_rules.specs.Frame.{body_length};
ghost use Rattle.message_rules.specs.Message.{decode, replies, to_host};
ghost use Rattle.message_rules.specs.Row as row;
ghost use Rattle.message_rules.specs.declared.ReplyKind.TheVariants as kinds;
ghost use Rattle.message_reply_reader.specs.Outcome.{fragment_at, ReplyMeans, ReplyHolds};
ghost use Rattle.message_frame.specs.Meaning.{Readable};
ghost use Rattle.message_frame.specs.Parts.{body_in};
ghost use Rattle.message_reply_reader.specs.Start.{null_bytes};

use message_frame::Carried;
use message_rules::fields::{status_allowed, value_allowed};
use message_rules::refusal::Refusal;
use message_rules::{Address, Direction, Position, ReplyKind, TO_HOST, TextKind, TextOffset};

// A reply that was read, with its fields.
// The result and the type of a Value are 0 or 1, kept as the bytes that C and the builder take.
#[derive(Clone, Copy)]
pub enum ReplyRead {
    Value {
        result: u8,
        code: u8,
        kind: u8,
        max: u16,
        present: u16,
    },
    Timing {
        status: u8,
        horizontal: u16,
        vertical: u16,
    },
    // A fragment of one of the two texts.
    Fragment {
        kind: TextKind,
        data: Carried,
    },
}

// The positions of a Value's fields, behind its command number.
const RESULT: Position = Position(3);

const CODE: Position = Position(4);

const TYPE: Position = Position(5);

const MAXIMUM: Position = Position(6);

const PRESENT: Position = Position(8);

// Those of a Timing reply.
const STATUS: Position = Position(3);

const HORIZONTAL: Position = Position(4);

const VERTICAL: Position = Position(6);

// Those of a fragment.
const OFFSET: Position = Position(3);

const DATA: Position = Position(5);

// Returns a Value whose length is right, or the refusal 7 for a result or a type that is not allowed.
fn value_in(s: &[u8]) -> Result<ReplyRead, Refusal>
    requires { Readable (row.Reply kinds.Value) s.now }
    ensures { ReplyMeans s.now result (body_in replies (row.Reply kinds.Value) s.now) }
{
    let result = s[RESULT.0];
    let kind = s[TYPE.0];
    if value_allowed(result, kind) {
        return Ok(ReplyRead::Value {
            result,
            code: s[CODE.0],
            kind,
            max: u16::from_be_bytes([s[MAXIMUM.0], s[MAXIMUM.0 + 1]]),
            present: u16::from_be_bytes([s[PRESENT.0], s[PRESENT.0 + 1]]),
        });
    }
    Err(Refusal::WrongField)
}

// Returns a Timing reply whose length is right, or the refusal 7 for a status that is not allowed.
fn timing_in(s: &[u8]) -> Result<ReplyRead, Refusal>
    requires { Readable (row.Reply kinds.TimingReply) s.now }
    ensures { ReplyMeans s.now result (body_in replies (row.Reply kinds.TimingReply) s.now) }
{
    let status = s[STATUS.0];
    if status_allowed(status) {
        return Ok(ReplyRead::Timing {
            status,
            horizontal: u16::from_be_bytes([s[HORIZONTAL.0], s[HORIZONTAL.0 + 1]]),
            vertical: u16::from_be_bytes([s[VERTICAL.0], s[VERTICAL.0 + 1]]),
        });
    }
    Err(Refusal::WrongField)
}

// Returns the data of a fragment whose length is right.
fn fragment_in(s: &[u8]) -> Carried
    requires { (4 < length s.now) × (2 < body_length s.now) }
    ensures { result ≡ record { offset = record { 0 = word s.now 3 }; at = record { 0 = fragment_at }; len = body_length s.now - 3 } }
{
    Carried {
        offset: TextOffset(u16::from_be_bytes([s[OFFSET.0], s[OFFSET.0 + 1]])),
        at: DATA,
        len: message_frame::body_length(s) - 3,
    }
}

// Returns the fields of a body of this kind, whose length is right.
fn fields(kind: ReplyKind, s: &[u8]) -> Result<ReplyRead, Refusal>
    requires { Readable (row.Reply kind) s.now }
    ensures { ReplyMeans s.now result (body_in replies (row.Reply kind) s.now) }
{
    match kind {
        ReplyKind::Value => value_in(s),
        ReplyKind::TimingReply => timing_in(s),
        ReplyKind::TextFragment => Ok(ReplyRead::Fragment {
            kind: TextKind::Capabilities,
            data: fragment_in(s),
        }),
        ReplyKind::TableFragment => Ok(ReplyRead::Fragment {
            kind: TextKind::Table,
            data: fragment_in(s),
        }),
    }
}

// Returns what the tests of a reply come to in the papers' order, but those of its fields.
// The frame's tests take the form of the length byte from the row, those of the body the length and the kind.
#[inline(always)]
fn tested(a: Address, s: &[u8]) -> Result<ReplyKind, Refusal>
    ensures { ReplyHolds a s.now result }
{
    message_frame::head(Direction::Reply, a, s)?;
    let row = table::reply_row(message_frame::command(s), message_frame::body_length(s));
    message_frame::kind_by(Direction::Reply, a, row, s)
}

// Reads a reply that came from an address: returns the message, or the first refusal in the papers' order.
// The null message is refused with 12.
// It is inlined into each user, as its steps are: by a call of its own a Value took a quarter longer to read.
#[inline(always)]
pub fn read_reply(a: Address, s: &[u8]) -> Result<ReplyRead, Refusal>
    ensures { ReplyMeans s.now result (decode replies a s.now) }
{
    let kind = tested(a, s)?;
    fields(kind, s)
}

// Returns whether a reply is the display's null message, which is a fixed byte string.
// Byte by byte: by `starts_with`, which looks at all three at once, a reply took a fifth longer to read.
pub fn is_null(s: &[u8]) -> bool
    ensures { result ≡ starts_with nat_eq s.now null_bytes }
{
    let [first, length, check] = *b"\x6E\x80\xBE";
    matches!(s, [a, b, c, ..] if *a == first && *b == length && *c == check)
}

// Reads a reply of the display, the null message by its bytes: returns the message, or the first refusal.
#[inline(always)]
pub fn read_display_reply(s: &[u8]) -> Result<ReplyRead, Refusal>
    ensures { ReplyMeans s.now result (decode replies to_host s.now) }
{
    if is_null(s) {
        return Err(Refusal::NullMessage);
    }
    read_reply(TO_HOST, s)
}

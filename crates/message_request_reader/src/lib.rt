// The reader of requests, the messages to the display, proved equal to message_rules' `decode`.
#![tactic(auto)]

mod table;

ghost use Rattle.message_rules.specs.Message.{decode, requests};
ghost use Rattle.message_rules.specs.Row as row;
ghost use Rattle.message_request_reader.specs.Outcome.{RequestMeans, RequestHolds};
ghost use Rattle.message_frame.specs.Meaning.{Readable};
ghost use Rattle.message_frame.specs.Parts.{body_in};

use message_frame::Carried;
use message_rules::refusal::Refusal;
use message_rules::{Address, Direction, Position, RequestKind, TextOffset};

// A request that was read, with its fields: Get has a code, Text an offset.
#[derive(Clone, Copy)]
pub enum RequestRead {
    Get(u8),
    Set { code: u8, value: u16 },
    Timing,
    Save,
    Text(TextOffset),
    TableRead { code: u8, offset: TextOffset },
    TableWrite { code: u8, data: Carried },
}

// The positions of a request's fields, behind its command number.
const CODE: Position = Position(3);

const VALUE: Position = Position(4);

const TEXT_OFFSET: Position = Position(3);

const TABLE_OFFSET: Position = Position(4);

const DATA: Position = Position(6);

// Returns the fields of a body of this kind, whose length is right.
fn fields(kind: RequestKind, s: &[u8]) -> RequestRead
    requires { Readable (row.Request kind) s.now }
    ensures { RequestMeans s.now (Ok result) (body_in requests (row.Request kind) s.now) }
{
    match kind {
        RequestKind::Get => RequestRead::Get(s[CODE.0]),
        RequestKind::Set => {
            let value = u16::from_be_bytes([s[VALUE.0], s[VALUE.0 + 1]]);
            RequestRead::Set {
                code: s[CODE.0],
                value,
            }
        }
        RequestKind::Timing => RequestRead::Timing,
        RequestKind::Save => RequestRead::Save,
        RequestKind::Text => {
            let offset = u16::from_be_bytes([s[TEXT_OFFSET.0], s[TEXT_OFFSET.0 + 1]]);
            RequestRead::Text(TextOffset(offset))
        }
        RequestKind::TableRead => {
            let offset = u16::from_be_bytes([s[TABLE_OFFSET.0], s[TABLE_OFFSET.0 + 1]]);
            RequestRead::TableRead {
                code: s[CODE.0],
                offset: TextOffset(offset),
            }
        }
        RequestKind::TableWrite => {
            let offset = u16::from_be_bytes([s[TABLE_OFFSET.0], s[TABLE_OFFSET.0 + 1]]);
            let data = Carried {
                offset: TextOffset(offset),
                at: DATA,
                len: message_frame::body_length(s) - 4,
            };
            RequestRead::TableWrite {
                code: s[CODE.0],
                data,
            }
        }
    }
}

// Returns what the tests of a request come to in the papers' order, but those of its fields.
// The frame's tests take the form of the length byte from the row, those of the body the length and the kind.
fn tested(a: Address, s: &[u8]) -> Result<RequestKind, Refusal>
    ensures { RequestHolds a s.now result }
{
    message_frame::head(Direction::Request, a, s)?;
    let row = table::request_row(message_frame::command(s), message_frame::body_length(s));
    message_frame::kind_by(Direction::Request, a, row, s)
}

// Reads a request that came to an address: returns the message, or the first refusal in the papers' order.
pub fn read_request(a: Address, s: &[u8]) -> Result<RequestRead, Refusal>
    ensures { RequestMeans s.now result (decode requests a s.now) }
{
    let kind = tested(a, s)?;
    Ok(fields(kind, s))
}

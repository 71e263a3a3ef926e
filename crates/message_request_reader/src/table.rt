// The requests of document 01's table of messages.
// One `match` on the command number gives its row.
// The row decides the body's length, its fields (by their kind) and the form of the length byte.
// The tests of the frame take the form from it, those of the body the length and the kind.
ghost use Rattle.std.specs.Prelude.{◌≡◌};
ghost use Rattle.message_rules.specs.Layout.{row_of};
ghost use Rattle.message_rules.specs.declared.Direction.TheVariants.{Request};
ghost use Rattle.message_request_reader.specs.Table.{request_row};

use message_frame::row::{Shape, SizedRow, known_row, unknown_row};
use message_rules::{RequestKind, limits};

// Returns the row of a request by its command number, for a body of n bytes. No request has a plain length byte.
pub(crate) fn request_row(number: u8, n: usize) -> SizedRow<RequestKind>
    ensures { result ≡ request_row (row_of Request number) n }
{
    match number {
        0x01 => known_row(RequestKind::Get, Shape::fixed(2), n),
        0x03 => known_row(RequestKind::Set, Shape::fixed(4), n),
        0x07 => known_row(RequestKind::Timing, Shape::fixed(1), n),
        0x0C => known_row(RequestKind::Save, Shape::fixed(1), n),
        0xF3 => known_row(RequestKind::Text, Shape::fixed(3), n),
        0xE2 => known_row(RequestKind::TableRead, Shape::fixed(4), n),
        0xE7 => known_row(
            RequestKind::TableWrite,
            Shape::with_data(4, limits::MOST_WRITTEN),
            n,
        ),
        _ => unknown_row(),
    }
}

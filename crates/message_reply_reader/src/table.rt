// The replies of document 01's table of messages.
// One `match` on the command number gives its row.
// The row decides the body's length, its fields (by their kind) and the form of the length byte.
// The tests of the frame take the form from it, those of the body the length and the kind.
ghost use Rattle.std.specs.Prelude.{◌≡◌};
ghost use Rattle.message_rules.specs.Layout.{row_of};
ghost use Rattle.message_rules.specs.declared.Direction.TheVariants.{Reply};
ghost use Rattle.message_reply_reader.specs.Table.{reply_row};

use message_frame::row::{Shape, SizedRow, known_row, unknown_row};
use message_rules::{ReplyKind, limits};

// Returns the row of a reply by its command number, for a body of n bytes. One reply has a plain length byte.
pub(crate) fn reply_row(number: u8, n: usize) -> SizedRow<ReplyKind>
    ensures { result ≡ reply_row (row_of Reply number) n }
{
    match number {
        0x02 => known_row(ReplyKind::Value, Shape::fixed(8), n),
        0x4E => known_row(
            ReplyKind::TimingReply,
            Shape {
                plain: true,
                ..Shape::fixed(6)
            },
            n,
        ),
        0xE3 => known_row(
            ReplyKind::TextFragment,
            Shape::with_data(3, limits::MOST_FRAGMENT),
            n,
        ),
        0xE4 => known_row(
            ReplyKind::TableFragment,
            Shape::with_data(3, limits::MOST_FRAGMENT),
            n,
        ),
        _ => unknown_row(),
    }
}

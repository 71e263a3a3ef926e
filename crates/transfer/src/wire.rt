// The messages of a transfer, by the kind of its text.
ghost use Rattle.std.specs.Prelude.{◌≡◌, true};
ghost use Rattle.message_output.specs.Output.{Builds};
ghost use Rattle.transfer_rules.specs.Fragment.{request_message, read_reply, fragment_of};
ghost use Rattle.transfer.specs.Found.{FragmentMeans, of_kind};

use message_frame::Carried;
use message_reply_reader::ReplyRead;
use message_rules::refusal::Refusal;
use message_rules::{TextKind, TextOffset};

// Builds the request for the fragment of a text at an offset.
// Returns its length, or 1 where the output has under 38 bytes.
#[tactic(auto, unfolding(transfer_rules::specs::Fragment::request_message))]
pub(crate) fn build(kind: TextKind, offset: TextOffset, output: &mut [u8]) -> Result<usize, Refusal>
    ensures { Builds true (request_message kind offset.0) output.old output.new result }
{
    match kind {
        TextKind::Capabilities => message_request_builder::build_text(
            message_rules::TO_DISPLAY,
            offset,
            output,
        ),
        TextKind::Table => message_request_builder::build_table_read(
            message_rules::TO_DISPLAY,
            message_rules::TABLE_CODE,
            offset,
            output,
        ),
    }
}

// Returns the data of the fragment that was read, if it is one of this text; any other reply is refused with 10.
fn of_kind(kind: TextKind, found: ReplyRead) -> Result<Carried, Refusal>
    ensures { result ≡ of_kind kind found }
{
    match found {
        ReplyRead::Fragment { kind: text, data } if text == kind => Ok(data),
        _ => Err(Refusal::NotWanted),
    }
}

// Returns the data of the fragment of this text in the bytes that came back, or a refusal.
pub(crate) fn read_fragment(kind: TextKind, s: &[u8]) -> Result<Carried, Refusal>
    ensures { FragmentMeans s.now result (fragment_of kind (read_reply s.now)) }
{
    let found = message_reply_reader::read_display_reply(s)?;
    of_kind(kind, found)
}

// Sending the null message.
ghost use Rattle.std.specs.Prelude.{true};
ghost use Rattle.message_rules.specs.Message as messages;
ghost use Rattle.display_pending.specs.Send.{Sent};

// Sends the null message, and returns its length.
// A length, not a Result: `Sent` counts 0 where nothing was sent, and no step passes such an output on.
pub fn null(out: &mut [u8]) -> usize
    ensures { Sent true (messages.null messages.to_host) out.old out.new result }
{
    message_reply_builder::build_null(out).unwrap_or(0)
}

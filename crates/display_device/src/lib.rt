// The operations of one device: what Get, Set and Timing come to, from its settings and the address pair of its replies.
// Nothing here knows of texts or of a whole display.
#![tactic(auto)]

ghost use Rattle.std.specs.Prelude.{◌≡◌, true};
ghost use Rattle.message_rules.specs.Message.{replies, encode};
ghost use Rattle.settings_rules.specs.Settings.{get_code};
ghost use Rattle.display_rules.specs.Turn.{feature_reply};
ghost use Rattle.display_pending.specs.Send.{Sent};
ghost use Rattle.display_pending.specs.Pending.{pending_set};
ghost use Rattle.display_device.specs.Timing.{SendsTiming};

use display_pending::Pending;
use message_rules::Address;
use settings_rules::{Accepted, Settings};

// Answers a Get, and returns the length of the reply.
// It is 0, and nothing is written, where the output has under 38 bytes; no step passes one on.
pub fn get(a: Address, s: Settings, code: u8, out: &mut [u8]) -> usize
    ensures { Sent true (encode replies a (feature_reply (get_code s code))) out.old out.new result }
{
    let (unknown, kind, maximum, present) = match settings::get(s, code) {
        Some(v) => (0, u8::from(v.momentary), v.maximum, v.present),
        None => (1, 0, 0, 0),
    };
    message_reply_builder::build_value(a, unknown, code, kind, maximum, present, out).unwrap_or(0)
}

// Judges a Set. The value of an accepted one is still to be stored, unless the code is momentary.
pub fn set(s: Settings, code: u8, value: u16) -> Pending
    ensures { result ≡ pending_set s code value }
{
    match settings::judge_set(s, code, value) {
        Ok(Accepted::Stored) => Pending::Store(code, value),
        Ok(Accepted::Momentary) => Pending::Momentary,
        Err(refused) => Pending::Refused(u8::from(refused), 0),
    }
}

// Answers a Timing.
// The builder refuses (7) a timing with a reserved bit set, which no start lets in.
pub fn timing(a: Address, s: Settings, out: &mut [u8]) -> Pending
    ensures { SendsTiming a s out.old out.new result }
{
    let built = message_reply_builder::build_timing_reply(
        a,
        s.status,
        s.horizontal,
        s.vertical,
        out,
    );
    match built {
        Ok(n) => Pending::Replied(n),
        Err(refusal) => Pending::Refused(u8::from(refusal), 0),
    }
}

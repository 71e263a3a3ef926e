// Why a capabilities string is refused.
#![tactic(auto)]

use capabilities_checker::check;
use capabilities_rules::limits::MOST_NODES;
use message_rules::Position;
use message_rules::refusal::{Refusal, RefusedAt};
use show::text;

// Writes which byte is refused. A line end behind the string is the one that `echo` leaves.
// A zero byte is refused where a bracket is still open, or none was opened yet.
fn refused_byte(to: i32, place: Position, b: u8) {
    show::counted(to, b": byte ", place.0 as u64, b" is ");
    show::hex(to, b);
    match b {
        b'\n' => text(
            to,
            b", a line end: remove it, or write the string with printf",
        ),
        0 => text(
            to,
            b", a zero byte, which may only follow the bracket that closes the string",
        ),
        _ => {}
    }
}

// Writes where a string is refused, and what stands there.
fn spot(to: i32, string: &[u8], refused: RefusedAt) {
    let at = refused.position;
    match (refused.refusal, string.get(at.0)) {
        (Refusal::TextTooLong, _) => text(to, b": a capabilities string has at most 4096 bytes"),
        (_, Some(&b)) => refused_byte(to, at, b),
        (_, None) if at.0 == 0 => text(to, b": it is empty"),
        (_, None) => show::counted(
            to,
            b": it ends at byte ",
            at.0 as u64,
            b" with no closing bracket",
        ),
    }
}

// Writes for people why a string is refused, as one line that begins with `who`.
// Of a string that is accepted nothing is written.
pub fn explain(to: i32, who: &[u8], string: &[u8]) {
    if let Err(refused) = check(string, MOST_NODES) {
        text(to, who);
        show::answer::meaning(to, u8::from(refused.refusal));
        spot(to, string, refused);
        text(to, b"\n");
    }
}

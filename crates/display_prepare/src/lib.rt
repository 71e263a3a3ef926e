// All of a display's step but the change of the display: a message is judged and answered, with a small result.
// The display, which is large, is then passed on once, by `ddcci_display::ddcci_display_step`.
#![tactic(auto)]

ghost use Rattle.std.specs.Prelude.{◌≡◌, List, ℕ, ◌≤◌, length};
ghost use Rattle.message_request_reader.specs.Outcome.{request_in, RequestInside};
ghost use Rattle.message_rules.specs.Limits.{output_room};
ghost use Rattle.message_rules.specs.Read.{ok, refused};
ghost use Rattle.message_rules.specs.Refusal.{number_of};
ghost use Rattle.display_rules.specs.Limits.{table_room};
ghost use Rattle.display_rules.specs.Step.{lent_sizes, turn_of, outcome, step};
ghost use Rattle.display_rules.specs.declared.Display.{Display};
ghost use Rattle.display_pending.specs.Pending.{pending_for, pending_of, Prepares};

use display_pending::{Pending, send};
use display_rules::Display;
use display_rules::limits::TABLE_ROOM;
use display_texts::answers;
use display_texts::fragments::Texts;
use message_request_reader::{RequestRead, read_request};
use message_rules::limits::OUTPUT_ROOM;
use message_rules::refusal::Refusal;
use message_rules::{TO_DISPLAY, TO_HOST, TextKind, answer};

// Returns whether the output, the table's buffer and the capabilities string have the lengths that a step asks for.
// `starting` is the length of the capabilities string at the start.
fn lent_well(starting: u16, text_len: usize, table_len: usize, out_len: usize) -> bool
    ensures { result ≡ lent_sizes starting text_len table_len out_len }
{
    OUTPUT_ROOM <= out_len && table_len == TABLE_ROOM && text_len == usize::from(starting)
}

// Answers a message that the reader refused: on 6 the null message is sent.
fn refuse(refusal: Refusal, out: &mut [u8]) -> Pending
    requires { output_room ≤ length out.old }
    ensures { (d : Display) (text table : List ℕ) → Prepares d (pending_for d text table (refused (number_of refusal))) (outcome (turn_of d text table (refused (number_of refusal))) out.old) result table out.new }
{
    let length = if refusal == Refusal::UnknownCommand {
        send::null(out)
    } else {
        0
    };
    Pending::Refused(u8::from(refusal), length)
}

// Returns what is left to be done, of what was read of a message, with buffers of the right lengths.
fn obey(
    d: Display,
    text: &[u8],
    table: &mut [u8],
    request: RequestRead,
    message: &[u8],
    out: &mut [u8],
) -> Pending
    requires { (output_room ≤ length out.old) × (length table.old ≡ table_room) × RequestInside message.now request }
    ensures { let read = ok (request_in message.now request) in Prepares d (pending_for d text.now table.old read) (outcome (turn_of d text.now table.old read) out.old) result table.new out.new }
{
    match request {
        RequestRead::Get(code) => {
            let length = display_device::get(TO_HOST, d.settings, code, out);
            Pending::Replied(length)
        }
        RequestRead::Set { code, value } => display_device::set(d.settings, code, value),
        RequestRead::Timing => display_device::timing(TO_HOST, d.settings, out),
        RequestRead::Save => Pending::Save,
        RequestRead::Text(q) => {
            let kind = TextKind::Capabilities;
            answers::read(
                kind,
                d.capabilities,
                d.size,
                Texts {
                    capabilities: text,
                    table,
                },
                q,
                out,
            )
        }
        RequestRead::TableRead { code, offset: q } => {
            answers::table_read(
                d.table,
                d.size,
                Texts {
                    capabilities: text,
                    table,
                },
                code,
                q,
                out,
            )
        }
        RequestRead::TableWrite { code, data } => answers::write(
            d.table.len,
            table,
            code,
            data.offset,
            message,
            data.at,
            data.len,
        ),
    }
}

// Does all of a step but the change of the display: judges the message, writes the table, builds the reply.
// Returns what is left to be done to the display.
// All is lent one by one, as C hands it to the step.
pub fn prepare(d: Display, text: &[u8], table: &mut [u8], message: &[u8], out: &mut [u8]) -> Pending
    ensures { Prepares d (pending_of d text.now table.old message.now out.old) (step d text.now table.old message.now out.old) result table.new out.new }
{
    let starting = d.capabilities.len;
    if lent_well(starting, text.len(), table.len(), out.len()) {
        return match read_request(TO_DISPLAY, message) {
            Ok(request) => obey(d, text, table, request, message, out),
            Err(refusal) => refuse(refusal, out),
        };
    }
    Pending::Refused(answer::WRONG_SIZE, 0)
}

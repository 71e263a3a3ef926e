// A transfer: begin, request and receive, each proved equal to transfer_rules' definition.
#![tactic(auto)]

mod steps;
mod wire;

ghost use Rattle.std.specs.Prelude.{length};
ghost use Rattle.std.specs.Result.{result_unwrap_or};
ghost use Rattle.message_rules.specs.Refusal.{answer_number};
ghost use Rattle.transfer_rules.specs.Transfer as rules;
ghost use Rattle.transfer_rules.specs.Transfer.{Begins, Requests, Receives};

use crate::steps::Open;
use message_rules::refusal::Refusal;
use message_rules::{TextKind, TextOffset};
use transfer_rules::{Received, State, Transfer, limits};

// Returns a transfer of a text, with the buffer that it will fill and a budget of exchanges.
// A budget of 0 is closed at once, and one above 65,535 is refused with 18.
pub fn begin(kind: TextKind, buffer: &[u8], budget: usize) -> Result<Transfer, Refusal>
    ensures { Begins (rules.begin kind (length buffer.now) budget) kind result }
{
    if limits::MOST_BUDGET < budget {
        return Err(Refusal::NotDeclarable);
    }
    let state = if budget == 0 {
        State::Exhausted
    } else {
        State::Running
    };
    Ok(Transfer {
        kind,
        state,
        reached: TextOffset(0),
        capacity: buffer.len(),
        budget: budget as u16,
        count: 0,
    })
}

// Builds the request for the offset that the transfer has reached.
// Returns its length, or a refusal: 16 where the transfer is closed, 1 for an output under 38 bytes.
// A request is not counted.
pub fn request(transfer: Transfer, output: &mut [u8]) -> Result<usize, Refusal>
    ensures { Requests (rules.request transfer output.old) (answer_number result) (result_unwrap_or result 0) output.new }
{
    let open = Open::of(transfer).ok_or(Refusal::TransferClosed)?;
    wire::build(open.transfer.kind, open.transfer.reached, output)
}

// Receives the bytes that came back, with the buffer that the transfer was begun with.
// The fragment wanted is accepted where it has room, and is refused with 11 where it has none.
// Another fragment or another kind of reply is 10; what cannot be read gives the reader's refusal.
// Returns the answer and the transfer afterwards, with one exchange more counted.
// A closed transfer is 16, and a buffer of another length is 1: these count nothing and change nothing.
// Transfer and buffer come apart: a state goes by value, and a buffer is lent.
pub fn receive(transfer: Transfer, buffer: &mut [u8], reply: &[u8]) -> Received
    ensures { Receives (rules.receive transfer buffer.old reply.now) (answer_number result.answer) result.transfer buffer.new }
{
    let Some(open) = Open::of(transfer) else {
        return Received {
            answer: Err(Refusal::TransferClosed),
            transfer,
        };
    };
    if buffer.len() != transfer.capacity {
        return Received {
            answer: Err(Refusal::WrongSize),
            transfer,
        };
    }
    match wire::read_fragment(transfer.kind, reply) {
        Ok(found) if found.offset == transfer.reached => {
            let start = found.at.0;
            let end = start + found.len;
            open.accept(buffer, &reply[start..end])
        }
        Ok(_) => open.refuse(Refusal::NotWanted),
        Err(refusal) => open.refuse(refusal),
    }
}

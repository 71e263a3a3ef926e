// Receiving a reply in place: the transfer is changed where it stands.
// It stands above the receive by value.
#![tactic(auto)]

ghost use Rattle.message_rules.specs.Refusal.{answer_number};
ghost use Rattle.transfer_rules.specs.Transfer as rules;
ghost use Rattle.transfer_rules.specs.Transfer.{Receives};

use message_rules::refusal::Refusal;
use transfer_rules::{Received, Transfer};

// Receives the bytes that came back, and returns the answer.
// The transfer is taken out, moved on by value and stored back.
pub fn receive_in_place(
    transfer: &mut Transfer,
    buffer: &mut [u8],
    reply: &[u8],
) -> Result<(), Refusal>
    ensures { Receives (rules.receive transfer.old buffer.old reply.now) (answer_number result) transfer.new buffer.new }
{
    let received = transfer::receive(*transfer, buffer, reply);
    *transfer = received.transfer;
    received.answer
}

// Receives the bytes that came back through `receive_in_place`, for a transfer by value.
// Returns the answer and the transfer afterwards.
// A caller of this one has no lent transfer to speak of.
pub fn receive_by_place(start: Transfer, buffer: &mut [u8], reply: &[u8]) -> Received
    ensures { Receives (rules.receive start buffer.old reply.now) (answer_number result.answer) result.transfer buffer.new }
{
    let mut transfer = start;
    let answer = receive_in_place(&mut transfer, buffer, reply);
    Received { answer, transfer }
}

// The steps of a transfer that is open; each takes it by value and returns the transfer afterwards.
ghost use Rattle.std.specs.Prelude.{◌≡◌, ◌<◌, true, false, length, MatchOption};
ghost use Rattle.message_rules.specs.Refusal.{answer_number};
ghost use Rattle.transfer_rules.specs.Transfer as rules;
ghost use Rattle.transfer_rules.specs.Transfer.{is_open, Receives};

use buffers::put;
use message_rules::TextOffset;
use message_rules::limits::LONGEST_TEXT;
use message_rules::refusal::Refusal;
use transfer_rules::{Received, State, Transfer};

// A transfer that is open, so that one exchange more may be counted.
#[derive(Clone, Copy)]
pub(crate) struct Open {
    pub(crate) transfer: Transfer,
    ghost below_budget: { transfer.count < transfer.budget },
}

impl Open {
    // Returns the transfer as an open one: it runs, and its count is below its budget.
    // Returns none where it is closed.
    pub(crate) fn of(transfer: Transfer) -> Option<Open>
        ensures { MatchOption result (is_open transfer ≡ false) (λ o. (is_open transfer ≡ true) × (o.transfer ≡ transfer)) }
    {
        if transfer.state == State::Running && transfer.count < transfer.budget {
            Some(Open { transfer })
        } else {
            None
        }
    }

    // Returns the transfer with one exchange more counted, in this state and at this offset.
    // One that runs is exhausted where its count meets its budget.
    fn counted(self, state: State, reached: TextOffset) -> Transfer
        ensures { result ≡ rules.counted self.transfer state reached.0 }
    {
        let count = self.transfer.count + 1;
        let state = match state {
            State::Running if count == self.transfer.budget => State::Exhausted,
            _ => state,
        };
        Transfer {
            state,
            reached,
            count,
            ..self.transfer
        }
    }

    // Returns a refusal: the exchange is counted, and the rest stays as it was.
    pub(crate) fn refuse(self, refusal: Refusal) -> Received
        ensures { (result.answer ≡ Err refusal) × (result.transfer ≡ rules.counted self.transfer State.Running self.transfer.reached.0) }
    {
        Received {
            answer: Err(refusal),
            transfer: self.counted(State::Running, self.transfer.reached),
        }
    }

    // Puts the data of the fragment wanted into the buffer, at the offset reached.
    // Returns the transfer behind them, which is done where there are none.
    // Data past the room, the lesser of the buffer's length and 4,096, are refused with 11: the transfer closes as
    // overflowed, and nothing is put.
    pub(crate) fn accept(self, buffer: &mut [u8], fragment: &[u8]) -> Received
        requires { length buffer.old ≡ self.transfer.capacity }
        ensures { Receives (rules.accept self.transfer buffer.old fragment.now) (answer_number result.answer) result.transfer buffer.new }
    {
        let reached = self.transfer.reached;
        let at = usize::from(reached.0);
        let end = at + fragment.len();
        if self.transfer.capacity.min(LONGEST_TEXT) < end {
            return Received {
                answer: Err(Refusal::TextTooLong),
                transfer: self.counted(State::Overflowed, reached),
            };
        }
        put(buffer, at, fragment);
        let state = if fragment.is_empty() {
            State::Done
        } else {
            State::Running
        };
        Received {
            answer: Ok(()),
            transfer: self.counted(state, TextOffset(end as u16)),
        }
    }
}

// The types of a transfer (the papers' read run): the host reads one of a display's two texts, fragment by fragment.
// What they mean stands in specs/, and demand 3 in proofs/.
#![tactic(auto)]

pub mod limits;

ghost use Rattle.std.specs.Prelude.{◌≡◌};
ghost use Rattle.transfer_rules.specs.Transfer.{exhausted};

use message_rules::refusal::Refusal;
use message_rules::{TextKind, TextOffset};

// Whether a transfer runs, or how it closed.
// The cases stand in the order of the exported numbers, so that the exports turn one into the other for nothing.
#[derive(Clone, Copy, PartialEq, Eq)]
pub enum State {
    // Closed at its budget: the count met it, and no empty fragment had come.
    Exhausted,
    // Not closed.
    Running,
    // Closed at an empty fragment: the text has ended.
    Done,
    // Closed at data past its room (answer 11).
    Overflowed,
}

// A transfer.
#[derive(Clone, Copy)]
pub struct Transfer {
    // Which text it reads.
    pub kind: TextKind,
    // Whether it runs, or how it closed.
    pub state: State,
    // The offset reached: how many bytes of the text were accepted.
    pub reached: TextOffset,
    // The length of the buffer that it was begun with.
    pub capacity: usize,
    // The most exchanges that it counts.
    pub budget: u16,
    // How many exchanges it has counted.
    pub count: u16,
}

impl Transfer {
    // Returns the transfer that stands for a refused start: it is exhausted, and its room is 0.
    pub fn exhausted(kind: TextKind) -> Transfer
        ensures { result ≡ exhausted kind }
    {
        Transfer {
            kind,
            state: State::Exhausted,
            reached: TextOffset(0),
            capacity: 0,
            budget: 0,
            count: 0,
        }
    }
}

// What receiving a reply returns.
#[derive(Clone, Copy)]
pub struct Received {
    // Whether the reply was accepted, or why it was refused.
    pub answer: Result<(), Refusal>,
    // The transfer afterwards, which comes in either case.
    pub transfer: Transfer,
}

// A text read back through a transfer.
// What the line has spoiled is given to the transfer as it came: it counts, and is asked for again.
use crate::pipe::{Fault, Host, Kind};
use buffers::front;
use frames::Frame;
use message_rules::TextKind;
use message_rules::limits::LONGEST_TEXT;
use std::io::Input;
use transfer_rules::{State, Transfer};

// How many exchanges a transfer may take.
const BUDGET: usize = 500;

// A text that is being read.
#[derive(Drop)]
pub(crate) struct Reading {
    // The transfer.
    pub(crate) transfer: Transfer,
    // The transfer's buffer.
    buffer: [u8; LONGEST_TEXT],
}

impl Reading {
    // Returns the bytes that were read.
    pub(crate) fn bytes(&self) -> &[u8] {
        front(&self.buffer, usize::from(self.transfer.reached.0))
    }

    // Returns whether the transfer has its whole text.
    pub(crate) fn is_done(&self) -> bool {
        self.transfer.state == State::Done
    }

    // Sends the transfer's next request, and gives the transfer the reply that came.
    fn exchange<R: Input>(&mut self, host: &mut Host<'_, R>) -> Result<(), Fault> {
        let mut request = Frame::EMPTY;
        request.len = transfer::request(self.transfer, &mut request.bytes).unwrap_or(0);
        let reply = host.exchange(Kind::Message, request.as_slice())?;
        let received = transfer::receive(self.transfer, &mut self.buffer, reply.message.as_slice());
        self.transfer = received.transfer;
        Ok(())
    }
}

// Returns what reading a text through a transfer brought: it closed, or had the budget's number of exchanges.
pub(crate) fn text<R: Input>(host: &mut Host<'_, R>, kind: TextKind) -> Result<Reading, Fault> {
    let buffer = [0u8; LONGEST_TEXT];
    let begun = transfer::begin(kind, &buffer, BUDGET);
    let mut r = Reading {
        transfer: begun.unwrap_or(Transfer::exhausted(kind)),
        buffer,
    };
    for _ in 0..BUDGET {
        r.exchange(host)?;
        if r.transfer.state != State::Running {
            break;
        }
    }
    Ok(r)
}

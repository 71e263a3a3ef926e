// 06:00 and 12:00: a host reads a text of a display over the line, fragment by fragment.
// It asks again where the line spoils an exchange.
#![tactic(auto)]

mod calls;
mod strings;

use buffers::front;
use day_line::Line;
use day_line::tally::Tally;
use day_report::exchanges;
use day_report::exchanges::Exchange;
use frames::Frame;
use message_rules::TextKind;
use message_rules::limits::LONGEST_TEXT;
use transfer_rules::{State, Transfer};

// How many exchanges a transfer may take.
pub const BUDGET: usize = 1500;

// How many exchanges are shown in full.
const SHOWN: u16 = 8;

// A transfer under way.
#[derive(Drop)]
pub struct Reading {
    // The transfer.
    transfer: Transfer,
    // The line that it goes over.
    pub line: Line,
    // Its buffer.
    buffer: [u8; LONGEST_TEXT],
    // What became of its exchanges.
    tally: Tally,
    // How many of its exchanges are shown.
    shown: u16,
}

// Returns how many exchanges are shown in full: the first ones of the first display's list, else none.
// Where some are, the heads of their columns are written.
fn shown(kind: TextKind, number: u64) -> u16 {
    if kind == TextKind::Table && number == 1 {
        exchanges::heads();
        SHOWN
    } else {
        0
    }
}

// Returns whether the text that was read is accepted: a string by the grammar, a list as the gates check it.
fn accepted(kind: TextKind, number: u64, text: &[u8]) -> bool {
    match kind {
        TextKind::Capabilities => strings::accepted(number, text),
        TextKind::Table => calls::checked(number, text),
    }
}

impl Reading {
    // Returns a reading before its first exchange.
    pub fn begin(kind: TextKind, number: u64, line: Line) -> Reading {
        let buffer = [0u8; LONGEST_TEXT];
        let begun = transfer::begin(kind, &buffer, BUDGET);
        Reading {
            transfer: begun.unwrap_or(Transfer::exhausted(kind)),
            line,
            buffer,
            tally: Tally::default(),
            shown: shown(kind, number),
        }
    }

    // Returns what arrives of the next request.
    pub fn asked(&self) -> Frame {
        let mut request = Frame::EMPTY;
        request.len = transfer::request(self.transfer, &mut request.bytes).unwrap_or(0);
        day_line::heard(day_line::draw(self.line.seed), request)
    }

    // Counts one more exchange, and writes it where it is among those that are shown.
    fn count(&mut self, e: Exchange) {
        self.tally.count(e.fate, e.answer.is_ok());
        if e.number <= self.shown {
            e.write();
        }
    }

    // Takes the display's reply to what was asked, as far as the line lets it come.
    pub fn hear(&mut self, reply: Frame) {
        let fate = day_line::draw(self.line.seed);
        let came = day_line::came(self.line, fate, reply);
        self.line = day_line::after(self.line, came);
        let from = self.transfer.reached;
        let received = transfer::receive(self.transfer, &mut self.buffer, came.as_slice());
        self.transfer = received.transfer;
        self.count(Exchange {
            number: self.transfer.count,
            from: from.0,
            fate,
            came: came.len,
            to: self.transfer.reached.0,
            answer: received.answer,
        });
    }

    // Returns whether there is more to ask.
    pub fn goes_on(&self) -> bool {
        self.transfer.state == State::Running
    }

    // Writes how the transfer went.
    // Returns whether it came to the bytes that are wanted, and closed as done with every exchange accounted for.
    pub fn judged(&self, number: u64, wanted: &[u8]) -> bool {
        let t = self.transfer;
        let text = front(&self.buffer, usize::from(t.reached.0));
        let same = wanted == text;
        exchanges::transfer(self.tally, t.count, t.reached.0, same);
        let accepted = accepted(t.kind, number, text);
        let done = t.state == State::Done;
        done && same && self.tally.all_told(t.count) && accepted
    }
}

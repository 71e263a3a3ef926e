// A whole list of exchanges.
use crate::display::{Cursor, Size};
use crate::{display, line};
use capabilities_checker::check;
use capabilities_rules::limits::MOST_NODES;
use frames::Frame;
use message_rules::TextKind;
use message_rules::refusal::RefusedAt;
use streams::STDOUT_FILENO;
use transfer_rules::{Received, State, Transfer};

// The bytes of the buffer.
const SIZE: usize = 240;

// What every byte of the buffer is before.
const BEFORE: u8 = 0xEE;

// How many exchanges a list has: a budget that is enough.
pub(crate) const EXCHANGES: usize = 300;

// How a transfer ended.
#[derive(Clone, Copy)]
pub(crate) struct Ended {
    // Its state.
    pub(crate) state: State,
    // The offset that it reached.
    pub(crate) reached: u16,
    // How many exchanges it counted.
    pub(crate) count: u16,
    // Whether the buffer is as demand 3 says.
    pub(crate) right: bool,
    // What reading the bytes that came as a capabilities string answers, whatever text they are.
    pub(crate) reading: Result<usize, RefusedAt>,
}

// The entry by which a transfer receives.
#[derive(Clone, Copy)]
enum Entry {
    ByValue,
    InPlace,
}

impl Entry {
    // Returns what a transfer receives.
    fn receive(self, t: Transfer, buffer: &mut [u8], reply: &[u8]) -> Received {
        match self {
            Entry::ByValue => transfer::receive(t, buffer, reply),
            Entry::InPlace => transfer_in_place::receive_by_place(t, buffer, reply),
        }
    }
}

// What is run.
#[derive(Clone, Copy)]
pub(crate) struct Setup {
    // The text that is read.
    kind: TextKind,
    // The length of its fragments.
    size: Size,
    // How many replies in ten the line spoils.
    noise: u64,
    // How the transfer is moved on.
    entry: Entry,
}

// A transfer and what stands around it.
#[derive(Drop)]
struct World {
    // The transfer.
    transfer: Transfer,
    // The buffer that it fills.
    buffer: [u8; SIZE],
    // The display's cursor.
    cursor: Cursor,
    // The line's seed.
    seed: u64,
}

// Writes the name of a state.
pub(crate) fn write_state(state: State) {
    let name: &[u8] = match state {
        State::Running => b"running",
        State::Done => b"done",
        State::Exhausted => b"exhausted",
        State::Overflowed => b"overflowed",
    };
    io::write_all(STDOUT_FILENO, name);
}

impl World {
    // Returns the world before the first exchange. The display's cursor stands anywhere.
    fn begin(kind: TextKind, budget: usize) -> World {
        let buffer = [BEFORE; SIZE];
        let begun = transfer::begin(kind, &buffer, budget);
        World {
            transfer: begun.unwrap_or(Transfer::exhausted(kind)),
            buffer,
            cursor: Cursor {
                offset: 77,
                size: 5,
            },
            seed: 2026,
        }
    }

    // Returns the transfer's request, without bytes where the transfer is closed.
    fn request(&self) -> Frame {
        let mut asked = Frame::EMPTY;
        let requested = transfer::request(self.transfer, &mut asked.bytes);
        asked.len = requested.unwrap_or(0);
        asked
    }

    // Returns what comes back of the display's turn: the request goes to it, and its reply over the line.
    // A closed transfer asks for nothing.
    fn turn(&mut self, s: Setup, text: &[u8]) -> Frame {
        let asked = self.request();
        if asked.len == 0 {
            return Frame::EMPTY;
        }
        let offset = display::asked(&asked);
        self.cursor = self.cursor.moved(offset, text.len(), s.size, self.seed);
        let sent = display::fragment(s.kind, text, self.cursor);
        line::carry(sent, s.noise, self.seed)
    }

    // Makes one exchange: asking, the display's turn, and receiving what came back.
    fn exchange(&mut self, s: Setup, text: &[u8]) {
        let reply = self.turn(s, text);
        self.seed = line::next(self.seed);
        let received = s
            .entry
            .receive(self.transfer, &mut self.buffer, reply.as_slice());
        self.transfer = received.transfer;
    }

    // Returns how the transfer ended.
    // The buffer is right where it begins with the text's first bytes, so many as were reached, and is otherwise as it
    // was.
    fn ended(&self, text: &[u8]) -> Ended {
        let reached = usize::from(self.transfer.reached.0);
        let held = buffers::front(&self.buffer, reached);
        let left = buffers::behind(&self.buffer, reached);
        Ended {
            state: self.transfer.state,
            reached: self.transfer.reached.0,
            count: self.transfer.count,
            right: text.starts_with(held) && left.iter().all(|b| *b == BEFORE),
            reading: check(held, MOST_NODES),
        }
    }
}

impl Setup {
    // Returns what is run of a text over a perfect line, each call by value.
    pub(crate) fn perfect(kind: TextKind, size: Size) -> Setup {
        Setup {
            kind,
            size,
            noise: 0,
            entry: Entry::ByValue,
        }
    }

    // Returns the same over a line that spoils three replies in ten.
    pub(crate) fn noisy(mut self) -> Setup {
        self.noise = 3;
        self
    }

    // Returns the same with each call by the entry in place.
    pub(crate) fn in_place(mut self) -> Setup {
        self.entry = Entry::InPlace;
        self
    }

    // Returns how a transfer of this text with this budget ends.
    pub(crate) fn run(self, text: &[u8], budget: usize) -> Ended {
        let mut world = World::begin(self.kind, budget);
        for _ in 0..EXCHANGES {
            world.exchange(self, text);
        }
        world.ended(text)
    }

    // Returns how a transfer ends of a text of so many bytes, which count from 0 to 250, and begin again.
    pub(crate) fn run_numbers(self, length: usize, budget: usize) -> Ended {
        let letters: [u8; 256] = std::array::from_fn(|i| (i % 251) as u8);
        self.run(buffers::front(&letters, length), budget)
    }
}

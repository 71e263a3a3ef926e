// What came of the exchanges of a transfer.
use crate::{OUT, line};
use day_line::Fate;
use day_line::tally::Tally;
use message_rules::refusal::{Refusal, number};

// An exchange that is shown in full.
#[derive(Clone, Copy)]
pub struct Exchange {
    // Its number, from 1 on.
    pub number: u16,
    // The offset that was asked for.
    pub from: u16,
    // What the line did.
    pub fate: Fate,
    // How many bytes came.
    pub came: usize,
    // The offset that was reached.
    pub to: u16,
    // The answer.
    pub answer: Result<(), Refusal>,
}

impl Exchange {
    // Writes the exchange in full.
    // That is its number, the offset asked for, what the line did, how many bytes came, how many were joined, the answer.
    pub fn write(&self) {
        show::number(OUT, u64::from(self.number), 7);
        show::number(OUT, u64::from(self.from), 8);
        show::text(OUT, b"   ");
        show::text(OUT, name(self.fate));
        show::number(OUT, self.came as u64, 2);
        show::number(
            OUT,
            u64::from(self.to).wrapping_sub(u64::from(self.from)),
            9,
        );
        show::answered(OUT, b"   ", number(&self.answer));
    }
}

// Returns the name of a fate, with spaces behind it up to the width of its column.
fn name(fate: Fate) -> &'static [u8] {
    match fate {
        Fate::Good => b"good              ",
        Fate::RequestLost => b"request lost      ",
        Fate::ReplyLost => b"reply lost        ",
        Fate::Cut => b"reply cut         ",
        Fate::Flipped => b"bit flipped       ",
        Fate::Repeated => b"last reply again  ",
    }
}

// Writes the heads of the columns of exchanges that are shown in full.
pub fn heads() {
    show::text(
        OUT,
        b"    no. asks at   the line        came   joined   answer\n",
    );
}

// Writes how a transfer went.
pub fn transfer(t: Tally, count: u16, reached: u16, same: bool) {
    line(
        b"    # exchanges: # accepted, the last one the empty end; # lost, # cut, # flipped, # repeated\n    # bytes read; ",
        &[
            u64::from(count),
            t.accepted,
            t.lost,
            t.cut,
            t.flipped,
            t.repeated,
            u64::from(reached),
        ],
    );
    show::compared(OUT, b"beside what was written: ", same);
}

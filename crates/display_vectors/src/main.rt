// Runs the rows of standard input on displays, and writes one line a group.
// The form of the input stands at its head, in the file stdin.
#![tactic(auto)]

mod bench;
mod calls;

use bench::{Bench, FILLING, OUT_ROOM, TABLE_BUFFER, holds};
use buffers::{behind, front, front_mut, octet};
use ddcci_display::ddcci_display_load_profile;
use message_rules::refusal;
use settings_rules::{Declaration, Timing};
use streams::{STDIN_FILENO, STDOUT_FILENO};

// One byte more than the longest input.
const INPUT_ROOM: usize = 32768;

// The most pairs of digits on a line: 65 settings with their answers, and the numbers beside them.
const LINE_ROOM: usize = 272;

// The bytes of a start and of a declaration.
const FIELDS: usize = 9;

// The bytes of a buffers row in front of its message.
// They are the lengths of the text, of the table's buffer and of the output.
const LENGTHS: usize = 5;

// A row: what is given to a display, and what is due of it.
#[derive(Clone, Copy)]
struct Row<'a> {
    given: &'a [u8],
    due: &'a [u8],
}

impl Row<'_> {
    // Returns the answer that is due.
    fn answer(self) -> u8 {
        vector_line::answer(octet(self.due, 0))
    }

    // Returns the bytes that are due behind the answer.
    fn bytes(&self) -> &[u8] {
        behind(self.due, 1)
    }

    // Returns whether a start or a declaration is as expected, by its answer alone.
    fn answered(self, answer: u8) -> bool {
        answer == self.answer() && self.given.len() == FIELDS && self.due.len() == 1
    }

    // Returns whether a step is as expected: the answer, each byte of the output, and the fragment handed back.
    fn replied(self, b: &Bench) -> bool {
        b.answer == self.answer() && holds(&b.out, b.len, self.bytes()) && b.handed
    }
}

// Returns the 16-bit number at an index, the high byte first, as in a message.
// By index, where a byte that is not there is 0: a row with too few fields is run, and then counts as wrong.
fn word(s: &[u8], at: u16) -> u16 {
    let i = usize::from(at);
    u16::from_be_bytes([octet(s, i), octet(s, i + 1)])
}

// Returns the length that stands at an index.
fn length(s: &[u8], at: u16) -> usize {
    usize::from(word(s, at))
}

// Starts the display of a row: the status, horizontal, vertical, the fragment size, and the length of the
// capabilities string; of a display that was refused it is 0.
// Returns whether it answers as it should.
fn start(b: &mut Bench, row: Row) -> bool {
    let timing = Timing {
        status: octet(row.given, 0),
        horizontal: word(row.given, 1),
        vertical: word(row.given, 3),
    };
    let bytes = bench::text();
    let text = front(&bytes, length(row.given, 7));
    let s = display_start::start(timing, text, word(row.given, 5));
    b.display = s.display;
    b.text = if s.answer == 0 {
        length(row.given, 7)
    } else {
        0
    };
    row.answered(s.answer)
}

// Declares the code of a row: code, readable, writable, type, continuous, maximum, present.
// Returns whether the display answers as it should.
fn declare(b: &mut Bench, row: Row) -> bool {
    let declaration = Declaration {
        code: octet(row.given, 0),
        readable: octet(row.given, 1) != 0,
        writable: octet(row.given, 2) != 0,
        kind: octet(row.given, 3),
        continuous: octet(row.given, 4) != 0,
        maximum: word(row.given, 5),
        present: word(row.given, 7),
    };
    let s = display_start::declare(b.display, declaration);
    b.display = s.display;
    row.answered(s.answer)
}

// Sends a message with buffers of the lengths that a row gives.
// Returns whether the display replies as it should.
fn buffers(b: &mut Bench, row: Row) -> bool {
    let given = row.given;
    let room = usize::from(octet(given, 4));
    b.step(
        length(given, 0),
        length(given, 2),
        room,
        behind(given, LENGTHS),
    );
    row.replied(b)
}

// Returns whether the profile is written as it should be into an output of the length that a row gives.
fn writes_profile(b: &Bench, row: Row) -> bool {
    let mut out = [FILLING; OUT_ROOM];
    let room = usize::from(octet(row.given, 0));
    let written = profile::write(b.display.settings, front_mut(&mut out, room));
    refusal::number(&written) == row.answer() && holds(&out, written.unwrap_or(0), row.bytes())
}

// Loads a profile, as C does: the position comes with either answer there.
// Returns whether the answer and the position behind it are due.
fn load_profile(b: &mut Bench, row: Row) -> bool {
    let loaded = ddcci_display_load_profile(b.display, row.given);
    b.display = loaded.display;
    loaded.answer == row.answer() && loaded.position == length(row.due, 1) && row.due.len() == 3
}

// Makes many settings in one call.
// Returns whether its answer and those that it writes are due, and none behind them was written.
fn call(b: &mut Bench, row: Row) -> bool {
    let (answer, answers) = calls::call(b, row.given);
    answer == row.answer() && holds(&answers, row.bytes().len(), row.bytes())
}

// Runs a row, which is told by the first letter of its word.
// Returns whether it was as expected.
// By its letter, with no enum between: each letter is told once, where its row is run.
fn run_row(b: &mut Bench, letter: u8, row: Row) -> bool {
    match letter {
        b's' => start(b, row),
        b'd' => declare(b, row),
        b'm' => {
            b.obey(row.given);
            row.replied(b)
        }
        b'b' => buffers(b, row),
        b'f' => {
            b.fill();
            row.replied(b)
        }
        b'w' => {
            b.read_whole();
            b.answer == row.answer() && b.handed
        }
        b'p' => writes_profile(b, row),
        b'l' => load_profile(b, row),
        b'c' => call(b, row),
        _ => false,
    }
}

// Returns the row of the rest of a line, its pairs as bytes in the buffer.
// There is none, where the line is malformed or nothing is due.
fn read_row<'a>(s: &[u8], buffer: &'a mut [u8]) -> Option<Row<'a>> {
    let (given, due) = vector_line::split_once(s, b'=')?;
    let (given, left) = vector_line::take(given, buffer)?;
    let (due, _) = vector_line::take(due, left)?;
    if due.is_empty() {
        return None;
    }
    Some(Row { given, due })
}

// Runs a line with pairs. A line that is malformed counts as a row that fails.
fn run_pairs(b: &mut Bench, s: &[u8]) {
    let mut space = [0u8; LINE_ROOM];
    let rest = behind(s, buffers::find(s, 0, b' '));
    let good = match read_row(rest, &mut space) {
        Some(row) => run_row(b, octet(s, 0), row),
        None => false,
    };
    b.count(good);
}

// Writes the rest of a group's line.
fn close(b: &Bench) {
    io::write_all(STDOUT_FILENO, b": ");
    io::print_decimal(STDOUT_FILENO, u64::from(b.rows));
    let how: &[u8] = if b.good {
        b" rows as expected\n"
    } else {
        b" rows, WRONG\n"
    };
    io::write_all(STDOUT_FILENO, how);
}

// Ends the line of the group before, and begins one with no row counted.
fn begin(b: &mut Bench, s: &[u8]) {
    if b.rows != 0 {
        close(b);
    }
    // By index: of a line without a "]" all is the name.
    let end = buffers::find(s, 0, b']');
    io::write_all(STDOUT_FILENO, behind(front(s, end), 1));
    b.rows = 0;
    b.good = true;
}

// Runs a line: a group's name in brackets, a row, a comment, or nothing.
fn run_line(b: &mut Bench, s: &[u8]) {
    match octet(s, 0) {
        0 | b'#' => {}
        b'[' => begin(b, s),
        _ => run_pairs(b, s),
    }
}

fn main() {
    let mut input = [0u8; INPUT_ROOM];
    let got = io::read_full(STDIN_FILENO, &mut input);
    let mut bench = Bench {
        display: display_start::empty(),
        text: 0,
        table: [0u8; TABLE_BUFFER],
        out: [FILLING; OUT_ROOM],
        len: 0,
        answer: 0,
        handed: true,
        rows: 0,
        good: true,
    };
    for line in input[..got].split(|b| *b == b'\n') {
        run_line(&mut bench, line);
    }
    close(&bench);
}

// Runs the vectors of standard input, then document 01's rules for single fields and its table of messages whole.
// Writes one line a group.
// The form of the input stands at its head, in the file stdin.
#![tactic(auto)]

mod line;
mod setting;
mod values;

use line::{Parts, Word};
use message_vector_checks::{damage, number, table, vector};
use message_vector_table::fields;
use message_vector_table::tally::{NONE, Tally};
use streams::{STDERR_FILENO, STDIN_FILENO, STDOUT_FILENO};

// One byte more than the longest input.
const INPUT_ROOM: usize = 16384;

// The most pairs of digits on a line.
const LINE_ROOM: usize = 96;

// A line that cannot be run.
struct Malformed;

// How far the input has been run.
#[derive(Clone, Copy)]
struct Progress<'a> {
    // The name of the group that has begun, if any.
    name: Option<&'a [u8]>,
    // The tally of the group.
    group: Tally,
    // The tally of all groups before it.
    total: Tally,
    // The tally of the outputs of 37 and 38 bytes, of all vectors.
    room: Tally,
    // The tally of the damaged variants, of all vectors.
    damaged: Tally,
}

// Writes a text and a number behind it.
fn say(file: i32, text: &[u8], n: u32) {
    io::write_all(file, text);
    io::print_decimal(file, u64::from(n));
}

// Writes the line of a group, once it is done. Returns the tally of all groups up to it.
fn tell(total: Tally, name: &[u8], group: Tally) -> Tally {
    io::write_all(STDOUT_FILENO, name);
    say(STDOUT_FILENO, b": ", group.held);
    say(STDOUT_FILENO, b" of ", group.tried);
    io::write_all(STDOUT_FILENO, b"\n");
    total.join(group)
}

// Writes whether all vectors hold, or how many fail.
fn verdict(t: Tally) {
    if t.held == t.tried {
        say(STDOUT_FILENO, b"all ", t.tried);
        io::write_all(STDOUT_FILENO, b" vectors hold\n");
        return;
    }
    say(STDOUT_FILENO, b"", t.tried.wrapping_sub(t.held));
    say(STDOUT_FILENO, b" of ", t.tried);
    io::write_all(STDOUT_FILENO, b" vectors fail\n");
}

impl<'a> Progress<'a> {
    // Ends the group that has begun, if any. Returns the tally of all groups up to it.
    fn close(self) -> Tally {
        match self.name {
            Some(name) => tell(self.total, name, self.group),
            None => self.total.join(self.group),
        }
    }

    // Ends the group before, and begins one.
    fn begin(&mut self, name: &'a [u8]) {
        self.total = self.close();
        self.name = Some(name);
        self.group = NONE;
    }

    // Returns how many vectors have failed so far, and damaged variants and outputs with them.
    fn failed(self) -> u32 {
        let all = self
            .total
            .join(self.group)
            .join(self.room)
            .join(self.damaged);
        all.tried.wrapping_sub(all.held)
    }

    // Runs a message that is given by the bytes of its fields, which must be as many as the message has.
    // Its bytes and fields are judged, the room of its output, and its damaged variants.
    fn run_message(&mut self, command: u8, parts: Parts, answer: u8) -> Result<(), Malformed> {
        // The null message, which has no row, has no fields either.
        let (words, size, most) = match fields::layout(command) {
            Some(shape) => (
                usize::from(shape.bytes),
                usize::from(shape.bytes) + usize::from(shape.words),
                shape.data,
            ),
            None => (0, 0, 0),
        };
        let Some((f, data)) = parts.fields.split_at_checked(size) else {
            return Err(Malformed);
        };
        if most == 0 && !data.is_empty() {
            return Err(Malformed);
        }
        let f = fields::gather(command, buffers::front(f, words), buffers::behind(f, words));
        let s = parts.bytes;
        self.group = self.group.count(vector::holds(f, data, s, answer));
        self.room = self.room.join(vector::room(f, data, s, answer));
        self.damaged = self
            .damaged
            .join(damage::variants(fields::to_host(command), s, answer));
        Ok(())
    }

    // Runs a message of which only the reading is judged: it has no fields.
    fn run_reading(&mut self, to_host: bool, parts: Parts, answer: u8) -> Result<(), Malformed> {
        if !parts.fields.is_empty() {
            return Err(Malformed);
        }
        self.group = self
            .group
            .count(vector::answers(to_host, parts.bytes, answer));
        Ok(())
    }

    // Runs a setting, which has no answer.
    fn run_setting(&mut self, parts: Parts) -> Result<(), Malformed> {
        match (setting::row(parts.fields, parts.bytes), parts.answer) {
            (Some(held), None) => {
                self.group = self.group.join(held);
                Ok(())
            }
            _ => Err(Malformed),
        }
    }

    // Runs a line that holds a vector.
    fn run_vector(&mut self, s: &[u8]) -> Result<(), Malformed> {
        let mut space = [0u8; LINE_ROOM];
        let end = buffers::find(s, 0, b' ');
        let word = line::meaning(buffers::front(s, end));
        let parts = line::read_parts(buffers::behind(s, end), &mut space);
        let (Some(word), Some(parts)) = (word, parts) else {
            return Err(Malformed);
        };
        let answer = parts.answer.unwrap_or(number::DONE);
        match word {
            Word::Message(command) => self.run_message(command, parts, answer),
            Word::Reading { to_host } => self.run_reading(to_host, parts, answer),
            Word::Setting => self.run_setting(parts),
        }
    }

    // Runs a line: a group's name in brackets, a vector of a group, a comment, or nothing.
    fn run_line(&mut self, s: &'a [u8]) -> Result<(), Malformed> {
        match s {
            [] | [b'#', ..] => Ok(()),
            [b'[', rest @ ..] => match vector_line::split_once(rest, b']') {
                Some((name, [])) => {
                    self.begin(name);
                    Ok(())
                }
                _ => Err(Malformed),
            },
            _ if self.name.is_some() => self.run_vector(s),
            _ => Err(Malformed),
        }
    }

    // Runs all lines, or those up to the first that is malformed, which counts as a vector that fails.
    // Names each line that is malformed, or whose vector does not hold.
    fn run_lines(&mut self, s: &'a [u8]) -> Result<(), Malformed> {
        let mut number = 0u32;
        for text in s.split(|b| *b == b'\n') {
            number = number.wrapping_add(1);
            let before = self.failed();
            if let Err(malformed) = self.run_line(text) {
                self.group = self.group.count(false);
                name_line(number, b" is malformed: ", text);
                return Err(malformed);
            }
            if self.failed() != before {
                name_line(number, b" does not hold: ", text);
            }
        }
        Ok(())
    }

    // Runs the input's groups. An input that is too long, or has no vectors, counts as a vector that fails.
    fn run_input(&mut self, s: &'a [u8]) -> Result<(), Malformed> {
        if s.len() == INPUT_ROOM {
            io::write_all(
                STDERR_FILENO,
                b"vectors: the input has more than 16383 bytes\n",
            );
            self.group = self.group.count(false);
            return Err(Malformed);
        }
        self.run_lines(s)?;
        if self.group.tried == 0 && self.total.tried == 0 {
            io::write_all(STDERR_FILENO, b"vectors: the input has no vectors\n");
            self.group = self.group.count(false);
            return Err(Malformed);
        }
        Ok(())
    }
}

// Writes a line's number and what is said of it, then its text.
fn name_line(number: u32, what: &[u8], text: &[u8]) {
    say(STDERR_FILENO, b"vectors: line ", number);
    io::write_all(STDERR_FILENO, what);
    io::write_all(STDERR_FILENO, text);
    io::write_all(STDERR_FILENO, b"\n");
}

// Writes what was counted beside the vectors, as groups of their own.
// Returns the tally with them.
fn run_beside(total: Tally, p: Progress) -> Tally {
    let with_room = tell(total, b"room of an output", p.room);
    tell(with_room, b"damaged variants", p.damaged)
}

// Writes document 01's rules that are run over every value, a group each.
// Returns the tally with them.
fn run_rules(total: Tally) -> Tally {
    let a = tell(total, b"document 01, fields", values::all());
    let b = tell(a, b"document 01, table of requests", table::all(false));
    tell(b, b"document 01, table of replies", table::all(true))
}

fn main() {
    let mut input = [0u8; INPUT_ROOM];
    let got = io::read_full(STDIN_FILENO, &mut input);
    let mut p = Progress {
        name: None,
        group: NONE,
        total: NONE,
        room: NONE,
        damaged: NONE,
    };
    let run = p.run_input(&input[..got]);
    let total = p.close();
    match run {
        Ok(()) => verdict(run_rules(run_beside(total, p))),
        Err(Malformed) => verdict(total),
    }
}

// A display on a bench: it, the memory of its table, and what its last step gave.
use buffers::{behind, front, front_mut, part};
use ddcci_display::ddcci_display_step;
use display_rules::Display;
use message_rules::limits::{MOST_WRITTEN, OUTPUT_ROOM};
use message_rules::{TABLE_CODE, TO_DISPLAY, TextOffset};

// One byte more than a capabilities string may have: rows lend this size too.
const TEXT_ROOM: usize = 4097;

// One byte more than a table's buffer has.
pub(crate) const TABLE_BUFFER: usize = 1025;

// One byte more than a reply needs.
pub(crate) const OUT_ROOM: usize = 39;

// The right size of a table's buffer.
const TABLE_BYTES: usize = 1024;

// The size of an output that is enough.
const OUT_BYTES: usize = 38;

// What an output has in it before a step.
pub(crate) const FILLING: u8 = 0xAA;

// How many reads bring a table back: the last one is the empty fragment.
const READS: usize = 33;

// The fragment size that a table is read with.
const SIZE: usize = 32;

// A display on a bench.
#[derive(Drop)]
pub(crate) struct Bench {
    // The display.
    pub(crate) display: Display,
    // The length of its capabilities string.
    // The length alone: the bytes are the same of every display, and rows lend them at other lengths too.
    pub(crate) text: usize,
    // The memory of its table.
    pub(crate) table: [u8; TABLE_BUFFER],
    // The output of its last step.
    // No Frame: what stands behind the reply is judged too.
    pub(crate) out: [u8; OUT_ROOM],
    // The length of the reply in it.
    pub(crate) len: usize,
    // The answer of its last step.
    // A number, as the step for C answers.
    pub(crate) answer: u8,
    // Whether the fragment that was handed back is the data of the reply.
    pub(crate) handed: bool,
    // How many rows of the group were run.
    pub(crate) rows: u32,
    // Whether all of them were as expected.
    pub(crate) good: bool,
}

// Returns the capabilities string of every display here: byte i of it is the low byte of i.
pub(crate) fn text() -> [u8; TEXT_ROOM] {
    std::array::from_fn(|i| (i % 256) as u8)
}

// Returns what the writes that fill a table should leave: 31 bytes k of write k, and one byte of the last.
fn filled() -> [u8; TABLE_BYTES] {
    std::array::from_fn(|i| (i / MOST_WRITTEN % 256) as u8)
}

// Returns the data of a fragment message; other messages have none.
fn data_in(reply: &[u8]) -> &[u8] {
    match reply {
        [_, _, 0xE3 | 0xE4, _, _, data @ .., _] => data,
        _ => &[],
    }
}

// Returns whether these bytes, and no others, stand at the start of an output of n bytes.
pub(crate) fn holds(out: &[u8], n: usize, bytes: &[u8]) -> bool {
    front(out, n) == bytes && n == bytes.len() && behind(out, n).iter().all(|b| *b == FILLING)
}

impl Bench {
    // Makes one step, with so many bytes of the text, of the table's buffer and of the output.
    pub(crate) fn step(&mut self, text: usize, table: usize, room: usize, message: &[u8]) {
        let bytes = self::text();
        let kept = front(&bytes, text);
        self.out = [FILLING; OUT_ROOM];
        let s = ddcci_display_step(
            self.display,
            kept,
            front_mut(&mut self.table, table),
            message,
            front_mut(&mut self.out, room),
        );
        let data = data_in(front(&self.out, s.len));
        // Numbers for the text that a fragment is of: C takes `Stepped` as it is.
        let handed = match s.text {
            1 => part(kept, s.offset, s.count) == data,
            2 => part(&self.table, s.offset, s.count) == data,
            _ => data.is_empty(),
        };
        self.handed = handed;
        self.display = s.display;
        self.len = s.len;
        self.answer = s.answer;
    }

    // Makes one step with everything lent in its right size.
    pub(crate) fn obey(&mut self, message: &[u8]) {
        self.step(self.text, TABLE_BYTES, OUT_BYTES, message);
    }

    // Writes data into the table at an offset.
    fn write(&mut self, at: u16, data: &[u8]) {
        let mut m = [0u8; OUTPUT_ROOM];
        let built = message_request_builder::build_table_write(
            TO_DISPLAY,
            TABLE_CODE,
            TextOffset(at),
            data,
            &mut m,
        );
        self.obey(front(&m, built.unwrap_or(0)));
    }

    // Fills the table by writes of 31 bytes.
    // A write that is refused is the last one, and its answer stays.
    pub(crate) fn fill(&mut self) {
        for (k, data) in filled().chunks(MOST_WRITTEN).enumerate() {
            self.write((k * MOST_WRITTEN % 65536) as u16, data);
            if self.answer != 0 {
                return;
            }
        }
    }

    // Reads the table at an offset.
    fn read(&mut self, at: u16) {
        let mut m = [0u8; OUTPUT_ROOM];
        let built = message_request_builder::build_table_read(
            TO_DISPLAY,
            TABLE_CODE,
            TextOffset(at),
            &mut m,
        );
        self.obey(front(&m, built.unwrap_or(0)));
    }

    // Reads the filled table whole, fragment after fragment, and the empty one behind them.
    // `handed` says whether they were its bytes.
    pub(crate) fn read_whole(&mut self) {
        let bytes = filled();
        // By number: the last read is of the empty fragment, which is no chunk of the bytes.
        for k in 0..READS {
            let at = k * SIZE;
            self.read(at as u16);
            let data = data_in(front(&self.out, self.len));
            self.handed = self.handed && data == front(behind(&bytes, at), SIZE);
            if !self.handed {
                return;
            }
        }
    }

    // Counts a row, and whether it was as expected.
    pub(crate) fn count(&mut self, good: bool) {
        self.rows = self.rows.wrapping_add(1);
        self.good = self.good && good;
    }
}

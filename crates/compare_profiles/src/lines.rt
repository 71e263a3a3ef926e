// What the program writes: a line for each difference of two profiles, or one line that they are refused.
ghost use Rattle.std.specs.Prelude.{◌≡◌, ◌+◌, ◌≤◌, length};
ghost use Rattle.buffers.specs.Buffers.{put as Buffers·put};
ghost use Rattle.codes.specs.Codes.{all_codes};
ghost use Rattle.profile_compare_rules.specs.Compare.{absent};
ghost use Rattle.profile_compare_rules.specs.Statements.{difference, lines_in};
ghost use Rattle.compare_profiles.specs.Lines.{refused_line};
ghost use Rattle.compare_profiles.specs.Parts.{value_room, line_room, text_room, PutsValue, PutsLine, Values, PutsLines, PutsAnswer};

use buffers::{put, put_octet};
use message_rules::answer::DONE;
use numerals::{put_decimal, put_hex};
use profile_compare::compare;
use profile_compare_rules::{ABSENT, MOST_DIFFERENCES};

// The room for a line: two digits, a space, five digits, a space, five digits and the line end.
const LINE_ROOM: usize = 15;

// The room for the lines of all codes.
pub(crate) const TEXT_ROOM: usize = MOST_DIFFERENCES * LINE_ROOM;

// Puts a value into a text at an index: its decimal digits, or "-" where it is absent.
// Returns the index behind it.
// A number, not an Option: the arrays that a comparison is lent hold 65,536 for an absent value, as C reads them.
fn put_value(text: &mut [u8], at: usize, value: u32) -> usize
    requires { (value ≤ absent) × (at + value_room ≤ length text.old) }
    ensures { PutsValue value text.old at text.new result }
{
    let is_absent = value == ABSENT;
    if is_absent {
        put_octet(text, at, b'-');
        return at + 1;
    }
    at + put_decimal(text, at, value)
}

// Puts the line of a code and its two values into a text at an index.
// Returns the index behind it.
fn put_line(text: &mut [u8], at: usize, code: u8, first: u32, second: u32) -> usize
    requires { (first ≤ absent) × (second ≤ absent) × (at + line_room ≤ length text.old) }
    ensures { PutsLine (difference code first second) text.old at text.new result }
{
    put_hex(text, at, code);
    put_octet(text, at + 2, b' ');
    let middle = put_value(text, at + 3, first);
    put_octet(text, middle, b' ');
    let end = put_value(text, middle + 1, second);
    put_octet(text, end, b'\n');
    end + 1
}

// Puts the lines of the first n differences at the start of a text.
// Returns how many bytes they are.
fn put_lines(codes: &[u8], firsts: &[u32], seconds: &[u32], n: usize, text: &mut [u8]) -> usize
    requires { (n ≤ all_codes) × (n ≤ length codes.now) × (n ≤ length firsts.now) × (n ≤ length seconds.now) × Values n firsts.now × Values n seconds.now × (text_room ≤ length text.old) }
    ensures { PutsLines (lines_in n codes.now firsts.now seconds.now) text.old text.new result }
{
    let mut at: usize = 0;
    for (k, code) in codes[..n].iter().enumerate() {
        at = put_line(text, at, *code, firsts[k], seconds[k]);
    }
    at
}

// Puts the line of a refusal at the start of a text.
// Returns how many bytes it is.
pub(crate) fn put_refused(text: &mut [u8]) -> usize
    requires { text_room ≤ length text.old }
    ensures { (text.new ≡ Buffers·put text.old 0 refused_line) × (result ≡ 11) }
{
    let line = b"refused 17\n";
    put(text, 0, line);
    line.len()
}

// Puts what is to be written of two profiles at the start of a text.
// Returns how many bytes it is.
pub(crate) fn put_answer(first: &[u8], second: &[u8], text: &mut [u8]) -> usize
    requires { text_room ≤ length text.old }
    ensures { PutsAnswer first.now second.now text.old text.new result }
{
    // Three rows and their number, and a number as the answer: C calls the comparison so.
    let mut codes = [0u8; MOST_DIFFERENCES];
    let mut firsts = [0u32; MOST_DIFFERENCES];
    let mut seconds = [0u32; MOST_DIFFERENCES];
    let compared = compare(first, second, &mut codes, &mut firsts, &mut seconds);
    if compared.answer == DONE {
        return put_lines(&codes, &firsts, &seconds, compared.differences, text);
    }
    put_refused(text)
}

// Reads a call list from standard input and writes its tokens in list order: in decimal, one a line.
// A list that is refused gives nothing at all, not even a line on standard error.
// The list ends where the input ends. An input that cannot be read up to its end gives nothing on standard output, and
// one line on standard error: cut between two records it would be accepted, and the last households never called.
#![tactic(auto)]

mod tokens;

use buffers::front;
use call_list_rules::limits::LONGEST_LIST;
use streams::{STDERR_FILENO, STDOUT_FILENO};
use tokens::TEXT_ROOM;

// One byte more than the longest list, so that a longer one is seen to be.
const INPUT_ROOM: usize = LONGEST_LIST + 1;

// Writes the tokens of a list, all in one write: whoever reads them from a pipe has all of them or none.
fn write_tokens(list: &[u8]) {
    let mut text = [0u8; TEXT_ROOM];
    let n = tokens::put_tokens(list, &mut text);
    show::text(STDOUT_FILENO, front(&text, n));
}

fn main(rt: HostRuntime) {
    let mut list = [0u8; INPUT_ROOM];
    match input::read_to_end(&mut rt.reader(), &mut list) {
        Ok(n) => write_tokens(front(&list, n)),
        Err(_) => show::text(
            STDERR_FILENO,
            b"gate_check: standard input cannot be read to its end: give a file or a pipe that is open\n",
        ),
    }
}

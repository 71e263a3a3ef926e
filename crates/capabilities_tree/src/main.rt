// Reads a capabilities string from standard input and writes its tree: one word a line, indented by two spaces a level.
// A string that is refused gives one line, `refused N at P`, and one line on standard error that says why.
// The string ends where the input ends: a line end behind it is a byte of the string, and is refused.
// An input that cannot be read gives no line on standard output, and one on standard error.
#![tactic(auto)]

use message_rules::limits::LONGEST_TEXT;
use streams::{STDERR_FILENO, STDIN_FILENO, STDOUT_FILENO};

// Writes the tree, or why there is none.
fn show_string(string: &[u8]) {
    if show_tree::write(STDOUT_FILENO, b"", string) {
        return;
    }
    show_refusal::explain(STDERR_FILENO, b"capabilities_tree: ", string);
}

fn main(rt: HostRuntime) {
    // One byte more than the longest string, so that a longer one is seen to be.
    let mut input = [0u8; LONGEST_TEXT + 1];
    let got = io::read_full(STDIN_FILENO, &mut input);
    if got > 0 {
        show_string(&input[..got]);
    } else if show::input::readable(&mut rt.reader()) {
        show_string(b"");
    } else {
        show::text(
            STDERR_FILENO,
            b"capabilities_tree: standard input cannot be read: give a file or a pipe that is open\n",
        );
    }
}

// Runs transfers over a simulated line, and holds them to what demand 3 says of them.
// They have budgets of L and L + 1, fragments of 1, 31, 32 and mixed lengths, and lines with and without noise.
// They go by value and in place. Strings that end with zero bytes are handed over with them, and then read.
// The last line breaks what demand 3 supposes.
#![tactic(auto)]

mod display;
mod flips;
mod line;
mod run;
mod zeros;

use display::Size;
use message_rules::TextKind::{Capabilities, Table};
use run::{Ended, Setup};
use streams::STDOUT_FILENO;

// Writes a text and a number behind it.
fn counted(what: &[u8], n: u16) {
    io::write_all(STDOUT_FILENO, what);
    io::print_decimal(STDOUT_FILENO, u64::from(n));
}

// Writes what was run, how the transfer ended, and whether the buffer is as demand 3 says.
fn outcome(name: &[u8], o: Ended) {
    io::write_all(STDOUT_FILENO, name);
    io::write_all(STDOUT_FILENO, b": ");
    run::write_state(o.state);
    counted(b", offset ", o.reached);
    counted(b", counted ", o.count);
    let buffer: &[u8] = if o.right {
        b", buffer right"
    } else {
        b", BUFFER WRONG"
    };
    io::write_all(STDOUT_FILENO, buffer);
}

// Writes one line of a transfer.
fn report(name: &[u8], o: Ended) {
    outcome(name, o);
    io::write_all(STDOUT_FILENO, b"\n");
}

// Runs a perfect line: fragments of one byte need exactly L + 1 exchanges.
fn budgets() {
    let table = Setup::perfect(Table, Size::Fixed(1));
    let string = Setup::perfect(Capabilities, Size::Fixed(1));
    report(b"fragments of 1, budget L", table.run_numbers(60, 60));
    report(b"fragments of 1, budget L + 1", table.run_numbers(60, 61));
    report(b"empty text, budget 0", string.run_numbers(0, 0));
    report(b"empty text, budget 1", string.run_numbers(0, 1));
}

// Runs a perfect line with fragments of 31, of 32 and of mixed lengths.
fn sizes() {
    let of_31 = Setup::perfect(Capabilities, Size::Fixed(31));
    let of_32 = Setup::perfect(Capabilities, Size::Fixed(32));
    let mixed = Setup::perfect(Table, Size::Mixed);
    report(b"fragments of 31", of_31.run_numbers(200, 300));
    report(b"fragments of 32", of_32.run_numbers(200, 300));
    report(b"fragments of mixed lengths", mixed.run_numbers(200, 300));
}

// Runs a line that spoils three replies in ten: 200 bytes and 300 exchanges leave room for 99 spoiled ones.
fn noise() {
    let of_31 = Setup::perfect(Capabilities, Size::Fixed(31)).noisy();
    let of_32 = Setup::perfect(Table, Size::Fixed(32)).noisy();
    let mixed = Setup::perfect(Table, Size::Mixed).noisy();
    report(b"noisy line, fragments of 31", of_31.run_numbers(200, 300));
    report(b"noisy line, fragments of 32", of_32.run_numbers(200, 300));
    report(
        b"noisy line, fragments of mixed lengths",
        mixed.run_numbers(200, 300),
    );
    report(
        b"the same, each call in place",
        mixed.in_place().run_numbers(200, 300),
    );
    report(b"noisy line, buffer too small", mixed.run_numbers(250, 300));
}

fn main() {
    budgets();
    sizes();
    noise();
    zeros::behind();
    flips::two_flips();
}

// Capabilities strings that end with zero bytes: the transfer hands the zeros over, and what it handed over is accepted.
use crate::display::Size;
use crate::run::{EXCHANGES, Ended, Setup};
use message_rules::TextKind::Capabilities;
use streams::STDOUT_FILENO;

// A string of 38 bytes with one zero behind it.
const ONE_ZERO: &[u8] = b"(prot(monitor)vcp(10 12)mccs_ver(2.2))\0";

// Returns the string with 40 zeros behind it.
// In fragments of 7 bytes the last six are zeros alone, and none of these ends the transfer.
fn forty() -> [u8; 78] {
    let mut text = [0u8; 78];
    buffers::put(&mut text, 0, ONE_ZERO);
    text
}

// Writes how a transfer of a string ended, and what reading the string then answers.
fn report(name: &[u8], o: Ended) {
    crate::outcome(name, o);
    match o.reading {
        Ok(words) => {
            io::write_all(STDOUT_FILENO, b", accepted with ");
            io::print_decimal(STDOUT_FILENO, words as u64);
            io::write_all(STDOUT_FILENO, b" words\n");
        }
        Err(_) => {
            io::write_all(STDOUT_FILENO, b", REFUSED\n");
        }
    }
}

// Runs one zero behind a string and 40, over a perfect line and over one that spoils three replies in ten.
pub(crate) fn behind() {
    let of_32 = Setup::perfect(Capabilities, Size::Fixed(32));
    let of_7 = Setup::perfect(Capabilities, Size::Fixed(7));
    let mixed = Setup::perfect(Capabilities, Size::Mixed).noisy();
    let text = forty();
    report(
        b"one zero behind, fragments of 32",
        of_32.run(ONE_ZERO, EXCHANGES),
    );
    report(
        b"40 zeros behind, fragments of 7",
        of_7.run(&text, EXCHANGES),
    );
    report(
        b"the same, noisy line, mixed lengths",
        mixed.run(&text, EXCHANGES),
    );
}

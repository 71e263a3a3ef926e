// What came of checking a call list, of reading a capabilities string, and of loading a settings profile.
use crate::{OUT, line};
use message_rules::answer;

// Writes a line that ends with an answer, and with its position where it is a refusal.
pub fn answered(what: &[u8], answer: u8, place: usize) {
    show::text(OUT, what);
    show::answer::meaning(OUT, answer);
    if answer != answer::DONE {
        line(b", at byte #", &[place as u64]);
    }
    show::text(OUT, b"\n");
}

// Writes that the gate's check accepts a list, and how many households it calls.
pub fn checked(entries: usize) {
    line(
        b"    the gate's check: 0, done; # households are called once each, ",
        &[entries as u64],
    );
}

// Writes which entry calls a household, behind what the check said.
pub fn called(household: u32, number: usize) {
    line(
        b"household # by entry #\n",
        &[u64::from(household), number as u64],
    );
}

// Writes that no entry calls it.
pub fn never_called(household: u32) {
    line(b"household # by NO ENTRY\n", &[u64::from(household)]);
}

// Writes that the second display's string, which ends with two zeros, is accepted, and how many words it has.
pub fn words(words: usize) {
    line(
        b"    accepted, with # words: the two zero bytes at its end make none\n",
        &[words as u64],
    );
}

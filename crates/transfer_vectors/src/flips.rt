// What demand 3 supposes, shown by a line that breaks it: two flips that the checksum does not see.
use crate::run;
use message_rules::TextKind;
use message_rules::refusal::number;
use streams::STDOUT_FILENO;
use transfer_rules::Transfer;

// Receives a reply, and writes the answer. Returns the transfer afterwards.
fn offered(t: Transfer, buffer: &mut [u8], reply: &[u8]) -> Transfer {
    let received = transfer::receive(t, buffer, reply);
    io::print_decimal(STDOUT_FILENO, u64::from(number(&received.answer)));
    io::write_all(STDOUT_FILENO, b", ");
    received.transfer
}

// Writes how a transfer ends whose line flips the same bit of two bytes.
// The display sends "(10)" in one fragment, 6E 87 E3 00 00 28 31 30 29 5A, and then the empty one, 6E 83 E3 00 04 5A.
// The line turns over bit 0 of 31 and of 30, and the exclusive-or of all bytes is as before.
// So the host reads a fragment of the very offset that it wants, and the transfer is done with "(01)".
pub(crate) fn two_flips() {
    let mut buffer = [0xEEu8; 6];
    let kind = TextKind::Capabilities;
    let begun = transfer::begin(kind, &buffer, 9);
    let mut t = begun.unwrap_or(Transfer::exhausted(kind));
    io::write_all(
        STDOUT_FILENO,
        b"(10) with the same bit of two bytes flipped: answers ",
    );
    t = offered(t, &mut buffer, b"\x6E\x87\xE3\x00\x00\x28\x30\x31\x29\x5A");
    t = offered(t, &mut buffer, b"\x6E\x83\xE3\x00\x04\x5A");
    run::write_state(t.state);
    io::write_all(STDOUT_FILENO, b" at offset ");
    io::print_decimal(STDOUT_FILENO, u64::from(t.reached.0));
    io::write_all(STDOUT_FILENO, b", holds ");
    io::write_all(STDOUT_FILENO, &buffer[0..4]);
    io::write_all(STDOUT_FILENO, b", which the checksum cannot tell\n");
}

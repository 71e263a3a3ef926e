// Writes what the programs write for people, so that each line is compared: the meanings of the answer numbers, and of
// numbers that the papers do not have; a tree; and refused capabilities strings with why they are refused.
#![tactic(auto)]

use streams::STDOUT_FILENO;

const TO: i32 = STDOUT_FILENO;

// Writes the numbers from 0 to 22 with their meanings, then 255.
fn answers() {
    for n in 0u8..23 {
        show::answered(TO, b"", n);
    }
    show::answered(TO, b"", 255);
}

// Writes a string's tree behind a margin, why it is refused where it is, and whether it was accepted.
fn string(s: &[u8]) {
    let accepted = show_tree::write(TO, b"  ", s);
    show_refusal::explain(TO, b"  why: ", s);
    if accepted {
        show::text(TO, b"accepted\n");
    } else {
        show::text(TO, b"not accepted\n");
    }
}

// Writes a string of 4,097 bytes likewise.
fn longer() {
    let zeros = [0u8; 4097];
    string(&zeros);
}

fn main() {
    answers();
    string(b"(a(b c(d))e)");
    string(b"()");
    string(b"(a(b)(c))");
    string(b"(vcp(10))\n");
    string(b"(vcp(10))\0\0");
    string(b"(vcp(10)\0");
    string(b"(vcp(10))\0a");
    string(b"(a");
    string(b"");
    string(b"(a(a(a(a(a(a(a(a(");
    longer();
}

// What the day writes for people, line by line.
// No contract can speak of what is written; these functions are proved safe and ending.
#![tactic(auto)]

pub mod checks;
pub mod exchanges;
pub mod messages;

use buffers::{behind, front};

// Where the day is told.
pub const OUT: i32 = streams::STDOUT_FILENO;

// Writes a line, with the numbers where each `#` stands.
pub fn line(line: &[u8], numbers: &[u64]) {
    let mut rest = line;
    for n in numbers {
        let mark = rest.iter().position(|b| *b == b'#').unwrap_or(rest.len());
        show::text(OUT, front(rest, mark));
        show::number(OUT, *n, 0);
        rest = behind(rest, mark.saturating_add(1));
    }
    show::text(OUT, rest);
}

// Writes how the day begins.
pub fn opening() {
    show::text(OUT, b"05:00  the tent starts two displays\n");
}

// What is done in the day, after the displays were started. Each is done with one display, then with the other.
#[derive(Clone, Copy)]
pub enum Task {
    // The tent writes the call list.
    WriteList,
    // It sets brightness and input.
    Adjust,
    // The gates read the list back.
    ReadList,
    // A volunteer reads the capabilities strings.
    ReadCapabilities,
    // The settings are saved, and the list is cleared.
    Close,
}

// The tasks of the day, one after the other.
pub const TASKS: [Task; 5] = [
    Task::WriteList,
    Task::Adjust,
    Task::ReadList,
    Task::ReadCapabilities,
    Task::Close,
];

// Writes the time of day, and what is done.
pub fn heading(task: Task) {
    let what: &[u8] = match task {
        Task::WriteList => {
            b"05:10  the tent writes the call list: 85 records, at most 31 bytes a message\n"
        }
        Task::Adjust => {
            b"05:30  the tent sets brightness (at most 100) and input (15 is DisplayPort, 17 is HDMI)\n"
        }
        Task::ReadList => {
            b"06:00  the gates read the list back over long cables (offsets and sizes in bytes)\n"
        }
        Task::ReadCapabilities => {
            b"12:00  a volunteer reads the capabilities strings over the same cables\n"
        }
        Task::Close => b"18:30  dusk: the settings are saved and the list is cleared\n",
    };
    show::text(OUT, what);
}

// Writes which display it is done with.
pub fn subheading(number: u64) {
    line(b"  display #\n", &[number]);
}

// Writes whether everything held, with both displays.
pub fn verdict(one: bool, two: bool) {
    if one && two {
        show::text(OUT, b"everything held\n");
    } else {
        show::text(OUT, b"NOT EVERYTHING HELD\n");
    }
}

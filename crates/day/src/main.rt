// A day at the water point, in one process, from the tent's first message to dusk.
// There are two displays, each at the end of its own bad line.
// The hosts and the line stand in libraries of their own; here the displays are started, asked and stepped.
#![tactic(auto)]

mod site;
mod starting;
mod tasks;

use day_host::texts;
use day_report::{TASKS, Task};
use site::{Place, Site};

// The first display.
const ONE: Place = Place {
    number: 1,
    size: 32,
    seed: 26302,
};

// The second one.
const TWO: Place = Place {
    number: 2,
    size: 7,
    seed: 20979,
};

// Does a task of the day with a display.
fn perform(task: Task, s: &mut Site, list: &[u8]) {
    day_report::subheading(s.number);
    match task {
        Task::WriteList => tasks::write_list(s, list),
        Task::Adjust => tasks::adjust(s),
        Task::ReadList => tasks::read_list(s, list),
        Task::ReadCapabilities => tasks::read_capabilities(s),
        Task::Close => tasks::close(s),
    }
}

// Plays the day with two displays.
fn main() {
    let list = texts::call_list();
    day_report::opening();
    let mut one = starting::start(ONE);
    let mut two = starting::start(TWO);
    for task in TASKS {
        day_report::heading(task);
        perform(task, &mut one, &list);
        perform(task, &mut two, &list);
    }
    day_report::verdict(one.good, two.good);
}

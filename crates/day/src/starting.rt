// 05:00: the tent starts the displays and declares their codes.
use crate::site::{Place, Site};
use day_host::declared;
use day_report::messages;
use message_rules::answer;

// Returns the site of a display that was started at a place, with its codes declared.
pub(crate) fn start(place: Place) -> Site {
    let mut s = Site::start(place);
    let started = s.answer;
    let mut first_refusal = started;
    for d in declared::declarations() {
        s.declare(d);
        if first_refusal == answer::DONE {
            first_refusal = s.answer;
        }
    }
    messages::started(place.number, place.size, started, first_refusal);
    s
}

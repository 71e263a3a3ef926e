// The tasks of the day, each with one display.
use crate::site::Site;
use buffers::front;
use day_host::actions::Action;
use day_host::trial::{Left, Profile};
use day_host::{texts, trial, writes};
use day_reading::{BUDGET, Reading};
use day_report::messages::Code;
use frames::Frame;
use message_rules::limits::MOST_WRITTEN;
use message_rules::{TextKind, answer};

// ---- 05:10, the call list

// Delivers a message of the writing of the list, which should be accepted.
fn write(s: &mut Site, message: Frame) {
    s.deliver(message);
    s.also(s.answer == answer::DONE);
}

// Writes the call list.
pub(crate) fn write_list(s: &mut Site, list: &[u8]) {
    for (w, part) in list.chunks(MOST_WRITTEN).enumerate() {
        let message = writes::message(w, part);
        write(s, message);
        if writes::is_repeated(w) {
            write(s, message);
        }
    }
    let same = writes::judged(list, s.stored());
    s.also(same);
}

// ---- 05:30, brightness and input

// Makes the tent's settings, of which one is refused, and reads brightness back.
pub(crate) fn adjust(s: &mut Site) {
    s.set_all();
    s.act(Action::Get(Code::Brightness, 70));
}

// ---- 06:00 and 12:00, the texts over the line

// Reads a text, which should come to these bytes.
fn read(kind: TextKind, s: &mut Site, wanted: &[u8]) {
    let mut r = Reading::begin(kind, s.number, s.line);
    for _ in 0..BUDGET {
        s.deliver(r.asked());
        r.hear(s.reply);
        if !r.goes_on() {
            break;
        }
    }
    s.line = r.line;
    s.also(r.judged(s.number, wanted));
}

// Reads the call list back.
pub(crate) fn read_list(s: &mut Site, list: &[u8]) {
    read(TextKind::Table, s, list);
}

// Reads the capabilities string.
pub(crate) fn read_capabilities(s: &mut Site) {
    let text = texts::capabilities();
    let string = front(&text, texts::capabilities_size(s.number));
    read(TextKind::Capabilities, s, string);
}

// ---- 18:30, dusk

// Takes the settings that a load left.
fn settle(s: &mut Site, l: Left) {
    s.display.settings = l.settings;
    s.also(l.good);
}

// Tries the profile: damaged, and over a change.
fn try_profile(s: &mut Site, p: Profile) {
    settle(s, trial::damaged(s.display.settings, p));
    s.act(Action::Set(Code::Brightness, 20, answer::DONE));
    settle(s, trial::loaded(s.display.settings, p));
    s.act(Action::Get(Code::Brightness, 70));
}

// Saves the settings, writes their profile and tries it, and clears the list.
pub(crate) fn close(s: &mut Site) {
    s.act(Action::Save);
    let p = trial::written(s.display.settings);
    s.also(trial::told(p, s.number));
    try_profile(s, p);
    s.act(Action::Clear);
}

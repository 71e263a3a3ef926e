// The display for Rust and C: its state is a struct of numbers and arrays by value, and all else goes by slices.
// Thin over the proved functions, refusing like them.
#![tactic(auto)]

ghost use Rattle.std.specs.Prelude.{◌≡◌, length};
ghost use Rattle.codes.specs.Codes.{count_of, next_of};
ghost use Rattle.display_rules.specs.State.{start, declare};
ghost use Rattle.display_rules.specs.Step.{step, left_by};
ghost use Rattle.profile_rules.specs.Profile.{write_profile, load_profile};
ghost use Rattle.set_all_rules.specs.SetAll.{display_set_all};
ghost use Rattle.display_asked.specs.Asked.{asked_of};
ghost use Rattle.ddcci_display.specs.Numbers.{code_number, loaded_numbers};

use display_asked::DisplayAsked;
use display_pending::{Pending, changes};
use display_rules::{Changed, Display, Stepped};
use message_rules::answer;
use profile_rules::Written;
use settings_rules::{Declaration, Timing};

// What stands for a code where there is none.
// A number, not an Option: C takes it as it is.
pub const NO_CODE: u16 = 256;

// What loading a profile returns.
// A number beside the display, not a Result: C takes this struct as it is.
#[repr(C)]
#[derive(Clone, Copy)]
pub struct DisplayLoaded {
    // The display afterwards.
    pub display: Display,
    // The answer number.
    pub answer: u8,
    // The position in the profile of the record that was refused, or the profile's end.
    pub position: usize,
}

// Returns a display with a timing, a capabilities string and a fragment size, and no code declared yet.
// A refused start gives the empty display.
pub fn ddcci_display_start(timing: Timing, text: &[u8], size: u16) -> Changed
    ensures { result ≡ start timing (length text.now) size }
{
    display_start::start(timing, text, size)
}

// Returns the display with a code declared, or 18 and the same display.
pub fn ddcci_display_declare(d: Display, declaration: Declaration) -> Changed
    ensures { result ≡ declare d declaration }
{
    display_start::declare(d, declaration)
}

// Returns how many codes are declared.
pub fn ddcci_display_declared_count(d: Display) -> u16
    ensures { result ≡ count_of d.settings.declared }
{
    settings::declared_count(d.settings)
}

// Returns the least declared code from the given number on, or 256 where there is none.
pub fn ddcci_display_next_declared(d: Display, from: u16) -> u16
    ensures { result ≡ code_number (next_of d.settings.declared from) }
{
    let next = settings::next_declared(d.settings, from);
    match next {
        Some(code) => code as u16,
        None => NO_CODE,
    }
}

// Answers one message to the display, and returns the display afterwards.
// This is the one step that there is: programs in Rattle call it too.
// Each case has a `return` of its own, to keep the copies of the display few (docs/PROVING-NOTES.md).
pub fn ddcci_display_step(
    d: Display,
    text: &[u8],
    table: &mut [u8],
    message: &[u8],
    out: &mut [u8],
) -> Stepped
    ensures { record { stepped = result; table = table.new; out = out.new } ≡ left_by (step d text.now table.old message.now out.old) }
{
    let pending = display_prepare::prepare(d, text, table, message, out);
    match pending {
        Pending::Store(code, value) => {
            return changes::answered(changes::stored(d, code, value), answer::DONE, 0);
        }
        Pending::Save => {
            return changes::answered(changes::saved(d), answer::DONE, 0);
        }
        Pending::Moved(sent, length) => {
            return changes::moved(d, sent, length);
        }
        Pending::Written(length) => {
            return changes::answered(changes::written(d, length), answer::DONE, 0);
        }
        Pending::Replied(length) => {
            return changes::answered(d, answer::DONE, length);
        }
        Pending::Momentary => {
            return changes::answered(d, answer::DONE, 0);
        }
        Pending::Refused(answer, length) => {
            return changes::answered(d, answer, length);
        }
    }
}

// Sets each code to its value, one after the other, and writes the answer of each at its place.
// Returns the display afterwards and the call's own answer.
// With fewer answers than codes that is 1, then with over 64 or unequally many codes and values 7: nothing is tried then.
// The timing's numbers are read and stored, to keep the copies of the arrays between them few (docs/PROVING-NOTES.md).
pub fn ddcci_display_set_all(
    mut d: Display,
    codes: &[u8],
    values: &[u16],
    answers: &mut [u8],
) -> Changed
    ensures { record { changed = result; answers = answers.new } ≡ display_set_all d codes.now values.now answers.old }
{
    let mut settings = d.settings;
    let horizontal = settings.horizontal;
    let vertical = settings.vertical;
    let status = settings.status;
    let all = set_all::set_all(settings, codes, values, answers);
    let present = all.present;
    settings.horizontal = horizontal;
    settings.vertical = vertical;
    settings.present = present;
    settings.status = status;
    d.settings = settings;
    Changed {
        display: d,
        answer: all.answer,
    }
}

// Returns what a message asked for, given the answer of its step.
// All is 0 where the answer is not 0, the message is too short for its command, or the command is not in the table.
pub fn ddcci_display_asked(answer: u8, message: &[u8]) -> DisplayAsked
    ensures { result ≡ asked_of answer message.now }
{
    display_asked::asked_for(answer, message)
}

// Writes the profile of the display's saved values into the output.
// Returns the answer and the profile's length.
pub fn ddcci_display_write_profile(d: Display, out: &mut [u8]) -> Written
    ensures { record { result = result; output = out.new } ≡ write_profile d.settings out.old }
{
    match profile::write(d.settings, out) {
        Ok(len) => Written {
            answer: answer::DONE,
            len,
        },
        Err(refusal) => Written {
            answer: u8::from(refusal),
            len: 0,
        },
    }
}

// Returns the display with a profile's values, present and saved, or the same display and where it was refused.
pub fn ddcci_display_load_profile(mut d: Display, profile: &[u8]) -> DisplayLoaded
    ensures { result ≡ loaded_numbers d (load_profile d.settings profile.now) }
{
    match profile::load(d.settings, profile) {
        Ok(settings) => {
            d.settings = settings;
            DisplayLoaded {
                display: d,
                answer: answer::DONE,
                position: profile.len(),
            }
        }
        Err(at) => DisplayLoaded {
            display: d,
            answer: u8::from(at.refusal),
            position: at.position.0,
        },
    }
}

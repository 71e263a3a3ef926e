// The library `ddcci_display` for C and Rust: each function under its own name, with the library's contract.
// include/ddcci_display.h declares them.
// Each repeats the library's signature and clauses, since a crate is a library or an archive for C, not both.
#![tactic(auto)]

ghost use Rattle.std.specs.Prelude.{◌≡◌, length};
ghost use Rattle.codes.specs.Codes.{count_of, next_of};
ghost use Rattle.display_rules.specs.State.{start, declare};
ghost use Rattle.display_rules.specs.Step.{step, left_by};
ghost use Rattle.profile_rules.specs.Profile.{write_profile, load_profile};
ghost use Rattle.set_all_rules.specs.SetAll.{display_set_all};
ghost use Rattle.display_asked.specs.Asked.{asked_of};
ghost use Rattle.ddcci_display.specs.Numbers.{code_number, loaded_numbers};

use ddcci_display::DisplayLoaded;
use display_asked::DisplayAsked;
use display_rules::{Changed, Display, Stepped};
use profile_rules::Written;
use settings_rules::{Declaration, Timing};

// Returns a display with a timing, a capabilities string and a fragment size, and no code declared yet.
// A refused start gives the empty display.
#[unsafe(no_mangle)]
pub extern "C" fn ddcci_display_start(timing: Timing, text: &[u8], size: u16) -> Changed
    ensures { result ≡ start timing (length text.now) size }
{
    ddcci_display::ddcci_display_start(timing, text, size)
}

// Returns the display with a code declared, or 18 and the same display.
#[unsafe(no_mangle)]
pub extern "C" fn ddcci_display_declare(d: Display, declaration: Declaration) -> Changed
    ensures { result ≡ declare d declaration }
{
    ddcci_display::ddcci_display_declare(d, declaration)
}

// Returns how many codes are declared.
#[unsafe(no_mangle)]
pub extern "C" fn ddcci_display_declared_count(d: Display) -> u16
    ensures { result ≡ count_of d.settings.declared }
{
    ddcci_display::ddcci_display_declared_count(d)
}

// Returns the least declared code from the given number on, or 256 where there is none.
#[unsafe(no_mangle)]
pub extern "C" fn ddcci_display_next_declared(d: Display, from: u16) -> u16
    ensures { result ≡ code_number (next_of d.settings.declared from) }
{
    ddcci_display::ddcci_display_next_declared(d, from)
}

// Answers one message to the display, and returns the display afterwards.
#[unsafe(no_mangle)]
pub extern "C" fn ddcci_display_step(
    d: Display,
    text: &[u8],
    table: &mut [u8],
    message: &[u8],
    out: &mut [u8],
) -> Stepped
    ensures { record { stepped = result; table = table.new; out = out.new } ≡ left_by (step d text.now table.old message.now out.old) }
{
    ddcci_display::ddcci_display_step(d, text, table, message, out)
}

// Sets each code to its value, one after the other, and writes the answer of each at its place.
// Returns the display afterwards and the call's own answer.
// With fewer answers than codes that is 1, then with over 64 or unequally many codes and values 7: nothing is tried then.
#[unsafe(no_mangle)]
pub extern "C" fn ddcci_display_set_all(
    d: Display,
    codes: &[u8],
    values: &[u16],
    answers: &mut [u8],
) -> Changed
    ensures { record { changed = result; answers = answers.new } ≡ display_set_all d codes.now values.now answers.old }
{
    ddcci_display::ddcci_display_set_all(d, codes, values, answers)
}

// Returns what a message asked for, given the answer of its step.
// All is 0 where the answer is not 0, the message is too short for its command, or the command is not in the table.
#[unsafe(no_mangle)]
pub extern "C" fn ddcci_display_asked(answer: u8, message: &[u8]) -> DisplayAsked
    ensures { result ≡ asked_of answer message.now }
{
    ddcci_display::ddcci_display_asked(answer, message)
}

// Writes the profile of the display's saved values into the output.
// Returns the answer and the profile's length.
#[unsafe(no_mangle)]
pub extern "C" fn ddcci_display_write_profile(d: Display, out: &mut [u8]) -> Written
    ensures { record { result = result; output = out.new } ≡ write_profile d.settings out.old }
{
    ddcci_display::ddcci_display_write_profile(d, out)
}

// Returns the display with a profile's values, present and saved, or the same display and where it was refused.
#[unsafe(no_mangle)]
pub extern "C" fn ddcci_display_load_profile(d: Display, profile: &[u8]) -> DisplayLoaded
    ensures { result ≡ loaded_numbers d (load_profile d.settings profile.now) }
{
    ddcci_display::ddcci_display_load_profile(d, profile)
}

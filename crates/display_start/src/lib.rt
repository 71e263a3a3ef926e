// Starting a display, and declaring the codes that it has, proved equal to display_rules' definitions.
#![tactic(auto)]

ghost use Rattle.std.specs.Prelude.{◌≡◌, length};
ghost use Rattle.message_rules.specs.Refusal.{answer_number};
ghost use Rattle.settings_rules.specs.Settings.{start_with};
ghost use Rattle.display_rules.specs.State.{fresh, empty_display, start_answer, start, declare};

use display_pending::changes;
use display_rules::{Changed, Display};
use message_rules::answer;
use message_rules::limits::{LONGEST_TEXT, MOST_FRAGMENT};
use message_rules::refusal::{Refusal, number};
use settings_rules::{Declaration, Settings, Timing};

// Returns a display with a capabilities string of `text_len` bytes and an empty table, of which nothing was sent.
fn fresh(settings: Settings, text_len: u16, size: u16) -> Display
    ensures { result ≡ fresh settings text_len size }
{
    Display {
        settings,
        capabilities: changes::unsent(text_len),
        table: changes::unsent(0),
        size,
    }
}

// Returns the display of a refused start.
pub fn empty() -> Display
    ensures { result ≡ empty_display }
{
    fresh(settings::empty(), 0, 1)
}

// Allows a start, or refuses it.
// The timing is judged first, then the length of the capabilities string, then the fragment size.
#[tactic(auto, unfolding(display_rules::specs::State::start_answer))]
fn judge_start(timing: Timing, text_len: usize, size: u16) -> Result<(), Refusal>
    ensures { answer_number result ≡ start_answer (start_with timing).answer text_len size }
{
    settings::judge_start(timing)?;
    if LONGEST_TEXT < text_len {
        return Err(Refusal::TextTooLong);
    }
    if size == 0 || MOST_FRAGMENT < usize::from(size) {
        return Err(Refusal::NotDeclarable);
    }
    Ok(())
}

// Returns a display with a timing, a capabilities string and a fragment size, and no code declared yet.
// A refused start gives the empty display.
// The struct for C, not a Result: the display, which is large, comes with either answer.
#[tactic(auto, unfolding(display_rules::specs::State::start))]
pub fn start(timing: Timing, text: &[u8], size: u16) -> Changed
    ensures { result ≡ start timing (length text.now) size }
{
    match judge_start(timing, text.len(), size) {
        Ok(()) => Changed {
            display: fresh(settings::starting(timing), text.len() as u16, size),
            answer: answer::DONE,
        },
        Err(refusal) => Changed {
            display: empty(),
            answer: u8::from(refusal),
        },
    }
}

// Returns the display with a code declared, or 18 and the same display.
#[tactic(auto, unfolding(display_rules::specs::State::declare))]
pub fn declare(mut d: Display, declaration: Declaration) -> Changed
    ensures { result ≡ declare d declaration }
{
    let judged = settings::judge_declaration(d.settings, declaration);
    if judged.is_ok() {
        d.settings = settings::with_declaration(d.settings, declaration);
    }
    Changed {
        display: d,
        answer: number(&judged),
    }
}

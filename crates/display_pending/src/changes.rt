// What a step does to the display itself, and what it returns.
ghost use Rattle.std.specs.Prelude.{◌≡◌};
ghost use Rattle.message_rules.specs.Answer.{done};
ghost use Rattle.settings_rules.specs.Settings.{with_present, save_all};
ghost use Rattle.display_rules.specs.State.{unsent, with_settings, with_table, with_cursor};
ghost use Rattle.display_rules.specs.Step.{text_number, returned};
ghost use Rattle.std.specs.Prelude.{Some, None};

use display_rules::{
    CAPABILITIES_SENT, Display, Fragment, FragmentCursor, Stepped, TABLE_SENT, TextState,
};
use message_rules::{TextKind, TextOffset, answer};

// Returns the state of a text of `len` bytes of which nothing was sent.
pub fn unsent(len: u16) -> TextState
    ensures { result ≡ unsent len }
{
    TextState {
        len,
        cursor: FragmentCursor {
            offset: TextOffset(0),
            len: 0,
        },
    }
}

// Returns the display with another present value of a code.
#[tactic(auto, unfolding(settings_rules::specs::Settings::with_present))]
pub fn stored(mut d: Display, code: u8, value: u16) -> Display
    ensures { result ≡ with_settings d (with_present d.settings code value) }
{
    let mut settings = d.settings;
    let present = settings.present;
    let after = settings::store(present, code, value);
    settings.present = after;
    d.settings = settings;
    d
}

// Returns the display with every saved value the present one.
pub fn saved(mut d: Display) -> Display
    ensures { result ≡ with_settings d (save_all d.settings) }
{
    d.settings = settings::save(d.settings);
    d
}

// Returns the display with another cursor of one of the two texts.
fn with_cursor(mut d: Display, kind: TextKind, cursor: FragmentCursor) -> Display
    ensures { result ≡ with_cursor kind d cursor }
{
    match kind {
        TextKind::Capabilities => d.capabilities.cursor = cursor,
        TextKind::Table => d.table.cursor = cursor,
    }
    d
}

// Returns the display with a table of `length` bytes of which nothing was sent.
pub fn written(mut d: Display, length: u16) -> Display
    ensures { result ≡ with_table d (unsent length) }
{
    d.table = unsent(length);
    d
}

// Returns the number of a text.
fn text_number(kind: TextKind) -> u8
    ensures { result ≡ text_number kind }
{
    match kind {
        TextKind::Capabilities => CAPABILITIES_SENT,
        TextKind::Table => TABLE_SENT,
    }
}

// Returns the display with an answer number and the reply's length, and no fragment.
pub fn answered(d: Display, answer: u8, length: usize) -> Stepped
    ensures { result ≡ returned d answer length None }
{
    Stepped {
        display: d,
        answer,
        len: length,
        offset: 0,
        count: 0,
        text: 0,
    }
}

// Returns the display with the cursor of the fragment that was sent, in a reply of `length` bytes.
// The numbers are found before the display is passed on, which is then copied once.
pub fn moved(d: Display, sent: Fragment, length: usize) -> Stepped
    ensures { result ≡ returned (with_cursor sent.kind d sent.cursor) done length (Some sent) }
{
    let text = text_number(sent.kind);
    let offset = usize::from(sent.cursor.offset.0);
    let count = usize::from(sent.cursor.len);
    let display = with_cursor(d, sent.kind, sent.cursor);
    Stepped {
        display,
        answer: answer::DONE,
        len: length,
        offset,
        count,
        text,
    }
}

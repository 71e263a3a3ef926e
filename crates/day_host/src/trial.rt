// 18:30: a settings profile is written, and loaded twice: damaged, which is refused, and as it was written.
use crate::profile_lines;
use day_report::checks;
use message_rules::answer;
use message_rules::refusal::Refusal;
use profile_form_rules::RECORD_SIZE;
use settings_rules::Settings;

// Room for three records: brightness, contrast and input.
const PROFILE_ROOM: usize = RECORD_SIZE * 3;

// The byte of the profile that is damaged: the kind of its second record.
const DAMAGED: usize = 9;

// A profile as it was written.
// The records fill the room: the length only says that they were written, or why not.
#[derive(Clone, Copy)]
pub struct Profile {
    // Its bytes.
    bytes: [u8; PROFILE_ROOM],
    // How many they are, or why they were not written.
    len: Result<usize, Refusal>,
}

// What a load left.
// Both in either case: a load that is refused leaves the settings too, and is good where it should be refused.
#[derive(Clone, Copy)]
pub struct Left {
    // The settings afterwards.
    pub settings: Settings,
    // Whether the load was answered as it should be.
    pub good: bool,
}

// Returns the profile of a display's settings.
pub fn written(settings: Settings) -> Profile {
    let mut bytes = [0u8; PROFILE_ROOM];
    let len = profile::write(settings, &mut bytes);
    Profile { bytes, len }
}

// Writes the profile's size, of the first display its records too.
// Returns whether it was written.
pub fn told(p: Profile, number: u64) -> bool {
    profile_lines::size(p.len.unwrap_or(0));
    if number == 1 {
        profile_lines::records(&p.bytes);
    }
    p.len.is_ok()
}

// Loads a profile, and writes its answer number and position behind a text.
// Returns what it left; the load should have this answer and position.
fn tried(text: &[u8], settings: Settings, profile: &[u8], wanted: (u8, usize)) -> Left {
    let loaded = profile::load(settings, profile);
    let (answer, position) = match loaded {
        Ok(_) => (answer::DONE, profile.len()),
        Err(at) => (u8::from(at.refusal), at.position.0),
    };
    checks::answered(text, answer, position);
    Left {
        settings: loaded.unwrap_or(settings),
        good: (answer, position) == wanted,
    }
}

// Returns what loading a damaged copy left: it should be refused at the damaged record.
pub fn damaged(settings: Settings, p: Profile) -> Left {
    let mut bytes = p.bytes;
    bytes[DAMAGED] = 2;
    let text = b"    a damaged copy is loaded: ";
    tried(text, settings, &bytes, (answer::BROKEN_RECORD, RECORD_SIZE))
}

// Returns what loading the profile left: it should be accepted.
pub fn loaded(settings: Settings, p: Profile) -> Left {
    let text = b"    the profile is loaded: ";
    tried(text, settings, &p.bytes, (answer::DONE, PROFILE_ROOM))
}

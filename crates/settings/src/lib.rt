// The values of one device by its VCP codes, with its timing: what declaring, Get, Set and Save do with them.
//
// Each function is proved equal to its definition in settings_rules.
#![tactic(auto)]

ghost use Rattle.std.specs.Prelude.{◌≡◌, get_or, set};
ghost use Rattle.codes.specs.Codes.{member, count_of, next_of};
ghost use Rattle.message_rules.specs.Refusal.{answer_number};
ghost use Rattle.settings_rules.specs.Results.{started_as, declared_as, judgement_of, feature_of};
ghost use Rattle.settings_rules.specs.Settings.{empty_settings, starting_settings, start_with, exceeds_maximum, access_refused, declaration_refused, with_declaration, declare_code, answer_to_set, judge_set, save_all, get_code};

use message_rules::TABLE_CODE;
use message_rules::fields::status_allowed;
use message_rules::refusal::Refusal;
use settings_rules::{Accepted, Declaration, MOMENTARY, Settings, Shown, Timing};

// Returns settings with the timing and no code.
#[tactic(auto, unfolding(settings_rules::specs::Settings::starting_settings))]
pub fn starting(timing: Timing) -> Settings
    ensures { result ≡ starting_settings timing }
{
    Settings {
        declared: [0u64; 4],
        readable: [0u64; 4],
        writable: [0u64; 4],
        momentary: [0u64; 4],
        continuous: [0u64; 4],
        maximum: [0u16; 256],
        present: [0u16; 256],
        saved: [0u16; 256],
        status: timing.status,
        horizontal: timing.horizontal,
        vertical: timing.vertical,
    }
}

// Returns the settings that a refused start leaves: no code, and timing 0.
pub fn empty() -> Settings
    ensures { result ≡ empty_settings }
{
    starting(Timing {
        status: 0,
        horizontal: 0,
        vertical: 0,
    })
}

// Allows a start with the timing, or refuses it with 18 where a reserved bit of its status is set.
// One that is allowed gives `starting`, a refused one `empty`: the settings, which are large, are made once.
pub fn judge_start(timing: Timing) -> Result<(), Refusal>
    ensures { answer_number result ≡ (start_with timing).answer }
{
    if status_allowed(timing.status) {
        return Ok(());
    }
    Err(Refusal::NotDeclarable)
}

// Returns settings with a timing and no code yet, or the refusal of the timing; a refused start leaves `empty`.
// A display's start takes the two steps one by one, since the settings would be copied once more in the Result.
pub fn start(timing: Timing) -> Result<Settings, Refusal>
    ensures { started_as result ≡ start_with timing }
{
    judge_start(timing)?;
    Ok(starting(timing))
}

// Returns whether the value is above the maximum of a continuous code.
// The maximum of another code is never judged.
pub fn exceeds(continuous: bool, maximum: u16, value: u16) -> bool
    ensures { result ≡ exceeds_maximum continuous maximum value }
{
    continuous && maximum < value
}

// Returns whether a code of this access and type may not be declared.
fn access_refused(readable: bool, writable: bool, momentary: bool) -> bool
    ensures { result ≡ access_refused readable writable momentary }
{
    !writable && (!readable || momentary)
}

// Returns whether declaring is refused, of a code that is declared already or not.
#[tactic(auto, unfolding(settings_rules::specs::Settings::declaration_refused))]
fn declaration_refused(declared: bool, d: Declaration) -> bool
    ensures { result ≡ declaration_refused declared d }
{
    d.code == TABLE_CODE
        || declared
        || MOMENTARY < d.kind
        || access_refused(d.readable, d.writable, d.kind == MOMENTARY)
        || exceeds(d.continuous, d.maximum, d.present)
}

// Returns the settings with the code as it is declared.
#[tactic(auto, unfolding(settings_rules::specs::Settings::with_declaration))]
pub fn with_declaration(mut s: Settings, d: Declaration) -> Settings
    ensures { result ≡ with_declaration s d }
{
    let i = usize::from(d.code);
    s.declared = codes::insert(s.declared, d.code);
    s.readable = codes::assign(s.readable, d.code, d.readable);
    s.writable = codes::assign(s.writable, d.code, d.writable);
    s.momentary = codes::assign(s.momentary, d.code, d.kind == MOMENTARY);
    s.continuous = codes::assign(s.continuous, d.code, d.continuous);
    s.maximum[i] = d.maximum;
    s.present[i] = d.present;
    s.saved[i] = d.present;
    s
}

// Allows the code to be declared, or refuses it with 18.
// One that may is declared by `with_declaration`, so that the settings, which are large, are passed on only where they
// change.
#[tactic(auto, unfolding(settings_rules::specs::Settings::declare_code))]
pub fn judge_declaration(s: Settings, d: Declaration) -> Result<(), Refusal>
    ensures { answer_number result ≡ (declare_code s d).answer }
{
    let words = s.declared;
    if declaration_refused(codes::contains(&words, d.code), d) {
        return Err(Refusal::NotDeclarable);
    }
    Ok(())
}

// Returns the settings with the code declared, or the refusal of the declaration, which leaves them as they were.
// A display's declaration takes the two steps one by one, as its start does.
#[tactic(auto, unfolding(settings_rules::specs::Settings::declare_code))]
pub fn declare(s: Settings, d: Declaration) -> Result<Settings, Refusal>
    ensures { declared_as s result ≡ declare_code s d }
{
    judge_declaration(s, d)?;
    Ok(with_declaration(s, d))
}

// Returns how many codes are declared, at most 256.
pub fn declared_count(s: Settings) -> u16
    ensures { result ≡ count_of s.declared }
{
    let counted = s.declared;
    codes::count(counted) as u16
}

// Returns the least declared code from the given number on, or nothing. From 256 on there is none.
pub fn next_declared(s: Settings, from: u16) -> Option<u8>
    ensures { result ≡ next_of s.declared from }
{
    let searched = s.declared;
    codes::next_from(searched, from)
}

// Accepts a Set or refuses it, from what is known of its code and whether the value is above the maximum.
#[tactic(auto, unfolding(settings_rules::specs::Settings::answer_to_set))]
pub fn set_answer(declared: bool, code: u8, writable: bool, above: bool) -> Result<(), Refusal>
    ensures { answer_number result ≡ answer_to_set declared code writable above }
{
    if !declared || code == TABLE_CODE || !writable {
        return Err(Refusal::CodeNotAllowed);
    }
    if above {
        return Err(Refusal::ValueTooLarge);
    }
    Ok(())
}

// Returns whether the value is above the maximum of the code, if that is continuous.
// The maxima are taken out only for such a code, so that no more is copied.
fn above_maximum(s: Settings, code: u8, value: u16) -> bool
    ensures { result ≡ exceeds_maximum (member s.continuous code) (get_or s.maximum code 0) value }
{
    let continuous_codes = s.continuous;
    if codes::contains(&continuous_codes, code) {
        let i = usize::from(code);
        let maximum = s.maximum;
        return maximum[i] < value;
    }
    false
}

// Returns what a Set of the code to the value comes to.
// The value is stored by `store`, so that the settings, which are large, are passed on only where they change.
#[tactic(auto, unfolding(settings_rules::specs::Settings::set_answer))]
pub fn judge_set(s: Settings, code: u8, value: u16) -> Result<Accepted, Refusal>
    ensures { judgement_of result ≡ judge_set s code value }
{
    let declared_codes = s.declared;
    let writable_codes = s.writable;
    let momentary_codes = s.momentary;
    let declared = codes::contains(&declared_codes, code);
    let writable = codes::contains(&writable_codes, code);
    let above = above_maximum(s, code, value);
    set_answer(declared, code, writable, above)?;
    if codes::contains(&momentary_codes, code) {
        return Ok(Accepted::Momentary);
    }
    Ok(Accepted::Stored)
}

// Returns the present values with that of one code replaced, as a Set that is stored leaves them.
pub fn store(mut present: [u16; 256], code: u8, value: u16) -> [u16; 256]
    ensures { result ≡ set present code value }
{
    let i = usize::from(code);
    present[i] = value;
    present
}

// Returns the settings after a Save: every saved value is the present one.
#[tactic(auto, unfolding(settings_rules::specs::Settings::save_all))]
pub fn save(mut s: Settings) -> Settings
    ensures { result ≡ save_all s }
{
    let values = s.present;
    s.saved = values;
    s
}

// Returns what a Get of the code shows, or nothing of a code that is not declared or not readable.
// The two arrays are taken out only where they are shown, so that the settings are not copied whole.
#[tactic(auto, unfolding(settings_rules::specs::Settings::get_code))]
pub fn get(s: Settings, code: u8) -> Option<Shown>
    ensures { feature_of code result ≡ get_code s code }
{
    let declared = s.declared;
    let readable = s.readable;
    if !codes::contains(&declared, code) || !codes::contains(&readable, code) {
        return None;
    }
    let i = usize::from(code);
    let momentary = s.momentary;
    let maximum = s.maximum;
    let present = s.present;
    Some(Shown {
        momentary: codes::contains(&momentary, code),
        maximum: maximum[i],
        present: present[i],
    })
}

// What is told of a settings profile: its size and its records.
use day_report::{OUT, line};
use profile_form::said;
use profile_form_rules::RECORD_SIZE;

// Writes a record of the profile: its bytes, and what they say.
fn record(bytes: &[u8; RECORD_SIZE]) {
    let setting = said(bytes);
    show::text(OUT, b"     ");
    show::row(OUT, bytes);
    show::text(OUT, b"   code ");
    show::hex(OUT, setting.code);
    line(b": #\n", &[u64::from(setting.value)]);
}

// Writes how many bytes the profile has.
pub(crate) fn size(len: usize) {
    line(b"    the profile has # bytes\n", &[len as u64]);
}

// Writes the records of the profile.
pub(crate) fn records(profile: &[u8]) {
    let (records, _) = profile.as_chunks::<RECORD_SIZE>();
    for bytes in records {
        record(bytes);
    }
}

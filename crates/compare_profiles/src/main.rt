// Compares two settings profiles, each in a file that an argument names.
// Writes a line for each code that is in one only or whose values differ: the code, the first's value, the second's.
// Where a profile is refused, or a file cannot be read, or there are not two arguments, it writes `refused 17` alone.
#![tactic(auto)]

mod lines;

ghost use Rattle.std.specs.Prelude.{◌≤◌, length};
ghost use Rattle.compare_profiles.specs.Parts.{text_room};

use buffers::front;
use lines::TEXT_ROOM;
use profile_form_rules::LONGEST_PROFILE;
use std::env::{Env, FillError};
use std::fs::{File, Files};
use streams::STDOUT_FILENO;

// The most bytes of a path, and one more.
const PATH_ROOM: usize = 4096;

// One byte more than the longest profile, so that a longer one is refused.
const PROFILE_ROOM: usize = LONGEST_PROFILE + 1;

// Returns whether the program was given this argument: 1 is the first behind its own name.
fn is_given(rt: &impl Env, argument: usize) -> bool {
    let mut start = [0u8; 1];
    !matches!(rt.arg(argument, &mut start), Err(FillError::NotPresent))
}

// Reads the file at a path, to its end or until the room is full.
// Returns how many bytes came, or nothing, where it cannot be read.
// A path that is not UTF-8, and a file that does not open, count as one that cannot be read.
fn read_at<R: Files>(rt: &R, path: &[u8], profile: &mut [u8]) -> Option<usize> {
    let name = str::from_utf8(path).ok()?;
    let mut file = File::open(rt, name).ok()?;
    input::read_to_end(&mut file, profile).ok()
}

// Reads the file that an argument names, to its end or until the room is full.
// Returns how many bytes came, or nothing, where it cannot be read.
// An argument that is missing, and one that is too long for a path, count as one that cannot be read.
fn read_file<R: Env + Files>(rt: &R, argument: usize, profile: &mut [u8]) -> Option<usize> {
    let mut path = [0u8; PATH_ROOM];
    let n = rt.arg(argument, &mut path).ok()?;
    read_at(rt, front(&path, n), profile)
}

// Puts what is to be written of the first file's profile and the file of the second argument at the start of a text.
// Returns how many bytes it is.
fn put_with_second<R: Env + Files>(rt: &R, first: &[u8], text: &mut [u8]) -> usize
    requires { text_room ≤ length text.old }
{
    let mut second = [0u8; PROFILE_ROOM];
    match read_file(rt, 2, &mut second) {
        Some(n) => lines::put_answer(first, front(&second, n), text),
        None => lines::put_refused(text),
    }
}

// Puts what is to be written of the two files at the start of a text.
// Returns how many bytes it is.
fn put_compared<R: Env + Files>(rt: &R, text: &mut [u8]) -> usize
    requires { text_room ≤ length text.old }
{
    if !is_given(rt, 2) || is_given(rt, 3) {
        return lines::put_refused(text);
    }
    let mut first = [0u8; PROFILE_ROOM];
    match read_file(rt, 1, &mut first) {
        Some(n) => put_with_second(rt, front(&first, n), text),
        None => lines::put_refused(text),
    }
}

fn main(rt: HostRuntime) {
    let mut text = [0u8; TEXT_ROOM];
    let n = put_compared(&rt, &mut text);
    show::text(STDOUT_FILENO, front(&text, n));
}

// A host on standard output and input, against the display of docs/DISPLAY-PIPE.md.
// It starts and fills a display, reads its texts back, and reports on standard error.
#![tactic(auto)]

mod job;
mod pipe;
mod read;
mod report;

use buffers::behind;
use message_rules::TextKind;
use pipe::{Fault, Host};
use std::io::Input;

// The bytes of a start record in front of the capabilities string: timing and fragment size.
const START_FIELDS: usize = 7;

// Runs the whole exchange with a start record and a list, and reports.
fn run<R: Input>(host: &mut Host<'_, R>, start: &[u8], list: &[u8]) -> Result<(), Fault> {
    job::start(host, start)?;
    job::write_list(host, list)?;
    let present = job::set_and_get(host)?;
    let string = read::text(host, TextKind::Capabilities)?;
    let table = read::text(host, TextKind::Table)?;
    let value = report::value(host.records, present);
    let read = report::string(&string, behind(start, START_FIELDS));
    report::verdict(value, read, report::table(&table, list));
    Ok(())
}

// Runs a fixed job. A pipe that fails gets one line instead of a report.
fn main(rt: HostRuntime) {
    // Timing as in source 003, fragments of 7 bytes, and a capabilities string.
    let start = b"\x02\x1C\x34\x70\x17\x07\x00(prot(monitor)vcp(10 60(0F 11)F4)mccs_ver(2.2))";
    // Four records of a token and a household.
    let list =
        b"\x0A\x00\x20\x00\x65\x00\x00\x00\xD0\x07\x00\x00\x0A\x00\x20\x00\x66\x00\x00\x00\xEF\x07\x00\x00\x0A\x00\x20\x00\x67\x00\x00\x00\x0E\x08\x00\x00\x0A\x00\x20\x00\x68\x00\x00\x00\xD8\x07\x00\x00";
    let mut host = Host::new(&rt);
    if let Err(fault) = run(&mut host, start, list) {
        report::fault(host.records, fault);
    }
}

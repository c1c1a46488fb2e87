// Replays the stored answers of the crate evfmt, in data/, without Rust. For each line it computes the answer with the
// proved functions and compares it with the stored one. It writes one line for each kind of line, with the number of
// lines that are as stored. If a line differs, it writes the line's number.
#![tactic(auto)]

mod checksum;
mod fault;
mod finding_answers;
mod item_answers;
mod item_file;
mod items;
mod keyword;
mod known;
mod line;
mod named_set;
mod policy_answers;
mod policy_bytes;
mod policy_file;
mod report;
mod scanner_answers;
mod sets;
mod structure_answers;
mod walk;

use item_file::ItemFile;
use policy_file::PolicyFile;
use report::{Report, Tally};
use std::fs::File;
use std::io;
use std::io::Read;
use std::rt::Files;
use walk::StoredFile;

// The length of the buffer for a file. The file must be shorter.
const ROOM: usize = 262144;

// Reads a file and replays it. `tallies` are of the keywords whose lines are counted.
fn replay_file<R: Files + Print, F: StoredFile>(
    rt: &R,
    name: &str,
    file: &mut F,
    tallies: &mut [Tally],
) -> io::Result<()> {
    let report = Report { rt, name };
    let Ok(input) = File::open(rt, name) else {
        return report.say("cannot be opened");
    };
    let mut buf = [0u8; ROOM];
    let n = io::copy(&mut input.take(ROOM as u64), &mut &mut buf[..])?;
    match buf.get(..n as usize) {
        Some(text) if text.len() < ROOM => walk::replay(&report, text, file, tallies),
        _ => report.say("is longer than the buffer"),
    }
}

// Reads a file of items and replays it.
fn replay_items<R: Files + Print>(rt: &R, name: &str) -> io::Result<()> {
    let mut tallies = item_file::KEYWORDS.map(Tally::new);
    replay_file(rt, name, &mut ItemFile::new(), &mut tallies)
}

// Tries the policies that no file has, and replays each file.
fn main(rt: HostRuntime) -> io::Result<()> {
    policy_bytes::try_policies(&rt)?;
    let mut tallies = policy_file::KEYWORDS.map(Tally::new);
    replay_file(&rt, "policy.txt", &mut PolicyFile::new(), &mut tallies)?;
    replay_items(&rt, "items-short.txt")?;
    replay_items(&rt, "items-drawn.txt")?;
    replay_items(&rt, "items-unicode.txt")
}

// Compares the tables of the crate `emoji` with the two files that Unicode publishes, in data/. Each table must have
// exactly the code points that its file lists, over all of 0 to 10FFFF. The program writes a line for each file and
// each table, and for a difference the first code point. The last line says whether the fast forms of the lookups agree
// with the plain ones, over the same code points.
#![tactic(auto)]

mod checksum;
mod code_points;
mod compare;
mod forms;
mod parse;
mod report;
mod survey;
mod tables;

use checksum::crc_32;
use code_points::CODE_POINTS;
use emoji::unicode_data::UNICODE_VERSION;
use report::Count;
use std::io::Read;
use std::rt::Files;
use std::{fs, io};
use survey::{Survey, TABLES_VERSION};
use tables::{File, Table};

// The length of the buffer for a file. The file must be shorter.
const ROOM: usize = 131072;

// The tables that are compared with emoji-data.txt.
const PROPERTY_TABLES: [Table; 5] = [
    Table::Emoji,
    Table::EmojiPresentation,
    Table::EmojiModifier,
    Table::EmojiModifierBase,
    Table::RegionalIndicator,
];

// Compares the table of a property with emoji-data.txt.
fn check_property(rt: &impl Print, text: &[u8], table: Table) -> io::Result<()> {
    match compare::compare_table(text, table) {
        Ok(set) => println!(rt; "{table}: {}, as published", set.size()),
        Err(mismatch) => println!(rt; "{mismatch}"),
    }
}

// Compares the variation sequences with emoji-variation-sequences.txt.
fn check_sequences(rt: &impl Print, text: &[u8]) -> io::Result<()> {
    match compare::compare_sequences(text) {
        Ok(count) => println!(rt; "variation sequences: {count} entries, as published"),
        Err(mismatch) => println!(rt; "{mismatch}"),
    }
}

// Compares the tables with the text of a file.
fn check_tables(rt: &impl Print, text: &[u8], file: File) -> io::Result<()> {
    match file {
        File::Properties => {
            for table in PROPERTY_TABLES {
                check_property(rt, text, table)?;
            }
            Ok(())
        }
        File::Sequences => check_sequences(rt, text),
    }
}

// Compares the tables with the text of a file, if each of its lines follows the format.
fn check_text(rt: &impl Print, text: &[u8], file: File) -> io::Result<()> {
    let survey = match Survey::of(text, file) {
        Ok(survey) => survey,
        Err(bad_line) => return println!(rt; "{file}: {bad_line}"),
    };
    println!(rt; "{file}: {survey}, CRC-32 {:08x}", crc_32(text))?;
    if let Some(number) = survey.wrong_total {
        println!(rt; "{file}: line {number} states a total that the lines above do not have")?;
    }
    check_tables(rt, text, file)
}

// Reads a file and compares the tables with it.
fn check_file<R: Files + Print>(rt: &R, file: File) -> io::Result<()> {
    let Ok(reader) = fs::open(rt, file.name()) else {
        return println!(rt; "{file}: cannot be opened");
    };
    let mut buf = [0u8; ROOM];
    let len = io::copy(&mut reader.take(ROOM as u64), &mut &mut buf[..])?;
    match buf.get(..len as usize) {
        Some(text) if text.len() < ROOM => check_text(rt, text, file),
        _ => println!(rt; "{file}: is longer than the buffer"),
    }
}

fn main(rt: HostRuntime) -> io::Result<()> {
    println!(rt; "Unicode {TABLES_VERSION}, as a word {UNICODE_VERSION}")?;
    check_file(&rt, File::Properties)?;
    check_file(&rt, File::Sequences)?;
    match forms::first_difference() {
        None => {
            let count = Count(CODE_POINTS as usize, "code point");
            println!(rt; "fast forms: as the plain ones at {count}")
        }
        Some(ch) => println!(rt; "fast forms differ from the plain ones first at U+{ch:04X}"),
    }
}

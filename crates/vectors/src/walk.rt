// Replays the lines of a file of stored answers, counts them, and writes what is wrong. The modules `policy_file` and
// `item_file` decide what a line must be. The checksum shows a changed digit that changes no answer, for example in a
// code point that no set holds.
use crate::checksum::adler_32;
use crate::fault::Fault;
use crate::keyword::Keyword;
use crate::line::Line;
use crate::report::{Report, Tally};
use std::io;

// A file of stored answers: its grammar, and what its later lines need of its earlier ones.
pub(crate) trait StoredFile {
    // Tests whether a line with a keyword may follow a line with the keyword `last`.
    fn may_follow(last: Keyword, keyword: Keyword) -> bool;

    // Replays a line. `line` has what follows the keyword.
    fn replay_line(&mut self, keyword: Keyword, line: Line<'_>) -> Result<(), Fault>;
}

// Counts a line, if lines with its keyword are counted.
fn count(tallies: &mut [Tally], keyword: Keyword, agrees: bool) {
    if let Some(tally) = tallies.iter_mut().find(|tally| tally.keyword == keyword) {
        tally.add(agrees);
    }
}

// Replays a line after a line with the keyword `last`, and counts it. Returns its keyword, and whether it is as stored.
fn replay_line<F: StoredFile>(
    file: &mut F,
    last: Keyword,
    bytes: &[u8],
) -> Result<(Keyword, bool), Fault> {
    let mut line = Line::new(bytes);
    let keyword = line.keyword().ok_or(Fault::Malformed)?;
    if !F::may_follow(last, keyword) {
        return Err(Fault::Malformed);
    }
    match file.replay_line(keyword, line) {
        Ok(()) => Ok((keyword, true)),
        Err(Fault::Differs) => Ok((keyword, false)),
        Err(Fault::Malformed) => Err(Fault::Malformed),
    }
}

// Replays the lines of a text, up to the first that does not follow its format. Returns the keyword of the last line,
// if each line follows its format.
fn replay_lines<R: Print, F: StoredFile>(
    report: &Report<'_, R>,
    text: &[u8],
    file: &mut F,
    tallies: &mut [Tally],
) -> io::Result<Option<Keyword>> {
    let mut last = Keyword::Comment;
    for (i, bytes) in text.split_inclusive(|b| *b == b'\n').enumerate() {
        let line = bytes.strip_suffix(b"\n").unwrap_or(bytes);
        match replay_line(file, last, line) {
            Ok((keyword, agrees)) => {
                if !agrees {
                    report.say_fault(i + 1, Fault::Differs)?;
                }
                count(tallies, keyword, agrees);
                last = keyword;
            }
            Err(fault) => {
                report.say_fault(i + 1, fault)?;
                return Ok(None);
            }
        }
    }
    Ok(Some(last))
}

// Replays a text, and writes the counts if each line follows its format.
pub(crate) fn replay<R: Print, F: StoredFile>(
    report: &Report<'_, R>,
    text: &[u8],
    file: &mut F,
    tallies: &mut [Tally],
) -> io::Result<()> {
    let Some(last) = replay_lines(report, text, file, tallies)? else {
        return Ok(());
    };
    if last != Keyword::End {
        report.say("has no line `end`")?;
    }
    if text.last() != Some(&b'\n') {
        report.say("does not end with a line feed")?;
    }
    report.say_tallies(tallies, adler_32(text))
}

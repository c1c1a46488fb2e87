// Compares the nested structure of an item with a line. The scanner's functions read the structure from the text, part
// by part.
use crate::fault::{Fault, check};
use crate::line::Line;
use item_parts::{
    EmojiLike, EmojiModification, EmojiStem, EmojiTagRun, SequencePart, consume_emoji_like,
    consume_emoji_modification, consume_emoji_tag_run, consume_sequence_part,
};
use scanner::selectors::PresentationSelectors;

// A line and a text that are read together: what is left of the line, and the offset in the text.
#[derive(Clone, Copy)]
pub(crate) struct Reading<'a> {
    pub line: Line<'a>,
    pub text: &'a [u8],
    pub at: usize,
}

// Reads parts up to an offset in the text. Each part has at least one byte.
fn read_parts<'a, F: Fn(&mut Reading<'a>) -> Result<(), Fault>>(
    reading: &mut Reading<'a>,
    end: usize,
    part: F,
) -> Result<(), Fault>
    requires { F.IsAlwaysCallable part }
{
    for _ in reading.at..end {
        if reading.at < end {
            part(reading)?;
        }
    }
    reading.ends(end)
}

impl<'a> Reading<'a> {
    // Tests whether the text has been read up to an offset.
    pub(crate) fn ends(&self, end: usize) -> Result<(), Fault> {
        check(end <= self.at)
    }

    // Reads a run of selectors.
    pub(crate) fn selectors(&mut self, run: PresentationSelectors) -> Result<(), Fault> {
        self.line.same_selectors(run)?;
        self.at = run.end;
        Ok(())
    }

    // Reads a letter, a character and its selectors.
    fn character(&mut self, letter: u8, ch: u32, run: PresentationSelectors) -> Result<(), Fault> {
        self.line.same_character(letter, ch, run)?;
        self.at = run.end;
        Ok(())
    }

    // Reads a letter and selectors.
    fn mark_and_selectors(&mut self, letter: u8, run: PresentationSelectors) -> Result<(), Fault> {
        self.line.mark(letter)?;
        self.selectors(run)
    }

    // Reads a run of tags with its selectors.
    fn tag_run(&mut self) -> Result<(), Fault> {
        match consume_emoji_tag_run(self.text, self.at) {
            Some(
                EmojiTagRun {
                    tags_end,
                    selectors: run,
                },
            ) => {
                let tags = self.text.get(self.at..tags_end).ok_or(Fault::Differs)?;
                self.line.mark(b'r')?;
                self.line.same_bytes(tags)?;
                self.selectors(run)
            }
            None => Err(Fault::Differs),
        }
    }

    // Reads a modification.
    fn modification(&mut self) -> Result<(), Fault> {
        match consume_emoji_modification(self.text, self.at) {
            Some(
                EmojiModification::EmojiModifier {
                    modifier,
                    selectors: run,
                },
            ) => self.character(b'm', modifier, run),
            Some(EmojiModification::EnclosingKeycap { selectors: run }) => {
                self.mark_and_selectors(b'k', run)
            }
            Some(EmojiModification::TagModifier { end }) => {
                self.line.mark(b'g')?;
                read_parts(self, end, |reading| reading.tag_run())?;
                self.at = end;
                Ok(())
            }
            None => Err(Fault::Differs),
        }
    }

    // Reads a stem.
    fn stem(&mut self, found: Option<EmojiStem>) -> Result<(), Fault> {
        match found {
            Some(
                EmojiStem::SingletonBase {
                    base,
                    selectors: run,
                },
            ) => self.character(b'b', base, run),
            Some(
                EmojiStem::Flag {
                    first_ri,
                    after_first_ri,
                    second_ri,
                    after_second_ri,
                },
            ) => {
                self.character(b'f', first_ri, after_first_ri)?;
                self.character(b',', second_ri, after_second_ri)
            }
            None => Err(Fault::Differs),
        }
    }

    // Reads a unit: a stem and its modifications.
    pub(crate) fn unit(&mut self) -> Result<(), Fault> {
        let EmojiLike {
            stem: found,
            modifiers_start,
            end,
        } = consume_emoji_like(self.text, self.at);
        self.stem(found)?;
        self.at = modifiers_start;
        read_parts(self, end, |reading| reading.modification())?;
        self.at = end;
        Ok(())
    }

    // Reads a link with the unit that it joins, or a link without a unit.
    fn part(&mut self, item_end: usize) -> Result<(), Fault> {
        match consume_sequence_part(self.text, self.at, item_end) {
            Some(SequencePart::JoiningLink(run)) => {
                self.mark_and_selectors(b'j', run)?;
                self.unit()
            }
            Some(SequencePart::LeftOverLink(run)) => self.mark_and_selectors(b'z', run),
            None => Err(Fault::Differs),
        }
    }

    // Reads the links and joined units up to the end of an item.
    pub(crate) fn parts(&mut self, item_end: usize) -> Result<(), Fault> {
        read_parts(self, item_end, |reading| reading.part(item_end))
    }
}

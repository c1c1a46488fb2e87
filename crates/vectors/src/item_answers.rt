// Compares the items of a text with a line. The proved scanner gives the items.
use crate::fault::Fault;
use crate::items::Items;
use crate::line::Line;
use crate::structure_answers::Reading;
use scanner::selectors::consume_presentation_selectors;
use scanner::{ScanItem, ScanKind};

// Returns the letter of a kind.
fn kind_letter(kind: ScanKind) -> u8 {
    match kind {
        ScanKind::Passthrough => b'p',
        ScanKind::UnsanctionedPresentationSelectors => b's',
        ScanKind::LinksOnly => b'l',
        ScanKind::EmojiHeaded => b'e',
    }
}

impl Reading<'_> {
    // Reads the nested structure of an item.
    fn structure(&mut self, item: ScanItem) -> Result<(), Fault> {
        match item.kind {
            ScanKind::Passthrough => Ok(()),
            ScanKind::UnsanctionedPresentationSelectors => {
                self.selectors(consume_presentation_selectors(self.text, item.start))
            }
            ScanKind::LinksOnly => self.parts(item.end),
            ScanKind::EmojiHeaded => {
                self.unit()?;
                self.parts(item.end)
            }
        }
    }

    // Reads an item after a blank.
    fn item(&mut self, item: ScanItem) -> Result<(), Fault> {
        self.line.mark(b' ')?;
        self.line.mark(kind_letter(item.kind))?;
        self.line.same_span(item.start, item.end)?;
        if !item.tags_complete {
            self.line.mark(b'!')?;
        }
        self.structure(item)?;
        self.at = item.end;
        Ok(())
    }

    // Reads the items of the text. The line has no characters or units.
    fn items(&mut self) -> Result<(), Fault> {
        for item in Items::new(self.text) {
            self.item(item)?;
        }
        self.ends(self.text.len())
    }
}

// Compares the items of the text with those of the line.
pub(crate) fn items_agree(line: Line<'_>, text: &[u8]) -> Result<(), Fault> {
    let mut reading = Reading { line, text, at: 0 };
    reading.items()?;
    reading.line.same_end()
}

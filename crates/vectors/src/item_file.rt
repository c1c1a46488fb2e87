// The grammar of the files of items, as in the comments at the start of each file, and the replaying of their lines.
// Lines `under` name a policy by number, and are about the text of the last line `text`.
use crate::fault::{Fault, check};
use crate::finding_answers::findings_agree;
use crate::item_answers::items_agree;
use crate::keyword::Keyword;
use crate::known::{keep, known, next_number};
use crate::line::{Line, TEXT_BYTES};
use crate::policy_bytes::round_trips;
use crate::policy_file::POLICIES;
use crate::scanner_answers::scanner_agrees;
use crate::sets::same_policy;
use crate::walk::StoredFile;
use arrayvec::ArrayVec;
use policy::Policy;

// The keywords whose lines are counted.
pub const KEYWORDS: [Keyword; 3] = [Keyword::Policy, Keyword::Text, Keyword::Under];

// The policies of the lines so far, and the text of the last line `text`.
#[derive(Drop)]
pub(crate) struct ItemFile {
    policies: [Option<Policy>; POLICIES],
    text: ArrayVec<u8, TEXT_BYTES>,
}

impl ItemFile {
    pub(crate) fn new() -> Self {
        ItemFile {
            policies: [None; POLICIES],
            text: ArrayVec::new(),
        }
    }

    // Tests whether the policy of a line is equal after writing and reading its bytes. The first must be the default
    // policy.
    fn policy(&mut self, mut line: Line<'_>) -> Result<(), Fault> {
        let policy = line.policy()?;
        line.end()?;
        let number = next_number(&self.policies)?;
        keep(&mut self.policies, number as u64, policy)?;
        check(number != 0 || same_policy(policy, Policy::default()))?;
        check(round_trips(policy))
    }

    // Compares the items of a text.
    fn text(&mut self, mut line: Line<'_>) -> Result<(), Fault> {
        self.text = line.text()?;
        let text = self.text.as_slice();
        items_agree(line, text)?;
        check(scanner_agrees(text))
    }

    // Compares the findings of the text under a policy.
    fn under(&self, mut line: Line<'_>) -> Result<(), Fault> {
        let number = line.digit()?;
        let policy = known(&self.policies, number)?;
        findings_agree(line, self.text.as_slice(), policy)
    }
}

impl StoredFile for ItemFile {
    fn may_follow(last: Keyword, keyword: Keyword) -> bool {
        match keyword {
            Keyword::Comment => last == Keyword::Comment,
            Keyword::Policy => matches!(last, Keyword::Comment | Keyword::Policy),
            Keyword::Text => matches!(last, Keyword::Policy | Keyword::Under),
            Keyword::Under => matches!(last, Keyword::Text | Keyword::Under),
            Keyword::End => last == Keyword::Under,
            _ => false,
        }
    }

    fn replay_line(&mut self, keyword: Keyword, line: Line<'_>) -> Result<(), Fault> {
        match keyword {
            Keyword::Comment => Ok(()),
            Keyword::Policy => self.policy(line),
            Keyword::Text => self.text(line),
            Keyword::Under => self.under(line),
            Keyword::End => line.end(),
            _ => Err(Fault::Malformed),
        }
    }
}

// The grammar of policy.txt, as in the comments at its start, and the replaying of its lines. Each set has a line
// `complement`, which shows a wrong bit of the set.
use crate::fault::{Fault, check};
use crate::keyword::Keyword;
use crate::known::{keep, known};
use crate::line::Line;
use crate::named_set::NAMED_SETS;
use crate::sets::is_stored;
use crate::walk::StoredFile;
use crate::{policy_answers, policy_bytes};
use policy::Policy;
use policy_key_set::PolicyKeySet;

// The keywords whose lines are counted.
pub const KEYWORDS: [Keyword; 17] = [
    Keyword::Entries,
    Keyword::Size,
    Keyword::Default,
    Keyword::Named,
    Keyword::Singleton,
    Keyword::Keycap,
    Keyword::Set,
    Keyword::Complement,
    Keyword::Contains,
    Keyword::Display,
    Keyword::Union,
    Keyword::Intersection,
    Keyword::Symmetric,
    Keyword::Difference,
    Keyword::Equal,
    Keyword::Policy,
    Keyword::Rule,
];

// The largest number of sets, and of policies.
const SETS: usize = 25;

pub const POLICIES: usize = 8;

// The sets and policies of the lines so far, and the numbers of lines `named` and `complement`.
#[derive(Drop)]
pub(crate) struct PolicyFile {
    sets: [Option<PolicyKeySet>; SETS],
    policies: [Option<Policy>; POLICIES],
    named: usize,
    complements: u64,
}

// Replays the line `entries`.
fn entries(mut line: Line<'_>) -> Result<(), Fault> {
    let entries = line.number()?;
    let words = line.number()?;
    line.end()?;
    check(policy_answers::entries_agree(entries, words))
}

// Replays the line `size`.
fn size(mut line: Line<'_>) -> Result<(), Fault> {
    let prefer_bare = line.sizes()?;
    let bare_as_text = line.sizes()?;
    line.end()?;
    check(policy_answers::sizes_agree(prefer_bare, bare_as_text))
}

// Replays the line `default`.
fn default(mut line: Line<'_>) -> Result<(), Fault> {
    let policy = line.policy()?;
    line.end()?;
    check(policy_answers::default_agrees(policy))
}

// Replays a line about the set of a key.
fn key<F: Fn(u32) -> PolicyKeySet>(mut line: Line<'_>, set_of: F) -> Result<(), Fault>
    requires { F.IsAlwaysCallable set_of }
{
    let ch = line.code_point()?;
    let stored = line.stored_set()?;
    line.end()?;
    check(is_stored(set_of(ch), stored))
}

impl PolicyFile {
    pub(crate) fn new() -> Self {
        PolicyFile {
            sets: [None; SETS],
            policies: [None; POLICIES],
            named: 0,
            complements: 0,
        }
    }

    fn named(&mut self, mut line: Line<'_>) -> Result<(), Fault> {
        let name = line.name()?;
        let stored = line.stored_set()?;
        line.end()?;
        let named = NAMED_SETS.get(self.named).ok_or(Fault::Malformed)?;
        if named.name().as_bytes() != name {
            return Err(Fault::Malformed);
        }
        self.named += 1;
        check(is_stored(named.keys(), stored))
    }

    fn set(&mut self, mut line: Line<'_>) -> Result<(), Fault> {
        let number = line.number()?;
        let stored = line.stored_set()?;
        line.end()?;
        keep(&mut self.sets, number, stored.keys)?;
        check(policy_answers::set_agrees(stored))
    }

    fn complement(&mut self, mut line: Line<'_>) -> Result<(), Fault> {
        let number = line.number()?;
        let stored = line.stored_set()?;
        line.end()?;
        let set = known(&self.sets, number)?;
        if number != self.complements {
            return Err(Fault::Malformed);
        }
        self.complements = self.complements.saturating_add(1);
        check(is_stored(!set, stored))
    }

    fn contains(&self, mut line: Line<'_>) -> Result<(), Fault> {
        let number = line.number()?;
        let ch = line.code_point()?;
        let ordinary = line.truth()?;
        let keycap = line.truth()?;
        line.end()?;
        let set = known(&self.sets, number)?;
        check(
            PolicyKeySet::contains(set, ch) == ordinary
                && PolicyKeySet::contains_keycap(set, ch) == keycap,
        )
    }

    fn display(&self, mut line: Line<'_>) -> Result<(), Fault> {
        let number = line.number()?;
        let text = line.last_text()?;
        line.end()?;
        let set = known(&self.sets, number)?;
        policy_answers::display_agrees(set, text)
    }

    // Replays a line about an operation on two sets.
    fn operation<F: Fn(PolicyKeySet, PolicyKeySet) -> PolicyKeySet>(
        &self,
        mut line: Line<'_>,
        operation: F,
    ) -> Result<(), Fault>
        requires { F.IsAlwaysCallable operation }
    {
        let first = line.number()?;
        let second = line.number()?;
        let stored = line.stored_set()?;
        line.end()?;
        let a = known(&self.sets, first)?;
        let b = known(&self.sets, second)?;
        check(is_stored(operation(a, b), stored))
    }

    fn equal(&self, mut line: Line<'_>) -> Result<(), Fault> {
        let first = line.number()?;
        let second = line.number()?;
        let are_equal = line.truth()?;
        line.end()?;
        let a = known(&self.sets, first)?;
        let b = known(&self.sets, second)?;
        check(PolicyKeySet::eq(a, b) == are_equal)
    }

    fn policy(&mut self, mut line: Line<'_>) -> Result<(), Fault> {
        let number = line.number()?;
        let first = line.number()?;
        let second = line.number()?;
        line.end()?;
        let prefer_bare = known(&self.sets, first)?;
        let bare_as_text = known(&self.sets, second)?;
        let policy = Policy {
            prefer_bare,
            bare_as_text,
        };
        keep(&mut self.policies, number, policy)?;
        check(policy_bytes::round_trips(policy))
    }

    // Replays a line about a rule of the last policy.
    fn rule(&self, mut line: Line<'_>) -> Result<(), Fault> {
        let number = line.number()?;
        let base = line.code_point()?;
        let ordinary = line.digit()?;
        let keycap = line.digit()?;
        line.end()?;
        let policy = known(&self.policies, number)?;
        if known(&self.policies, number.saturating_add(1)).is_ok() {
            return Err(Fault::Malformed);
        }
        check(policy_answers::rules_agree(policy, base, ordinary, keycap))
    }
}

impl StoredFile for PolicyFile {
    // The lines for a key take turns, and so do the five for two sets. Each policy stands before its rules.
    fn may_follow(last: Keyword, keyword: Keyword) -> bool {
        match last {
            Keyword::Comment => matches!(keyword, Keyword::Comment | Keyword::Entries),
            Keyword::Entries => keyword == Keyword::Size,
            Keyword::Size => keyword == Keyword::Default,
            Keyword::Default => keyword == Keyword::Named,
            Keyword::Named => matches!(keyword, Keyword::Named | Keyword::Singleton),
            Keyword::Singleton => keyword == Keyword::Keycap,
            Keyword::Keycap => matches!(keyword, Keyword::Singleton | Keyword::Set),
            Keyword::Set => matches!(keyword, Keyword::Set | Keyword::Complement),
            Keyword::Complement => matches!(keyword, Keyword::Complement | Keyword::Contains),
            Keyword::Contains => matches!(keyword, Keyword::Contains | Keyword::Display),
            Keyword::Display => matches!(keyword, Keyword::Display | Keyword::Union),
            Keyword::Union => keyword == Keyword::Intersection,
            Keyword::Intersection => keyword == Keyword::Symmetric,
            Keyword::Symmetric => keyword == Keyword::Difference,
            Keyword::Difference => keyword == Keyword::Equal,
            Keyword::Equal => matches!(keyword, Keyword::Union | Keyword::Policy),
            Keyword::Policy => keyword == Keyword::Rule,
            Keyword::Rule => matches!(keyword, Keyword::Rule | Keyword::Policy | Keyword::End),
            Keyword::Text | Keyword::Under | Keyword::End => false,
        }
    }

    fn replay_line(&mut self, keyword: Keyword, line: Line<'_>) -> Result<(), Fault> {
        match keyword {
            Keyword::Comment => Ok(()),
            Keyword::Entries => entries(line),
            Keyword::Size => size(line),
            Keyword::Default => default(line),
            Keyword::Named => self.named(line),
            Keyword::Singleton => key(line, PolicyKeySet::singleton),
            Keyword::Keycap => key(line, PolicyKeySet::singleton_keycap),
            Keyword::Set => self.set(line),
            Keyword::Complement => self.complement(line),
            Keyword::Contains => self.contains(line),
            Keyword::Display => self.display(line),
            Keyword::Union => self.operation(line, |a, b| a | b),
            Keyword::Intersection => self.operation(line, |a, b| a & b),
            Keyword::Symmetric => self.operation(line, |a, b| a ^ b),
            Keyword::Difference => self.operation(line, |a, b| a - b),
            Keyword::Equal => self.equal(line),
            Keyword::Policy => self.policy(line),
            Keyword::Rule => self.rule(line),
            Keyword::End => line.end(),
            Keyword::Text | Keyword::Under => Err(Fault::Malformed),
        }
    }
}

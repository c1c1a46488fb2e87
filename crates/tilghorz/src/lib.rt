// The calls on byte slices and numbers that the crate tilghorz_c exports as C functions (document 01: "The intake host, written in Rust,
// calls formatting, listing and mending through C functions"). Each makes one call of another crate and returns the answer as one word
// (specs/AnswerWord.antt). include/tilghorz.h describes them for C.
#![tactic(auto)]

pub mod answer_word;

ghost use Rattle.std.specs.Prelude.{◌≡◌};
ghost use Rattle.base.specs.Output.{answer_of, buffer_of};
ghost use Rattle.base.specs.Words.{bytes_of};
ghost use Rattle.base.specs.Answers.{done, answer_row, found_row, optional_row};
ghost use Rattle.emoji.specs.Unicode.{variation_entry};
ghost use Rattle.emoji.specs.UnicodeData.{unicode_version};
ghost use Rattle.policy.specs.DefaultPolicy.{default_policy};
ghost use Rattle.policy.specs.PolicyBytes.{policy_bytes};
ghost use Rattle.repair.specs.Repair.{repair, repair_row};
ghost use Rattle.policy_sheet.specs.Calls.{read_call, write_call};
ghost use Rattle.policy_migration.specs.Carry.{carry_call};
ghost use Rattle.formatter.specs.Format.{format};
ghost use Rattle.formatter.specs.List.{count_numbers, list_bytes, list_items};
ghost use Rattle.formatter.specs.Mend.{mend};
ghost use Rattle.cutting.specs.Cut.{cut_before};
ghost use Rattle.store.specs.Bytes.{begin_call, file_call, release_call, used_call};
ghost use Rattle.policy_change.specs.Bytes.{begun_changing, called_on, changing_totals};
ghost use Rattle.policy_change.specs.Calls as Calls;
ghost use Rattle.membership_flips.specs.Flips.{list_tips};
ghost use Rattle.findings_near.specs.Around.{around_row, list_around};
ghost use Rattle.findings_near.specs.Nearest.{give_nearest};
ghost use Rattle.tilghorz.specs.AnswerWord.{capped_row, word};

use answer_word::{answer_word, around_word, found_word, optional_word, repair_word, store_word};
use emoji::unicode_data::UNICODE_VERSION;
use policy::Policy;

// Formats a text under a policy. It may answer "nothing to do", or refusals 1, 2, 3 and 8.
pub fn tilghorz_format(text: &[u8], policy: &[u8], out: &mut [u8]) -> u64
    ensures word { result ≡ word (optional_row (format text.now policy.now out.old).answer) }
    ensures bytes { out.new ≡ (format text.now policy.now out.old).buffer }
{
    optional_word(formatting::format_text(text, policy, out))
}

// Lists the findings of a text under a policy. A row is fourteen numbers of 8 bytes each: start, end, the eight counts, start and end in
// characters, start and end in UTF-16 units. It may answer refusals 1, 2, 3 and 7.
pub fn tilghorz_list(text: &[u8], policy: &[u8], table: &mut [u8]) -> u64
    ensures word { result ≡ word (answer_row (list_bytes text.now policy.now table.old).answer) }
    ensures bytes { table.new ≡ (list_bytes text.now policy.now table.old).buffer }
{
    answer_word(listing::list_findings(text, policy, table))
}

// Mends the finding that starts at an offset. It may answer refusals 1, 2, 3, 4, 5, 6 and 8.
pub fn tilghorz_mend(
    text: &[u8],
    policy: &[u8],
    offset: u64,
    decisions: &[u8],
    out: &mut [u8],
) -> u64
    ensures word { result ≡ word (answer_row
        (mend text.now policy.now offset decisions.now out.old).answer) }
    ensures bytes { out.new ≡ (mend text.now policy.now offset decisions.now
        out.old).buffer }
{
    answer_word(mending::mend(text, policy, offset as usize, decisions, out))
}

// Lists the items of a text. A row is eight numbers of 8 bytes each: start, end, kind, whether the tags are complete, start and end in
// characters, start and end in UTF-16 units. It may answer refusals 1, 3 and 7.
pub fn tilghorz_scan(text: &[u8], table: &mut [u8]) -> u64
    ensures word { result ≡ word (answer_row (list_items text.now table.old).answer) }
    ensures bytes { table.new ≡ (list_items text.now table.old).buffer }
{
    answer_word(listing::items::list_items(text, table))
}

// Writes a text with FFFD in place of each bad place. It may answer refusals 1 and 8. If it is done, the low 28 bits of the value are the
// length written, and the bits above them are the number of replacements.
pub fn tilghorz_repair(text: &[u8], out: &mut [u8]) -> u64
    ensures word { result ≡ word (repair_row (repair text.now out.old).answer) }
    ensures bytes { out.new ≡ (repair text.now out.old).buffer }
{
    repair_word(repair::repair(text, out))
}

// Lists the findings that lie wholly inside the bytes from `from` up to, not including, `to`, and those that only share a byte with them.
// It may answer refusals 1, 2, 3 and 7. If it is done, the low 28 bits of the value are the number of rows in the table `inside`, and the
// bits above them are the number of rows in the table `sharing`.
pub fn tilghorz_around(
    text: &[u8],
    policy: &[u8],
    from: u64,
    to: u64,
    inside: &mut [u8],
    sharing: &mut [u8],
) -> u64
    ensures word { result ≡ word (around_row (list_around text.now policy.now from to inside.old
        sharing.old).answer) }
    ensures first { inside.new ≡ (list_around text.now policy.now from to inside.old
        sharing.old).inner }
    ensures second { sharing.new ≡ (list_around text.now policy.now from to inside.old
        sharing.old).outer }
{
    around_word(findings_near::around::findings_around(
        text,
        policy,
        from as usize,
        to as usize,
        inside,
        sharing,
    ))
}

// Writes the finding that is nearest to an offset: its row, then the distance, 8 bytes each. It may answer "nothing to do", or refusals 1,
// 2, 3 and 7.
pub fn tilghorz_nearest(text: &[u8], policy: &[u8], offset: u64, row: &mut [u8]) -> u64
    ensures word { result ≡ word (optional_row
        (give_nearest text.now policy.now offset row.old).answer) }
    ensures bytes { row.new ≡ (give_nearest text.now policy.now offset row.old).buffer }
{
    optional_word(findings_near::nearest::nearest_finding(text, policy, offset as usize, row))
}

// Gives the largest offset, at or below an offset, where a text may be cut for two workers. It takes bytes, and not a text in document 01's
// sense: it makes no test and has no refusal. It may answer "nothing to do", if there is no such offset.
pub fn tilghorz_cut(bytes: &[u8], offset: u64) -> u64
    ensures { result ≡ word (found_row (cut_before bytes.now offset)) }
{
    found_word(cutting::cut_before(bytes, offset as usize))
}

// Begins a feed under a policy in a lent buffer. It may answer the refusals 2 and 8. Its value is the number of bytes of a feed.
pub fn tilghorz_feed_begin(policy: &[u8], feed: &mut [u8]) -> u64
    ensures word { result ≡ word (answer_row (begun_changing policy.now feed.old).answer) }
    ensures bytes { feed.new ≡ (begun_changing policy.now feed.old).buffer }
{
    answer_word(feed_calls::begin(policy, feed))
}

// Takes the next piece of a thread and writes all but an unfinished character and a last base that has a variation entry, with its
// selectors. It may answer the refusals 9, 1, 3 and 8.
pub fn tilghorz_feed_piece(feed: &mut [u8], piece: &[u8], out: &mut [u8]) -> u64
    ensures word { result ≡ word (answer_row
        (called_on feed.old (Calls.piece piece.now out.old)).answer) }
    ensures state { feed.new ≡ (called_on feed.old (Calls.piece piece.now out.old)).feed }
    ensures bytes { out.new ≡ (called_on feed.old (Calls.piece piece.now out.old)).out }
{
    answer_word(feeding::later::piece(feed, piece, out))
}

// Ends a feed and writes the held base. It may answer the refusals 9, 10 and 8.
pub fn tilghorz_feed_end(feed: &mut [u8], out: &mut [u8]) -> u64
    ensures word { result ≡ word (answer_row (called_on feed.old (Calls.end out.old)).answer) }
    ensures state { feed.new ≡ (called_on feed.old (Calls.end out.old)).feed }
    ensures bytes { out.new ≡ (called_on feed.old (Calls.end out.old)).out }
{
    answer_word(feed_calls::end(feed, out))
}

// Changes the policy of a feed. A held base keeps its policy. It may answer the refusals 9, 2 and 15. Its value is 0.
pub fn tilghorz_feed_policy(feed: &mut [u8], policy: &[u8]) -> u64
    ensures word { result ≡ word (answer_row (called_on feed.old (Calls.change policy.now)).answer) }
    ensures state { feed.new ≡ (called_on feed.old (Calls.change policy.now)).feed }
{
    answer_word(feed_calls::change(feed, policy))
}

// Writes the eight totals of a feed, 8 bytes each. It may answer refusal 8.
pub fn tilghorz_feed_totals(feed: &[u8], totals: &mut [u8]) -> u64
    ensures word { result ≡ word (answer_row
        (answer_of (bytes_of (count_numbers (changing_totals feed.now))) totals.old)) }
    ensures bytes { totals.new
        ≡ buffer_of (bytes_of (count_numbers (changing_totals feed.now))) totals.old }
{
    answer_word(feed_calls::totals(feed, totals))
}

// Reads a policy sheet and writes the bytes of its policy. It may answer the refusals 1, 11, 12 and 8. Its value is the number of bytes
// of a policy.
pub fn tilghorz_read_sheet(sheet: &[u8], out: &mut [u8]) -> u64
    ensures word { result ≡ word (answer_row (read_call sheet.now out.old).answer) }
    ensures bytes { out.new ≡ (read_call sheet.now out.old).buffer }
{
    answer_word(sheet_reading::read_sheet(sheet, out))
}

// Writes the sheet of a policy. It may answer the refusals 2 and 8.
pub fn tilghorz_write_sheet(policy: &[u8], out: &mut [u8]) -> u64
    ensures word { result ≡ word (answer_row (write_call policy.now out.old).answer) }
    ensures bytes { out.new ≡ (write_call policy.now out.old).buffer }
{
    answer_word(sheet_writing::write_sheet(policy, out))
}

// Carries a policy over from the tables of another version. `entries` is the old variation table, numbers of 8 bytes each. It may answer
// the refusals 16, 2 and 8. Its value is the number of bytes of a policy.
pub fn tilghorz_carry_policy(entries: &[u8], policy: &[u8], out: &mut [u8]) -> u64
    ensures word { result ≡ word (answer_row (carry_call entries.now policy.now out.old).answer) }
    ensures bytes { out.new ≡ (carry_call entries.now policy.now out.old).buffer }
{
    answer_word(policy_migration::carry_policy(entries, policy, out))
}

// Lists the memberships of a policy whose flip alone alters the formatted text. A row is three numbers of 8 bytes each: the code point; 0
// for ordinary, 1 for keycap; 0 for `prefer_bare`, 1 for `bare_as_text`. It may answer refusals 1, 2, 3 and 7.
pub fn tilghorz_tips(text: &[u8], policy: &[u8], table: &mut [u8]) -> u64
    ensures word { result ≡ word (answer_row (list_tips text.now policy.now table.old).answer) }
    ensures bytes { table.new ≡ (list_tips text.now policy.now table.old).buffer }
{
    answer_word(membership_flips::list_tips(text, policy, table))
}

// Begins a store of `capacity` bytes in a lent buffer. The reserves are numbers of 8 bytes, from client 0 on. It may answer the refusals 8,
// 13 and 14. Its value is the number of bytes of a store.
pub fn tilghorz_store_begin(capacity: u64, reserves: &[u8], store: &mut [u8]) -> u64
    ensures word { result ≡ word (capped_row (answer_row (begin_call capacity reserves.now store.old).answer)) }
    ensures state { store.new ≡ (begin_call capacity reserves.now store.old).buffer }
{
    store_word(storing::begin(capacity as usize, reserves, store))
}

// Formats a text under a policy, and charges the formatted length to a client under a number. It may answer "nothing to do", or the
// refusals 1, 2, 3, 8, 13 and 14.
pub fn tilghorz_store_file(
    store: &mut [u8],
    text: &[u8],
    policy: &[u8],
    client: u64,
    number: u64,
    out: &mut [u8],
) -> u64
    ensures word { result ≡ word (optional_row
        (file_call store.old text.now policy.now client number out.old).answer) }
    ensures state { store.new
        ≡ (file_call store.old text.now policy.now client number out.old).store }
    ensures bytes { out.new
        ≡ (file_call store.old text.now policy.now client number out.old).out }
{
    optional_word(storing::file(store, text, policy, client as usize, number as usize, out))
}

// Releases the message that a client filed under a number. It may answer refusal 13. Its value is the number of bytes given back.
pub fn tilghorz_store_release(store: &mut [u8], client: u64, number: u64) -> u64
    ensures word { result ≡ word (capped_row (answer_row (release_call store.old client number).answer)) }
    ensures state { store.new ≡ (release_call store.old client number).buffer }
{
    store_word(storing::release(store, client as usize, number as usize))
}

// Gives the number of bytes charged to a client. It may answer refusal 13.
pub fn tilghorz_store_used(store: &[u8], client: u64) -> u64
    ensures { result ≡ word (capped_row (answer_row (used_call store.now client))) }
{
    store_word(store::used(store, client as usize))
}

// Writes the bytes of the default policy. It may answer refusal 8.
pub fn tilghorz_default_policy(out: &mut [u8]) -> u64
    ensures word { result ≡ word (answer_row (answer_of (policy_bytes default_policy) out.old)) }
    ensures bytes { out.new ≡ buffer_of (policy_bytes default_policy) out.old }
{
    answer_word(policy::write_policy(Policy::default(), out))
}

// Gives the code point of the variation entry at an index, or "nothing to do" if there is no such entry.
pub fn tilghorz_variation_entry(index: u64) -> u64
    ensures { result ≡ word (found_row (variation_entry index)) }
{
    found_word(emoji::variation_entry(index as usize).map(|ch| ch as usize))
}

// Gives the version of the tables, as a policy begins with it: major times 256 plus minor.
pub fn tilghorz_version() -> u64
    ensures { result ≡ word (done unicode_version) }
{
    UNICODE_VERSION
}

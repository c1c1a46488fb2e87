// The C functions, on byte slices and numbers: the symbols of libtilghorz.a. Each calls the function of its name in the library
// `tilghorz` and promises what that one promises. What it does, and what it may answer, is said there. A slice is passed as a pointer
// and a length. include/tilghorz.h describes the same functions for C. No crate can use a static library, so the calls themselves stand
// in `tilghorz`.
#![tactic(auto)]

ghost use Rattle.std.specs.Prelude.{◌≡◌};
ghost use Rattle.base.specs.Output.{answer_of, buffer_of};
ghost use Rattle.base.specs.Words.{bytes_of};
ghost use Rattle.base.specs.Answers.{done, answer_row, found_row, optional_row};
ghost use Rattle.emoji.specs.Unicode.{variation_entry};
ghost use Rattle.emoji.specs.UnicodeData.{unicode_version};
ghost use Rattle.policy.specs.DefaultPolicy.{default_policy};
ghost use Rattle.policy.specs.PolicyBytes.{policy_bytes};
ghost use Rattle.repair.specs.Repair.{repair, repair_row};
ghost use Rattle.policy_sheet.specs.Calls.{read_call, write_call};
ghost use Rattle.policy_migration.specs.Carry.{carry_call};
ghost use Rattle.formatter.specs.Format.{format};
ghost use Rattle.formatter.specs.List.{count_numbers, list_bytes, list_items};
ghost use Rattle.formatter.specs.Mend.{mend};
ghost use Rattle.cutting.specs.Cut.{cut_before};
ghost use Rattle.store.specs.Bytes.{begin_call, file_call, release_call, used_call};
ghost use Rattle.policy_change.specs.Bytes.{begun_changing, called_on, changing_totals};
ghost use Rattle.policy_change.specs.Calls as Calls;
ghost use Rattle.membership_flips.specs.Flips.{list_tips};
ghost use Rattle.findings_near.specs.Around.{around_row, list_around};
ghost use Rattle.findings_near.specs.Nearest.{give_nearest};
ghost use Rattle.tilghorz.specs.AnswerWord.{capped_row, word};

#[unsafe(no_mangle)]
pub extern "C" fn tilghorz_format(text: &[u8], policy: &[u8], out: &mut [u8]) -> u64
    ensures word { result ≡ word (optional_row (format text.now policy.now out.old).answer) }
    ensures bytes { out.new ≡ (format text.now policy.now out.old).buffer }
{
    tilghorz::tilghorz_format(text, policy, out)
}

#[unsafe(no_mangle)]
pub extern "C" fn tilghorz_list(text: &[u8], policy: &[u8], table: &mut [u8]) -> u64
    ensures word { result ≡ word (answer_row (list_bytes text.now policy.now table.old).answer) }
    ensures bytes { table.new ≡ (list_bytes text.now policy.now table.old).buffer }
{
    tilghorz::tilghorz_list(text, policy, table)
}

#[unsafe(no_mangle)]
pub extern "C" fn tilghorz_mend(
    text: &[u8],
    policy: &[u8],
    offset: u64,
    decisions: &[u8],
    out: &mut [u8],
) -> u64
    ensures word { result ≡ word (answer_row
        (mend text.now policy.now offset decisions.now out.old).answer) }
    ensures bytes { out.new ≡ (mend text.now policy.now offset decisions.now
        out.old).buffer }
{
    tilghorz::tilghorz_mend(text, policy, offset, decisions, out)
}

#[unsafe(no_mangle)]
pub extern "C" fn tilghorz_scan(text: &[u8], table: &mut [u8]) -> u64
    ensures word { result ≡ word (answer_row (list_items text.now table.old).answer) }
    ensures bytes { table.new ≡ (list_items text.now table.old).buffer }
{
    tilghorz::tilghorz_scan(text, table)
}

#[unsafe(no_mangle)]
pub extern "C" fn tilghorz_repair(text: &[u8], out: &mut [u8]) -> u64
    ensures word { result ≡ word (repair_row (repair text.now out.old).answer) }
    ensures bytes { out.new ≡ (repair text.now out.old).buffer }
{
    tilghorz::tilghorz_repair(text, out)
}

#[unsafe(no_mangle)]
pub extern "C" fn tilghorz_around(
    text: &[u8],
    policy: &[u8],
    from: u64,
    to: u64,
    inside: &mut [u8],
    sharing: &mut [u8],
) -> u64
    ensures word { result ≡ word (around_row (list_around text.now policy.now from to inside.old
        sharing.old).answer) }
    ensures first { inside.new ≡ (list_around text.now policy.now from to inside.old
        sharing.old).inner }
    ensures second { sharing.new ≡ (list_around text.now policy.now from to inside.old
        sharing.old).outer }
{
    tilghorz::tilghorz_around(text, policy, from, to, inside, sharing)
}

#[unsafe(no_mangle)]
pub extern "C" fn tilghorz_nearest(text: &[u8], policy: &[u8], offset: u64, row: &mut [u8]) -> u64
    ensures word { result ≡ word (optional_row
        (give_nearest text.now policy.now offset row.old).answer) }
    ensures bytes { row.new ≡ (give_nearest text.now policy.now offset row.old).buffer }
{
    tilghorz::tilghorz_nearest(text, policy, offset, row)
}

#[unsafe(no_mangle)]
pub extern "C" fn tilghorz_cut(bytes: &[u8], offset: u64) -> u64
    ensures { result ≡ word (found_row (cut_before bytes.now offset)) }
{
    tilghorz::tilghorz_cut(bytes, offset)
}

#[unsafe(no_mangle)]
pub extern "C" fn tilghorz_feed_begin(policy: &[u8], feed: &mut [u8]) -> u64
    ensures word { result ≡ word (answer_row (begun_changing policy.now feed.old).answer) }
    ensures bytes { feed.new ≡ (begun_changing policy.now feed.old).buffer }
{
    tilghorz::tilghorz_feed_begin(policy, feed)
}

#[unsafe(no_mangle)]
pub extern "C" fn tilghorz_feed_piece(feed: &mut [u8], piece: &[u8], out: &mut [u8]) -> u64
    ensures word { result ≡ word (answer_row
        (called_on feed.old (Calls.piece piece.now out.old)).answer) }
    ensures state { feed.new ≡ (called_on feed.old (Calls.piece piece.now out.old)).feed }
    ensures bytes { out.new ≡ (called_on feed.old (Calls.piece piece.now out.old)).out }
{
    tilghorz::tilghorz_feed_piece(feed, piece, out)
}

#[unsafe(no_mangle)]
pub extern "C" fn tilghorz_feed_end(feed: &mut [u8], out: &mut [u8]) -> u64
    ensures word { result ≡ word (answer_row (called_on feed.old (Calls.end out.old)).answer) }
    ensures state { feed.new ≡ (called_on feed.old (Calls.end out.old)).feed }
    ensures bytes { out.new ≡ (called_on feed.old (Calls.end out.old)).out }
{
    tilghorz::tilghorz_feed_end(feed, out)
}

#[unsafe(no_mangle)]
pub extern "C" fn tilghorz_feed_policy(feed: &mut [u8], policy: &[u8]) -> u64
    ensures word { result ≡ word (answer_row (called_on feed.old (Calls.change policy.now)).answer) }
    ensures state { feed.new ≡ (called_on feed.old (Calls.change policy.now)).feed }
{
    tilghorz::tilghorz_feed_policy(feed, policy)
}

#[unsafe(no_mangle)]
pub extern "C" fn tilghorz_feed_totals(feed: &[u8], totals: &mut [u8]) -> u64
    ensures word { result ≡ word (answer_row
        (answer_of (bytes_of (count_numbers (changing_totals feed.now))) totals.old)) }
    ensures bytes { totals.new
        ≡ buffer_of (bytes_of (count_numbers (changing_totals feed.now))) totals.old }
{
    tilghorz::tilghorz_feed_totals(feed, totals)
}

#[unsafe(no_mangle)]
pub extern "C" fn tilghorz_read_sheet(sheet: &[u8], out: &mut [u8]) -> u64
    ensures word { result ≡ word (answer_row (read_call sheet.now out.old).answer) }
    ensures bytes { out.new ≡ (read_call sheet.now out.old).buffer }
{
    tilghorz::tilghorz_read_sheet(sheet, out)
}

#[unsafe(no_mangle)]
pub extern "C" fn tilghorz_write_sheet(policy: &[u8], out: &mut [u8]) -> u64
    ensures word { result ≡ word (answer_row (write_call policy.now out.old).answer) }
    ensures bytes { out.new ≡ (write_call policy.now out.old).buffer }
{
    tilghorz::tilghorz_write_sheet(policy, out)
}

#[unsafe(no_mangle)]
pub extern "C" fn tilghorz_carry_policy(entries: &[u8], policy: &[u8], out: &mut [u8]) -> u64
    ensures word { result ≡ word (answer_row (carry_call entries.now policy.now out.old).answer) }
    ensures bytes { out.new ≡ (carry_call entries.now policy.now out.old).buffer }
{
    tilghorz::tilghorz_carry_policy(entries, policy, out)
}

#[unsafe(no_mangle)]
pub extern "C" fn tilghorz_tips(text: &[u8], policy: &[u8], table: &mut [u8]) -> u64
    ensures word { result ≡ word (answer_row (list_tips text.now policy.now table.old).answer) }
    ensures bytes { table.new ≡ (list_tips text.now policy.now table.old).buffer }
{
    tilghorz::tilghorz_tips(text, policy, table)
}

#[unsafe(no_mangle)]
pub extern "C" fn tilghorz_store_begin(capacity: u64, reserves: &[u8], store: &mut [u8]) -> u64
    ensures word { result ≡ word (capped_row (answer_row (begin_call capacity reserves.now store.old).answer)) }
    ensures state { store.new ≡ (begin_call capacity reserves.now store.old).buffer }
{
    tilghorz::tilghorz_store_begin(capacity, reserves, store)
}

#[unsafe(no_mangle)]
pub extern "C" fn tilghorz_store_file(
    store: &mut [u8],
    text: &[u8],
    policy: &[u8],
    client: u64,
    number: u64,
    out: &mut [u8],
) -> u64
    ensures word { result ≡ word (optional_row
        (file_call store.old text.now policy.now client number out.old).answer) }
    ensures state { store.new
        ≡ (file_call store.old text.now policy.now client number out.old).store }
    ensures bytes { out.new
        ≡ (file_call store.old text.now policy.now client number out.old).out }
{
    tilghorz::tilghorz_store_file(store, text, policy, client, number, out)
}

#[unsafe(no_mangle)]
pub extern "C" fn tilghorz_store_release(store: &mut [u8], client: u64, number: u64) -> u64
    ensures word { result ≡ word (capped_row (answer_row (release_call store.old client number).answer)) }
    ensures state { store.new ≡ (release_call store.old client number).buffer }
{
    tilghorz::tilghorz_store_release(store, client, number)
}

#[unsafe(no_mangle)]
pub extern "C" fn tilghorz_store_used(store: &[u8], client: u64) -> u64
    ensures { result ≡ word (capped_row (answer_row (used_call store.now client))) }
{
    tilghorz::tilghorz_store_used(store, client)
}

#[unsafe(no_mangle)]
pub extern "C" fn tilghorz_default_policy(out: &mut [u8]) -> u64
    ensures word { result ≡ word (answer_row (answer_of (policy_bytes default_policy) out.old)) }
    ensures bytes { out.new ≡ buffer_of (policy_bytes default_policy) out.old }
{
    tilghorz::tilghorz_default_policy(out)
}

#[unsafe(no_mangle)]
pub extern "C" fn tilghorz_variation_entry(index: u64) -> u64
    ensures { result ≡ word (found_row (variation_entry index)) }
{
    tilghorz::tilghorz_variation_entry(index)
}

#[unsafe(no_mangle)]
pub extern "C" fn tilghorz_version() -> u64
    ensures { result ≡ word (done unicode_version) }
{
    tilghorz::tilghorz_version()
}

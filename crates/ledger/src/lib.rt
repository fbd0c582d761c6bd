// The ledger of a run: every record that was declared, with the state it ended in and whether it is torn. Follows `ledger` of
// waymaker-fault's session.rs. The caller lends what the session kept (media, withheld copy, log, marks) and three columns for
// the ledger; lengths and codes are tested first (7, 12, 13), and a refusal changes nothing. The contract of `ledger` is an
// equation for every input.
//
// What does not depend on the record is found once (`records::Facts`); then each record's own operations are looked at once. So
// the cost grows with the operations, the marks and the records' own lengths.
#![tactic(auto)]

ghost use Rattle.std.specs.Prelude.{◌≡◌, false, ◌+◌, ◌≤◌, ◌<◌, length, take, drop, get_or};
ghost use Rattle.basics.specs.Replies.{number_in, numbered};
ghost use Rattle.refusals.specs.Numbers.{number_of};
ghost use Rattle.model.specs.Columns.{all_up_to};
ghost use Rattle.model.specs.Lent.{SameLedger};
ghost use Rattle.session.specs.Lent.{log_seen, marks_seen};
ghost use Rattle.ledger.specs.Ledger.{outstanding, entries_uneven_in, codes_known, counts_short, entered_in, ledgered, ledger_call};
ghost use Rattle.ledger.specs.Scans.{lent_number, begins, next_of, filled, entering, fill_from, derived_by};

use basics::{lower, store};
use model::{LedgerMut, all_up_to};
use records::Facts;
use refusals::{Refusal, columns_refusal};
use session::{Counters, LogRef, MARKS, MarksRef, OPERATIONS, Told};

// ---- tests

// Whether none of the first `count` codes is above `top`.
pub fn known(codes: &[u8], count: usize, top: u8) -> bool
    ensures { result ≡ all_up_to top (take count codes.now) }
{
    all_up_to(&codes[..count.min(codes.len())], top)
}

// Whether every code among those counted has a meaning.
fn codes_known(counters: Counters, log: &LogRef<'_>, marks: &MarksRef<'_>) -> bool
    ensures { result ≡ codes_known counters (log_seen log.now) (marks_seen marks.now) }
{
    let operations = counters.operations;
    let kinds_known = known(log.kinds, operations, 2);
    let changed_known = known(log.changed, operations, 1);
    let answered_known = known(log.answered, operations, 1);
    let codes_known = known(marks.codes, counters.marks, 1);
    kinds_known & changed_known & answered_known & codes_known
}

// Whether columns of so many rows are shorter than the session's limits or its counts.
pub fn counts_short(counters: Counters, kinds: usize, codes: usize) -> bool
    ensures { result ≡ counts_short counters kinds codes }
{
    (kinds < OPERATIONS)
        | (codes < MARKS)
        | (kinds < counters.operations)
        | (codes < counters.marks)
}

// What refuses a run: 7, 12 and 13, in this order, all but the room for its ledger, of whose columns `uneven` tells. (The session's parts
// are lent one by one, as document 01 has them apart; `Told` and `Counters` hold what goes by value.)
fn refusal(
    told: Told,
    counters: Counters,
    media: &[u8],
    copy: &[u8],
    log: &LogRef<'_>,
    marks: &MarksRef<'_>,
    uneven: bool,
) -> Result<(), Refusal>
    ensures { number_in number_of result ≡ lent_number told counters (length media.now) (length copy.now) (log_seen log.now) (marks_seen marks.now) uneven }
{
    session::size_refusal(told.geometry, media.len(), copy.len())?;
    let malformed = log.uneven() | marks.uneven() | uneven | !codes_known(counters, log, marks);
    let short = counts_short(counters, log.kinds.len(), marks.codes.len());
    columns_refusal(malformed, short)
}

// ---- what is found once

// Whether the media still differ from what the armed operation would have left, where its bytes did not land.
fn outstanding(counters: Counters, media: &[u8], copy: &[u8]) -> bool
    requires { length copy.now ≡ length media.now }
    ensures { result ≡ outstanding counters media.now copy.now }
{
    let start = counters.place as usize;
    if media.len() <= start {
        return false;
    }
    let rest = media.len() - start;
    // `lower` for its bounds, which the slice behind it needs.
    let len = lower(counters.withheld as usize, rest);
    let stop = start + len;
    device_questions::differs_from(media, counters.place, &copy[start..stop])
}

// ---- all of them

// The operations and marks that count, with what is found once.
#[derive(Clone, Copy)]
struct Counted<'a> {
    facts: Facts,
    kinds: &'a [u8],
    changed: &'a [u8],
    marks: MarksRef<'a>,
    ghost even: { (length marks.ids.now ≡ length marks.codes.now) × (length marks.places.now ≡ length marks.codes.now) },
}

impl Counted<'_> {
    // How many entries there are: a mark that begins a record has one.
    fn begins(&self) -> usize
        ensures { result ≡ begins self.now.marks.codes.now }
    {
        self.marks.codes.iter().filter(|code| **code == 1).count()
    }

    // Where the next mark stands, or the last operation.
    fn next_place(&self, at: usize) -> usize
        requires { at < length self.now.marks.codes.now }
        ensures { result ≡ next_of (length self.now.kinds.now) (drop (at + 1) self.now.marks.places.now) }
    {
        self.marks
            .places
            .get(at + 1)
            .map_or(self.kinds.len(), |place| *place as usize)
    }

    // The mark at a place: a begin becomes the entry at `n`. How many entries there are then.
    fn enter(&self, at: usize, n: usize, entries: &mut LedgerMut<'_>) -> usize
        requires { (n ≤ at) × (at < length self.now.marks.codes.now) }
        ensures same { SameLedger entries.old entries.new }
        ensures left { filled result (entered_in entries.new) ≡ entering self.now.facts self.now.kinds.now self.now.changed.now (get_or self.now.marks.codes.now at 0) (get_or self.now.marks.ids.now at 0) (get_or self.now.marks.places.now at 0) (next_of (length self.now.kinds.now) (drop (at + 1) self.now.marks.places.now)) (filled n (entered_in entries.old)) }
        ensures more { result ≤ n + 1 }
    {
        if self.marks.codes[at] != 1 {
            return n;
        }
        let from = self.marks.places[at] as usize;
        let to = self.next_place(at);
        let entry = records::entry_at(self.facts, self.kinds, self.changed, from, to);
        store(entries.ids, n, self.marks.ids[at]);
        store(entries.states, n, entry.state);
        store(entries.torn, n, entry.torn);
        n + 1
    }

    // Every mark in order, by its index: its record ends where the mark after it stands.
    fn fill(&self, entries: &mut LedgerMut<'_>) -> usize
        ensures same { SameLedger entries.old entries.new }
        ensures left { filled result (entered_in entries.new) ≡ fill_from self.now.facts self.now.kinds.now self.now.changed.now self.now.marks.codes.now self.now.marks.ids.now self.now.marks.places.now (filled 0 (entered_in entries.old)) }
    {
        let mut n = 0;
        for at in 0..self.marks.codes.len() {
            n = self.enter(at, n, entries);
        }
        n
    }

    // Their ledger: 13 where its columns are too short for it.
    fn derive(&self, entries: &mut LedgerMut<'_>) -> Result<usize, Refusal>
        requires { entries_uneven_in (entered_in entries.old) ≡ false }
        ensures same { SameLedger entries.old entries.new }
        ensures left { ledgered (numbered number_of result) (entered_in entries.new) ≡ derived_by self.now.facts self.now.kinds.now self.now.changed.now self.now.marks.codes.now self.now.marks.ids.now self.now.marks.places.now (entered_in entries.old) }
    {
        let short = entries.ids.len() < self.begins();
        if short {
            return Err(Refusal::ColumnsTooShort);
        }
        Ok(self.fill(entries))
    }
}

// The ledger of a run, from what the start was told, the counters and all that was lent: how many entries it has.
pub fn ledger(
    told: Told,
    counters: Counters,
    media: &[u8],
    copy: &[u8],
    log: &LogRef<'_>,
    marks: &MarksRef<'_>,
    entries: &mut LedgerMut<'_>,
) -> Result<usize, Refusal>
    ensures same { SameLedger entries.old entries.new }
    ensures left { ledgered (numbered number_of result) (entered_in entries.new) ≡ ledger_call told counters media.now copy.now (log_seen log.now) (marks_seen marks.now) (entered_in entries.old) }
{
    let uneven = entries.uneven();
    refusal(told, counters, media, copy, log, marks, uneven)?;
    let operations = counters.operations;
    let kinds = &log.kinds[..operations];
    let facts = Facts {
        armed: told.armed,
        outstanding: outstanding(counters, media, copy),
        barrier: records::last_barrier(kinds, &log.answered[..operations]),
    };
    let counted = Counted {
        facts,
        kinds,
        changed: &log.changed[..operations],
        marks: MarksRef {
            codes: &marks.codes[..counters.marks],
            ids: &marks.ids[..counters.marks],
            places: &marks.places[..counters.marks],
        },
    };
    counted.derive(entries)
}

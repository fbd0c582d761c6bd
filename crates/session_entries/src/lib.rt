// The operation log as a lent slice of entries: document 01's "then the operation log is a lent slice of entries". A few thin
// functions over the covered column form. The session keeps its log in six columns of numbers; here a caller reads and stores
// entries of a slice, and hands a session's log on as entries; `session_entries_back` gets it back. Each contract is an equation over
// the list of entries. What is refused answers document 01's number and changes nothing: 11 for an index outside the log, 12 for
// columns of different lengths, 13 for too little room.
#![tactic(auto)]

ghost use Rattle.std.specs.Prelude.{◌≡◌, length, set};
ghost use Rattle.basics.specs.Replies.{number_in, numbered};
ghost use Rattle.refusals.specs.Numbers.{number_of};
ghost use Rattle.session.specs.Lent.{log_seen};
ghost use Rattle.session_entries.specs.Entries.{row_of, place_test, entry_at, moved_test, moved_number, entries_number, to_entries};

use basics::cell;
use refusals::{Refusal, columns_refusal};
use session::{Entry, LogRef};

// The entry at an index, or 11 for an index outside.
pub fn read_entry(log: &[Entry], index: usize) -> Result<Entry, Refusal>
    ensures { numbered number_of result ≡ entry_at log.now index }
{
    log.get(index).copied().ok_or(Refusal::NoSuchPlace)
}

// Stores an entry at an index, or is refused with 11 for an index outside: then nothing is changed. (By index, as `basics` `store`.)
pub fn store_entry(log: &mut [Entry], index: usize, entry: Entry) -> Result<(), Refusal>
    ensures { (number_in number_of result ≡ place_test index (length log.old)) × (log.new ≡ set log.old index entry) }
{
    if index >= log.len() {
        return Err(Refusal::NoSuchPlace);
    }
    log[index] = entry;
    Ok(())
}

// A row of the columns as an entry; a column that ends before it gives 0.
fn row_of(log: &LogRef<'_>, index: usize) -> Entry
    ensures { result ≡ row_of (log_seen log.now) index }
{
    Entry {
        kind: cell(log.kinds, index, 0),
        offset: cell(log.offsets, index, 0),
        len: cell(log.lens, index, 0),
        digest: cell(log.digests, index, 0),
        changed: cell(log.changed, index, 0),
        answered: cell(log.answered, index, 0),
    }
}

// Whether `rows` rows may be handed to a place with room for `room`, over the columns' lengths: 12 where they are unequal, then 13
// where there is too little room.
pub fn moved_lengths(
    kinds: usize,
    offsets: usize,
    lens: usize,
    digests: usize,
    changed: usize,
    answered: usize,
    rows: usize,
    room: usize,
) -> Result<(), Refusal>
    ensures { number_in number_of result ≡ moved_test kinds offsets lens digests changed answered rows room }
{
    let uneven = (offsets != kinds)
        | (lens != kinds)
        | (digests != kinds)
        | (changed != kinds)
        | (answered != kinds);
    columns_refusal(uneven, room < rows)
}

// The same over the columns.
pub fn moved_number(log: &LogRef<'_>, rows: usize, room: usize) -> Result<(), Refusal>
    ensures { number_in number_of result ≡ moved_number (log_seen log.now) rows room }
{
    moved_lengths(
        log.kinds.len(),
        log.offsets.len(),
        log.lens.len(),
        log.digests.len(),
        log.changed.len(),
        log.answered.len(),
        rows,
        room,
    )
}

// Hands a session's log on as entries: each row of the columns becomes the entry at its index. Refused with 12 or 13 as the
// definition says.
pub fn to_entries(log: &mut [Entry], from: &LogRef<'_>) -> Result<(), Refusal>
    ensures { (number_in number_of result ≡ entries_number (log_seen from.now) log.old) × (log.new ≡ to_entries (log_seen from.now) log.old) }
{
    let rows = from.kinds.len();
    moved_number(from, rows, log.len())?;
    // By index: a `zip` of six columns gives pairs in pairs, and of what one of `iter_mut` writes a proof knows the length alone.
    for index in 0..rows {
        log[index] = row_of(from, index);
    }
    Ok(())
}

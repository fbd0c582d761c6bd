// The rows of a table, tested before they are run: columns of one length, kinds that have a meaning, programs whose bytes are in
// the pool. A table is a list of calls or a read script's: five columns, a row for each call (kind, three numbers, and where the
// bytes of a program start), and a pool with the programs' bytes. Kinds are 0 a program, 1 an erase, 2 a barrier, 3 begin, 4 end,
// 5 a range marked afterwards; they stay document 01's codes, as the columns hold them (`steps` says why). Every number that can refuse a run is found here, the lowest first, so that a refused run changes
// nothing.
#![tactic(auto)]

ghost use Rattle.std.specs.Prelude.{◌≡◌, ◌&&◌, ◌+◌, length, take, eqb, ltb};
ghost use Rattle.basics.specs.Replies.{number_in};
ghost use Rattle.refusals.specs.Numbers.{number_of};
ghost use Rattle.script.specs.Lent.{columns_seen};
ghost use Rattle.rows.specs.Rows.{any_outside, begins_from, lengths_number, contents_number, rows_number};

use basics::lower;
use refusals::Refusal;
use script::CallsRef;
use storage::Geometry;

// Refuses lengths: 1 to 3, 7, then 12 where columns of one list are unequal.
fn lengths_refusal(
    geometry: Geometry,
    media: usize,
    copy: usize,
    uneven: bool,
) -> Result<(), Refusal>
    ensures { number_in number_of result ≡ lengths_number geometry media copy uneven }
{
    geometry.check()?;
    session::size_refusal(geometry, media, copy)?;
    if uneven {
        return Err(Refusal::MalformedColumns);
    }
    Ok(())
}

// Whether a row is a program whose bytes are not all in a pool of this length.
fn is_outside(kind: u8, start: u32, len: u32, pool: usize) -> bool
    ensures { result ≡ (eqb kind 0 && ltb pool (start + len)) }
{
    (kind == 0) & (pool < start as usize + len as usize)
}

// Whether some program's bytes are not all in a pool of this length, in the rows that all three columns have. Every row is looked at:
// with no way out of the loop it is compiled to vectors.
fn any_outside(kinds: &[u8], lens: &[u32], starts: &[u32], pool: usize) -> bool
    ensures { result ≡ any_outside pool kinds.now lens.now starts.now }
{
    let both = lower(kinds.len(), lens.len());
    let rows = lower(both, starts.len());
    let mut outside = false;
    for i in 0..rows {
        outside |= is_outside(kinds[i], starts[i], lens[i], pool);
    }
    outside
}

// What a run asks beside the rows: the highest kind that has a meaning in it, and whether other columns that it is lent are
// unequal, or too short.
#[derive(Clone, Copy, Debug, PartialEq, Eq)]
pub struct Asked {
    pub most: u8,
    pub uneven: bool,
    pub short: bool,
}

// Refuses what the rows counted hold, in columns of one length: 12 for a kind without a meaning, then 13.
fn contents_refusal(asked: Asked, rows: usize, calls: &CallsRef<'_>) -> Result<(), Refusal>
    requires { (length calls.now.seconds.now ≡ length calls.now.kinds.now) × (length calls.now.starts.now ≡ length calls.now.kinds.now) }
    ensures { number_in number_of result ≡ contents_number asked.most rows (columns_seen calls.now) asked.short }
{
    let there = calls.kinds.len();
    let n = rows.min(there);
    let kinds = &calls.kinds[..n];
    let known = model::all_up_to(kinds, asked.most);
    let outside = any_outside(
        kinds,
        &calls.seconds[..n],
        &calls.starts[..n],
        calls.pool.len(),
    );
    refusals::columns_refusal(!known, asked.short | (there < rows) | outside)
}

// What refuses a run of the rows counted.
pub fn rows_refusal(
    geometry: Geometry,
    media: usize,
    copy: usize,
    asked: Asked,
    rows: usize,
    calls: &CallsRef<'_>,
) -> Result<(), Refusal>
    ensures { number_in number_of result ≡ rows_number geometry media copy asked.uneven asked.short asked.most rows (columns_seen calls.now) }
{
    let listed = calls.uneven();
    lengths_refusal(geometry, media, copy, asked.uneven | listed)?;
    contents_refusal(asked, rows, calls)
}

// ---- room for a ledger

// How many begins a session takes of calls with these kinds: it takes so many marks, stopped or not.
fn begins_in(kinds: &[u8]) -> usize
    ensures { result ≡ begins_from 0 kinds.now }
{
    let mut begins: usize = 0;
    let mut marks: usize = 0;
    for kind in kinds {
        let taken = (*kind >= 3) & (marks < session::MARKS);
        begins += usize::from(taken & (*kind == 3));
        marks += usize::from(taken);
    }
    begins
}

// How many begins a session takes of the rows counted, where none is a range: as many entries as its ledger has.
pub fn begins_taken(rows: usize, kinds: &[u8]) -> usize
    ensures { result ≡ begins_from 0 (take rows kinds.now) }
{
    let n = rows.min(kinds.len());
    begins_in(&kinds[..n])
}

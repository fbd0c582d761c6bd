// Callers that have a log of entries in a local and lend it to `session_entries` and `session_entries_back`: for a caller without a
// slice of entries, as `session_lent`'s `barrier_once` is for one without lent counters. Their parameters are columns, numbers and an
// entry.
#![tactic(auto)]

ghost use Rattle.std.specs.Prelude.{◌≡◌};
ghost use Rattle.basics.specs.Replies.{number_in, numbered};
ghost use Rattle.refusals.specs.Numbers.{number_of};
ghost use Rattle.session.specs.Log.{log_of};
ghost use Rattle.session_entries.specs.Entries.{place_test, columns_number, to_columns};
ghost use Rattle.session_entries_local.specs.Local.{entry_with, started_with};

use refusals::Refusal;
use session::{Entry, LogMut, LogRef};
use session_entries::{read_entry, store_entry, to_entries};
use session_entries_back::to_columns;

// The entry that no operation left.
const NO_ENTRY: Entry = Entry {
    kind: 0,
    offset: 0,
    len: 0,
    digest: 0,
    changed: 0,
    answered: 0,
};

// 11 where an index is outside so many rows. (By `if`: `then_some(()).ok_or(..)` has to make an option of nothing first.)
fn inside(index: usize, rows: usize) -> Result<(), Refusal>
    ensures { number_in number_of result ≡ place_test index rows }
{
    if index < rows {
        Ok(())
    } else {
        Err(Refusal::NoSuchPlace)
    }
}

// The entry at `index` of a session's log in which `entry` is recorded at `at`; the columns stay as they are. Refused with 11 where
// `at` or `index` is outside the columns, then with 12 where these are unequal, then with 13 where they have more than 1,024 rows.
pub fn entry_with(
    kinds: &[u8],
    offsets: &[u32],
    lens: &[u32],
    digests: &[u64],
    changed: &[u8],
    answered: &[u8],
    at: usize,
    entry: Entry,
    index: usize,
) -> Result<Entry, Refusal>
    ensures { numbered number_of result ≡ entry_with (log_of kinds.now offsets.now lens.now digests.now changed.now answered.now) at entry index }
{
    let rows = kinds.len();
    inside(at, rows)?;
    inside(index, rows)?;
    let log = LogRef {
        kinds,
        offsets,
        lens,
        digests,
        changed,
        answered,
    };
    // As many as a session takes; a literal, which the lengths of the promise compute to.
    let mut entries = [NO_ENTRY; 1024];
    to_entries(&mut entries, &log)?;
    store_entry(&mut entries, at, entry)?;
    read_entry(&entries, index)
}

// Lays a log of 1,024 entries that starts with `entry` out in columns: the other 1,023 rows are 0, and rows past 1,024 stay. Refused
// with 12 or 13, and then nothing changes.
pub fn start_with(
    entry: Entry,
    kinds: &mut [u8],
    offsets: &mut [u32],
    lens: &mut [u32],
    digests: &mut [u64],
    changed: &mut [u8],
    answered: &mut [u8],
) -> Result<(), Refusal>
    ensures { (number_in number_of result ≡ columns_number (started_with entry) (log_of kinds.old offsets.old lens.old digests.old changed.old answered.old)) × (log_of kinds.new offsets.new lens.new digests.new changed.new answered.new ≡ to_columns (started_with entry) (log_of kinds.old offsets.old lens.old digests.old changed.old answered.old)) }
{
    let mut log = [NO_ENTRY; 1024];
    log[0] = entry;
    let mut to = LogMut {
        kinds,
        offsets,
        lens,
        digests,
        changed,
        answered,
    };
    to_columns(&log, &mut to)
}

// A list of calls run through the session: start, every call in turn, and the ledger at the end. Document 01, "Demand 3": what
// `replay` leaves is the plain run. The calls are rows of a table, as `steps` has them: a list of calls marks no range, so kinds go
// up to 4, and no row's third number is read.
#![tactic(auto)]

ghost use Rattle.std.specs.Prelude.{◌≡◌, length};
ghost use Rattle.basics.specs.Replies.{numbered};
ghost use Rattle.refusals.specs.Numbers.{number_of};
ghost use Rattle.model.specs.Lent.{SameLedger};
ghost use Rattle.ledger.specs.Ledger.{entered_in};
ghost use Rattle.session.specs.Lent.{log_in, marks_in};
ghost use Rattle.session.specs.Start.{opened, started};
ghost use Rattle.script.specs.Lent.{columns_seen};
ghost use Rattle.session.specs.Log.{log_of, marks_of};
ghost use Rattle.replay.specs.Replay.{lent, replayed, replay_call};

use model::LedgerMut;
use refusals::Refusal;
use rows::{Asked, begins_taken, rows_refusal};
use script::CallsRef;
use session::{Counters, LogMut, MarksMut, Told};

// A start on columns that the run writes to afterwards. (A function for its equation: of the columns as they are lent to be written.)
fn start(
    told: Told,
    media: &mut [u8],
    copy: &[u8],
    log: &LogMut<'_>,
    marks: &MarksMut<'_>,
) -> Result<Counters, Refusal>
    ensures { opened (numbered number_of result) media.new ≡ started told media.old (length copy.now) (log_in log.now) (marks_in marks.now) }
{
    let logged = log.seen();
    let marked = marks.seen();
    session_calls::start(told, media, copy, &logged, &marked)
}

// Runs a list of calls through a session started on a new device. Leaves each call's answer, the media and the ledger: the plain
// run's. The copy, the log and the marks are as the last call left them: arrays of a session's limits, so that no length of them
// is left to test. (They are lent one by one, as a caller in C has them: `LogMut` has slices of any length, which would be
// to test, and a struct of references to arrays would be `LogMut` once more, made by one caller and taken apart here.)
pub fn replay(
    told: Told,
    rows: usize,
    calls: &CallsRef<'_>,
    answers: &mut [u32],
    media: &mut [u8],
    copy: &mut [u8],
    ops: &mut [u8; 1024],
    spans: &mut [u32; 1024],
    sizes: &mut [u32; 1024],
    digests: &mut [u64; 1024],
    changed: &mut [u8; 1024],
    answered: &mut [u8; 1024],
    marks: &mut [u8; 512],
    named: &mut [u32; 512],
    places: &mut [u64; 512],
    entries: &mut LedgerMut<'_>,
) -> Result<usize, Refusal>
    ensures same { SameLedger entries.old entries.new }
    ensures left { replayed (numbered number_of result) (lent answers.new media.new copy.new (log_of ops.new spans.new sizes.new digests.new changed.new answered.new) (marks_of marks.new named.new places.new) (entered_in entries.new)) ≡ replay_call told rows (columns_seen calls.now) (lent answers.old media.old copy.old (log_of ops.old spans.old sizes.old digests.old changed.old answered.old) (marks_of marks.old named.old places.old) (entered_in entries.old)) }
{
    let room = entries.ids.len();
    let short = (answers.len() < rows) | (room < begins_taken(rows, calls.kinds));
    let asked = Asked {
        // an end: a list of calls has no range
        most: 4,
        uneven: entries.uneven(),
        short,
    };
    rows_refusal(told.geometry, media.len(), copy.len(), asked, rows, calls)?;
    let mut log = LogMut {
        kinds: ops,
        offsets: spans,
        lens: sizes,
        digests,
        changed,
        answered,
    };
    let mut kept = MarksMut {
        codes: marks,
        ids: named,
        places,
    };
    // Never refused: what could was tested above.
    let fresh = start(told, media, copy, &log, &kept)?;
    let (_, derived) = runner::run_ledgered(
        told, true, fresh, rows, calls, answers, media, copy, &mut log, &mut kept, entries,
    );
    derived
}

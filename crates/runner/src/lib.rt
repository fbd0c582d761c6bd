// A table of rows through a session, one after the other: a list of calls, or a script's lines. Five columns, a row for each call
// (`steps` has their kinds), and a pool with the programs' bytes. `run_rows` derives nothing; `run_ledgered` derives the ledger of the
// session that the rows left as well. How many rows count is told apart from the columns, which may be longer.
#![tactic(auto)]

ghost use Rattle.std.specs.Prelude.{◌≡◌};
ghost use Rattle.basics.specs.Replies.{numbered};
ghost use Rattle.refusals.specs.Numbers.{number_of};
ghost use Rattle.model.specs.Lent.{SameLedger};
ghost use Rattle.ledger.specs.Ledger.{entered_in, ledgered, ledger_call};
ghost use Rattle.script.specs.Lent.{columns_seen};
ghost use Rattle.session.specs.Lent.{log_in, marks_in, SameLog, SameMarks};
ghost use Rattle.steps.specs.Step.{session_of};
ghost use Rattle.runner.specs.Run.{row_in, there, tasks_in, ran_rows, left_of, leaves};

use basics::{cell, number_in, store};
use model::LedgerMut;
use refusals::Refusal;
use script::CallsRef;
use session::{Counters, LogMut, MarksMut, Told};
use steps::Row;

// The counters that the last row left, whether the rows ended at an error, and how many were run: an error leaves counters too, so
// this is no Result.
#[derive(Clone, Copy, Debug, PartialEq, Eq)]
pub struct Ended {
    pub counters: Counters,
    pub failed: bool,
    pub done: usize,
}

// The row at a place, with 0 for what is past a column's end.
fn row_at(calls: &CallsRef<'_>, at: usize) -> Row
    ensures { result ≡ row_in (columns_seen calls.now) at }
{
    Row {
        kind: cell(calls.kinds, at, 0),
        first: cell(calls.firsts, at, 0),
        second: cell(calls.seconds, at, 0),
        third: cell(calls.thirds, at, 0),
        start: cell(calls.starts, at, 0),
    }
}

// As many rows as were counted and as all five columns have.
fn rows_there(rows: usize, calls: &CallsRef<'_>) -> usize
    ensures { result ≡ there rows (columns_seen calls.now) }
{
    let kinds = rows.min(calls.kinds.len());
    let fields = calls.firsts.len().min(calls.seconds.len());
    let rest = calls.thirds.len().min(calls.starts.len());
    kinds.min(fields).min(rest)
}

// The rows in turn, as far as the first error or, where the run carries on, to the last. Their answers are stored as far as the
// column for them reaches: a caller that asks for none lends an empty one. Media, copy, log and marks are lent apart, as each row's
// call takes them (`steps`): a struct of the four would be taken apart again at every row.
pub fn run_rows(
    told: Told,
    carries: bool,
    fresh: Counters,
    rows: usize,
    calls: &CallsRef<'_>,
    answers: &mut [u32],
    media: &mut [u8],
    copy: &mut [u8],
    log: &mut LogMut<'_>,
    marks: &mut MarksMut<'_>,
) -> Ended
    ensures same_log { SameLog log.old log.new }
    ensures same_marks { SameMarks marks.old marks.new }
    ensures left { left_of result answers.new media.new copy.new (log_in log.new) (marks_in marks.new) ≡ leaves (ran_rows told carries (session_of fresh media.old copy.old (log_in log.old) (marks_in marks.old)) (tasks_in rows (columns_seen calls.now))) answers.old }
{
    let there = rows_there(rows, calls);
    // A copy: what a row writes may, for all that the compiler knows, lie where `calls` does, and it would be read again at each row.
    let columns = *calls;
    let mut counters = fresh;
    // By index: a row is a part of five columns, and the answers may end before the rows do.
    for i in 0..there {
        let row = row_at(&columns, i);
        let called = steps::step(told, counters, row, columns.pool, media, copy, log, marks);
        store(answers, i, number_in(called.answer));
        counters = called.counters;
        if called.answer.is_err() & !carries {
            return Ended {
                counters,
                failed: true,
                done: i + 1,
            };
        }
    }
    Ended {
        counters,
        failed: false,
        done: there,
    }
}

// The rows in turn, and the ledger of the session that they left, which is derived whether or not they ended at an error.
pub fn run_ledgered(
    told: Told,
    carries: bool,
    fresh: Counters,
    rows: usize,
    calls: &CallsRef<'_>,
    answers: &mut [u32],
    media: &mut [u8],
    copy: &mut [u8],
    log: &mut LogMut<'_>,
    marks: &mut MarksMut<'_>,
    entries: &mut LedgerMut<'_>,
) -> (Ended, Result<usize, Refusal>)
    ensures same_log { SameLog log.old log.new }
    ensures same_marks { SameMarks marks.old marks.new }
    ensures same_entries { SameLedger entries.old entries.new }
    ensures left { left_of result.0 answers.new media.new copy.new (log_in log.new) (marks_in marks.new) ≡ leaves (ran_rows told carries (session_of fresh media.old copy.old (log_in log.old) (marks_in marks.old)) (tasks_in rows (columns_seen calls.now))) answers.old }
    ensures derived { ledgered (numbered number_of result.1) (entered_in entries.new) ≡ ledger_call told result.0.counters media.new copy.new (log_in log.new) (marks_in marks.new) (entered_in entries.old) }
{
    let ended = run_rows(
        told, carries, fresh, rows, calls, answers, media, copy, log, marks,
    );
    let logged = log.seen();
    let marked = marks.seen();
    let derived = ledger::ledger(told, ended.counters, media, copy, &logged, &marked, entries);
    (ended, derived)
}

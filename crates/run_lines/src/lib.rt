// The line of the run at a place of a sweep, as one of the two programs prints it, written at a lent `Cursor`: what is armed there, the
// writer's run with it, its ledger, its line. All that a run is lent are locals of zeros, so it depends on nothing that an earlier run
// left. Each promise is an equation with a definition of specs/.
#![tactic(auto)]

ghost use Rattle.std.specs.Prelude.{◌≡◌, Bool, true, false, length, take, [], IsErr, None as Absent};
ghost use Rattle.basics.specs.Replies.{number_in};
ghost use Rattle.ledger.specs.Ledger.{entered_of};
ghost use Rattle.script.specs.Lent.{columns_seen};
ghost use Rattle.pieces.specs.Cursors.{SameOut};
ghost use Rattle.lines.specs.Answers.{put};
ghost use Rattle.lines.specs.Written.{written};
ghost use Rattle.lines.specs.Lines.{judged_line};
ghost use Rattle.oracle.specs.Verdict.{number_of, verified};
ghost use Rattle.harness_runs.specs.Running.{zeros, run_call, ran_as};
ghost use Rattle.run_lines.specs.RunLine.{judge_put, line_put, run_end, end_of, armed_put, run_line_call};

use basics::number_in;
use harness_runs::{Entries, Run, Writer};
use inject::{Injection, OpsRef};
use model::LedgerRef;
use pieces::Cursor;
use refusals::Refusal;
use session::{MARKS, OPERATIONS};

// A script's capacity is at most this: above it, `script` refuses with 10.
pub const MOST_CELLS: usize = script::MOST_CAPACITY as usize;

// ---- the line of `judge`

// The verdict on a history, and the history, as a line. Nothing is dispatched, and there is no bank count.
fn verdict_line(
    place: u64,
    ledger: &LedgerRef<'_>,
    history: &[u32],
    to: &mut Cursor<'_>,
) -> Result<(), Refusal>
    ensures same { SameOut to.old to.new }
    ensures put { written result to.new ≡ put 0 (judged_line place (number_in number_of (verified ledger.now.ids.now ledger.now.states.now ledger.now.torn.now history.now [] Absent)) history.now) to.old.at to.old.out.now }
    ensures stays { IsErr result → to.new.at ≡ to.old.at }
{
    let verdict = oracle::verify_recovery(ledger, history);
    lines::judge_line(place, number_in(verdict), history, to)
}

// The verdict on the suggested history, as a line.
fn judged_line(place: u64, ledger: &LedgerRef<'_>, to: &mut Cursor<'_>) -> Result<(), Refusal>
    ensures same { SameOut to.old to.new }
    ensures put { written result to.new ≡ judge_put place ledger.now.ids.now ledger.now.states.now ledger.now.torn.now to.old.at to.old.out.now }
    ensures stays { IsErr result → to.new.at ≡ to.old.at }
{
    let mut history = [0u32; MARKS];
    let count = history::suggested(ledger, &mut history)?;
    let kept = basics::lower(count, MARKS);
    verdict_line(place, ledger, &history[..kept], to)
}

// ---- the two programs

// One of the two programs, by the line that it has for a run and its ledger.
pub trait Program {
    ghost judged: { Bool };

    fn line(
        place: u64,
        armed: Option<Injection>,
        run: Run,
        ledger: &LedgerRef<'_>,
        to: &mut Cursor<'_>,
    ) -> Result<(), Refusal>
        ensures same { SameOut to.old to.new }
        ensures put { written result to.new ≡ line_put judged place armed run.stop run.operations (entered_of ledger.now.ids.now ledger.now.states.now ledger.now.torn.now) to.old.at to.old.out.now }
        ensures stays { IsErr result → to.new.at ≡ to.old.at };
}

// `sweep`: how the run ended, and its ledger.
pub struct Swept;

impl Program for Swept {
    ghost judged = { false };

    fn line(
        place: u64,
        armed: Option<Injection>,
        run: Run,
        ledger: &LedgerRef<'_>,
        to: &mut Cursor<'_>,
    ) -> Result<(), Refusal> {
        sweep_lines::sweep_line(place, armed, run.stop, run.operations, ledger, to)
    }
}

// `judge`: the verdict on the suggested history.
pub struct Judged;

impl Program for Judged {
    ghost judged = { true };

    fn line(
        place: u64,
        _armed: Option<Injection>,
        _run: Run,
        ledger: &LedgerRef<'_>,
        to: &mut Cursor<'_>,
    ) -> Result<(), Refusal> {
        judged_line(place, ledger, to)
    }
}

// ---- the run

// A run on as much of the media as the script's line 1 says. Nobody looks at its operations.
fn run_on(
    writer: &Writer<'_>,
    armed: Option<Injection>,
    media: &mut [u8; MOST_CELLS],
    copy: &mut [u8; MOST_CELLS],
    entries: &mut Entries,
) -> Result<Run, Refusal>
    ensures { run_end (ran_as result) (entered_of entries.new.ids entries.new.states entries.new.torn) ≡ end_of (run_call writer.now.head armed writer.now.rows (columns_seen writer.now.calls) (take writer.now.head.geometry.capacity media.old) (take writer.now.head.geometry.capacity copy.old) (zeros 1024) (zeros 1024) (zeros 1024) (entered_of entries.old.ids entries.old.states entries.old.torn)) }
{
    let mut kinds = [0; OPERATIONS];
    let mut offsets = [0; OPERATIONS];
    let mut lens = [0; OPERATIONS];
    let capacity = basics::lower(writer.head.geometry.capacity as usize, MOST_CELLS);
    harness_runs::run_logged(
        writer,
        armed,
        &mut media[..capacity],
        &mut copy[..capacity],
        &mut kinds,
        &mut offsets,
        &mut lens,
        entries,
    )
}

// The line of the run with what is armed.
fn armed_line<P: Program>(
    place: u64,
    armed: Option<Injection>,
    writer: &Writer<'_>,
    to: &mut Cursor<'_>,
) -> Result<(), Refusal>
    ensures same { SameOut to.old to.new }
    ensures put { written result to.new ≡ armed_put P.judged place armed writer.now.head writer.now.rows (columns_seen writer.now.calls) to.old.at to.old.out.now }
    ensures stays { IsErr result → to.new.at ≡ to.old.at }
{
    let mut media = [0u8; MOST_CELLS];
    let mut copy = [0u8; MOST_CELLS];
    let mut entries = Entries {
        ids: [0; MARKS],
        states: [0; MARKS],
        torn: [0; MARKS],
    };
    let run = run_on(writer, armed, &mut media, &mut copy, &mut entries)?;
    let all = LedgerRef {
        ids: &entries.ids,
        states: &entries.states,
        torn: &entries.torn,
    };
    // The whole columns first, then the cut: of `&entries.ids[..n]` after a call the array's length is not known.
    let n = basics::lower(run.entries, MARKS);
    let ledger = LedgerRef {
        ids: &all.ids[..n],
        states: &all.states[..n],
        torn: &all.torn[..n],
    };
    P::line(place, armed, run, &ledger, to)
}

// The line of the run at a place among a writer's runs, whose fault-free run recorded these operations.
pub fn run_line<P: Program>(
    place: u64,
    writer: &Writer<'_>,
    ops: &OpsRef<'_>,
    to: &mut Cursor<'_>,
) -> Result<(), Refusal>
    ensures same { SameOut to.old to.new }
    ensures put { written result to.new ≡ run_line_call P.judged place writer.now.head writer.now.rows (columns_seen writer.now.calls) ops.now.kinds.now ops.now.offsets.now ops.now.lens.now to.old.at to.old.out.now }
    ensures stays { IsErr result → to.new.at ≡ to.old.at }
{
    let armed = armed_runs::point_at(place, writer.head.geometry, ops)?;
    armed_line::<P>(place, armed, writer, to)
}

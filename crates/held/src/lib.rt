// A finished run held to the fault-free run. Follows `injected` of `Harness`, and `trace` of `Session`, in waymaker-fault's
// session.rs. Nothing has gone wrong yet where the injection fires, so the operations, the bytes that they carried and the marks
// up to there must be those that the crash points were listed from; a run in which they differ, or in which nothing fired, is no
// run. The caller lends what the two sessions kept; nothing of it is changed. The contract of `held_to` is an equation for every
// input: columns are tested first (12, 13).
#![tactic(auto)]

ghost use Rattle.std.specs.Prelude.{◌≡◌, ◌<◌, suc, length, get_or, eqb};
ghost use Rattle.basics.specs.Replies.{numbered};
ghost use Rattle.refusals.specs.Numbers.{number_of};
ghost use Rattle.inject.specs.Steps.{op_at};
ghost use Rattle.held.specs.Held.{recorded_in, is_relabelled, is_opening, same, same_op, same_mark, end_of, ops_through, digests_through, marks_through, same_through, held_call};
ghost use Rattle.held.specs.Scans.{malformed, short_in, mark_of, marked_as, Fits};

use basics::cell;
use inject::{Injection, Interruption, Op, OpsRef, Progress};
use refusals::{Refusal, columns_refusal};
use session::{Counters, MarksRef};

// What is given of a run: the fault-free one relabelled, or the run itself.
#[derive(Clone, Copy, Debug, PartialEq, Eq)]
pub enum Held {
    Relabelled,
    Kept,
}

// What is asked of a run: its counters, of the operations recorded the columns without change and answer, and the marks.
#[derive(Clone, Copy)]
pub struct Recorded<'a> {
    pub counters: Counters,
    pub ops: OpsRef<'a>,
    pub digests: &'a [u64],
    pub marks: MarksRef<'a>,
}

// A run whose columns nothing refuses: those of one list are as long, and hold all that is counted.
#[derive(Clone, Copy)]
struct Sound<'a> {
    recorded: Recorded<'a>,
    ghost fits: { Fits (recorded_in recorded) },
}

// A record mark: an end has no id.
#[derive(Clone, Copy, PartialEq, Eq)]
struct Mark {
    id: Option<u32>,
    place: u64,
}

impl Recorded<'_> {
    // Whether columns of one list are unequal, or hold a code without a meaning among those counted. (`inject` tests the lengths of `ops`
    // together with its own limit; here a fourth column goes with them.)
    fn malformed(&self) -> bool
        ensures { result ≡ malformed (recorded_in self.now) }
    {
        let ops = self.ops;
        let rows = ops.kinds.len();
        let uneven_rows = (ops.offsets.len() != rows)
            | (ops.lens.len() != rows)
            | (self.digests.len() != rows);
        let kinds_known = ledger::known(ops.kinds, self.counters.operations, 2);
        let codes_known = ledger::known(self.marks.codes, self.counters.marks, 1);
        uneven_rows | self.marks.uneven() | !(kinds_known & codes_known)
    }

    // Whether the columns are shorter than the session's limits or its counts.
    fn short(&self) -> bool
        ensures { result ≡ short_in (recorded_in self.now) }
    {
        ledger::counts_short(self.counters, self.ops.kinds.len(), self.marks.codes.len())
    }
}

// ---- which injection it is

// A watchdog reset after the last operation: a count of 0 is none here, as it is to a barrier.
fn is_terminal(injection: Injection, operations: usize) -> bool
    ensures { result ≡ is_relabelled injection operations }
{
    let reset = injection.interruption == Interruption::Watchdog;
    let none = !landing::barrier_ran(injection.progress);
    reset & none & (injection.op == operations)
}

// The power loss that comes before everything, where there is nothing for it to fire on.
fn is_opening(injection: Injection, operations: usize) -> bool
    ensures { result ≡ is_opening injection operations }
{
    let opening = Injection {
        op: 0,
        progress: Progress::None,
        interruption: Interruption::PowerLoss,
    };
    (operations == 0) & (injection == opening)
}

// ---- what has to be alike

impl Sound<'_> {
    // How many operations are compared: those through the armed one.
    fn end_of(&self, op: usize) -> usize
        ensures { result ≡ end_of (suc op) (recorded_in self.now.recorded) }
    {
        op.saturating_add(1).min(self.recorded.counters.operations)
    }

    fn mark_at(&self, at: usize) -> Mark
        ensures { marked_as result ≡ mark_of (get_or self.now.recorded.marks.codes.now at 0) (get_or self.now.recorded.marks.ids.now at 0) (get_or self.now.recorded.marks.places.now at 0) }
    {
        let marks = self.recorded.marks;
        let id = cell(marks.ids, at, 0);
        Mark {
            id: (cell(marks.codes, at, 0) == 1).then_some(id),
            place: cell(marks.places, at, 0),
        }
    }
}

// The operation in a row that each column has. (`op_at` asks each of them for it.)
fn op_in(ops: OpsRef<'_>, at: usize) -> Op
    requires { (at < length ops.kinds.now) × (at < length ops.offsets.now) × (at < length ops.lens.now) }
    ensures { result ≡ op_at ops.entry.kinds.now ops.entry.offsets.now ops.entry.lens.now at }
{
    match ops.kinds[at] {
        0 => Op::Program {
            offset: ops.offsets[at],
            len: ops.lens[at],
        },
        1 => Op::Erase {
            offset: ops.offsets[at],
            len: ops.lens[at],
        },
        _ => Op::Barrier,
    }
}

// Whether a row that each column has holds an operation. (Its kind says what to read of the row: for `==` an `Op` would be made of it.)
fn is_in(op: Op, ops: OpsRef<'_>, at: usize) -> bool
    requires { (at < length ops.kinds.now) × (at < length ops.offsets.now) × (at < length ops.lens.now) }
    ensures { result ≡ same_op op (op_at ops.entry.kinds.now ops.entry.offsets.now ops.entry.lens.now at) }
{
    let kind = ops.kinds[at];
    match op {
        Op::Program { offset, len } => {
            (kind == 0) & (offset == ops.offsets[at]) & (len == ops.lens[at])
        }
        Op::Erase { offset, len } => {
            (kind == 1) & (offset == ops.offsets[at]) & (len == ops.lens[at])
        }
        Op::Barrier => kind >= 2,
    }
}

fn same_ops(free: &Sound<'_>, run: &Sound<'_>, op: usize) -> bool
    ensures { result ≡ same same_op (ops_through (suc op) (recorded_in free.now.recorded)) (ops_through (suc op) (recorded_in run.now.recorded)) }
{
    let end = free.end_of(op);
    if run.end_of(op) != end {
        return false;
    }
    let free_ops = free.recorded.ops;
    let ops = run.recorded.ops;
    (0..end).all(|at| is_in(op_in(free_ops, at), ops, at))
}

fn same_digests(free: &Sound<'_>, run: &Sound<'_>, op: usize) -> bool
    ensures { result ≡ same eqb (digests_through (suc op) (recorded_in free.now.recorded)) (digests_through (suc op) (recorded_in run.now.recorded)) }
{
    free.recorded.digests[..free.end_of(op)] == run.recorded.digests[..run.end_of(op)]
}

// The marks whose operation count is below what is compared, of each run its own.
fn same_marks(free: &Sound<'_>, run: &Sound<'_>, op: usize) -> bool
    ensures { result ≡ same same_mark (marks_through (suc op) (recorded_in free.now.recorded)) (marks_through (suc op) (recorded_in run.now.recorded)) }
{
    let free_end = free.end_of(op);
    let end = run.end_of(op);
    let free_marks = (0..free.recorded.counters.marks)
        .map(|at| free.mark_at(at))
        .filter(|mark| (mark.place as usize) < free_end);
    let marks = (0..run.recorded.counters.marks)
        .map(|at| run.mark_at(at))
        .filter(|mark| (mark.place as usize) < end);
    free_marks.eq(marks)
}

// Whether two runs have the same operations and digests through the armed operation, and the same marks below it.
fn same_through(free: &Sound<'_>, run: &Sound<'_>, op: usize) -> bool
    ensures { result ≡ same_through (suc op) (recorded_in free.now.recorded) (recorded_in run.now.recorded) }
{
    let same_rows = same_ops(free, run, op);
    let same_bytes = same_digests(free, run, op);
    let same_records = same_marks(free, run, op);
    same_rows & same_bytes & same_records
}

// Holds a finished run to the fault-free one: from the injection that was armed in it, and what the two sessions kept.
pub fn held_to(
    injection: Injection,
    free: &Recorded<'_>,
    run: &Recorded<'_>,
) -> Result<Held, Refusal>
    ensures { numbered number_of result ≡ held_call injection (recorded_in free.now) (recorded_in run.now) }
{
    let malformed = free.malformed() | run.malformed();
    let short = free.short() | run.short();
    columns_refusal(malformed, short)?;
    let operations = free.counters.operations;
    if is_terminal(injection, operations) {
        return Ok(Held::Relabelled);
    }
    if !run.counters.fired & !is_opening(injection, operations) {
        return Err(Refusal::NeverFired);
    }
    let free = Sound { recorded: *free };
    let run = Sound { recorded: *run };
    if !same_through(&free, &run, injection.op) {
        return Err(Refusal::Diverged);
    }
    Ok(Held::Kept)
}

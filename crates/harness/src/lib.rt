// A sweep, opened: the fault-free run of a script's rows, which tells how many crash points there are or why there is no
// sweep. It follows `Harness` in waymaker-fault's session.rs, with a script's rows for its closure. `harness_runs` has the run, and
// `armed_runs` what is armed in each.
#![tactic(auto)]

ghost use Rattle.std.specs.Prelude.{◌≡◌, length};
ghost use Rattle.script.specs.Lent.{columns_seen};
ghost use Rattle.script.specs.Held.{calls_in};
ghost use Rattle.rows.specs.Ready.{Ready};
ghost use Rattle.sweeps.specs.Decided.{range_behind};
ghost use Rattle.harness.specs.Opening.{opened_as, open_points, open_left, open_call};
ghost use Rattle.harness.specs.Inner.{is_behind};

use harness_runs::{Entries, Recorded, Writer};
use inject::OpsRef;
use refusals::Refusal;
use script::CallsRef;
use session::MARKS;

// A sweep: how many operations its fault-free run recorded, and how many crash points they have.
#[derive(Clone, Copy, Debug, PartialEq, Eq)]
pub struct Sweep {
    pub operations: usize,
    pub points: u64,
}

// ---- the fault-free run

// Whether a row marks a range behind so many operations.
fn is_behind(kind: u8, from: u32, to: u32, operations: usize) -> bool
    ensures { result ≡ is_behind kind from to operations }
{
    (kind >= 5) & (((from as usize) < operations) | ((to as usize) < operations))
}

// Whether some row marks a range that begins or ends before an operation of an earlier row. A mark is no operation.
fn range_behind(rows: usize, calls: &CallsRef<'_>) -> bool
    requires { Ready rows (columns_seen calls.now) }
    ensures { result ≡ range_behind 0 (calls_in rows (columns_seen calls.now)) }
{
    let kinds = &calls.kinds[..rows];
    let mut operations: usize = 0;
    for ((kind, from), to) in kinds.iter().zip(calls.seconds).zip(calls.thirds) {
        if is_behind(*kind, *from, *to, operations) {
            return true;
        }
        operations += usize::from(*kind < 3);
    }
    false
}

// What a fault-free run that did not fail opens: its crash points, or 26.
fn open_points(writer: &Writer<'_>, operations: usize, ops: &OpsRef<'_>) -> Result<Sweep, Refusal>
    requires { (Ready writer.now.rows (columns_seen writer.now.calls)) × (length ops.now.offsets.now ≡ length ops.now.kinds.now) × (length ops.now.lens.now ≡ length ops.now.kinds.now) }
    ensures { opened_as result ≡ open_points writer.now.head operations (calls_in writer.now.rows (columns_seen writer.now.calls)) ops.now.kinds.now ops.now.offsets.now ops.now.lens.now }
{
    let head = writer.head;
    if !head.carries_on & range_behind(writer.rows, &writer.calls) {
        return Err(Refusal::Diverged);
    }
    let n = basics::lower(operations, ops.kinds.len());
    let recorded = OpsRef {
        kinds: &ops.kinds[..n],
        offsets: &ops.offsets[..n],
        lens: &ops.lens[..n],
    };
    let points = recorded.injection_count(head.geometry)?;
    Ok(Sweep { operations, points })
}

// Opens a sweep: the writer's fault-free run. Leaves the operations recorded.
pub fn open_sweep(
    writer: &Writer<'_>,
    media: &mut [u8],
    copy: &mut [u8],
    recorded: &mut Recorded,
) -> Result<Sweep, Refusal>
    ensures { open_left (opened_as result) media.new copy.new recorded.new.kinds recorded.new.offsets recorded.new.lens ≡ open_call writer.now.head writer.now.rows (columns_seen writer.now.calls) media.old copy.old recorded.old.kinds recorded.old.offsets recorded.old.lens }
{
    let mut entries = Entries {
        ids: [0; MARKS],
        states: [0; MARKS],
        torn: [0; MARKS],
    };
    let run = harness_runs::run_one(writer, None, media, copy, recorded, &mut entries)?;
    if run.failed {
        return Err(Refusal::WriterFailed);
    }
    let ops = OpsRef {
        kinds: &recorded.kinds,
        offsets: &recorded.offsets,
        lens: &recorded.lens,
    };
    open_points(writer, run.operations, &ops)
}

// One run of a sweep: a script's run with at most one injection, and its ledger. It is `Harness::run_one` of waymaker-fault's
// session.rs, and, with nothing armed, `run_fault_free`. The digests, the flags and the marks of its session are columns that nobody
// looks at afterwards: they are the run's own, of zeros.
#![tactic(auto)]

ghost use Rattle.std.specs.Prelude.{◌≡◌};
ghost use Rattle.script.specs.Lent.{columns_seen};
ghost use Rattle.ledger.specs.Ledger.{entered_of};
ghost use Rattle.harness_runs.specs.Running.{ran_as, run_left, run_call};

use inject::Injection;
use landing::Stop;
use model::LedgerMut;
use refusals::Refusal;
use rows::{Asked, rows_refusal};
use script::{CallsRef, Head};
use session::{Counters, LogMut, MARKS, MarksMut, OPERATIONS};

// The writer of a sweep's runs, which the Rust takes as a closure: a script's line 1 and its rows. (Of references: nothing compares it.)
#[derive(Clone, Copy)]
pub struct Writer<'a> {
    pub head: Head,
    pub rows: usize,
    pub calls: CallsRef<'a>,
}

// The operations that a run recorded, in columns of a session's limit: `Run` has how many. (Arrays, since there is no heap; nothing
// compares them, and each caller writes its zeros, since a function for them would promise what the literal shows.)
#[derive(Drop)]
pub struct Recorded {
    pub kinds: [u8; OPERATIONS],
    pub offsets: [u32; OPERATIONS],
    pub lens: [u32; OPERATIONS],
}

// The entries of a run's ledger, in the same way.
#[derive(Drop)]
pub struct Entries {
    pub ids: [u32; MARKS],
    pub states: [u8; MARKS],
    pub torn: [u8; MARKS],
}

// How a run ended: the session's stop, the operations recorded, how many entries its ledger has, and whether the writer returned an
// error.
#[derive(Clone, Copy, Debug, PartialEq, Eq)]
pub struct Run {
    pub stop: Stop,
    pub operations: usize,
    pub entries: usize,
    pub failed: bool,
}

// The writer's run with what is armed, on a new device's media, and its ledger. Leaves the media, the operations recorded and the
// ledger's entries. The operations go to three arrays that are lent apart: of a caller that looks at none of them, those that only a run
// writes are then nobody's, and cost nothing.
pub fn run_logged(
    writer: &Writer<'_>,
    armed: Option<Injection>,
    media: &mut [u8],
    copy: &mut [u8],
    kinds: &mut [u8; OPERATIONS],
    offsets: &mut [u32; OPERATIONS],
    lens: &mut [u32; OPERATIONS],
    entries: &mut Entries,
) -> Result<Run, Refusal>
    ensures { run_left (ran_as result) media.new copy.new kinds.new offsets.new lens.new (entered_of entries.new.ids entries.new.states entries.new.torn) ≡ run_call writer.now.head armed writer.now.rows (columns_seen writer.now.calls) media.old copy.old kinds.old offsets.old lens.old (entered_of entries.old.ids entries.old.states entries.old.torn) }
{
    let head = writer.head;
    // Kinds go up to a range. All else that is lent are arrays of a session's limits.
    let asked = Asked {
        most: 5,
        uneven: false,
        short: false,
    };
    rows_refusal(
        head.geometry,
        media.len(),
        copy.len(),
        asked,
        writer.rows,
        &writer.calls,
    )?;
    let told = armed_runs::told_by(head, armed);
    device::fill_erased(media);
    let mut log = LogMut {
        kinds,
        offsets,
        lens,
        digests: &mut [0; OPERATIONS],
        changed: &mut [0; OPERATIONS],
        answered: &mut [0; OPERATIONS],
    };
    let mut marks = MarksMut {
        codes: &mut [0; MARKS],
        ids: &mut [0; MARKS],
        places: &mut [0; MARKS],
    };
    let mut ledger = LedgerMut {
        ids: &mut entries.ids,
        states: &mut entries.states,
        torn: &mut entries.torn,
    };
    let (ended, derived) = runner::run_ledgered(
        told,
        head.carries_on,
        Counters::fresh(),
        writer.rows,
        &writer.calls,
        &mut [],
        media,
        copy,
        &mut log,
        &mut marks,
        &mut ledger,
    );
    let count = derived?;
    Ok(Run {
        stop: ended.counters.stop,
        operations: ended.counters.operations,
        entries: count,
        failed: ended.failed,
    })
}

// The same, with the operations in the arrays of a `Recorded`.
pub fn run_one(
    writer: &Writer<'_>,
    armed: Option<Injection>,
    media: &mut [u8],
    copy: &mut [u8],
    recorded: &mut Recorded,
    entries: &mut Entries,
) -> Result<Run, Refusal>
    ensures { run_left (ran_as result) media.new copy.new recorded.new.kinds recorded.new.offsets recorded.new.lens (entered_of entries.new.ids entries.new.states entries.new.torn) ≡ run_call writer.now.head armed writer.now.rows (columns_seen writer.now.calls) media.old copy.old recorded.old.kinds recorded.old.offsets recorded.old.lens (entered_of entries.old.ids entries.old.states entries.old.torn) }
{
    run_logged(
        writer,
        armed,
        media,
        copy,
        &mut recorded.kinds,
        &mut recorded.offsets,
        &mut recorded.lens,
        entries,
    )
}

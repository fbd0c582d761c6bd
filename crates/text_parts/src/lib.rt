// What `sweep` and `judge` print, from a script's text alone: as many lines of it as a lent buffer has room for, from any line on.
// A part's bytes and the reply are one equation with document 01's text, for every input; parts asked for one after the other
// are the whole text (specs/Parts). All that a sweep needs is in locals.
#![tactic(auto)]

ghost use Rattle.std.specs.Prelude.{◌≡◌, ◌-◌, ◌≤◌, take, drop};
ghost use Rattle.refusals.specs.Numbers.{number_of};
ghost use Rattle.script.specs.Lent.{columns_seen};
ghost use Rattle.harness.specs.Opening.{opened_as, open_call};
ghost use Rattle.harness_runs.specs.Running.{cells};
ghost use Rattle.pieces.specs.Cursors.{SameOut};
ghost use Rattle.text_of_runs.specs.Printout.{sweep_lines, judge_lines};
ghost use Rattle.text_parts.specs.Parts.{part_as, part_left, part_of, lines_for};
ghost use Rattle.text_parts.specs.Inner.{line_of, filled_at, fill_runs, part_reply, first_part, runs_part, runs_of, refused_part, open_end, end_of_open, swept_part};

use basics::Numbered;
use harness::Sweep;
use harness_runs::{Recorded, Writer};
use inject::OpsRef;
use pieces::Cursor;
use refusals::Refusal;
use run_lines::{Judged, MOST_CELLS, Program, Swept};
use script::{CallsMut, MOST_BYTES, MOST_CALLS, ScriptError};
use session::OPERATIONS;

// What a part holds: how many lines, how many bytes they are, and how many lines come after them.
#[derive(Clone, Copy, Debug, PartialEq, Eq)]
pub struct Part {
    pub lines: u64,
    pub bytes: usize,
    pub left: u64,
}

// A sweep whose fault-free run is recorded: what the lines of its runs are made of. (Of references: nothing compares it.)
#[derive(Clone, Copy)]
struct Opened<'a> {
    writer: Writer<'a>,
    ops: OpsRef<'a>,
}

// ---- the lines of a sweep

// The lines of runs from a place on, as many as there is room for: the first run that was not put. (`runs` beside `opened`: the
// definitions are of any number of runs and of whatever puts a line.)
fn fill<P: Program>(runs: u64, first: u64, opened: &Opened<'_>, to: &mut Cursor<'_>) -> u64
    requires { first ≤ runs }
    ensures same { SameOut to.old to.new }
    ensures filled { filled_at result to.new.at to.new.out.now ≡ fill_runs (line_of P.judged opened.now) (runs - first) first to.old.at to.old.out.now }
    ensures within { (first ≤ result) × (result ≤ runs) }
{
    for place in first..runs {
        let put = run_lines::run_line::<P>(place, &opened.writer, &opened.ops, to);
        if put.is_err() {
            return place;
        }
    }
    runs
}

// The reply for lines, bytes and lines left: 13 where lines are left and none was put.
fn reply_of(lines: u64, bytes: usize, left: u64) -> Result<Part, Refusal>
    ensures { part_as result ≡ part_reply lines bytes left }
{
    if lines == 0 && left != 0 {
        return Err(Refusal::ColumnsTooShort);
    }
    Ok(Part { lines, bytes, left })
}

// The part of a sweep from the line of its count on.
fn first_part<P: Program>(runs: u64, opened: &Opened<'_>, out: &mut [u8]) -> Result<Part, Refusal>
    requires { runs ≤ 4294967295 }
    ensures { part_left (part_as result) out.new ≡ first_part (line_of P.judged opened.now) runs out.old }
{
    let mut to = Cursor { out, at: 0 };
    lines::runs_line(runs, &mut to)?;
    let place = fill::<P>(runs, 0, opened, &mut to);
    reply_of(place + 1, to.at, runs - place)
}

// The part of a sweep from a line on: the count's is line 0, and the run at a place has line place + 1.
fn runs_part<P: Program>(
    runs: u64,
    opened: &Opened<'_>,
    from: u64,
    out: &mut [u8],
) -> Result<Part, Refusal>
    requires { runs ≤ 4294967295 }
    ensures { part_left (part_as result) out.new ≡ runs_part (line_of P.judged opened.now) runs from out.old }
{
    if runs < from {
        return reply_of(0, 0, 0);
    }
    if from == 0 {
        return first_part::<P>(runs, opened, out);
    }
    let mut to = Cursor { out, at: 0 };
    let place = fill::<P>(runs, from - 1, opened, &mut to);
    reply_of(place + 1 - from, to.at, runs - place)
}

// ---- the fault-free run

// The writer's fault-free run on as much of the media as the script's line 1 says: whether there is a sweep, and the operations that it
// recorded.
fn open_rows(writer: &Writer<'_>, recorded: &mut Recorded) -> Result<Sweep, Refusal>
    ensures { open_end (opened_as result) recorded.new.kinds recorded.new.offsets recorded.new.lens ≡ end_of_open (open_call writer.now.head writer.now.rows (columns_seen writer.now.calls) (cells writer.now.head) (cells writer.now.head) recorded.old.kinds recorded.old.offsets recorded.old.lens) }
{
    let mut media = [0u8; MOST_CELLS];
    let mut copy = [0u8; MOST_CELLS];
    let capacity = basics::lower(writer.head.geometry.capacity as usize, MOST_CELLS);
    harness::open_sweep(
        writer,
        &mut media[..capacity],
        &mut copy[..capacity],
        recorded,
    )
}

// ---- a script's text

// One run more than crash points, which are far fewer than 2^32.
fn runs_of(points: u64) -> u64
    ensures { (result ≡ runs_of points) × (result ≤ 4294967295) }
{
    points.min(4294967294) + 1
}

// A refused script has one line.
fn refused_part(error: ScriptError, from: u64, out: &mut [u8]) -> Result<Part, Refusal>
    ensures { part_left (part_as result) out.new ≡ refused_part (number_of error.refusal) error.line from out.old }
{
    if from != 0 {
        return reply_of(0, 0, 0);
    }
    let mut to = Cursor { out, at: 0 };
    lines::refused_line(error.refusal.number(), error.line, &mut to)?;
    reply_of(1, to.at, 0)
}

// The part of a writer's sweep. A sweep that is refused names line 0.
fn swept_part<P: Program>(from: u64, writer: &Writer<'_>, out: &mut [u8]) -> Result<Part, Refusal>
    ensures { part_left (part_as result) out.new ≡ swept_part P.judged from writer.now.head writer.now.rows (columns_seen writer.now.calls) out.old }
{
    let mut recorded = Recorded {
        kinds: [0; OPERATIONS],
        offsets: [0; OPERATIONS],
        lens: [0; OPERATIONS],
    };
    match open_rows(writer, &mut recorded) {
        Err(refusal) => refused_part(ScriptError { refusal, line: 0 }, from, out),
        Ok(sweep) => {
            let all = OpsRef {
                kinds: &recorded.kinds,
                offsets: &recorded.offsets,
                lens: &recorded.lens,
            };
            // The whole columns first, then the cut: of `&recorded.kinds[..n]` after a call the array's length is not known. (`harness`
            // cuts its log so too, in one expression each: a method would be called as often as it saves lines.)
            let n = basics::lower(sweep.operations, OPERATIONS);
            let opened = Opened {
                writer: *writer,
                ops: OpsRef {
                    kinds: &all.kinds[..n],
                    offsets: &all.offsets[..n],
                    lens: &all.lens[..n],
                },
            };
            runs_part::<P>(runs_of(sweep.points), &opened, from, out)
        }
    }
}

// What one of the programs prints for a script's text, from a line on: as many lines as the buffer has room for.
pub fn part_of<P: Program>(text: &[u8], from: u64, out: &mut [u8]) -> Result<Part, Refusal>
    ensures { part_left (part_as result) out.new ≡ part_of (drop from (lines_for P.judged text.now)) out.old }
{
    let mut kinds = [0u8; MOST_CALLS];
    let mut firsts = [0u32; MOST_CALLS];
    let mut seconds = [0u32; MOST_CALLS];
    let mut thirds = [0u32; MOST_CALLS];
    let mut starts = [0u32; MOST_CALLS];
    let mut pool = [0u8; MOST_BYTES];
    let mut columns = CallsMut {
        kinds: &mut kinds,
        firsts: &mut firsts,
        seconds: &mut seconds,
        thirds: &mut thirds,
        starts: &mut starts,
        pool: &mut pool,
    };
    match script::read_script(text, &mut columns) {
        Err(error) => refused_part(error, from, out),
        Ok(read) => {
            let writer = Writer {
                head: read.head,
                rows: read.calls as usize,
                calls: columns.seen(),
            };
            swept_part::<P>(from, &writer, out)
        }
    }
}

// What `sweep` prints for a script's text, from a line on.
pub fn sweep_part(text: &[u8], from: u64, out: &mut [u8]) -> Result<Part, Refusal>
    ensures { part_left (part_as result) out.new ≡ part_of (drop from (sweep_lines text.now)) out.old }
{
    part_of::<Swept>(text, from, out)
}

// What `judge` prints for a script's text, from a line on.
pub fn judge_part(text: &[u8], from: u64, out: &mut [u8]) -> Result<Part, Refusal>
    ensures { part_left (part_as result) out.new ≡ part_of (drop from (judge_lines text.now)) out.old }
{
    part_of::<Judged>(text, from, out)
}

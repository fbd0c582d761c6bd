// All crash points of a list of operations, written to lent columns. Follows waymaker-fault's inject.rs, whose `injections`
// returns a Vec; the points, their order and their count are `inject`'s. The contract is an equation: the answer and what
// every lent column holds at the end, after a refusal too.
#![tactic(auto)]

ghost use Rattle.std.specs.Prelude.{◌≡◌, [], ◌∷◌, map, ◌+◌, ◌<◌, length, replicate};
ghost use Rattle.basics.specs.Replies.{numbered};
ghost use Rattle.refusals.specs.Numbers.{number_of};
ghost use Rattle.inject.specs.Points.{point};
ghost use Rattle.inject.specs.Answers.{most};
ghost use Rattle.inject.specs.Steps.{grouped};
ghost use Rattle.inject_columns.specs.Answers.{equal_columns, listing, listed, points_in, SamePoints};
ghost use Rattle.inject_columns.specs.Steps.{under_of, all_of, laid, laid_from, bytes_at, Room, rows};

use inject::{Group, Injection, Interruption, OpsRef, Progress, Sequence};
use refusals::Refusal;
use storage::Geometry;

// The columns that a caller lends for points, a row for each: the operation's index, the progress (0 none, 1 a byte count,
// 2 whole), the byte count (0 where there is none) and the interruption (0 power loss, 1 watchdog, 2 failure).
#[derive(Drop)]
pub struct PointsMut<'a> {
    pub ops: &'a mut [u32],
    pub progresses: &'a mut [u8],
    pub counts: &'a mut [u32],
    pub interruptions: &'a mut [u8],
}

// Each of these is told the place that it begins at, and those that write several rows give the place behind them: a struct of the columns
// and a place would hold a reference to a struct of references, and every clause would speak through both.
impl PointsMut<'_> {
    // Whether the columns are of one length.
    fn are_equal(&self) -> bool
        ensures { result ≡ equal_columns (points_in self.now) }
    {
        let rows = self.ops.len();
        (rows == self.progresses.len())
            & (rows == self.counts.len())
            & (rows == self.interruptions.len())
    }

    // Writes one point's row.
    fn write_point(&mut self, injection: Injection, at: usize)
        requires { (injection.op < most) × (Room (at + 1) (points_in self.old)) }
        ensures same { SamePoints self.old self.new }
        ensures written { points_in self.new ≡ laid at (injection ∷ []) (points_in self.old) }
    {
        self.ops[at] = injection.op as u32;
        self.progresses[at] = injection.progress.code();
        self.counts[at] = injection.progress.byte_count();
        self.interruptions[at] = injection.interruption as u8;
    }

    // Writes one point so many times: an operation has none or one of its none points and of its whole points.
    fn write_same(&mut self, times: u32, injection: Injection, at: usize) -> usize
        requires { (injection.op < most) × (Room (at + times) (points_in self.old)) }
        ensures same { SamePoints self.old self.new }
        ensures written { rows result (points_in self.new) ≡ laid_from at (replicate times injection) (points_in self.old) }
    {
        for done in 0..times {
            self.write_point(injection, at + done as usize);
        }
        at + times as usize
    }

    // Writes the byte points of a group, ascending.
    fn write_bytes(&mut self, group: Group, op: usize, cause: Interruption, at: usize) -> usize
        requires { (op < most) × (Room (at + group.inner) (points_in self.old)) }
        ensures same { SamePoints self.old self.new }
        ensures written { rows result (points_in self.new) ≡ laid_from at (bytes_at op cause group.unit group.inner) (points_in self.old) }
    {
        for done in 0..group.inner {
            let progress = Progress::Bytes((done + 1) * group.unit);
            let injection = Injection {
                op,
                progress,
                interruption: cause,
            };
            self.write_point(injection, at + done as usize);
        }
        at + group.inner as usize
    }

    // Writes one operation's points under an interruption.
    fn write_group(&mut self, group: Group, op: usize, cause: Interruption, at: usize) -> usize
        requires { (op < most) × (Room (at + length (grouped group)) (points_in self.old)) }
        ensures same { SamePoints self.old self.new }
        ensures written { rows result (points_in self.new) ≡ laid_from at (map (point op cause) (grouped group)) (points_in self.old) }
    {
        let none = Injection {
            op,
            progress: Progress::None,
            interruption: cause,
        };
        let whole = Injection {
            op,
            progress: Progress::Whole,
            interruption: cause,
        };
        let first = self.write_same(group.nones, none, at);
        let last = self.write_bytes(group, op, cause, first);
        self.write_same(group.wholes, whole, last)
    }

    // Writes the operations' points under an interruption. Each operation's group is made once, so the work grows with the
    // operations and the points, not with their product.
    fn write_groups(&mut self, sequence: &Sequence<'_>, cause: Interruption, at: usize) -> usize
        requires { Room (at + length (under_of sequence.now cause)) (points_in self.old) }
        ensures same { SamePoints self.old self.new }
        ensures written { rows result (points_in self.new) ≡ laid_from at (under_of sequence.now cause) (points_in self.old) }
    {
        let mut next = at;
        for i in 0..sequence.ops.kinds.len() {
            let ops = &sequence.ops;
            let group = inject::group_of(
                ops.kinds[i],
                ops.offsets[i],
                ops.lens[i],
                sequence.geometry,
                cause,
            );
            next = self.write_group(group, i, cause, next);
        }
        next
    }

    // Writes the points of a list that is not refused: the opening point, those of power loss, the one that only an empty
    // list has, those of a reset and those of a failure.
    fn write_all(&mut self, sequence: &Sequence<'_>) -> usize
        requires { Room (length (all_of sequence.now)) (points_in self.old) }
        ensures same { SamePoints self.old self.new }
        ensures written { rows result (points_in self.new) ≡ laid_from 0 (all_of sequence.now) (points_in self.old) }
    {
        let opening = Injection {
            op: 0,
            progress: Progress::None,
            interruption: Interruption::PowerLoss,
        };
        let lone = Injection {
            op: 0,
            progress: Progress::None,
            interruption: Interruption::Watchdog,
        };
        let first = self.write_same(1, opening, 0);
        let lost = self.write_groups(sequence, Interruption::PowerLoss, first);
        let alone = self.write_same(inject::lone_count(sequence.ops.kinds.len()), lone, lost);
        let reset = self.write_groups(sequence, Interruption::Watchdog, alone);
        self.write_groups(sequence, Interruption::Failure, reset)
    }
}

// Writes every crash point, in order, a row for each, and tells how many. Cells past the last row are left alone. A refusal
// leaves every column as it was.
pub fn injections(
    ops: &OpsRef<'_>,
    geometry: Geometry,
    points: &mut PointsMut<'_>,
) -> Result<usize, Refusal>
    ensures same { SamePoints points.old points.new }
    ensures listed { listing (numbered number_of result) (points_in points.new) ≡ listed geometry ops.now.kinds.now ops.now.offsets.now ops.now.lens.now (points_in points.old) }
{
    let count = ops.count_beside(geometry, points.are_equal())?;
    if (points.ops.len() as u64) < count {
        return Err(Refusal::ColumnsTooShort);
    }
    let sequence = Sequence {
        ops: *ops,
        geometry,
    };
    Ok(points.write_all(&sequence))
}

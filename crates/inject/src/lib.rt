// Every way that a list of operations can be interrupted, listed: how many crash points there are, and the one at a place.
// (`inject_columns` writes all of them.) Follows waymaker-fault's inject.rs. There the list is a Vec; here it is a definition,
// `injections_of` of specs/Points.antt, and each function's contract is an equation with it, for every input. A list of
// operations is three columns of one length: kinds (0 a program, 1 an erase, 2 a barrier), offsets and lengths in bytes.
// The spans are any u32: no point depends on where the device ends, so nothing here asks it.
#![tactic(auto)]

ghost use Rattle.std.specs.Prelude.{◌≡◌, [], ◌∷◌, ◌*◌, ◌≤◌, ◌<◌, ◌^◌, length, get_or, replicate};
ghost use Rattle.basics.specs.Replies.{number_in, numbered};
ghost use Rattle.refusals.specs.Numbers.{number_of};
ghost use Rattle.inject.specs.Ops.{op_of, ops_of, known, len_of};
ghost use Rattle.inject.specs.Points.{inner, whole_span, whole_point, under};
ghost use Rattle.inject.specs.Answers.{list_test, points_of, counted_beside, counted, found, progress_code, count_code};
ghost use Rattle.inject.specs.Codes.{progress_of, interruption_of};
ghost use Rattle.inject.specs.Steps.{op_at, tear_unit, reset_unit, steps, grouped, GroupOf, lone_point, lone_for, sought, onward};

mod group;

use basics::cell;
pub use group::Group;
use refusals::Refusal;
use storage::Geometry;

// As many operations as a list may have. (A session's limit is the same number, which document 01 says of each for itself.)
const MOST: usize = 1024;

// One operation of a write sequence: offsets and lengths only. (`Op` and `Progress` have three meanings of their own, and are none of
// Option's or Result's shape; document 01 names Progress.)
#[derive(Clone, Copy, Debug, PartialEq, Eq)]
pub enum Op {
    Program { offset: u32, len: u32 },
    Erase { offset: u32, len: u32 },
    Barrier,
}

// How much of an operation reached the media.
#[derive(Clone, Copy, Debug, PartialEq, Eq)]
pub enum Progress {
    // None of it.
    None,
    // Its first bytes, as many as said.
    Bytes(u32),
    // All of it.
    Whole,
}

// What the interruption looks like to the writer. `as u8` gives its code in a column.
#[derive(Clone, Copy, Debug, PartialEq, Eq)]
pub enum Interruption {
    // The power went away: nothing after it runs.
    PowerLoss,
    // The core was reset while the supply held: the unit in flight completes, and the writer is never told.
    Watchdog,
    // The call returns an error, and the writer carries on.
    Failure,
}

// One crash point: which operation, how far into it, and what the writer sees.
#[derive(Clone, Copy, Debug, PartialEq, Eq)]
pub struct Injection {
    // The operation's index. For the point before the whole list it is 0, also where the list is empty.
    pub op: usize,
    pub progress: Progress,
    pub interruption: Interruption,
}

// A list of operations, as the caller lends it: a row of the three columns for each. (Clauses name the three, as the definitions take
// them.)
#[derive(Clone, Copy)]
pub struct OpsRef<'a> {
    pub kinds: &'a [u8],
    pub offsets: &'a [u32],
    pub lens: &'a [u32],
}

// A list of operations whose columns are of one length, with no more rows than a list may have, on its geometry. (Used where it is
// made, so nothing compares it.)
#[derive(Clone, Copy)]
pub struct Sequence<'a> {
    pub ops: OpsRef<'a>,
    pub geometry: Geometry,
    ghost sound: { (length ops.kinds.now ≡ length ops.offsets.now) × (length ops.kinds.now ≡ length ops.lens.now) × (length ops.kinds.now ≤ 1024) },
}

impl From<u32> for Interruption {
    ghost from_gives = { λ cause interruption. interruption ≡ interruption_of cause };

    fn from(cause: u32) -> Interruption {
        match cause {
            0 => Interruption::PowerLoss,
            1 => Interruption::Watchdog,
            _ => Interruption::Failure,
        }
    }
}

impl Progress {
    // The progress of a code and a byte count. (No `From`: it is made of two numbers.)
    pub fn of(kind: u32, count: u32) -> Progress
        ensures { result ≡ progress_of kind count }
    {
        match kind {
            0 => Progress::None,
            1 => Progress::Bytes(count),
            _ => Progress::Whole,
        }
    }

    // Its code in a column: 0 none, 1 a byte count, 2 whole. (`as` takes no enum whose variants hold a value.)
    pub fn code(self) -> u8
        ensures { result ≡ progress_code self }
    {
        match self {
            Progress::None => 0,
            Progress::Bytes(_) => 1,
            Progress::Whole => 2,
        }
    }

    // Its byte count, 0 where it has none.
    pub fn byte_count(self) -> u32
        ensures { result ≡ count_code self }
    {
        match self {
            Progress::Bytes(count) => count,
            _ => 0,
        }
    }
}

// A row of the three columns as an operation. Not a TryFrom: `refuse` told a code without a meaning before, and here it is a barrier.
fn op_of(kind: u8, offset: u32, len: u32) -> Op
    ensures { result ≡ op_of kind offset len }
{
    match kind {
        0 => Op::Program { offset, len },
        1 => Op::Erase { offset, len },
        _ => Op::Barrier,
    }
}

// How many whole points a span has: where it moves no bytes, all of it is the same as none of it.
fn whole_span(len: u32) -> u32
    ensures { (replicate result Progress.Whole ≡ whole_span len) × (result ≤ 1) }
{
    u32::from(len != 0)
}

// How many multiples of a unit lie above 0 and below a length; none of the unit 0.
fn inner_count(unit: u32, len: u32) -> u32
    ensures { (steps unit result ≡ inner unit len) × (result * unit < 2 ^ 32) }
{
    if (len == 0) | (unit == 0) {
        return 0;
    }
    (len - 1) / unit
}

impl Op {
    fn len(self) -> u32
        ensures { result ≡ len_of self }
    {
        match self {
            Op::Program { len, .. } | Op::Erase { len, .. } => len,
            Op::Barrier => 0,
        }
    }

    // A program tears at every byte. An erase is interrupted at erase blocks and nowhere else: no device erases byte by
    // byte. A barrier has no interior.
    fn tear_unit(self, geometry: Geometry) -> u32
        ensures { result ≡ tear_unit geometry self }
    {
        match self {
            Op::Program { .. } | Op::Barrier => 1,
            Op::Erase { .. } => geometry.erase_size,
        }
    }

    // A reset inside a unit leaves what a reset at the boundary above it leaves, so only the boundaries are points.
    fn reset_unit(self, geometry: Geometry) -> u32
        ensures { result ≡ reset_unit geometry self }
    {
        match self {
            Op::Program { .. } => geometry.program_size,
            Op::Erase { .. } => geometry.erase_size,
            Op::Barrier => 1,
        }
    }

    // A barrier that failed having done everything is the same world as one that failed outright; under the other two
    // its end is a point, since an ordering that was established is what acknowledgment rests on.
    fn wholes(self, cause: Interruption) -> u32
        ensures { (replicate result Progress.Whole ≡ whole_point cause self) × (result ≤ 1) }
    {
        match self {
            Op::Program { len, .. } | Op::Erase { len, .. } => whole_span(len),
            Op::Barrier => match cause {
                Interruption::PowerLoss | Interruption::Watchdog => 1,
                Interruption::Failure => 0,
            },
        }
    }

    // Its points under an interruption. None of an operation is the end of the one before it to a power loss, and a point of
    // its own to the other two.
    fn group(self, geometry: Geometry, cause: Interruption) -> Group
        ensures { GroupOf geometry cause self result }
    {
        let (nones, unit) = match cause {
            Interruption::PowerLoss => (0, self.tear_unit(geometry)),
            Interruption::Watchdog => (1, self.reset_unit(geometry)),
            Interruption::Failure => (1, self.tear_unit(geometry)),
        };
        Group {
            nones,
            unit,
            inner: inner_count(unit, self.len()),
            wholes: self.wholes(cause),
        }
    }
}

// A row's points under an interruption, by the row's numbers.
pub fn group_of(kind: u8, offset: u32, len: u32, geometry: Geometry, cause: Interruption) -> Group
    ensures { GroupOf geometry cause (op_of kind offset len) result }
{
    op_of(kind, offset, len).group(geometry, cause)
}

impl Group {
    // How many points a group has.
    fn size(self) -> u64
        ensures { (result ≡ length (grouped self)) × (result ≤ 4294967297) }
    {
        self.nones as u64 + self.inner as u64 + self.wholes as u64
    }

    // A group's point at a place. Nothing is walked: the place tells which multiple of the unit it is.
    fn progress_at(self, place: u64) -> Progress
        requires { place < length (grouped self) }
        ensures { result ≡ get_or (grouped self) place Progress.None }
    {
        let nones = self.nones as u64;
        if place < nones {
            return Progress::None;
        }
        let step = place - nones;
        if step < self.inner as u64 {
            let bytes = (step + 1) * self.unit as u64;
            return Progress::Bytes(bytes as u32);
        }
        Progress::Whole
    }
}

// Whether every code of the column has a meaning. (`model` asks the like of its columns: one function for both would lie in `basics`, and
// take the definitions of both along.)
fn all_known(kinds: &[u8]) -> bool
    ensures { result ≡ known kinds.now }
{
    kinds.iter().all(|kind| *kind < 3)
}

// How many watchdog points a list has before those of its operations: one, if it is empty.
pub fn lone_count(operations: usize) -> u32
    ensures { (replicate result lone_point ≡ lone_for operations) × (result ≤ 1) }
{
    u32::from(operations == 0)
}

// A search goes on: in a list of one point. A search has found its point, or tells how far past the points so far it lies.
fn seek_one(before: Result<Injection, u64>, injection: Injection) -> Result<Injection, u64>
    ensures { result ≡ onward before (injection ∷ []) }
{
    let Err(left) = before else {
        return before;
    };
    if left == 0 {
        Ok(injection)
    } else {
        Err(left - 1)
    }
}

// A search goes on: at the point that only an empty list has.
fn seek_lone(before: Result<Injection, u64>, operations: usize) -> Result<Injection, u64>
    ensures { result ≡ onward before (lone_for operations) }
{
    if operations != 0 {
        return before;
    }
    seek_one(
        before,
        Injection {
            op: 0,
            progress: Progress::None,
            interruption: Interruption::Watchdog,
        },
    )
}

impl OpsRef<'_> {
    // The operation in a row; a column that ends before it gives 0.
    pub fn op_at(&self, row: usize) -> Op
        ensures { result ≡ op_at self.now.kinds.now self.now.offsets.now self.now.lens.now row }
    {
        op_of(
            cell(self.kinds, row, 0),
            cell(self.offsets, row, 0),
            cell(self.lens, row, 0),
        )
    }

    // What refuses a list of operations. `equal` tells whether the columns lent for points are of one length.
    fn refuse(&self, geometry: Geometry, equal: bool) -> Result<(), Refusal>
        ensures { number_in number_of result ≡ list_test geometry self.now.kinds.now self.now.offsets.now self.now.lens.now equal }
    {
        geometry.check()?;
        let operations = self.kinds.len();
        let even = (operations == self.offsets.len()) & (operations == self.lens.len()) & equal;
        if !even || !all_known(self.kinds) {
            return Err(Refusal::MalformedColumns);
        }
        if operations > MOST {
            return Err(Refusal::TooManyOperations);
        }
        Ok(())
    }

    // How many crash points the operations have, for a caller who lends columns too: `equal` tells whether they are of one
    // length.
    pub fn count_beside(&self, geometry: Geometry, equal: bool) -> Result<u64, Refusal>
        ensures { numbered number_of result ≡ counted_beside geometry self.now.kinds.now self.now.offsets.now self.now.lens.now equal }
    {
        self.refuse(geometry, equal)?;
        let sequence = Sequence {
            ops: *self,
            geometry,
        };
        Ok(sequence.count())
    }

    // How many crash points the operations have.
    pub fn injection_count(&self, geometry: Geometry) -> Result<u64, Refusal>
        ensures { numbered number_of result ≡ counted geometry self.now.kinds.now self.now.offsets.now self.now.lens.now }
    {
        self.count_beside(geometry, true)
    }

    // The crash point at a place, from 0. The work grows with the operations, not with the points.
    pub fn injection_at(&self, geometry: Geometry, place: u64) -> Result<Injection, Refusal>
        ensures { numbered number_of result ≡ found geometry self.now.kinds.now self.now.offsets.now self.now.lens.now place }
    {
        self.refuse(geometry, true)?;
        let sequence = Sequence {
            ops: *self,
            geometry,
        };
        sequence.point_at(place).map_err(|_| Refusal::NoSuchPlace)
    }
}

impl Sequence<'_> {
    // The points of the operation in a row, under an interruption.
    pub fn group_at(&self, row: usize, cause: Interruption) -> Group
        ensures { GroupOf self.now.geometry cause (op_at self.now.ops.kinds.now self.now.ops.offsets.now self.now.ops.lens.now row) result }
    {
        self.ops.op_at(row).group(self.geometry, cause)
    }

    // The same of a row that the list has: its three cells stand there, so none is asked for.
    fn group_in(&self, row: usize, cause: Interruption) -> Group
        requires { row < length self.now.ops.kinds.now }
        ensures { GroupOf self.now.geometry cause (op_at self.now.ops.kinds.now self.now.ops.offsets.now self.now.ops.lens.now row) result }
    {
        let ops = self.ops;
        op_of(ops.kinds[row], ops.offsets[row], ops.lens[row]).group(self.geometry, cause)
    }

    // How many points the operations have under an interruption. (A loop, and no `map` and `sum`: that the
    // sum fits into a u64 is a fact of each step.)
    fn total(&self, cause: Interruption) -> u64
        ensures { (result ≡ length (under self.now.geometry cause 0 (ops_of self.now.ops.kinds.now self.now.ops.offsets.now self.now.ops.lens.now))) × (result ≤ 4294967297 * 1024) }
    {
        let mut sum: u64 = 0;
        for i in 0..self.ops.kinds.len() {
            let group = self.group_in(i, cause);
            sum += group.size();
        }
        sum
    }

    // How many points the list has. A u64 holds three totals of 1,024 operations of any u32 length.
    fn count(&self) -> u64
        ensures { result ≡ length (points_of self.now.geometry self.now.ops.kinds.now self.now.ops.offsets.now self.now.ops.lens.now) }
    {
        let lost = self.total(Interruption::PowerLoss);
        let alone = lone_count(self.ops.kinds.len()) as u64;
        let reset = self.total(Interruption::Watchdog);
        let failed = self.total(Interruption::Failure);
        1 + lost + alone + reset + failed
    }

    // A search goes on: in the operations' points under an interruption. (A loop, as `total`.)
    fn seek(&self, before: Result<Injection, u64>, cause: Interruption) -> Result<Injection, u64>
        ensures { result ≡ onward before (under self.now.geometry cause 0 (ops_of self.now.ops.kinds.now self.now.ops.offsets.now self.now.ops.lens.now)) }
    {
        let Err(mut left) = before else {
            return before;
        };
        for i in 0..self.ops.kinds.len() {
            let group = self.group_in(i, cause);
            let points = group.size();
            if left < points {
                let progress = group.progress_at(left);
                return Ok(Injection {
                    op: i,
                    progress,
                    interruption: cause,
                });
            }
            left -= points;
        }
        Err(left)
    }

    // A search in the whole list, part by part, each from what the one before left: by `or_else` the four would stand in one another.
    fn point_at(&self, place: u64) -> Result<Injection, u64>
        ensures { result ≡ sought (points_of self.now.geometry self.now.ops.kinds.now self.now.ops.offsets.now self.now.ops.lens.now) place }
    {
        let first = Injection {
            op: 0,
            progress: Progress::None,
            interruption: Interruption::PowerLoss,
        };
        let opened = seek_one(Err(place), first);
        let lost = self.seek(opened, Interruption::PowerLoss);
        let lone = seek_lone(lost, self.ops.kinds.len());
        let reset = self.seek(lone, Interruption::Watchdog);
        self.seek(reset, Interruption::Failure)
    }
}

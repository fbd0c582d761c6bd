// The storage that a writer under test is handed: it records every operation, and at most one injection is armed in it.
// Follows `Session` of waymaker-fault's session.rs. Where the Rust's Session owns its bytes and its lists, here the caller
// lends them: media and withheld copy, the log of operations and the record marks as structs of columns (`LogMut`, `MarksMut`).
// What the start was told is a value that no call changes (`Told`), and what calls change is a small struct that goes in and comes
// back (`Counters`). Each call first tests the lengths lent to it (7, 12, 13), then whether the session was stopped (21, 22), then
// the geometry (1 to 6), then 20, then 27; a refusal changes nothing. Every contract is an equation for every input: a Told or
// Counters that nobody made by `start` gets an answer too. Media, copy, log and marks are parameters of their own, since document 01
// lends them apart: some calls read what others write.
//
// This crate has the types and what calls share, and every call's definition but for those of the two that write. The calls are
// `session_calls` (start, barrier, read), `session_marks`, `session_program` and `session_erase`: each must-fail edit checks its
// crate anew.
#![tactic(auto)]

ghost use Rattle.std.specs.Prelude.{◌≡◌};
ghost use Rattle.basics.specs.Replies.{number_in};
ghost use Rattle.refusals.specs.Numbers.{number_of};
ghost use Rattle.landing.specs.Ending.{ended_as};
ghost use Rattle.session.specs.Log.{mark_with, marked, logged};
ghost use Rattle.session.specs.Lent.{log_in, log_seen, marks_in, marks_seen, SameLog, SameMarks};
ghost use Rattle.session.specs.Tests.{log_uneven_of, marks_uneven_of, size_test, log_test, marks_test, operation_test};
ghost use Rattle.session.specs.Replies.{told_as, plan_as};
ghost use Rattle.session.specs.Armed.{told_with, armed_on, lands, ended_by, next_count, replied};
ghost use Rattle.session.specs.Start.{fresh};
ghost use Rattle.session.specs.Written.{planned_at};

use device::OneWayBits;
use inject::Injection;
use landing::{Ending, Stop};
use refusals::{Refusal, columns_refusal};
use storage::Geometry;

// How many operations and marks a session takes.
pub const OPERATIONS: usize = 1024;

pub const MARKS: usize = 512;

// What the start was told: at most one injection is armed. No call changes it.
#[derive(Clone, Copy, Debug, PartialEq, Eq)]
pub struct Told {
    pub geometry: Geometry,
    pub bits: OneWayBits,
    pub armed: Option<Injection>,
}

// What calls change: how many operations and marks were taken, the reset that stopped the session, whether the injection has
// fired, and the span of the media that the armed operation withheld: where it starts and how many bytes it has.
#[derive(Clone, Copy, Debug, PartialEq, Eq)]
pub struct Counters {
    pub operations: usize,
    pub marks: usize,
    pub stop: Stop,
    pub fired: bool,
    pub place: u32,
    pub withheld: u32,
}

// A session before any call. (No derived Default: `fresh` is a step of document 01, and its promise cites the definition.)
const FRESH: Counters = Counters {
    operations: 0,
    marks: 0,
    stop: Stop::Running,
    fired: false,
    place: 0,
    withheld: 0,
};

impl Counters {
    // Those of a session before any call.
    pub fn fresh() -> Counters
        ensures { result ≡ fresh }
    {
        FRESH
    }
}

// The reply to a call: what it answers, no refusal where nothing is refused and nothing was armed, and the counters after it. (A
// refused call hands the counters back too, so the five calls test their answer: by `?` each would need a second function.)
#[derive(Clone, Copy, Debug, PartialEq, Eq)]
pub struct Called {
    pub answer: Result<(), Refusal>,
    pub counters: Counters,
}

// One operation as the log has it, in codes, since document 01 wants columns of numbers: its kind (0 a program, 1 an erase, 2 a
// barrier), its span, the digest of the bytes handed in, whether a cell changed and whether it answered 0 (each 0 or 1).
#[derive(Clone, Copy, Debug, PartialEq, Eq)]
pub struct Entry {
    pub kind: u8,
    pub offset: u32,
    pub len: u32,
    pub digest: u64,
    pub changed: u8,
    pub answered: u8,
}

// What a program or an erase that is not refused will do: how much of it lands, and its reply.
#[derive(Clone, Copy, Debug, PartialEq, Eq)]
pub struct Plan {
    pub landed: u32,
    pub reply: Called,
}

// What a start is told is made here alone.
pub fn told_with(geometry: Geometry, bits: OneWayBits, armed: Option<Injection>) -> Told
    ensures { result ≡ told_with geometry bits armed }
{
    Told {
        geometry,
        bits,
        armed,
    }
}

// ---- the columns lent

// The log of operations, lent to be written: a row of six columns for each.
#[derive(Drop)]
pub struct LogMut<'a> {
    pub kinds: &'a mut [u8],
    pub offsets: &'a mut [u32],
    pub lens: &'a mut [u32],
    pub digests: &'a mut [u64],
    pub changed: &'a mut [u8],
    pub answered: &'a mut [u8],
}

// The same, lent to be read.
#[derive(Clone, Copy)]
pub struct LogRef<'a> {
    pub kinds: &'a [u8],
    pub offsets: &'a [u32],
    pub lens: &'a [u32],
    pub digests: &'a [u64],
    pub changed: &'a [u8],
    pub answered: &'a [u8],
}

// The record marks, lent to be written: a row of three columns for each.
#[derive(Drop)]
pub struct MarksMut<'a> {
    pub codes: &'a mut [u8],
    pub ids: &'a mut [u32],
    pub places: &'a mut [u64],
}

// The same, lent to be read.
#[derive(Clone, Copy)]
pub struct MarksRef<'a> {
    pub codes: &'a [u8],
    pub ids: &'a [u32],
    pub places: &'a [u64],
}

impl LogRef<'_> {
    // Whether the columns are unequal.
    pub fn uneven(&self) -> bool
        ensures { result ≡ log_uneven_of (log_seen self.now) }
    {
        let rows = self.kinds.len();
        (self.offsets.len() != rows)
            | (self.lens.len() != rows)
            | (self.digests.len() != rows)
            | (self.changed.len() != rows)
            | (self.answered.len() != rows)
    }

    // 12 where the columns are unequal, 13 where they are shorter than the limit.
    pub fn refusal(&self) -> Result<(), Refusal>
        ensures { number_in number_of result ≡ log_test (log_seen self.now) }
    {
        columns_refusal(self.uneven(), self.kinds.len() < OPERATIONS)
    }
}

// Log and marks have the same four questions, each over columns of its own: a trait for both would need a type of answer and four
// definitions for each, and be longer than the second impl.
impl LogMut<'_> {
    // The columns to read.
    pub fn seen(&self) -> LogRef<'_>
        ensures { log_seen result ≡ log_in self.now }
    {
        LogRef {
            kinds: self.kinds,
            offsets: self.offsets,
            lens: self.lens,
            digests: self.digests,
            changed: self.changed,
            answered: self.answered,
        }
    }

    // 12 where the columns are unequal, 13 where they are shorter than the limit.
    pub fn refusal(&self) -> Result<(), Refusal>
        ensures { number_in number_of result ≡ log_test (log_in self.now) }
    {
        let log = self.seen();
        log.refusal()
    }

    // Records an operation at an index. Past a column's end nothing is stored.
    pub fn record(&mut self, index: usize, entry: Entry)
        ensures same { SameLog self.old self.new }
        ensures left { log_in self.new ≡ logged (log_in self.old) index entry }
    {
        basics::store(self.kinds, index, entry.kind);
        basics::store(self.offsets, index, entry.offset);
        basics::store(self.lens, index, entry.len);
        basics::store(self.digests, index, entry.digest);
        basics::store(self.changed, index, entry.changed);
        basics::store(self.answered, index, entry.answered);
    }
}

impl MarksRef<'_> {
    // Whether the columns are unequal.
    pub fn uneven(&self) -> bool
        ensures { result ≡ marks_uneven_of (marks_seen self.now) }
    {
        let rows = self.codes.len();
        (self.ids.len() != rows) | (self.places.len() != rows)
    }

    // 12 where the columns are unequal, 13 where they are shorter than the limit.
    pub fn refusal(&self) -> Result<(), Refusal>
        ensures { number_in number_of result ≡ marks_test (marks_seen self.now) }
    {
        columns_refusal(self.uneven(), self.codes.len() < MARKS)
    }
}

impl MarksMut<'_> {
    // The columns to read.
    pub fn seen(&self) -> MarksRef<'_>
        ensures { marks_seen result ≡ marks_in self.now }
    {
        MarksRef {
            codes: self.codes,
            ids: self.ids,
            places: self.places,
        }
    }

    // 12 where the columns are unequal, 13 where they are shorter than the limit.
    pub fn refusal(&self) -> Result<(), Refusal>
        ensures { number_in number_of result ≡ marks_test (marks_in self.now) }
    {
        let marks = self.seen();
        marks.refusal()
    }

    // Stores a mark at an index: an id's, or without one an end. Past a column's end nothing is stored.
    pub fn mark(&mut self, index: usize, id: Option<u32>, place: u64)
        ensures same { SameMarks self.old self.new }
        ensures left { marks_in self.new ≡ marked (marks_in self.old) index (mark_with id place) }
    {
        let (code, named) = match id {
            Some(id) => (1, id),
            None => (0, 0),
        };
        basics::store(self.codes, index, code);
        basics::store(self.ids, index, named);
        basics::store(self.places, index, place);
    }
}

// ---- tests that calls share

// 7 where media or withheld copy are not of capacity length. Two lengths and no struct of both buffers: a start lends the one to be
// written and the other to be read.
pub fn size_refusal(geometry: Geometry, media: usize, copy: usize) -> Result<(), Refusal>
    ensures { number_in number_of result ≡ size_test geometry media copy }
{
    let capacity = geometry.capacity as usize;
    if (media != capacity) | (copy != capacity) {
        return Err(Refusal::MediaLength);
    }
    Ok(())
}

// 27 where as many operations as the limit are recorded already.
pub fn operation_refusal(operations: usize) -> Result<(), Refusal>
    ensures { number_in number_of result ≡ operation_test operations }
{
    if operations >= OPERATIONS {
        return Err(Refusal::TooManyOperations);
    }
    Ok(())
}

// ---- what operations share

// The injection, if it is armed on the operation with this index.
pub fn armed_for(armed: Option<Injection>, index: usize) -> Option<Injection>
    ensures { result ≡ armed_on armed index }
{
    armed.filter(|injection| injection.op == index)
}

// How an operation ends: where nothing is armed on it, nothing is refused and the session runs on. A `map_or` with that ending as
// its first argument reads no plainer than the two cases.
pub fn ended_by(armed: Option<Injection>, completed: bool) -> Ending
    ensures { ended_as result ≡ ended_by armed completed }
{
    match armed {
        None => Ending {
            answer: Ok(()),
            stop: Stop::Running,
        },
        Some(injection) => landing::ending_of(injection.interruption, completed),
    }
}

// One operation more.
fn next_count(operations: usize) -> usize
    ensures { result ≡ next_count operations }
{
    if operations < OPERATIONS {
        operations + 1
    } else {
        operations
    }
}

// The reply to an operation that is taken, and that ends so with `armed` armed on it.
pub fn reply_of(counters: Counters, armed: Option<Injection>, ending: Ending) -> Called
    ensures { told_as result ≡ replied counters armed (ended_as ending) }
{
    Called {
        answer: ending.answer,
        counters: Counters {
            operations: next_count(counters.operations),
            stop: ending.stop,
            fired: armed.is_some() | counters.fired,
            ..counters
        },
    }
}

// How much of a program or an erase of `len` bytes lands, with `armed` armed on it: all of it where nothing is. `step` and `unit` say
// where it may stop (`landing::landed_at`).
pub fn lands(armed: Option<Injection>, len: u32, step: u32, unit: u32) -> u32
    ensures { result ≡ lands len step unit armed }
{
    armed.map_or(
        len,
        |injection| landing::landed_at(injection, len, step, unit),
    )
}

// What a program or an erase of which `landed` bytes land will do, with `armed` armed on it: its reply, which remembers where
// those that did not land start (`place`) and how many they are, for the ledger to compare the copy with the media.
pub fn planned(
    counters: Counters,
    armed: Option<Injection>,
    len: u32,
    landed: u32,
    place: u32,
) -> Plan
    ensures { plan_as result ≡ planned_at counters armed len landed place }
{
    let ending = ended_by(armed, landed == len);
    let mut reply = reply_of(counters, armed, ending);
    if landed < len {
        reply.counters.place = place;
        reply.counters.withheld = len - landed;
    }
    Plan { landed, reply }
}

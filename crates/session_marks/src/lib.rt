// The session's record marks. Follows `begin_record`, `end_record` and `mark_operations` of `Session` in waymaker-fault's
// session.rs. A mark is an id or "end" with an operation count, one row of three lent columns. A stopped session takes marks too:
// 12, 13 and 28 are all that refuses. The definitions are `session`'s (Marks, Log, Tests).
#![tactic(auto)]

ghost use Rattle.std.specs.Prelude.{◌≡◌, [], ◌∷◌, ◌+◌, ◌≤◌};
ghost use Rattle.basics.specs.Replies.{number_in};
ghost use Rattle.refusals.specs.Numbers.{number_of};
ghost use Rattle.session.specs.Log.{mark_with};
ghost use Rattle.session.specs.Lent.{marks_in, SameMarks};
ghost use Rattle.session.specs.Replies.{told_as};
ghost use Rattle.session.specs.Marks.{noted, noted_test, noting, noted_by, begun, ended, range_marked};

use refusals::Refusal;
use session::{Called, Counters, MarksMut};

// What refuses so many more marks: the lengths lent, then 28.
fn mark_refusal(counters: Counters, more: usize, marks: &MarksMut<'_>) -> Result<(), Refusal>
    requires { more ≤ 2 }
    ensures { number_in number_of result ≡ noted_test counters more (marks_in marks.now) }
{
    marks.refusal()?;
    if counters.marks > session::MARKS - more {
        return Err(Refusal::TooManyMarks);
    }
    Ok(())
}

// The reply to a call that took so many more marks.
fn noted_by(counters: Counters, more: usize) -> Called
    requires { counters.marks + more ≤ 512 }
    ensures { told_as result ≡ record { answer = 0; counters = noting counters more } }
{
    Called {
        answer: Ok(()),
        counters: Counters {
            marks: counters.marks + more,
            ..counters
        },
    }
}

// One mark at the operation count: an id's, or an end.
fn mark_one(counters: Counters, id: Option<u32>, marks: &mut MarksMut<'_>) -> Called
    ensures same { SameMarks marks.old marks.new }
    ensures left { noted (told_as result) (marks_in marks.new) ≡ noted_by counters 1 (mark_with id counters.operations ∷ []) (marks_in marks.old) }
{
    let answer = mark_refusal(counters, 1, marks);
    if answer.is_err() {
        return Called { answer, counters };
    }
    marks.mark(counters.marks, id, counters.operations as u64);
    noted_by(counters, 1)
}

// Declares that the operations from here on belong to a record. A stopped session takes marks too.
pub fn begin_record(counters: Counters, id: u32, marks: &mut MarksMut<'_>) -> Called
    ensures same { SameMarks marks.old marks.new }
    ensures left { noted (told_as result) (marks_in marks.new) ≡ begun counters id (marks_in marks.old) }
{
    mark_one(counters, Some(id), marks)
}

// Declares that the operations from here on belong to no record: what follows a record's barrier must not fall inside it.
pub fn end_record(counters: Counters, marks: &mut MarksMut<'_>) -> Called
    ensures same { SameMarks marks.old marks.new }
    ensures left { noted (told_as result) (marks_in marks.new) ≡ ended counters (marks_in marks.old) }
{
    mark_one(counters, None, marks)
}

// Declares that the operations `from..to` belong to a record, after they have happened. Any two counts are taken.
pub fn mark_operations(
    counters: Counters,
    id: u32,
    from: u32,
    to: u32,
    marks: &mut MarksMut<'_>,
) -> Called
    ensures same { SameMarks marks.old marks.new }
    ensures left { noted (told_as result) (marks_in marks.new) ≡ range_marked counters id from to (marks_in marks.old) }
{
    let answer = mark_refusal(counters, 2, marks);
    if answer.is_err() {
        return Called { answer, counters };
    }
    let first = counters.marks;
    marks.mark(first, Some(id), from as u64);
    marks.mark(first + 1, None, to as u64);
    noted_by(counters, 2)
}

// One row of a list of calls or of a script, of any kind: 0 a program, 1 an erase, 2 a barrier, 3 begin, 4 end, 5 a range marked
// afterwards. The bytes of a program are a part of a lent pool.
#![tactic(auto)]

ghost use Rattle.std.specs.Prelude.{◌≡◌};
ghost use Rattle.session.specs.Replies.{told_as};
ghost use Rattle.session.specs.Lent.{log_in, marks_in, SameLog, SameMarks};
ghost use Rattle.steps.specs.Step.{session_of, answered_of, task_from, step_answered};

use refusals::Refusal;
use session::{Called, Counters, LogMut, MarksMut, Told};

// A row: its kind, three numbers, and where the bytes of a program start in the pool. A program has offset and length, an erase the
// same, begin an id, a range an id and two operation counts.
#[derive(Clone, Copy, Debug, PartialEq, Eq)]
pub struct Row {
    pub kind: u8,
    pub first: u32,
    pub second: u32,
    pub third: u32,
    pub start: u32,
}

// One row. A kind above 5 has no meaning: it is refused with 12, and nothing changes. The media, the copy, the log and the marks are
// lent apart, as document 01's calls take them: each kind's call takes others of the four.
pub fn step(
    told: Told,
    counters: Counters,
    row: Row,
    pool: &[u8],
    media: &mut [u8],
    copy: &mut [u8],
    log: &mut LogMut<'_>,
    marks: &mut MarksMut<'_>,
) -> Called
    ensures same_log { SameLog log.old log.new }
    ensures same_marks { SameMarks marks.old marks.new }
    ensures left { answered_of (told_as result) media.new copy.new (log_in log.new) (marks_in marks.new) ≡ step_answered told (session_of counters media.old copy.old (log_in log.old) (marks_in marks.old)) (task_from row.kind row.first row.second row.third row.start pool.now) }
{
    // By its code, since a row of document 01's list of calls is numbers: an enum would be made by this same switch, and read by
    // another.
    match row.kind {
        0 => {
            // the bytes that the pool has
            let from = (row.start as usize).min(pool.len());
            let to = (row.start as usize + row.second as usize).min(pool.len());
            session_program::program(told, counters, row.first, &pool[from..to], media, copy, log)
        }
        1 => session_erase::erase(told, counters, row.first, row.second, media, copy, log),
        2 => session_calls::barrier(told, counters, log),
        3 => session_marks::begin_record(counters, row.first, marks),
        4 => session_marks::end_record(counters, marks),
        5 => session_marks::mark_operations(counters, row.first, row.second, row.third, marks),
        _ => Called {
            answer: Err(Refusal::MalformedColumns),
            counters,
        },
    }
}

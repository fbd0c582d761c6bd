// The session's start, its barrier and its read: the calls that change no cell but for a start's fill. They follow `Session` in
// waymaker-fault's session.rs. Each contract is one equation: the reply and every lent buffer. The definitions are `session`'s
// (Start, Barrier, Read).
#![tactic(auto)]

ghost use Rattle.std.specs.Prelude.{◌≡◌, length};
ghost use Rattle.basics.specs.Replies.{number_in, numbered};
ghost use Rattle.refusals.specs.Numbers.{number_of};
ghost use Rattle.session.specs.Lent.{log_in, log_seen, marks_seen, SameLog};
ghost use Rattle.session.specs.Tests.{log_test, start_test};
ghost use Rattle.session.specs.Replies.{told_as};
ghost use Rattle.session.specs.Start.{opened, started};
ghost use Rattle.session.specs.Barrier.{barrier_number, barrier_reply, ordered, barriered};
ghost use Rattle.session.specs.Read.{fetched, read_by};

use refusals::Refusal;
use session::{Called, Counters, Entry, LogMut, LogRef, MarksRef, Told};
use storage::Geometry;

// ---- start

// What refuses a start, over the lengths of media and copy: 1 to 3, 7, 12, 13, the lowest first: 12 of either list comes before 13 of
// either.
fn start_refusal(
    geometry: Geometry,
    media: usize,
    copy: usize,
    log: &LogRef<'_>,
    marks: &MarksRef<'_>,
) -> Result<(), Refusal>
    ensures { number_in number_of result ≡ start_test geometry media copy (log_seen log.now) (marks_seen marks.now) }
{
    geometry.check()?;
    session::size_refusal(geometry, media, copy)?;
    refusals::columns_refusal(
        log.uneven() | marks.uneven(),
        (log.kinds.len() < session::OPERATIONS) | (marks.codes.len() < session::MARKS),
    )
}

// Starts a session: the media become a new device's, and the counters are fresh. The copy, the log and the marks are lent for
// their lengths alone: what they hold is read by no call before it is written.
pub fn start(
    told: Told,
    media: &mut [u8],
    copy: &[u8],
    log: &LogRef<'_>,
    marks: &MarksRef<'_>,
) -> Result<Counters, Refusal>
    ensures { opened (numbered number_of result) media.new ≡ started told media.old (length copy.now) (log_seen log.now) (marks_seen marks.now) }
{
    start_refusal(told.geometry, media.len(), copy.len(), log, marks)?;
    device::fill_erased(media);
    Ok(Counters::fresh())
}

// ---- barrier

// What refuses a barrier.
fn barrier_refusal(told: Told, counters: Counters, log: &LogMut<'_>) -> Result<(), Refusal>
    ensures { number_in number_of result ≡ barrier_number told counters (log_test (log_in log.now)) }
{
    log.refusal()?;
    counters.stop.refusal()?;
    told.geometry.check()?;
    session::operation_refusal(counters.operations)
}

// The reply to a barrier that is not refused.
fn barrier_reply(told: Told, counters: Counters) -> Called
    ensures { told_as result ≡ barrier_reply told counters }
{
    let armed = session::armed_for(told.armed, counters.operations);
    let ran = armed.map_or(true, |injection| landing::barrier_ran(injection.progress));
    session::reply_of(counters, armed, session::ended_by(armed, ran))
}

// Orders everything before it against everything after it. It is recorded with no span; whether it answered 0 is recorded too,
// since only such a barrier acknowledges.
pub fn barrier(told: Told, counters: Counters, log: &mut LogMut<'_>) -> Called
    ensures same { SameLog log.old log.new }
    ensures left { ordered (told_as result) (log_in log.new) ≡ barriered told counters (log_in log.old) }
{
    let answer = barrier_refusal(told, counters, log);
    if answer.is_err() {
        return Called { answer, counters };
    }
    let reply = barrier_reply(told, counters);
    let entry = Entry {
        kind: 2,
        offset: 0,
        len: 0,
        digest: 0,
        changed: 0,
        answered: u8::from(reply.answer.is_ok()),
    };
    log.record(counters.operations, entry);
    reply
}

// ---- read

// Fills `dst` from `offset`. It is no operation: nothing is recorded, and the counters stay. A stopped session refuses it: a
// reader that could still see the device has power.
pub fn read(
    told: Told,
    counters: Counters,
    media: &[u8],
    offset: u32,
    dst: &mut [u8],
) -> Result<(), Refusal>
    ensures { fetched (number_in number_of result) dst.new ≡ read_by told counters media.now offset dst.old }
{
    // 7 comes before the stop, so it is not left to the device's read.
    if media.len() != told.geometry.capacity as usize {
        return Err(Refusal::MediaLength);
    }
    counters.stop.refusal()?;
    device_calls::read(told.geometry, media, offset, dst)?;
    Ok(())
}

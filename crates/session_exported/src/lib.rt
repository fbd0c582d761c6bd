// The layer `session` for callers in Rust or C, which tests/differential holds against the original Rust: numbers and lent
// slices in, a number out. Each function takes the layer's values from numbers (`session_numbers`), makes one call, and gives the
// answer as numbers, so that a comparison of the numbers is one of the layer. An answer is document 01's number, 0 where nothing
// is refused and nothing was armed; the counters are put back after the call. A slice crosses as a pointer, then a length,
// so the log's columns cross one by one. The marks are `session_marks_exported`. (A function that
// gives a value matches its answer for itself: the arms show what a refusal leaves.)
#![tactic(auto)]

ghost use Rattle.std.specs.Prelude.{◌≡◌, length};
ghost use Rattle.session.specs.Log.{log_of, marks_of};
ghost use Rattle.session.specs.Start.{started};
ghost use Rattle.session.specs.Barrier.{barriered};
ghost use Rattle.session.specs.Read.{fetched, read_by};
ghost use Rattle.session_erase.specs.Erase.{erase_call};
ghost use Rattle.session_program.specs.Program.{program_call};
ghost use Rattle.session_numbers.specs.Numbers.{told_of, counters_of};
ghost use Rattle.session_exported.specs.Session.{start_left, opened_over, write_left, written_over, barrier_left, ordered_over};

use basics::Numbered;
use session::{LogMut, LogRef, MarksRef};

// `start`: the number that refuses it, the counters and the media; a refusal leaves both.
#[unsafe(no_mangle)]
pub extern "C" fn session_start(
    told: &[u32],
    state: &mut [u64],
    media: &mut [u8],
    copy: &[u8],
    kinds: &[u8],
    offsets: &[u32],
    lens: &[u32],
    digests: &[u64],
    changed: &[u8],
    answered: &[u8],
    codes: &[u8],
    ids: &[u32],
    places: &[u64],
) -> u32
    ensures { start_left result state.new media.new ≡ opened_over state.old (started (told_of told.now) media.old (length copy.now) (log_of kinds.now offsets.now lens.now digests.now changed.now answered.now) (marks_of codes.now ids.now places.now)) }
{
    let given = session_numbers::told_of(told);
    let log = LogRef {
        kinds,
        offsets,
        lens,
        digests,
        changed,
        answered,
    };
    let marks = MarksRef { codes, ids, places };
    match session_calls::start(given, media, copy, &log, &marks) {
        Ok(counters) => {
            session_numbers::keep(state, counters);
            0
        }
        Err(refusal) => refusal.number(),
    }
}

// `program`: its answer, and the counters, media, copy and log after it.
#[unsafe(no_mangle)]
pub extern "C" fn session_program(
    told: &[u32],
    state: &mut [u64],
    offset: u32,
    bytes: &[u8],
    media: &mut [u8],
    copy: &mut [u8],
    kinds: &mut [u8],
    offsets: &mut [u32],
    lens: &mut [u32],
    digests: &mut [u64],
    changed: &mut [u8],
    answered: &mut [u8],
) -> u32
    ensures { write_left result state.new media.new copy.new (log_of kinds.new offsets.new lens.new digests.new changed.new answered.new) ≡ written_over state.old (program_call (told_of told.now) (counters_of state.old) offset bytes.now media.old copy.old (log_of kinds.old offsets.old lens.old digests.old changed.old answered.old)) }
{
    let given = session_numbers::told_of(told);
    let counters = session_numbers::counters_of(state);
    let mut log = LogMut {
        kinds,
        offsets,
        lens,
        digests,
        changed,
        answered,
    };
    let called = session_program::program(given, counters, offset, bytes, media, copy, &mut log);
    session_numbers::put_back(state, called)
}

// `erase`: its answer, and the counters, media, copy and log after it.
#[unsafe(no_mangle)]
pub extern "C" fn session_erase(
    told: &[u32],
    state: &mut [u64],
    offset: u32,
    len: u32,
    media: &mut [u8],
    copy: &mut [u8],
    kinds: &mut [u8],
    offsets: &mut [u32],
    lens: &mut [u32],
    digests: &mut [u64],
    changed: &mut [u8],
    answered: &mut [u8],
) -> u32
    ensures { write_left result state.new media.new copy.new (log_of kinds.new offsets.new lens.new digests.new changed.new answered.new) ≡ written_over state.old (erase_call (told_of told.now) (counters_of state.old) offset len media.old copy.old (log_of kinds.old offsets.old lens.old digests.old changed.old answered.old)) }
{
    let given = session_numbers::told_of(told);
    let counters = session_numbers::counters_of(state);
    let mut log = LogMut {
        kinds,
        offsets,
        lens,
        digests,
        changed,
        answered,
    };
    let called = session_erase::erase(given, counters, offset, len, media, copy, &mut log);
    session_numbers::put_back(state, called)
}

// `barrier`: its answer, and the counters and the log after it.
#[unsafe(no_mangle)]
pub extern "C" fn session_barrier(
    told: &[u32],
    state: &mut [u64],
    kinds: &mut [u8],
    offsets: &mut [u32],
    lens: &mut [u32],
    digests: &mut [u64],
    changed: &mut [u8],
    answered: &mut [u8],
) -> u32
    ensures { barrier_left result state.new (log_of kinds.new offsets.new lens.new digests.new changed.new answered.new) ≡ ordered_over state.old (barriered (told_of told.now) (counters_of state.old) (log_of kinds.old offsets.old lens.old digests.old changed.old answered.old)) }
{
    let given = session_numbers::told_of(told);
    let counters = session_numbers::counters_of(state);
    let mut log = LogMut {
        kinds,
        offsets,
        lens,
        digests,
        changed,
        answered,
    };
    let called = session_calls::barrier(given, counters, &mut log);
    session_numbers::put_back(state, called)
}

// `read`: its answer, and the buffer after it; the counters stay.
#[unsafe(no_mangle)]
pub extern "C" fn session_read(
    told: &[u32],
    state: &[u64],
    media: &[u8],
    offset: u32,
    dst: &mut [u8],
) -> u32
    ensures { fetched result dst.new ≡ read_by (told_of told.now) (counters_of state.now) media.now offset dst.old }
{
    let given = session_numbers::told_of(told);
    let counters = session_numbers::counters_of(state);
    basics::number_in(session_calls::read(given, counters, media, offset, dst))
}

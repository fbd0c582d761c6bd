// The session's marks for callers in Rust or C: numbers and lent slices in, a number out, as in `session_exported`: the columns
// cross one by one.
#![tactic(auto)]

ghost use Rattle.std.specs.Prelude.{◌≡◌};
ghost use Rattle.session.specs.Log.{marks_of};
ghost use Rattle.session.specs.Marks.{begun, ended, range_marked};
ghost use Rattle.session_numbers.specs.Numbers.{counters_of};
ghost use Rattle.session_marks_exported.specs.Left.{mark_left, noted_over};

use session::MarksMut;

// `begin_record`: its answer, and the counters and the marks after it.
#[unsafe(no_mangle)]
pub extern "C" fn session_begin(
    state: &mut [u64],
    id: u32,
    codes: &mut [u8],
    ids: &mut [u32],
    places: &mut [u64],
) -> u32
    ensures { mark_left result state.new (marks_of codes.new ids.new places.new) ≡ noted_over state.old (begun (counters_of state.old) id (marks_of codes.old ids.old places.old)) }
{
    let counters = session_numbers::counters_of(state);
    let mut marks = MarksMut { codes, ids, places };
    let called = session_marks::begin_record(counters, id, &mut marks);
    session_numbers::put_back(state, called)
}

// `end_record`: its answer, and the counters and the marks after it.
#[unsafe(no_mangle)]
pub extern "C" fn session_end(
    state: &mut [u64],
    codes: &mut [u8],
    ids: &mut [u32],
    places: &mut [u64],
) -> u32
    ensures { mark_left result state.new (marks_of codes.new ids.new places.new) ≡ noted_over state.old (ended (counters_of state.old) (marks_of codes.old ids.old places.old)) }
{
    let counters = session_numbers::counters_of(state);
    let mut marks = MarksMut { codes, ids, places };
    let called = session_marks::end_record(counters, &mut marks);
    session_numbers::put_back(state, called)
}

// `mark_operations`: its answer, and the counters and the marks after it.
#[unsafe(no_mangle)]
pub extern "C" fn session_mark_operations(
    state: &mut [u64],
    id: u32,
    from: u32,
    to: u32,
    codes: &mut [u8],
    ids: &mut [u32],
    places: &mut [u64],
) -> u32
    ensures { mark_left result state.new (marks_of codes.new ids.new places.new) ≡ noted_over state.old (range_marked (counters_of state.old) id from to (marks_of codes.old ids.old places.old)) }
{
    let counters = session_numbers::counters_of(state);
    let mut marks = MarksMut { codes, ids, places };
    let called = session_marks::mark_operations(counters, id, from, to, &mut marks);
    session_numbers::put_back(state, called)
}

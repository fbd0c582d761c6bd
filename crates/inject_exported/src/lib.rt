// The layer `inject` for callers in Rust or C, which tests/differential holds against the original Rust: numbers and lent
// slices in, a number out. Each function takes the layer's values from numbers, makes one call, and gives the answer as
// numbers, so that a comparison of the numbers is one of the layer: a list of operations is three columns, a geometry is its
// four units, a point is its row of the layer's columns, an answer is document 01's number, 0 where nothing is refused. A
// slice crosses as a pointer, then a length, so a list's columns cross one by one; a reference as a pointer. (Each function matches its
// answer for itself: the arms show what a refusal leaves.)
#![tactic(auto)]

ghost use Rattle.std.specs.Prelude.{◌≡◌};
ghost use Rattle.storage.specs.Geometry.{geometry_of};
ghost use Rattle.inject.specs.Answers.{count_test, place_test};
ghost use Rattle.inject_columns.specs.Answers.{write_test, columns_of};
ghost use Rattle.inject_exported.specs.Inject.{count_over, point_in, point_over, columns_over, rows_over};

use basics::{Numbered, store};
use inject::{Injection, OpsRef};
use inject_columns::PointsMut;

// Puts a point's four numbers into the first four places.
fn keep(point: &mut [u64], injection: Injection)
    ensures { point.new ≡ point_in injection point.old }
{
    store(point, 0, injection.op as u64);
    store(point, 1, injection.progress.code() as u64);
    store(point, 2, injection.progress.byte_count() as u64);
    store(point, 3, injection.interruption as u64);
}

// `injection_count`: the number that refuses the list, and through `points` how many crash points it has; a refusal leaves
// `points`.
#[unsafe(no_mangle)]
pub extern "C" fn inject_count(
    kinds: &[u8],
    offsets: &[u32],
    lens: &[u32],
    capacity: u32,
    erase: u32,
    program: u32,
    read: u32,
    points: &mut u64,
) -> u32
    ensures { (result ≡ count_test (geometry_of capacity erase program read) kinds.now offsets.now lens.now) × (points.new ≡ count_over (geometry_of capacity erase program read) kinds.now offsets.now lens.now points.old) }
{
    let geometry = storage::units(capacity, erase, program, read);
    let list = OpsRef {
        kinds,
        offsets,
        lens,
    };
    match list.injection_count(geometry) {
        Ok(count) => {
            *points = count;
            0
        }
        Err(refusal) => refusal.number(),
    }
}

// `injection_at`: the number that refuses the list or the place. The point's operation index, kind of progress, byte count
// and interruption are put into the first four places of `point`; a refusal leaves `point`.
#[unsafe(no_mangle)]
pub extern "C" fn inject_at(
    kinds: &[u8],
    offsets: &[u32],
    lens: &[u32],
    capacity: u32,
    erase: u32,
    program: u32,
    read: u32,
    place: u64,
    point: &mut [u64],
) -> u32
    ensures { (result ≡ place_test (geometry_of capacity erase program read) kinds.now offsets.now lens.now place) × (point.new ≡ point_over (geometry_of capacity erase program read) kinds.now offsets.now lens.now place point.old) }
{
    let geometry = storage::units(capacity, erase, program, read);
    let list = OpsRef {
        kinds,
        offsets,
        lens,
    };
    match list.injection_at(geometry, place) {
        Ok(injection) => {
            keep(point, injection);
            0
        }
        Err(refusal) => refusal.number(),
    }
}

// `injections`: the number that refuses the list or the columns. Every point has its row in the four columns, and `rows`
// tells how many; a refusal leaves the columns and `rows`.
#[unsafe(no_mangle)]
pub extern "C" fn inject_all(
    kinds: &[u8],
    offsets: &[u32],
    lens: &[u32],
    capacity: u32,
    erase: u32,
    program: u32,
    read: u32,
    ops: &mut [u32],
    progresses: &mut [u8],
    counts: &mut [u32],
    interruptions: &mut [u8],
    rows: &mut usize,
) -> u32
    ensures { (result ≡ write_test (geometry_of capacity erase program read) kinds.now offsets.now lens.now (columns_of ops.old progresses.old counts.old interruptions.old)) × (columns_of ops.new progresses.new counts.new interruptions.new ≡ columns_over (geometry_of capacity erase program read) kinds.now offsets.now lens.now (columns_of ops.old progresses.old counts.old interruptions.old)) × (rows.new ≡ rows_over (geometry_of capacity erase program read) kinds.now offsets.now lens.now (columns_of ops.old progresses.old counts.old interruptions.old) rows.old) }
{
    let geometry = storage::units(capacity, erase, program, read);
    let list = OpsRef {
        kinds,
        offsets,
        lens,
    };
    let mut columns = PointsMut {
        ops,
        progresses,
        counts,
        interruptions,
    };
    match inject_columns::injections(&list, geometry, &mut columns) {
        Ok(count) => {
            *rows = count;
            0
        }
        Err(refusal) => refusal.number(),
    }
}

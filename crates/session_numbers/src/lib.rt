// The session's values as numbers, for the boundary to Rust or C (the `_exported` crates of session, marks, ledger, held and
// replay). What the start was told crosses as ten numbers (`told`): the four units, the bit rule, whether an injection is armed,
// and its operation, kind of progress, byte count and interruption. The counters cross as six (`state`): operations, marks, the
// stop's number, whether the injection fired, and the place and length of what was withheld. A code without a meaning has a
// decided one, and a number that is not there is 0 (specs/Numbers.antt).
#![tactic(auto)]

ghost use Rattle.std.specs.Prelude.{◌≡◌};
ghost use Rattle.session.specs.Replies.{told_as};
ghost use Rattle.session_numbers.specs.Numbers.{armed_of, told_of, stop_of, low, counters_of, counters_in};

use basics::{cell, store};
use device::OneWayBits;
use inject::{Injection, Interruption, Progress};
use landing::Stop;
use session::{Called, Counters, Told};

// ---- what the start was told

// What is armed.
fn armed_of(armed: u32, op: u32, kind: u32, count: u32, cause: u32) -> Option<Injection>
    ensures { result ≡ armed_of armed op kind count cause }
{
    if armed == 0 {
        return None;
    }
    Some(Injection {
        op: op as usize,
        progress: Progress::of(kind, count),
        interruption: Interruption::from(cause),
    })
}

// What the start was told, of ten numbers.
pub fn told_of(told: &[u32]) -> Told
    ensures { result ≡ told_of told.now }
{
    let geometry = storage::units(
        cell(told, 0, 0),
        cell(told, 1, 0),
        cell(told, 2, 0),
        cell(told, 3, 0),
    );
    let bits = OneWayBits::from(cell(told, 4, 0));
    let armed = armed_of(
        cell(told, 5, 0),
        cell(told, 6, 0),
        cell(told, 7, 0),
        cell(told, 8, 0),
        cell(told, 9, 0),
    );
    session::told_with(geometry, bits, armed)
}

// ---- the counters

// The stop of a number. (Here, and no `From` in `landing`: a stop has no code of its own; 21 and 22 are its
// refusal's numbers, by which this boundary tells it.)
fn stop_of(number: u64) -> Stop
    ensures { result ≡ stop_of number }
{
    match number {
        21 => Stop::PowerLost,
        22 => Stop::CoreReset,
        _ => Stop::Running,
    }
}

// The number, or 0 where no u32 holds it.
fn low_of(number: u64) -> u32
    ensures { result ≡ low number }
{
    u32::try_from(number).unwrap_or(0)
}

// The counters of six numbers.
pub fn counters_of(state: &[u64]) -> Counters
    ensures { result ≡ counters_of state.now }
{
    Counters {
        operations: cell(state, 0, 0) as usize,
        marks: cell(state, 1, 0) as usize,
        stop: stop_of(cell(state, 2, 0)),
        fired: cell(state, 3, 0) != 0,
        place: low_of(cell(state, 4, 0)),
        withheld: low_of(cell(state, 5, 0)),
    }
}

// Puts the counters into the first six places. An array of the six and a loop over it is no plainer: each line names its place.
pub fn keep(state: &mut [u64], counters: Counters)
    ensures { state.new ≡ counters_in counters state.old }
{
    let stopped = basics::number_in(counters.stop.refusal());
    store(state, 0, counters.operations as u64);
    store(state, 1, counters.marks as u64);
    store(state, 2, stopped as u64);
    store(state, 3, counters.fired as u64);
    store(state, 4, counters.place as u64);
    store(state, 5, counters.withheld as u64);
}

// Puts a reply's counters back, and gives document 01's number of what it answers, 0 where nothing is refused. (A number: it goes to C.)
pub fn put_back(state: &mut [u64], called: Called) -> u32
    ensures { (result ≡ (told_as called).answer) × (state.new ≡ counters_in called.counters state.old) }
{
    keep(state, called.counters);
    basics::number_in(called.answer)
}

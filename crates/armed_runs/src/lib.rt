// What each run of a sweep is told and what is armed in it: line 1 of the script, nothing in run 0, then the crash points of the
// fault-free run's operations, in order.
#![tactic(auto)]

ghost use Rattle.std.specs.Prelude.{◌≡◌};
ghost use Rattle.basics.specs.Replies.{numbered};
ghost use Rattle.refusals.specs.Numbers.{number_of};
ghost use Rattle.sweeps.specs.Sweep.{rule_of, told_by};
ghost use Rattle.armed_runs.specs.Places.{placed_at};

use device::OneWayBits;
use inject::{Injection, OpsRef};
use refusals::Refusal;
use script::Head;
use session::Told;
use storage::Geometry;

// ---- what a session is told

// By the flag itself: through a number (`OneWayBits::from(u32::from(rejected))`) a reader has to know which of the two 1 is, and
// a `From<bool>` would hide the same.
fn rule_of(rejected: bool) -> OneWayBits
    ensures { result ≡ rule_of rejected }
{
    if rejected {
        OneWayBits::Rejected
    } else {
        OneWayBits::Absorbed
    }
}

// Line 1 and at most one injection.
pub fn told_by(head: Head, armed: Option<Injection>) -> Told
    ensures { result ≡ told_by head armed }
{
    session::told_with(head.geometry, rule_of(head.rejected), armed)
}

// ---- the runs in order

// What is armed in the run at a place: nothing in run 0, then the crash points of the operations, in order.
pub fn point_at(
    place: u64,
    geometry: Geometry,
    ops: &OpsRef<'_>,
) -> Result<Option<Injection>, Refusal>
    ensures { numbered number_of result ≡ placed_at place geometry ops.now.kinds.now ops.now.offsets.now ops.now.lens.now }
{
    if place == 0 {
        ops.injection_count(geometry)?;
        return Ok(None);
    }
    let injection = ops.injection_at(geometry, place - 1)?;
    Ok(Some(injection))
}

// What an injection does to the operation it is armed on: how much of it lands, whether it completed, and how it ends.
// Follows `landed`, `landed_at`, `erase_landed_at`, `unit_completed`, `completed` and `interrupt` of waymaker-fault's
// session.rs. The session and the plain run of whole lists of calls share these definitions, since document 01 says them once.
#![tactic(auto)]

ghost use Rattle.std.specs.Prelude.{◌≡◌};
ghost use Rattle.basics.specs.Replies.{number_in};
ghost use Rattle.refusals.specs.Numbers.{number_of};
ghost use Rattle.landing.specs.Landed.{offered, rounded_up, rounded_down, landed_by, program_landed, erase_landed, ran};
ghost use Rattle.landing.specs.Ending.{ending_of, ended_as, stop_number};

use inject::{Injection, Interruption, Progress};
use refusals::Refusal;

// Whether a session still runs, or the reset that ended it.
#[derive(Clone, Copy, Debug, PartialEq, Eq)]
pub enum Stop {
    Running,
    PowerLost,
    CoreReset,
}

// How an armed operation ends: what it answers, and the stop that it leaves.
#[derive(Clone, Copy, Debug, PartialEq, Eq)]
pub struct Ending {
    pub answer: Result<(), Refusal>,
    pub stop: Stop,
}

// How many bytes of `len` a progress offers: a count past the length is the whole, and a count of 0 is none.
fn landed(progress: Progress, len: u32) -> u32
    ensures { result ≡ offered progress len }
{
    match progress {
        Progress::None => 0,
        Progress::Bytes(bytes) => bytes.min(len),
        Progress::Whole => len,
    }
}

// `landed` raised to the next whole unit, and never past `len`: the supply holds through a watchdog reset, so the unit in
// flight is finished. No geometry has a unit of 0; it raises nothing.
fn unit_completed(landed: u32, len: u32, unit: u32) -> u32
    ensures { result ≡ rounded_up landed len unit }
{
    if unit == 0 {
        return landed;
    }
    let raised = (landed as u64).next_multiple_of(unit as u64);
    raised.min(len as u64) as u32
}

// `landed` lowered to whole steps: no device erases byte by byte. No geometry has a step of 0; none of it lands.
fn steps_of(landed: u32, step: u32) -> u32
    ensures { result ≡ rounded_down landed step }
{
    if step == 0 {
        return 0;
    }
    landed / step * step
}

// How many bytes of a program or an erase of `len` bytes reach the media, with an injection armed on it. A watchdog reset lets
// the unit in flight complete; whatever else cuts it short leaves whole steps: bytes of a program (whose step is 1), blocks of
// an erase (whose step and unit are the erase block).
pub fn landed_at(injection: Injection, len: u32, step: u32, unit: u32) -> u32
    ensures landed { result ≡ landed_by injection len step unit }
    ensures program { step ≡ 1 → result ≡ program_landed injection len unit }
    ensures erase { step ≡ unit → result ≡ erase_landed injection len unit }
{
    let bytes = landed(injection.progress, len);
    match injection.interruption {
        Interruption::Watchdog => unit_completed(bytes, len, unit),
        Interruption::PowerLoss | Interruption::Failure => steps_of(bytes, step),
    }
}

// Whether a barrier ran, with an injection of this progress armed on it. It has no interior: any progress that is not zero
// says that it ran.
pub fn barrier_ran(progress: Progress) -> bool
    ensures { result ≡ ran progress }
{
    match progress {
        Progress::None => false,
        Progress::Bytes(bytes) => bytes != 0,
        Progress::Whole => true,
    }
}

// The endings, by interruption and completion: not completed, then completed, of each interruption in turn. A power loss
// after the operation returned lets it answer 0 first; a watchdog reset never returns; a failure leaves the session running.
// Document 01 reads the ending from a fixed table, so this is one and no `match`.
const ENDINGS: [[Ending; 2]; 3] = [
    [
        Ending {
            answer: Err(Refusal::PowerLoss),
            stop: Stop::PowerLost,
        },
        Ending {
            answer: Ok(()),
            stop: Stop::PowerLost,
        },
    ],
    [
        Ending {
            answer: Err(Refusal::WatchdogReset),
            stop: Stop::CoreReset,
        },
        Ending {
            answer: Err(Refusal::WatchdogReset),
            stop: Stop::CoreReset,
        },
    ],
    [
        Ending {
            answer: Err(Refusal::InjectedFailure),
            stop: Stop::Running,
        },
        Ending {
            answer: Err(Refusal::InjectedFailure),
            stop: Stop::Running,
        },
    ],
];

// The ending of an operation that an interruption is armed on.
pub fn ending_of(interruption: Interruption, completed: bool) -> Ending
    ensures { ended_as result ≡ ending_of interruption completed }
{
    ENDINGS[interruption as usize][completed as usize]
}

impl Stop {
    // What every later program, erase, barrier or read answers: no refusal while the session runs.
    pub fn refusal(self) -> Result<(), Refusal>
        ensures { number_in number_of result ≡ stop_number self }
    {
        match self {
            Stop::Running => Ok(()),
            Stop::PowerLost => Err(Refusal::PowerLoss),
            Stop::CoreReset => Err(Refusal::WatchdogReset),
        }
    }
}

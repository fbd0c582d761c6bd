// Document 01's refusals of an input and of a state, one error for each: what every layer above the geometry answers where it
// refuses. The numbers are one definition (specs/Numbers.antt), which the promises cite. The test that most layers make of lent columns
// stands here too.
#![tactic(auto)]

ghost use Rattle.std.specs.Prelude.{◌≡◌};
ghost use Rattle.basics.specs.Replies.{number_in};
ghost use Rattle.refusals.specs.Numbers.{number_of};
ghost use Rattle.refusals.specs.declared.Refusal.TheVariants.{Geometry};
ghost use Rattle.refusals.specs.Nonzero.{refusal-nonzero};
ghost use Rattle.refusals.specs.Tests.{columns_test};

use basics::Numbered;
use storage::GeometryError;

// What refuses an input, a state or a run.
#[derive(Clone, Copy, Debug, PartialEq, Eq)]
pub enum Refusal {
    // A geometry that describes no device, or a span that it forbids.
    Geometry(GeometryError),
    // Media or withheld copy are not of capacity length.
    MediaLength,
    // A line of a script is malformed, or line 1 is absent.
    MalformedLine,
    // A script is above 65,536 bytes.
    ScriptTooLong,
    // A script's capacity is above 16,384.
    CapacityTooLarge,
    // A place is not below the count.
    NoSuchPlace,
    // Columns of one list are unequal, or hold a code without a meaning.
    MalformedColumns,
    // Lent columns are shorter than the result, or than the session's limits.
    ColumnsTooShort,
    // A program asks for a bit that only an erase can restore.
    BitSetWithoutErase,
    // The power went away.
    PowerLoss,
    // The core was reset while the supply held.
    WatchdogReset,
    // The injected failure of a program, an erase or a barrier.
    InjectedFailure,
    // The fault-free writer returned an error.
    WriterFailed,
    // A run's injection never fired.
    NeverFired,
    // A run is not the fault-free run through its armed operation.
    Diverged,
    // As many operations as a session takes are recorded already, or a list has more.
    TooManyOperations,
    // As many marks as a session takes are recorded already.
    TooManyMarks,
}

impl Numbered for Refusal {
    ghost number = { number_of };

    ghost nonzero = { refusal-nonzero };

    // Document 01's number of the refusal: the one place where it gets it.
    fn number(self) -> u32 {
        match self {
            Refusal::Geometry(error) => error.number(),
            Refusal::MediaLength => 7,
            Refusal::MalformedLine => 8,
            Refusal::ScriptTooLong => 9,
            Refusal::CapacityTooLarge => 10,
            Refusal::NoSuchPlace => 11,
            Refusal::MalformedColumns => 12,
            Refusal::ColumnsTooShort => 13,
            Refusal::BitSetWithoutErase => 20,
            Refusal::PowerLoss => 21,
            Refusal::WatchdogReset => 22,
            Refusal::InjectedFailure => 23,
            Refusal::WriterFailed => 24,
            Refusal::NeverFired => 25,
            Refusal::Diverged => 26,
            Refusal::TooManyOperations => 27,
            Refusal::TooManyMarks => 28,
        }
    }
}

impl From<GeometryError> for Refusal {
    ghost from_gives = { λ error refusal. refusal ≡ Geometry error };

    fn from(error: GeometryError) -> Refusal {
        Refusal::Geometry(error)
    }
}

// 12 where columns of one list are unequal or hold what has no meaning, then 13 where they are too short.
pub fn columns_refusal(uneven: bool, short: bool) -> Result<(), Refusal>
    ensures { number_in number_of result ≡ columns_test uneven short }
{
    if uneven {
        return Err(Refusal::MalformedColumns);
    }
    if short {
        return Err(Refusal::ColumnsTooShort);
    }
    Ok(())
}

// What stands before the entries in a run's line of `sweep` (document 01, "Scripts and the two programs"): its place, its
// injection's kind, index and progress, the session's stop and the operations recorded. It is written at a lent `Cursor`, and
// measured. Each promise is an equation with a definition of specs/.
#![tactic(auto)]

ghost use Rattle.std.specs.Prelude.{◌≡◌};
ghost use mathlib.Core.List.{[], ◌∷◌, flatten};
ghost use Rattle.pieces.specs.Pieces.{letter, after_all, tabbed};
ghost use Rattle.pieces.specs.Cursors.{cursor_in, SameOut};
ghost use Rattle.lines.specs.Lines.{letter_of, progress_field, point_fields, stop_field};
ghost use Rattle.sweep_heads.specs.Heads.{head_pieces, Few};

use inject::{Injection, Interruption, Progress};
use landing::Stop;
use pieces::Cursor;

// (The letters here stand for themselves: they are no codes of the enums, which a conversion would make them.)
fn letter_of(interruption: Interruption) -> u8
    ensures { result ≡ letter_of interruption }
{
    match interruption {
        Interruption::PowerLoss => b'p',
        Interruption::Watchdog => b'w',
        Interruption::Failure => b'f',
    }
}

fn put_progress(progress: Progress, to: &mut Cursor<'_>)
    ensures same { SameOut to.old to.new }
    ensures put { cursor_in to.new ≡ after_all (letter 9 ∷ progress_field progress ∷ []) (cursor_in to.old) }
{
    match progress {
        Progress::None => to.put_letter(b'n'),
        Progress::Bytes(count) => to.put_field(count as u64),
        Progress::Whole => to.put_letter(b'a'),
    }
}

fn progress_size(progress: Progress) -> usize
    ensures { Few 30 (flatten (tabbed (progress_field progress ∷ []))) result }
{
    match progress {
        Progress::None | Progress::Whole => 2,
        Progress::Bytes(count) => 1 + text::places(count as u64),
    }
}

// Kind, index and progress, or three times `-`.
fn put_point(armed: Option<Injection>, to: &mut Cursor<'_>)
    ensures same { SameOut to.old to.new }
    ensures put { cursor_in to.new ≡ after_all (tabbed (point_fields armed)) (cursor_in to.old) }
{
    match armed {
        None => {
            to.put_letter(b'-');
            to.put_letter(b'-');
            to.put_letter(b'-');
        }
        Some(injection) => {
            to.put_letter(letter_of(injection.interruption));
            to.put_field(injection.op as u64);
            put_progress(injection.progress, to);
        }
    }
}

fn point_size(armed: Option<Injection>) -> usize
    ensures { Few 64 (flatten (tabbed (point_fields armed))) result }
{
    match armed {
        None => 6,
        Some(injection) => {
            3 + text::places(injection.op as u64) + progress_size(injection.progress)
        }
    }
}

fn stop_letter(stop: Stop) -> u8
    ensures { letter result ≡ stop_field stop }
{
    match stop {
        Stop::Running => b'-',
        Stop::PowerLost => b'p',
        Stop::CoreReset => b'w',
    }
}

// What stands before the entries: place, kind, index, progress, stop and operations. (No struct of the four: `sweep_line` alone calls
// both, and would make one to be taken apart.)
pub fn put_head(
    place: u64,
    armed: Option<Injection>,
    stop: Stop,
    operations: usize,
    to: &mut Cursor<'_>,
)
    ensures same { SameOut to.old to.new }
    ensures put { cursor_in to.new ≡ after_all (head_pieces place armed stop operations) (cursor_in to.old) }
{
    to.put_number(place);
    put_point(armed, to);
    to.put_letter(stop_letter(stop));
    to.put_field(operations as u64);
}

// How many bytes that is: 110 at the most.
pub fn head_size(place: u64, armed: Option<Injection>, stop: Stop, operations: usize) -> usize
    ensures { Few 110 (flatten (head_pieces place armed stop operations)) result }
{
    text::places(place) + point_size(armed) + 3 + text::places(operations as u64)
}

// The text of the two programs, a line at a time, written at a lent `Cursor`, which is a buffer and a place in it (document 01,
// "Scripts and the two programs"): fields parted by tabs, an LF at the end. A line is measured before it is written, so that one
// which does not fit from the place where it should start is refused with 13 and changes nothing. A run's line of `sweep` is in
// `sweep_lines`. What a line is and where it goes is an equation with a definition of specs/.
#![tactic(auto)]

ghost use Rattle.std.specs.Prelude.{◌≡◌, ◌+◌, length, leb, IsErr};
ghost use mathlib.Core.List.{map, flatten};
ghost use Rattle.text.specs.Numbers.{decimal_of};
ghost use Rattle.pieces.specs.Pieces.{after_all, tabbed};
ghost use Rattle.pieces.specs.Cursors.{cursor_in, SameOut};
ghost use Rattle.lines.specs.Lines.{judged_line, runs_line, refused_text};
ghost use Rattle.lines.specs.Answers.{put};
ghost use Rattle.lines.specs.Written.{written};

use pieces::{Cursor, fits};
use refusals::Refusal;
use text::LF;

// ---- ids

fn put_ids(ids: &[u32], to: &mut Cursor<'_>)
    ensures same { SameOut to.old to.new }
    ensures put { cursor_in to.new ≡ after_all (tabbed (map decimal_of ids.now)) (cursor_in to.old) }
{
    for id in ids {
        to.put_field(*id as u64);
    }
}

// Whether a line of `size` bytes and the ids' fields fits from a place on in so much room, told by numbers, since it asks for no byte of the
// buffer. What is left of the room is carried, so that no sum can wrap.
fn ids_fit(ids: &[u32], size: usize, at: usize, room: usize) -> bool
    ensures { result ≡ leb (at + size + length (flatten (tabbed (map decimal_of ids.now)))) room }
{
    if !fits(size, at, room) {
        return false;
    }
    let mut left = room - at - size;
    for id in ids {
        let more = 1 + text::places(*id as u64);
        if left < more {
            return false;
        }
        left -= more;
    }
    true
}

// ---- the lines

// `runs` and how many there are.
pub fn runs_line(count: u64, to: &mut Cursor<'_>) -> Result<(), Refusal>
    ensures same { SameOut to.old to.new }
    ensures put { written result to.new ≡ put 0 (runs_line count) to.old.at to.old.out.now }
    ensures stays { IsErr result → to.new.at ≡ to.old.at }
{
    if !fits(text::places(count) + 6, to.at, to.out.len()) {
        return Err(Refusal::ColumnsTooShort);
    }
    to.put_word(b"runs");
    to.put_field(count);
    to.put_byte(LF);
    Ok(())
}

// `refused`, the number that refuses a script, and the line. (Any number is taken: a `Refusal` or a `ScriptError` has fewer, and would
// ask more of callers.)
pub fn refused_line(number: u32, line: u32, to: &mut Cursor<'_>) -> Result<(), Refusal>
    ensures same { SameOut to.old to.new }
    ensures put { written result to.new ≡ put 0 (refused_text number line) to.old.at to.old.out.now }
    ensures stays { IsErr result → to.new.at ≡ to.old.at }
{
    let (number, line) = (number as u64, line as u64);
    let size = text::places(number) + text::places(line) + 10;
    if !fits(size, to.at, to.out.len()) {
        return Err(Refusal::ColumnsTooShort);
    }
    to.put_word(b"refused");
    to.put_field(number);
    to.put_field(line);
    to.put_byte(LF);
    Ok(())
}

// A run's line of `judge`: its verdict's number, and the suggested history that the verdict is on. (Any number is taken, as above: a
// verdict has fewer.)
pub fn judge_line(
    place: u64,
    verdict: u32,
    history: &[u32],
    to: &mut Cursor<'_>,
) -> Result<(), Refusal>
    ensures same { SameOut to.old to.new }
    ensures put { written result to.new ≡ put 0 (judged_line place verdict history.now) to.old.at to.old.out.now }
    ensures stays { IsErr result → to.new.at ≡ to.old.at }
{
    let verdict = verdict as u64;
    let size = text::places(place) + text::places(verdict) + 2;
    if !ids_fit(history, size, to.at, to.out.len()) {
        return Err(Refusal::ColumnsTooShort);
    }
    to.put_number(place);
    to.put_field(verdict);
    put_ids(history, to);
    to.put_byte(LF);
    Ok(())
}

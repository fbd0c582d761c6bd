// A run's line of `sweep`, written at a lent `Cursor` (document 01, "Scripts and the two programs"): what stands before the entries
// (`sweep_heads`), and a field for each entry. The ledger comes as `model`'s `LedgerRef`, and one whose columns hold none is refused
// with 12. The line is measured before it is written, so that one which does not fit from the place where it should start is refused
// with 13. A refusal changes nothing. What the line is and where it goes is an equation with a definition of specs/.
#![tactic(auto)]

ghost use Rattle.std.specs.Prelude.{◌≡◌, ◌+◌, length, leb, IsErr};
ghost use mathlib.Core.List.{flatten};
ghost use Rattle.model.specs.Columns.{entry_of, ledger_of};
ghost use Rattle.model.specs.Ledger.{is_torn};
ghost use Rattle.pieces.specs.Pieces.{after_all};
ghost use Rattle.pieces.specs.Cursors.{cursor_in, SameOut};
ghost use Rattle.lines.specs.Lines.{state_letter};
ghost use Rattle.lines.specs.Written.{written};
ghost use Rattle.sweep_heads.specs.Heads.{Few};
ghost use Rattle.sweep_lines.specs.Answers.{sweep_put};
ghost use Rattle.sweep_lines.specs.Fields.{entry_pieces, ledger_pieces};

use inject::Injection;
use landing::Stop;
use model::{Durability, LedgerRef};
use pieces::{Cursor, fits};
use refusals::Refusal;
use sweep_heads::{head_size, put_head};
use text::LF;

// ---- entries

// (A letter of the line, and no code of the enum.)
fn state_letter(state: Durability) -> u8
    ensures { result ≡ state_letter state }
{
    match state {
        Durability::Attempted => b'a',
        Durability::PossiblyDurable => b'd',
        Durability::Acknowledged => b'k',
    }
}

// Torn is dropped where the state is attempted. (By the codes, as the columns hold them: a struct of a row would be made at each turn of
// two loops and taken apart here.)
fn is_torn(state: u8, torn: u8) -> bool
    ensures { result ≡ is_torn (entry_of 0 state torn) }
{
    state != Durability::Attempted as u8 && torn == 1
}

fn put_entry(id: u32, state: u8, torn: u8, to: &mut Cursor<'_>)
    ensures same { SameOut to.old to.new }
    ensures put { cursor_in to.new ≡ after_all (entry_pieces (entry_of id state torn)) (cursor_in to.old) }
{
    to.put_field(id as u64);
    to.put_byte(state_letter(Durability::from(state)));
    if is_torn(state, torn) {
        to.put_byte(b't');
    }
}

fn entry_size(id: u32, state: u8, torn: u8) -> usize
    ensures { Few 30 (flatten (entry_pieces (entry_of id state torn))) result }
{
    let digits = text::places(id as u64);
    if is_torn(state, torn) {
        digits + 3
    } else {
        digits + 2
    }
}

fn put_entries(ledger: &LedgerRef<'_>, to: &mut Cursor<'_>)
    ensures same { SameOut to.old to.new }
    ensures put { cursor_in to.new ≡ after_all (ledger_pieces (ledger_of ledger.now.ids.now ledger.now.states.now ledger.now.torn.now)) (cursor_in to.old) }
{
    for ((id, state), torn) in ledger.ids.iter().zip(ledger.states).zip(ledger.torn) {
        put_entry(*id, *state, *torn, to);
    }
}

// Whether a line of `size` bytes and the entries' fields fits. What is left of the room is carried, so that no sum can wrap. (`lines`
// has this loop and the one above over ids: one loop for both would need a trait for a row's pieces and their size, two
// implementations, and a promise about any iterator of rows.)
fn entries_fit(ledger: &LedgerRef<'_>, size: usize, at: usize, room: usize) -> bool
    ensures { result ≡ leb (at + size + length (flatten (ledger_pieces (ledger_of ledger.now.ids.now ledger.now.states.now ledger.now.torn.now)))) room }
{
    if !fits(size, at, room) {
        return false;
    }
    let mut left = room - at - size;
    for ((id, state), torn) in ledger.ids.iter().zip(ledger.states).zip(ledger.torn) {
        let more = entry_size(*id, *state, *torn);
        if left < more {
            return false;
        }
        left -= more;
    }
    true
}

// ---- the line

// A run's line of `sweep`. Its ledger is all the rows of the three columns.
pub fn sweep_line(
    place: u64,
    armed: Option<Injection>,
    stop: Stop,
    operations: usize,
    ledger: &LedgerRef<'_>,
    to: &mut Cursor<'_>,
) -> Result<(), Refusal>
    ensures same { SameOut to.old to.new }
    ensures put { written result to.new ≡ sweep_put place armed stop operations ledger.now.ids.now ledger.now.states.now ledger.now.torn.now to.old.at to.old.out.now }
    ensures stays { IsErr result → to.new.at ≡ to.old.at }
{
    ledger.refusal()?;
    let size = head_size(place, armed, stop, operations) + 1;
    if !entries_fit(ledger, size, to.at, to.out.len()) {
        return Err(Refusal::ColumnsTooShort);
    }
    put_head(place, armed, stop, operations, to);
    put_entries(ledger, to);
    to.put_byte(LF);
    Ok(())
}

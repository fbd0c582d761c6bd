// Media that behave like media: a new device is erased, and programming can only clear bits. Follows waymaker-fault's
// device.rs. Where the Rust's Device owns its bytes, here the caller lends them as a slice. This crate writes the media and
// says what a write would leave; `device_questions` compares lent bytes with them, and `device_calls` has the device's own
// calls, which a geometry checks. Every contract is an equation: the whole answer and what every lent slice holds at the
// end, after a refusal too.
#![tactic(auto)]

ghost use Rattle.std.specs.Prelude.{◌≡◌, not, length, replicate};
ghost use Rattle.device.specs.Media.{ff, new_media, anded, any_pair, unequal, Applied, applied, programmed, erased, postimage, erase_would_change};
ghost use Rattle.device.specs.Answers.{Copied, copied};
ghost use Rattle.device.specs.Codes.{rule_of};
ghost use Rattle.basics.specs.Replies.{numbered};
ghost use Rattle.refusals.specs.Numbers.{number_of};

use refusals::Refusal;

// The byte an erased cell reads as.
pub const ERASED: u8 = 0xFF;

// How many cells a question looks at before it may stop. A loop without a way out is compiled to vectors, so each block is
// looked at whole, and the search ends between blocks.
pub const BLOCK: usize = 128;

// What a program does that asks for a bit which the media have already cleared.
#[derive(Clone, Copy, Debug, PartialEq, Eq)]
pub enum OneWayBits {
    // Clear the bits that can be cleared and ignore the rest, as hardware does.
    Absorbed,
    // Refuse the whole program, touching no media.
    Rejected,
}

// The bit rule of a number.
impl From<u32> for OneWayBits {
    ghost from_gives = { λ number rule. rule ≡ rule_of number };

    fn from(number: u32) -> OneWayBits {
        match number {
            0 => OneWayBits::Absorbed,
            _ => OneWayBits::Rejected,
        }
    }
}

// Makes the media those of a new device: every cell becomes ERASED.
pub fn fill_erased(media: &mut [u8])
    ensures { media.new ≡ new_media (length media.old) }
{
    for i in 0..media.len() {
        media[i] = ERASED;
    }
}

// Each cell becomes cell AND byte. Tells whether a cell changed, which is not whether bytes were offered: 0xFF over
// anything changes nothing. (By index: of what a `zip` of `iter_mut` wrote a proof knows the length alone. Four private
// functions here and in `device_questions` ask for two slices of one length: this one writes one of the two, so one struct would not
// serve all.)
fn and_cells(cells: &mut [u8], src: &[u8]) -> bool
    requires { length cells.old ≡ length src.now }
    ensures { ◌≡◌ {A = Applied} (record { media = cells.new; changed = result }) (applied cells.old (anded cells.old src.now)) }
{
    let mut changed = false;
    for i in 0..src.len() {
        let cell = cells[i];
        let after = cell & src[i];
        changed |= cell != after;
        cells[i] = after;
    }
    changed
}

// Programs `src` at `offset` with no geometry check, as a torn write does: each cell becomes cell AND byte. Tells whether
// a cell changed. Where `offset..offset + src.len()` is not in the media, false, and nothing changes. (Here and in
// `apply_erase` the range is tested by hand: of a part that `get_mut` lends, a proof knows no cells.)
pub fn apply_program(media: &mut [u8], offset: u32, src: &[u8]) -> bool
    ensures { ◌≡◌ {A = Applied} (record { media = media.exit.now; changed = result }) (applied media.entry.now (programmed media.entry.now offset src.now)) }
{
    let start = offset as usize;
    let program_end = start + src.len();
    if program_end > media.len() {
        return false;
    }
    and_cells(&mut media[start..program_end], src)
}

// Whether some cell is not ERASED. Looks at every cell.
fn any_written(cells: &[u8]) -> bool
    ensures { result ≡ any_pair unequal cells.now (replicate (length cells.now) ff) }
{
    let mut found = false;
    for cell in cells {
        found |= *cell != ERASED;
    }
    found
}

// Whether every cell is ERASED, block by block. (By an index into the cells: a search of `as_chunks` stays in an erase that drops
// the answer, as `device_calls` does, and triples its time. Each scan by blocks stands by itself: `device_questions` has two slices
// at once, `id_columns` and `hex_pairs` other blocks and a place for an answer, so one function for all would take two closures and
// a size.)
fn slice_is_erased(cells: &[u8]) -> bool
    ensures { result ≡ not (any_pair unequal cells.now (replicate (length cells.now) ff)) }
{
    let mut i = 0;
    while BLOCK <= cells.len() - i {
        let block_end = i + BLOCK;
        if any_written(&cells[i..block_end]) {
            return false;
        }
        i = block_end;
    }
    !any_written(&cells[i..])
}

// Every cell becomes ERASED. Tells whether a cell changed.
fn erase_cells(cells: &mut [u8]) -> bool
    ensures { ◌≡◌ {A = Applied} (record { media = cells.new; changed = result }) (applied cells.old (replicate (length cells.old) ff)) }
{
    let was_erased = slice_is_erased(cells);
    fill_erased(cells);
    !was_erased
}

// Erases `offset..offset + len` with no geometry check, as an interrupted erase does. Tells whether a cell changed: erasing
// what is erased changes nothing. Where the range is not in the media, false, and nothing changes.
pub fn apply_erase(media: &mut [u8], offset: u32, len: u32) -> bool
    ensures { ◌≡◌ {A = Applied} (record { media = media.exit.now; changed = result }) (applied media.entry.now (erased media.entry.now offset len)) }
{
    let start = offset as usize;
    let erase_end = start + len as usize;
    if erase_end > media.len() {
        return false;
    }
    erase_cells(&mut media[start..erase_end])
}

// What programming `src` over `cells` would leave, into a buffer of that length. (A copy of the cells and then `and_cells` take
// twice as long; by index, as there.)
fn and_into(cells: &[u8], src: &[u8], out: &mut [u8])
    requires { (length cells.now ≡ length src.now) × (length out.old ≡ length src.now) }
    ensures { out.new ≡ anded cells.now src.now }
{
    for i in 0..src.len() {
        out[i] = cells[i] & src[i];
    }
}

// What programming `src` at `offset` would leave behind, cell by cell, at the start of `out`; the rest of `out` is left
// alone. Where the range is not in the media there are no such cells, so 0 are written. A buffer shorter than the result is
// refused with 13 and not written.
pub fn postimage_of(media: &[u8], offset: u32, src: &[u8], out: &mut [u8]) -> Result<usize, Refusal>
    ensures { ◌≡◌ {A = Copied} (record { answer = numbered number_of result; buffer = out.new }) (copied out.old (postimage media.now offset src.now)) }
{
    let start = offset as usize;
    let count = src.len();
    let Some(cells) = media.get(start..start + count) else {
        return Ok(0);
    };
    if out.len() < count {
        return Err(Refusal::ColumnsTooShort);
    }
    and_into(cells, src, &mut out[..count]);
    Ok(count)
}

// Whether erasing `offset..offset + len` would change any cell. False where the range is not in the media.
pub fn erase_would_change(media: &[u8], offset: u32, len: u32) -> bool
    ensures { result ≡ erase_would_change media.now offset len }
{
    let start = offset as usize;
    let Some(cells) = media.get(start..start + len as usize) else {
        return false;
    };
    !slice_is_erased(cells)
}

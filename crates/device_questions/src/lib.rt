// The two questions that hold lent bytes against the cells at their place: whether programming them would ask for a bit that
// only an erase restores, and whether the media differ from them. Follows waymaker-fault's device.rs; the definitions and
// their laws are `device`'s. (That an erase would change a cell, and what a program would leave, are asked in `device`.)
#![tactic(auto)]

ghost use Rattle.std.specs.Prelude.{◌≡◌, length};
ghost use Rattle.device.specs.Media.{any_pair, sets_a_bit, would_set_a_bit, differs_from};

use device::BLOCK;

// Whether some byte has a 1 where its cell has 0. Looks at every byte. (That the two slices are of one length is asked as in
// `device`.)
fn any_sets(cells: &[u8], src: &[u8]) -> bool
    requires { length cells.now ≡ length src.now }
    ensures { result ≡ any_pair sets_a_bit cells.now src.now }
{
    let mut found = false;
    for (cell, wanted) in cells.iter().zip(src) {
        found |= *wanted & *cell != *wanted;
    }
    found
}

// The same, block by block.
fn sets_a_bit(cells: &[u8], src: &[u8]) -> bool
    requires { length cells.now ≡ length src.now }
    ensures { result ≡ any_pair sets_a_bit cells.now src.now }
{
    let (blocks, rest) = cells.as_chunks::<BLOCK>();
    let (wanted, rest_wanted) = src.as_chunks::<BLOCK>();
    blocks
        .iter()
        .zip(wanted)
        .any(|(cells, src)| any_sets(cells, src))
        || any_sets(rest, rest_wanted)
}

// Whether programming `src` at `offset` would ask for a bit that only an erase can restore. False where the range is not
// in the media.
pub fn would_set_a_bit(media: &[u8], offset: u32, src: &[u8]) -> bool
    ensures { result ≡ would_set_a_bit media.now offset src.now }
{
    let start = offset as usize;
    let Some(cells) = media.get(start..start + src.len()) else {
        return false;
    };
    sets_a_bit(cells, src)
}

// Whether the media at `offset` differ from `expected`, byte for byte. Not whether programming these bytes would change
// anything: a byte that arrived and then had more bits cleared differs. Where the range is not in the media they differ,
// unless nothing is expected.
pub fn differs_from(media: &[u8], offset: u32, expected: &[u8]) -> bool
    ensures { result ≡ differs_from media.now offset expected.now }
{
    let start = offset as usize;
    let Some(cells) = media.get(start..start + expected.len()) else {
        return !expected.is_empty();
    };
    cells != expected
}

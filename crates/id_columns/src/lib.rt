// Ids in a lent column: whether one stands there, and where it first does. Where oracle.rs asks a set, here is no heap, and a column is scanned, by
// blocks of 32: the library's `contains` and `position` take up to twice as long on long columns. Each promise is an equation with a
// definition of specs/.
#![tactic(auto)]

ghost use Rattle.std.specs.Prelude.{◌≡◌, true, false, ◌+◌, ◌≤◌, length, take};
ghost use Rattle.id_columns.specs.Ids.{has, place_of};

// Whether `id` is one of the ids. Every one is read: with no way out of the loop it is compiled to vectors.
fn any_is(column: &[u32], id: u32) -> bool
    ensures { result ≡ has column.now id }
{
    let mut found = false;
    for at in column {
        found |= *at == id;
    }
    found
}

// A place that `id` does not stand before: the start of the first block that has it, or of what is left behind the last block. It
// stands in its two callers' code, where a call would be a tenth of the time. A loop: `position` over the blocks took a quarter
// longer on 512 ids. The other scans by blocks, of `device`, `device_questions` and `hex_pairs`, share no code with it: they go
// over bytes, one or two columns of them, and ask for a place, or only whether there is one.
#[inline(always)]
fn skip(column: &[u32], id: u32) -> usize
    ensures inside { result ≤ length column.now }
    ensures passed { has (take result column.now) id ≡ false }
    ensures found { result + 32 ≤ length column.now → has column.now id ≡ true }
{
    let mut start = 0;
    for block in column.chunks_exact(32) {
        if any_is(block, id) {
            return start;
        }
        start += 32;
    }
    start
}

// Whether `id` stands in a column of ids.
pub fn contains(column: &[u32], id: u32) -> bool
    ensures { result ≡ has column.now id }
{
    let start = skip(column, id);
    if 32 <= column.len() - start {
        return true;
    }
    any_is(&column[start..], id)
}

// Where `id` first stands in a column of ids. Behind the blocks passed it goes place by place: `position` took an eighth longer.
pub fn first_place(column: &[u32], id: u32) -> Option<usize>
    ensures { result ≡ place_of id column.now }
{
    for at in skip(column, id)..column.len() {
        if column[at] == id {
            return Some(at);
        }
    }
    None
}

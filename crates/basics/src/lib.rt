// What every layer would else write again: an error's number, which of two tests refuses, the lower of two numbers, and a cell of a
// lent column, read or stored, that no index can make go wrong. The definitions and laws that the other crates cite are in specs/ and
// proofs/.
#![tactic(auto)]

ghost use Rattle.std.specs.Prelude.{◌≡◌, ℕ, [], ◌∷◌, ◌≤◌, min, get_or, set};
ghost use Rattle.basics.specs.Tests.{first_of};
ghost use Rattle.basics.specs.Replies.{number_in};

// An error that document 01 numbers.
pub trait Numbered {
    ghost number: { Self → ℕ };

    // Document 01's number of it.
    fn number(self) -> u32
        ensures { result ≡ number self };

    // 0 is no error's: it says that nothing is refused.
    ghost nonzero: { (error : Self) → number error ≡ 0 → ⊥ };
}

// The number of an answer: 0 where nothing is refused, else the error's.
pub fn number_in<T: Drop, E: Numbered>(answer: Result<T, E>) -> u32
    ensures { result ≡ number_in E.number answer }
{
    match answer {
        Ok(_) => 0,
        Err(error) => error.number(),
    }
}

// The number of the first test that refuses, where a test that does not gives 0. (No crate here calls it: it is public
// from before the layers' tests answered by `?`.)
pub fn first_of(number: u32, next: u32) -> u32
    ensures { result ≡ first_of (number ∷ next ∷ []) }
{
    if number != 0 { number } else { next }
}

// The lower of two numbers: as many of a column's rows as there are. (`min` promises the number alone; here are the two bounds that a
// slice of so many rows needs.)
pub fn lower(a: usize, b: usize) -> usize
    ensures { (result ≡ min a b) × (result ≤ a) × (result ≤ b) }
{
    a.min(b)
}

// The cell of a column at a place, and `none` past its end.
pub fn cell<T: Copy>(column: &[T], at: usize, none: T) -> T
    ensures { result ≡ get_or column.now at none }
{
    column.get(at).copied().unwrap_or(none)
}

// Stores a value at a place in a column. Past the column's end nothing is stored, and nothing changes. (By index:
// the check finds this alone, and of what a reference from `get_mut` wrote it asks two answers.)
pub fn store<T: Copy>(column: &mut [T], at: usize, value: T)
    ensures { column.new ≡ set column.old at value }
{
    if at < column.len() {
        column[at] = value;
    }
}

// A text: its lines, its fields, and what a field says as a number or as hexadecimal pairs, after document 01, "Scripts and
// the two programs". The definitions stand here, and numbers are printed here: in decimal, at a place of a lent buffer.
// `read_fields` and `hex_pairs` read. No function asks anything of its caller.
#![tactic(auto)]

ghost use Rattle.std.specs.Prelude.{◌≡◌, length};
ghost use Rattle.text.specs.Numbers.{decimal_of};
ghost use Rattle.text.specs.Printing.{Places, Print, printed_at};

// The bytes that part a text.
pub const TAB: u8 = 9;

pub const LF: u8 = 10;

// How many digits a number has in decimal: how much room `print_number` needs for it.
pub fn places(n: u64) -> usize
    ensures { Places n result }
{
    // Most numbers printed are short: a comparison takes less time than the logarithm.
    if n < 10 {
        return 1;
    }
    if n < 100 {
        return 2;
    }
    if n < 1000 {
        return 3;
    }
    match n.checked_ilog10() {
        Some(power) => power as usize + 1,
        None => 1,
    }
}

// Writes a number's digits, the last one first, over a buffer that has one place for each. (By index: of what `iter_mut` wrote a proof knows
// the length alone.)
fn spell(n: u64, digits: &mut [u8])
    requires { length digits.old ≡ length (decimal_of n) }
    ensures { digits.new ≡ decimal_of n }
{
    let mut rest = n;
    for i in (0..digits.len()).rev() {
        digits[i] = b'0' + (rest % 10) as u8;
        rest /= 10;
    }
}

// Writes a number in decimal, without leading zeros, from `at` on, and answers the place past it. Where it does not fit
// nothing is written. (At a place of a lent buffer: `pieces` `Cursor` is built on it, and no heap holds a text to copy from.)
pub fn print_number(n: u64, out: &mut [u8], at: usize) -> Option<usize>
    ensures { ◌≡◌ {A = Print} (record { reply = result; out = out.new }) (printed_at n at out.old) }
{
    let count = places(n);
    let room = out.len().checked_sub(at)?;
    if room < count {
        return None;
    }
    let past = at + count;
    spell(n, &mut out[at..past]);
    Some(past)
}

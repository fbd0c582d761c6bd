// Bytes as hexadecimal pairs in lower case: whether a field is such pairs, and the bytes that they stand for. Document 01,
// "Scripts and the two programs", says what they may look like; they are the last field of their line, so an LF ends them.
// No function asks anything of its caller: past the text's end there are no pairs.
#![tactic(auto)]

ghost use Rattle.std.specs.Prelude.{◌≡◌, ◌-◌, ◌/◌, ◌≤◌, min, length, drop};
ghost use Rattle.text.specs.Fields.{field_to};
ghost use Rattle.text.specs.Pairs.{is_letter, is_hex, all_hex};
ghost use Rattle.hex_pairs.specs.Answers.{pairs_at, decoded};
ghost use Rattle.hex_pairs.specs.Inner.{Skipped, Stopped, Nibble};

use text::LF;

// Whether a byte is one of the letters `a` to `f`.
fn is_letter(c: u8) -> bool
    ensures { result ≡ is_letter c }
{
    matches!(c, b'a'..=b'f')
}

// Whether a byte is a hexadecimal digit in lower case.
fn is_hex(c: u8) -> bool
    ensures { result ≡ is_hex c }
{
    c.is_ascii_digit() | is_letter(c)
}

// Whether all bytes are hexadecimal digits. It never stops early: that is what lets many bytes be done at once.
fn all_hex(bytes: &[u8]) -> bool
    ensures { result ≡ all_hex bytes.now }
{
    let mut all = true;
    for byte in bytes {
        all &= is_hex(*byte);
    }
    all
}

// Goes on from `from` by whole blocks of hexadecimal digits. The other scans by blocks, of `device`, `device_questions` and
// `id_columns`, share no code with it: their blocks have other sizes or elements, and most ask only whether there is one.
fn skip_blocks(text: &[u8], from: usize) -> usize
    requires { from ≤ length text.now }
    ensures { Skipped text.now from result }
{
    let (blocks, _) = text[from..].as_chunks::<32>();
    let stop = blocks.iter().position(|block| !all_hex(block));
    from + stop.unwrap_or(blocks.len()) * 32
}

// Where the hexadecimal digits from `from` on end.
fn hex_end(text: &[u8], from: usize) -> usize
    requires { from ≤ length text.now }
    ensures { Stopped text.now from result }
{
    let start = skip_blocks(text, from);
    let rest = &text[start..];
    let stop = rest.iter().position(|byte| !is_hex(*byte));
    start + stop.unwrap_or(rest.len())
}

// How many pairs the field from `from` up to the first LF is, as hexadecimal pairs in lower case, and the place past the LF.
// Text and place are two arguments: `decode` is given the same place later, where a call keeps it with its row.
pub fn read_pairs(text: &[u8], from: usize) -> Option<(usize, usize)>
    ensures { result ≡ pairs_at from (field_to 10 (drop from text.now)) }
{
    if text.len() < from {
        return None;
    }
    let stop = hex_end(text, from);
    if *text.get(stop)? != LF {
        return None;
    }
    let size = stop - from;
    if size % 2 != 0 {
        return None;
    }
    Some((size / 2, stop + 1))
}

// The value of a hexadecimal digit, and 0 for any other byte. Two tests in turn, which become no branch: by one `match` of both
// ranges a script's lines of every kind took 7 in 100 longer.
fn hex(c: u8) -> u8
    ensures { Nibble c result }
{
    if c.is_ascii_digit() {
        return c - b'0';
    }
    if is_letter(c) {
        return c - b'a' + 10;
    }
    0
}

// Stores the bytes that the pairs from `from` on stand for, as many as `out` holds. Where the text has fewer pairs, the
// rest of `out` stays as it was. A byte that is no hexadecimal digit counts as 0: `read_pairs` tells whether there is one. (By
// index: of what a `zip` of `iter_mut` wrote a proof knows the length alone.)
pub fn decode(text: &[u8], from: usize, out: &mut [u8])
    ensures { out.new ≡ decoded text.now from out.old }
{
    let pairs = text.len().saturating_sub(from) / 2;
    for k in 0..out.len().min(pairs) {
        let i = from + 2 * k;
        let high = hex(text[i]);
        let low = hex(text[i + 1]);
        out[k] = high * 16 + low;
    }
}

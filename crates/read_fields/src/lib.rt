// A field of a text, read as one byte or as a decimal number. Document 01, "Scripts and the two programs", says what each may
// look like. A field is told by its place: it starts where the caller says and goes up to the byte that ends it, a tab or an
// LF in a script, so that reading goes over each byte once. The answer is what the field says, and the place past the byte that
// ends it. No function asks anything of its caller: past the text's end there is no field.
#![tactic(auto)]

ghost use Rattle.std.specs.Prelude.{◌≡◌, drop};
ghost use Rattle.text.specs.Fields.{field_to};
ghost use Rattle.read_fields.specs.Answers.{letter_at, number_at};
ghost use Rattle.read_fields.specs.Inner.{digits_at};

// The field from `from` up to the first `end`, as one byte. Text and place are two arguments, and the next place is answered: a
// struct of both would be built anew for each field, and say no more.
pub fn read_letter(text: &[u8], from: usize, end: u8) -> Option<(u8, usize)>
    ensures { result ≡ letter_at from (field_to end (drop from text.now)) }
{
    let byte = *text.get(from)?;
    if byte == end {
        return None;
    }
    let close = from + 1;
    if *text.get(close)? != end {
        return None;
    }
    Some((byte, from + 2))
}

// The field from `from` up to the first `end`, as a number: a u32, decimal, without leading zeros.
pub fn read_number(text: &[u8], from: usize, end: u8) -> Option<(u32, usize)>
    ensures { result ≡ number_at from (field_to end (drop from text.now)) }
{
    let first = *text.get(from)?;
    if first == end {
        return None;
    }
    if first != b'0' {
        return digits(text, from, end);
    }
    // A zero in front stands alone.
    let past = from + 1;
    if *text.get(past)? != end {
        return None;
    }
    Some((0, past + 1))
}

// Digits up to `end`. Once the value is above u32 it stays above, so nothing can wrap. By hand and by places: `parse` wants
// the field cut out as a `str`, and takes a `+` and zeros in front.
fn digits(text: &[u8], from: usize, end: u8) -> Option<(u32, usize)>
    ensures { result ≡ digits_at from end 0 (drop from text.now) }
{
    let mut value: u64 = 0;
    for i in from..text.len() {
        let b = text[i];
        if b == end {
            return Some((value as u32, i + 1));
        }
        if !b.is_ascii_digit() {
            return None;
        }
        value = value * 10 + u64::from(b - b'0');
        if value > u64::from(u32::MAX) {
            return None;
        }
    }
    None
}

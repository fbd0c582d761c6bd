// `sweep` and `judge` on standard output: one part of the text after the other, each from the line where the one before ended, up to
// the first that is not taken. What is told are lines of document 01's text from the first on, with their bytes and whether they are
// all, and each part is what `text_parts` promises. Readers and writers are any whose bytes a contract can name: of the script, what is
// taken is what was read; of the text, what is written is a front, and the whole where all is told as taken. No contract says what the
// system's own standard input and output give and take.
#![tactic(auto)]

ghost use Rattle.std.specs.Prelude.{◌≡◌, ◌≢◌, Bool, true, false, ◌≤◌, length, take, drop, IfOk};
ghost use Rattle.std.specs.Io.KnownBytes.{Consumes, IsAtEnd, ReadConsumes, WriteAppends};
ghost use Rattle.text_of_runs.specs.Printout.{sweep_lines, judge_lines};
ghost use Rattle.text_parts.specs.Parts.{part_as, part_left, part_of, lines_for};
ghost use Rattle.printing.specs.Output.{printed_of, FrontOf, Written};

use refusals::Refusal;
use run_lines::{Judged, Program, Swept};
use std::io::{self, ErrorKind, Read, Write};
use std::marker::PhantomData;
use text_parts::Part;

// One byte more than the longest script (`script` `MOST_TEXT`) has: enough to know that a text is too long.
pub const ENOUGH: usize = 65537;

// How many lines standard output took, how many bytes these have, and whether they are the whole text.
#[derive(Clone, Copy, Debug, PartialEq, Eq)]
pub struct Printed {
    pub lines: u64,
    pub bytes: u64,
    pub taken: bool,
}

// One read, made again where a signal interrupts it. (So often that nobody sees the end: a loop without one has no proof that it ends.)
fn read_some<R: Read>(input: &mut R, buf: &mut [u8]) -> io::Result<usize>
    ensures within { IfOk result (λ n. n ≤ length buf.new) }
    ensures bytes { ReadConsumes (R.remaining input.old) (R.remaining input.new) result buf.new }
{
    for _ in 0..u64::MAX {
        match input.read(buf) {
            Ok(n) => return Ok(n),
            Err(e) => {
                if e.kind() != ErrorKind::Interrupted {
                    return Err(e);
                }
            }
        }
    }
    Err(io::Error::from(ErrorKind::Interrupted))
}

// Reads until the buffer is full, the input ends or a read fails: how many bytes stand at the buffer's start. (`read_exact` says
// nothing of these where the input is shorter, and `read_to_end` needs a heap.)
pub fn read_full<R: Read>(input: &mut R, text: &mut [u8]) -> usize
    ensures within { result ≤ length text.new }
    ensures bytes { Consumes (R.remaining input.old) (R.remaining input.new) (take result text.new) }
{
    let mut taken = 0;
    while taken < text.len() {
        match read_some(input, &mut text[taken..]) {
            Ok(0) => break,
            Ok(got) => taken += got,
            Err(_) => break,
        }
    }
    taken
}

// Whether the input has ended behind the bytes taken, or enough were taken. A read that fails is no end: a script that was not read to
// its end is another script.
pub fn input_ended<R: Read>(rt: &impl Eprint, input: &mut R, taken: usize) -> bool
    ensures enough { taken ≡ 65537 → result ≡ true }
    ensures ended { taken ≢ 65537 → result ≡ true → IsAtEnd (R.remaining input.old) }
{
    if taken == ENOUGH {
        return true;
    }
    let mut next = [0u8; 1];
    if let Ok(0) = read_some(input, &mut next) {
        return true;
    }
    let _ = rt.eprintln("standard input could not be read to its end");
    false
}

// A program's text, by what gives its part from a line on.
trait InParts {
    ghost judged: { Bool };

    fn part(text: &[u8], from: u64, out: &mut [u8]) -> Result<Part, Refusal>
        ensures { part_left (part_as result) out.new ≡ part_of (drop from (lines_for judged text.now)) out.old };
}

impl InParts for Swept {
    ghost judged = { false };

    fn part(text: &[u8], from: u64, out: &mut [u8]) -> Result<Part, Refusal> {
        text_parts::sweep_part(text, from, out)
    }
}

impl InParts for Judged {
    ghost judged = { true };

    fn part(text: &[u8], from: u64, out: &mut [u8]) -> Result<Part, Refusal> {
        text_parts::judge_part(text, from, out)
    }
}

// Any program, by its line alone.
struct Any<P>(PhantomData<P>);

impl<P: Program> InParts for Any<P> {
    ghost judged = { P.judged };

    fn part(text: &[u8], from: u64, out: &mut [u8]) -> Result<Part, Refusal> {
        text_parts::part_of::<P>(text, from, out)
    }
}

// One write, made again where a signal interrupts it. (As `read_some`: one function for both would need a trait of its own, and two
// promises in it.)
fn write_some<W: Write>(to: &mut W, bytes: &[u8]) -> io::Result<usize>
    ensures within { IfOk result (λ n. n ≤ length bytes.now) }
    ensures bytes { WriteAppends (W.contents to.old) (W.contents to.new) result bytes.now }
{
    for _ in 0..u64::MAX {
        match to.write(bytes) {
            Ok(n) => return Ok(n),
            Err(e) => {
                if e.kind() != ErrorKind::Interrupted {
                    return Err(e);
                }
            }
        }
    }
    Err(io::Error::from(ErrorKind::Interrupted))
}

// Writes bytes up to the first that are not taken: whether all were. (`write_all` says nothing of those taken where it fails.)
fn hand_over<W: Write>(rt: &impl Eprint, to: &mut W, bytes: &[u8]) -> bool
    ensures { FrontOf (W.contents to.old) (W.contents to.new) bytes.now result }
{
    let mut done = 0;
    while done < bytes.len() {
        match write_some(to, &bytes[done..]) {
            Ok(0) => break,
            Ok(n) => done += n,
            Err(_) => break,
        }
    }
    if done < bytes.len() {
        let _ = rt.eprintln("standard output took no more, and the text is cut off");
        return false;
    }
    true
}

// Prints a program's text for a script up to the first part that is not taken: no run is made for nobody.
fn print_parts<P: InParts, W: Write>(rt: &impl Eprint, to: &mut W, text: &[u8]) -> Printed
    ensures told { (result.lines ≤ length (lines_for P.judged text.now)) × (result ≡ printed_of (lines_for P.judged text.now) result.lines) }
    ensures written { Written (lines_for P.judged text.now) result (W.contents to.old) (W.contents to.new) }
{
    let mut out = [0u8; 262144];
    let mut from: u64 = 0;
    let mut printed: u64 = 0;
    loop {
        let Ok(Part { lines, bytes, left }) = P::part(text, from, &mut out) else {
            // Never taken: there is room for every line.
            return Printed {
                lines: 0,
                bytes: 0,
                taken: false,
            };
        };
        let next = from + lines;
        let sum = printed + bytes as u64;
        if !hand_over(rt, to, &out[..bytes]) {
            return Printed {
                lines: from,
                bytes: printed,
                taken: false,
            };
        }
        if left == 0 {
            return Printed {
                lines: next,
                bytes: sum,
                taken: true,
            };
        }
        from = next;
        printed = sum;
    }
}

// Prints any program's text for a script.
pub fn print<P: Program, W: Write>(rt: &impl Eprint, to: &mut W, text: &[u8]) -> Printed
    ensures told { (result.lines ≤ length (lines_for P.judged text.now)) × (result ≡ printed_of (lines_for P.judged text.now) result.lines) }
    ensures written { Written (lines_for P.judged text.now) result (W.contents to.old) (W.contents to.new) }
{
    print_parts::<Any<P>, W>(rt, to, text)
}

// Prints every run of a script with its ledger, or what refuses it.
pub fn print_sweep<W: Write>(rt: &impl Eprint, to: &mut W, text: &[u8]) -> Printed
    ensures told { (result.lines ≤ length (sweep_lines text.now)) × (result ≡ printed_of (sweep_lines text.now) result.lines) }
    ensures written { Written (sweep_lines text.now) result (W.contents to.old) (W.contents to.new) }
{
    print_parts::<Swept, W>(rt, to, text)
}

// Prints every run of a script with the verdict on its suggested history, or what refuses it.
pub fn print_judge<W: Write>(rt: &impl Eprint, to: &mut W, text: &[u8]) -> Printed
    ensures told { (result.lines ≤ length (judge_lines text.now)) × (result ≡ printed_of (judge_lines text.now) result.lines) }
    ensures written { Written (judge_lines text.now) result (W.contents to.old) (W.contents to.new) }
{
    print_parts::<Judged, W>(rt, to, text)
}

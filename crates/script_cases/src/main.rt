// Replays a sample of scripts: good ones, and a damaged copy of every kind of line. Each line has the text, with its tabs, LFs
// and CRs to be seen, then the answer (A: the number and the line; or 0 0, then line 1's four units and two flags, how many
// calls and how many bytes), then the five lent columns (K codes of kinds, F first, S second, T third fields, B where bytes
// start) and the pool (P), whole: what is not written stays 9. The file stdout beside src/ has what tests/differential's own
// reader answers, which was written from document 01 alone, with the code for each letter, and was made by
//     tests/differential/run sample script > crates/script_cases/stdout
// The texts and their order are those of `sample` in tests/differential/src/script.rs.
#![tactic(auto)]

ghost use Rattle.std.specs.Prelude.{◌<◌};

use basics::Numbered;
use script::{CallsMut, CallsRef, Head, Script, ScriptError};
use std::io;

// A script with a line of every kind: the copies are damaged at each of its places.
const EVERY_KIND: [u8; 56] =
    *b"G\t16\t8\t4\t2\tr\tc\nB\t7\nP\t12\t00ff9a\nP\t0\t\nE\t8\t16\nS\nN\nM\t3\t10\t2\n";

// A blank and a number.
fn print(rt: &impl Print, n: u32) -> io::Result<()> {
    print!(rt; " {n}")
}

// A byte of a text; a tab, an LF and a CR as they are written in a program.
fn print_byte(rt: &impl Print, byte: u8) -> io::Result<()> {
    match byte {
        b'\t' => rt.write_all(b"\\t"),
        b'\n' => rt.write_all(b"\\n"),
        b'\r' => rt.write_all(b"\\r"),
        _ => rt.write_all(&[byte]),
    }
}

fn print_text(rt: &impl Print, text: &[u8]) -> io::Result<()> {
    for byte in text {
        print_byte(rt, *byte)?;
    }
    Ok(())
}

fn print_all<T: Copy + Into<u32>>(rt: &impl Print, column: &[T]) -> io::Result<()> {
    for cell in column {
        print(rt, (*cell).into())?;
    }
    Ok(())
}

fn print_head(rt: &impl Print, head: Head) -> io::Result<()> {
    print(rt, head.geometry.capacity)?;
    print(rt, head.geometry.erase_size)?;
    print(rt, head.geometry.program_size)?;
    print(rt, head.geometry.read_size)?;
    print(rt, u32::from(head.rejected))?;
    print(rt, u32::from(head.carries_on))
}

fn print_answer(rt: &impl Print, answer: Result<Script, ScriptError>) -> io::Result<()> {
    rt.write_all(b" A")?;
    match answer {
        Ok(script) => {
            print(rt, 0)?;
            print(rt, 0)?;
            print_head(rt, script.head)?;
            print(rt, script.calls)?;
            print(rt, script.bytes)
        }
        Err(error) => {
            print(rt, error.refusal.number())?;
            print(rt, error.line)
        }
    }
}

fn print_columns(rt: &impl Print, calls: &CallsRef<'_>) -> io::Result<()> {
    rt.write_all(b" K")?;
    print_all(rt, calls.kinds)?;
    rt.write_all(b" F")?;
    print_all(rt, calls.firsts)?;
    rt.write_all(b" S")?;
    print_all(rt, calls.seconds)?;
    rt.write_all(b" T")?;
    print_all(rt, calls.thirds)?;
    rt.write_all(b" B")?;
    print_all(rt, calls.starts)?;
    rt.write_all(b" P")?;
    print_all(rt, calls.pool)?;
    rt.write_all(b"\n")
}

// A text read into columns of eight cells, one of which the caller lends, and a pool of eight.
fn read_case(rt: &impl Print, text: &[u8], thirds: &mut [u32]) -> io::Result<()> {
    let mut calls = CallsMut {
        kinds: &mut [9; 8],
        firsts: &mut [9; 8],
        seconds: &mut [9; 8],
        thirds,
        starts: &mut [9; 8],
        pool: &mut [9; 8],
    };
    let answer = script::read_script(text, &mut calls);
    print_text(rt, text)?;
    print_answer(rt, answer)?;
    print_columns(rt, &calls.seen())
}

fn script_case(rt: &impl Print, text: &[u8]) -> io::Result<()> {
    let mut thirds = [9u32; 8];
    read_case(rt, text, &mut thirds)
}

// With a column that is shorter than the others.
fn uneven_case(rt: &impl Print, text: &[u8]) -> io::Result<()> {
    let mut thirds = [9u32; 7];
    read_case(rt, text, &mut thirds)
}

// A text too long to show: what counting answers.
fn count_case(rt: &impl Print, text: &[u8]) -> io::Result<()> {
    print!(rt; "{}", text.len())?;
    print_answer(rt, script::count_calls(text))?;
    rt.write_all(b"\n")
}

// Texts, parted by semicolons.
fn text_cases(rt: &impl Print, texts: &[u8]) -> io::Result<()> {
    for text in texts.split(|byte| *byte == b';') {
        script_case(rt, text)?;
    }
    Ok(())
}

// Document 01's example, a script without calls, and the largest numbers.
fn good_cases(rt: &impl Print) -> io::Result<()> {
    text_cases(
        rt,
        b"G\t4\t4\t1\t1\ta\ts\nB\t7\nP\t0\t00\nS\nN\n;\
        G\t16384\t16384\t16384\t16384\tr\ts\n;\
        G\t4\t4\t1\t1\ta\tc\nB\t0\nB\t4294967295\nM\t4294967295\t4294967295\t4294967295\n;\
        G\t4\t4\t1\t1\ta\tc\nE\t4294967295\t4294967295\nE\t0\t0\nP\t4294967295\t0123456789abcdef\n",
    )
}

// Line 1: absent, of another kind, of too few or too many fields; 1 to 3 and 10, after 8 and before a later line's 8.
fn head_cases(rt: &impl Print) -> io::Result<()> {
    text_cases(
        rt,
        b";\
        \n;\
        S\n;\
        G\n;\
        G\t4\t4\t1\t1\ta\n;\
        G\t4\t4\t1\t1\ta\ts\ts\n;\
        G\t4\t4\t1\t1\ts\ta\n;\
        G\t4\t4\t1\t1\ta\ts\r\n;\
        G\t4\t4\t1\t1\ta\ts;\
        G\t4\t4\t1\t01\ta\ts\n;\
        G\t4294967296\t4\t1\t1\ta\ts\n;\
        G\t0\t3\t4\t4\ta\ts\n;\
        G\t16\t3\t4\t4\ta\ts\n;\
        G\t20\t8\t4\t4\ta\ts\n;\
        G\t16385\t1\t1\t1\ta\ts\n;\
        G\t16386\t4\t1\t1\ta\ts\n;\
        G\t4294967295\t1\t1\t1\ta\ts\n;\
        G\t0\t3\t4\t4\ta\tx\n;\
        G\t0\t3\t4\t4\ta\ts\nx\n;\
        G\t16388\t4\t4\t4\ta\ts\nx\n",
    )
}

// A kind letter that is none, a line 1 elsewhere, an empty line, blanks and CRs, fields too few and too many.
fn line_cases(rt: &impl Print) -> io::Result<()> {
    text_cases(
        rt,
        b"G\t4\t4\t1\t1\ta\ts\nX\n;\
        G\t4\t4\t1\t1\ta\ts\ns\n;\
        G\t4\t4\t1\t1\ta\ts\nS\nG\t4\t4\t1\t1\ta\ts\n;\
        G\t4\t4\t1\t1\ta\ts\nS\n\nS\n;\
        G\t4\t4\t1\t1\ta\ts\nS\nS\nS \n;\
        G\t4\t4\t1\t1\ta\ts\nS\nS\nS\nS\r\n;\
        G\t4\t4\t1\t1\ta\ts\nSS\n;\
        G\t4\t4\t1\t1\ta\ts\nS\t\n;\
        G\t4\t4\t1\t1\ta\ts\nN\t1\n;\
        G\t4\t4\t1\t1\ta\ts\nB\n;\
        G\t4\t4\t1\t1\ta\ts\nB\t1\t\n;\
        G\t4\t4\t1\t1\ta\ts\nM\t1\t2\n;\
        G\t4\t4\t1\t1\ta\ts\nM\t1\t2\t3\t4\n;\
        G\t4\t4\t1\t1\ta\ts\nE\t1\n;\
        G\t4\t4\t1\t1\ta\ts\nE\t1\t2\t3\n;\
        G\t4\t4\t1\t1\ta\ts\nP\t1\n;\
        G\t4\t4\t1\t1\ta\ts\nP\t1\t00\t00\n;\
        G\t4\t4\t1\t1\ta\ts\nB\t1\nS\nN\nB\t2\nS\nN\nB\t3\nS\nN;\
        G\t4\t4\t1\t1\ta\ts\nN\nN\nN\nN\nN\nN\nN\nN\nN\nN\n",
    )
}

// Numbers and bytes that are none.
fn field_cases(rt: &impl Print) -> io::Result<()> {
    text_cases(
        rt,
        b"G\t4\t4\t1\t1\ta\ts\nB\t\n;\
        G\t4\t4\t1\t1\ta\ts\nB\t00\n;\
        G\t4\t4\t1\t1\ta\ts\nB\t07\n;\
        G\t4\t4\t1\t1\ta\ts\nB\t+7\n;\
        G\t4\t4\t1\t1\ta\ts\nB\t-7\n;\
        G\t4\t4\t1\t1\ta\ts\nB\t4294967296\n;\
        G\t4\t4\t1\t1\ta\ts\nS\nM\t4294967296\t0\t0\n;\
        G\t4\t4\t1\t1\ta\ts\nS\nM\t0\t4294967296\t0\n;\
        G\t4\t4\t1\t1\ta\ts\nS\nM\t0\t0\t18446744073709551616\n;\
        G\t4\t4\t1\t1\ta\ts\nS\nN\nE\t4294967300\t0\n;\
        G\t4\t4\t1\t1\ta\ts\nS\nN\nE\t0\t42949672950\n;\
        G\t4\t4\t1\t1\ta\ts\nS\nN\nP\t9999999999\t00\n;\
        G\t4\t4\t1\t1\ta\ts\nP\t0\t0\n;\
        G\t4\t4\t1\t1\ta\ts\nP\t0\t000\n;\
        G\t4\t4\t1\t1\ta\ts\nP\t0\t0F\n;\
        G\t4\t4\t1\t1\ta\ts\nP\t0\t0g\n;\
        G\t4\t4\t1\t1\ta\ts\nP\t0\t/0\n;\
        G\t4\t4\t1\t1\ta\ts\nP\t0\t:0\n;\
        G\t4\t4\t1\t1\ta\ts\nP\t0\t`0\n;\
        G\t4\t4\t1\t1\ta\ts\nP\t0\t00 \n",
    )
}

// As many calls and bytes as there are cells; one more, 13; columns of unequal length, 12; both after the script's own
// numbers.
fn room_cases(rt: &impl Print) -> io::Result<()> {
    text_cases(
        rt,
        b"G\t4\t4\t1\t1\ta\ts\nN\nN\nN\nN\nN\nN\nN\nS\n;\
        G\t4\t4\t1\t1\ta\ts\nN\nN\nN\nN\nN\nN\nN\nS\nS\n;\
        G\t4\t4\t1\t1\ta\ts\nP\t0\t0001020304050607\n;\
        G\t4\t4\t1\t1\ta\ts\nP\t0\t0001020304050607\nP\t1\t08\n",
    )?;
    uneven_case(rt, b"G\t4\t4\t1\t1\ta\ts\nS\n")?;
    uneven_case(rt, b"G\t4\t4\t1\t1\ta\ts\nN\nN\nN\nN\nN\nN\nN\nS\nS\n")?;
    uneven_case(rt, b"G\t4\t4\t1\t1\ta\ts\nx\n")?;
    uneven_case(rt, b"G\t16385\t1\t1\t1\ta\ts\n")
}

// The script without the byte at a place.
fn left_out_case(rt: &impl Print, place: usize) -> io::Result<()>
    requires { place < 56 }
{
    let mut less = [0u8; 55];
    less[..place].copy_from_slice(&EVERY_KIND[..place]);
    less[place..].copy_from_slice(&EVERY_KIND[place + 1..]);
    script_case(rt, &less)
}

// The copies that are damaged at a place: the text cut there, another byte in its place, or the byte left out.
fn damaged_cases(rt: &impl Print, place: usize) -> io::Result<()>
    requires { place < 56 }
{
    script_case(rt, &EVERY_KIND[..place])?;
    let mut copy = EVERY_KIND;
    for byte in b"\t\n0" {
        copy[place] = *byte;
        script_case(rt, &copy)?;
    }
    left_out_case(rt, place)
}

fn all_damaged(rt: &impl Print) -> io::Result<()> {
    script_case(rt, &EVERY_KIND)?;
    for place in 0..EVERY_KIND.len() {
        damaged_cases(rt, place)?;
    }
    Ok(())
}

// Programs of 4,096 and 4,097 bytes, texts of 65,536 and 65,537. (The two in turn: one function for both would take a size, and require that
// the line fits.)
fn limit_cases(rt: &impl Print) -> io::Result<()> {
    let mut most = [b'0'; 8211];
    most[..18].copy_from_slice(b"G\t4\t4\t1\t1\ta\ts\nP\t0\t");
    most[8210] = b'\n';
    count_case(rt, &most)?;
    let mut more = [b'0'; 8213];
    more[..18].copy_from_slice(b"G\t4\t4\t1\t1\ta\ts\nP\t0\t");
    more[8212] = b'\n';
    count_case(rt, &more)?;
    count_case(rt, &[b'\n'; 65536])?;
    count_case(rt, &[b'\n'; 65537])
}

fn main(rt: HostRuntime) -> io::Result<()> {
    good_cases(&rt)?;
    head_cases(&rt)?;
    line_cases(&rt)?;
    field_cases(&rt)?;
    room_cases(&rt)?;
    all_damaged(&rt)?;
    limit_cases(&rt)
}

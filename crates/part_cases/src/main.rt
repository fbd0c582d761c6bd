// Parts of what the two programs print for document 01's worked example and for a script that is refused, from each line on, into
// buffers of several lengths: the program, the buffer's length and the line, then how many lines and bytes the part has and how
// many lines are left, or what refuses it, and the bytes. The file stdout beside src/ has the Rust's text, cut into parts by
// tests/differential, and was made by
//     tests/differential/run sample parts > crates/part_cases/stdout
#![tactic(auto)]

use basics::Numbered;
use refusals::Refusal;
use std::io;
use text_parts::Part;

fn print_number(rt: &impl Print, n: u64) -> io::Result<()> {
    print!(rt; " {n}")
}

// What a part answered, and its bytes.
fn show(rt: &impl Print, answer: Result<Part, Refusal>, out: &[u8]) -> io::Result<()> {
    match answer {
        Err(refusal) => {
            rt.write_all(b" refused")?;
            print_number(rt, refusal.number() as u64)?;
            rt.write_all(b"\n")
        }
        Ok(part) => {
            print_number(rt, part.lines)?;
            print_number(rt, part.bytes as u64)?;
            print_number(rt, part.left)?;
            rt.write_all(b"\n")?;
            let n = basics::lower(part.bytes, out.len());
            rt.write_all(&out[..n])
        }
    }
}

// What a program answered from a line on.
fn part_case(
    rt: &impl Print,
    program: &[u8],
    from: u64,
    answer: Result<Part, Refusal>,
    out: &[u8],
) -> io::Result<()> {
    rt.write_all(program)?;
    print_number(rt, out.len() as u64)?;
    print_number(rt, from)?;
    show(rt, answer, out)
}

// From each of thirteen lines on, and past them.
fn line_cases(rt: &impl Print, text: &[u8], out: &mut [u8]) -> io::Result<()> {
    for from in 0..14 {
        let swept = text_parts::sweep_part(text, from, out);
        part_case(rt, b"sweep", from, swept, out)?;
        let judged = text_parts::judge_part(text, from, out);
        part_case(rt, b"judge", from, judged, out)?;
    }
    Ok(())
}

fn room_cases(rt: &impl Print, text: &[u8]) -> io::Result<()> {
    line_cases(rt, text, &mut [0u8; 0])?;
    line_cases(rt, text, &mut [0u8; 5])?;
    line_cases(rt, text, &mut [0u8; 8])?;
    line_cases(rt, text, &mut [0u8; 17])?;
    line_cases(rt, text, &mut [0u8; 40])?;
    line_cases(rt, text, &mut [0u8; 256])
}

fn main(rt: HostRuntime) -> io::Result<()> {
    room_cases(&rt, b"G\t4\t4\t1\t1\ta\ts\nB\t7\nP\t0\t00\nS\nN\n")?;
    room_cases(&rt, b"G\t4\t4\t1\t1\ta\ts\nX\n")
}

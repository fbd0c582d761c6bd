// Replays scripts of every kind, good and refused: each on a line with its tabs, LFs and CRs to be seen (of a long one how many bytes
// it has), then what `sweep` prints for it; and once more with what `judge` prints. The scripts and their order are those of
// tests/differential/src/program_scripts.rs. The file stdout beside src/ has the Rust's answers, and was made by
//     (tests/differential/run sample sweep; tests/differential/run sample judge) > crates/program_cases/stdout
#![tactic(auto)]

use run_lines::{Judged, Swept};
use std::io;

// One of the two programs, by what it prints for a script.
trait Program {
    fn print(rt: &(impl Print + Eprint), text: &[u8]);
}

impl Program for Swept {
    fn print(rt: &(impl Print + Eprint), text: &[u8]) {
        printing::print_sweep(rt, &mut io::writer(rt), text);
    }
}

impl Program for Judged {
    fn print(rt: &(impl Print + Eprint), text: &[u8]) {
        printing::print_judge(rt, &mut io::writer(rt), text);
    }
}

// A byte of a text; a tab, an LF and a CR as they are written in a program.
fn print_byte(rt: &impl Print, byte: u8) -> io::Result<()> {
    match byte {
        b'\t' => rt.write_all(b"\\t"),
        b'\n' => rt.write_all(b"\\n"),
        b'\r' => rt.write_all(b"\\r"),
        _ => rt.write_all(&[byte]),
    }
}

fn print_text(rt: &impl Print, text: &[u8]) -> io::Result<()> {
    for byte in text {
        print_byte(rt, *byte)?;
    }
    Ok(())
}

// A text, or how many bytes it has where it is too long to show.
fn show(rt: &impl Print, text: &[u8]) -> io::Result<()> {
    if text.len() > 1000 {
        print!(rt; "{}", text.len())?;
    } else {
        print_text(rt, text)?;
    }
    rt.write_all(b"\n")
}

// A script, and what one of the programs prints for it.
fn script_case<P: Program>(rt: &(impl Print + Eprint), text: &[u8]) -> io::Result<()> {
    show(rt, text)?;
    P::print(rt, text);
    Ok(())
}

// Texts, parted by semicolons. (A function for each list below and no table: its name and its comment say what the list shows.)
fn text_cases<P: Program>(rt: &(impl Print + Eprint), texts: &[u8]) -> io::Result<()> {
    for text in texts.split(|byte| *byte == b';') {
        script_case::<P>(rt, text)?;
    }
    Ok(())
}

// Document 01's worked example; under each pair of letters; without its end, barrier, begin or program; with a second record.
fn worked_cases<P: Program>(rt: &(impl Print + Eprint)) -> io::Result<()> {
    text_cases::<P>(
        rt,
        b"G\t4\t4\t1\t1\ta\ts\nB\t7\nP\t0\t00\nS\nN\n;\
        G\t4\t4\t1\t1\ta\tc\nB\t7\nP\t0\t00\nS\nN\n;\
        G\t4\t4\t1\t1\tr\ts\nB\t7\nP\t0\t00\nS\nN\n;\
        G\t4\t4\t1\t1\tr\tc\nB\t7\nP\t0\t00\nS\nN\n;\
        G\t4\t4\t1\t1\ta\ts\nB\t7\nP\t0\t00\nS\n;\
        G\t4\t4\t1\t1\ta\ts\nB\t7\nP\t0\t00\nN\n;\
        G\t4\t4\t1\t1\ta\ts\nP\t0\t00\nS\nN\n;\
        G\t4\t4\t1\t1\ta\ts\nB\t7\nS\nN\n;\
        G\t4\t4\t1\t1\ta\ts\nB\t7\nS\nP\t0\t00\nN\n;\
        G\t4\t4\t1\t1\ta\ts\nB\t7\nP\t0\t00\nN\nS\n;\
        G\t4\t4\t1\t1\ta\ts\nB\t7\nP\t0\t00\nS\nN\nB\t8\nP\t1\t00\nS\nN\n;\
        G\t4\t4\t1\t1\ta\tc\nB\t7\nP\t0\t00\nS\nN\nB\t8\nP\t1\t00\nS\nN\n;\
        G\t4\t4\t1\t1\tr\ts\nB\t0\nP\t0\t00\nB\t4294967295\nP\t1\t00\nS\n;\
        G\t4\t4\t1\t1\tr\tc\nB\t0\nP\t0\t00\nB\t4294967295\nP\t1\t00\nS\n",
    )
}

// No operation: no line after the first, on devices of every kind; marks alone, and ranges of operations that are none.
fn empty_cases<P: Program>(rt: &(impl Print + Eprint)) -> io::Result<()> {
    text_cases::<P>(
        rt,
        b"G\t1\t1\t1\t1\ta\ts\n;\
        G\t1\t1\t1\t1\tr\tc\n;\
        G\t4\t4\t1\t1\ta\ts\n;\
        G\t16\t8\t4\t4\ta\tc\n;\
        G\t24\t8\t4\t2\tr\ts\n;\
        G\t16384\t16384\t16384\t16384\tr\ts\n;\
        G\t16384\t1\t1\t1\ta\tc\n;\
        G\t12288\t4096\t256\t4\ta\ts\n;\
        G\t4\t4\t1\t1\ta\ts\nB\t7\n;\
        G\t4\t4\t1\t1\ta\ts\nN\n;\
        G\t4\t4\t1\t1\ta\ts\nN\nN\nN\nB\t1\nB\t2\nN\nB\t3\n;\
        G\t4\t4\t1\t1\ta\tc\nB\t4294967295\nB\t4294967294\nB\t4294967293\nN\n;\
        G\t4\t4\t1\t1\ta\ts\nB\t0\nB\t0\n;\
        G\t4\t4\t1\t1\ta\ts\nM\t1\t0\t0\n;\
        G\t4\t4\t1\t1\ta\tc\nM\t1\t0\t1\n;\
        G\t4\t4\t1\t1\ta\ts\nM\t1\t0\t1\n;\
        G\t4\t4\t1\t1\ta\ts\nM\t1\t5\t2\nM\t2\t2\t5\nN\n;\
        G\t4\t4\t1\t1\ta\tc\nB\t1\nM\t2\t3\t4\nB\t3\n;\
        G\t4\t4\t1\t1\tr\ts\nP\t0\t\n;\
        G\t4\t4\t1\t1\tr\tc\nE\t0\t0\n",
    )
}

// Programs: of nothing, of whole units and several, at each place; bytes that change no cell, and padding, which is not torn.
fn unit_cases<P: Program>(rt: &(impl Print + Eprint)) -> io::Result<()> {
    text_cases::<P>(
        rt,
        b"G\t4\t4\t1\t1\ta\ts\nB\t1\nP\t0\t\nS\n;\
        G\t4\t4\t1\t1\ta\ts\nB\t1\nP\t4\t\nS\n;\
        G\t4\t4\t1\t1\ta\ts\nB\t1\nP\t3\t00\nS\n;\
        G\t4\t4\t1\t1\ta\ts\nB\t1\nP\t0\t0000\nS\n;\
        G\t4\t4\t1\t1\ta\ts\nB\t1\nP\t0\t00000000\nS\n;\
        G\t4\t4\t1\t1\ta\tc\nB\t1\nP\t0\t00000000\nS\n;\
        G\t4\t4\t1\t1\ta\ts\nB\t1\nP\t0\t0000ffff\nS\n;\
        G\t4\t4\t1\t1\ta\tc\nB\t1\nP\t0\t0000ffff\nS\n;\
        G\t4\t4\t1\t1\ta\ts\nB\t1\nP\t0\tff00ff00\nS\n;\
        G\t4\t4\t1\t1\ta\ts\nB\t1\nP\t0\tffffffff\nS\n;\
        G\t4\t4\t1\t1\ta\ts\nB\t1\nP\t1\t7f\nP\t2\tfe\nS\nN\n;\
        G\t4\t4\t2\t1\ta\ts\nB\t1\nP\t0\t0000\nS\n;\
        G\t4\t4\t2\t1\ta\ts\nB\t1\nP\t0\t00000000\nS\n;\
        G\t4\t4\t2\t1\ta\tc\nB\t1\nP\t0\t0102\nP\t2\t0304\nS\n;\
        G\t4\t4\t2\t2\tr\ts\nB\t1\nP\t2\t0001\nS\nN\nB\t2\nP\t0\tff00\nS\nN\n;\
        G\t8\t4\t4\t1\ta\ts\nB\t1\nP\t0\t00000000\nS\n;\
        G\t8\t4\t4\t1\ta\ts\nB\t1\nP\t0\t0000000000000000\nS\n;\
        G\t8\t8\t8\t8\ta\ts\nB\t1\nP\t0\t00000000000000ff\nS\n;\
        G\t8\t8\t8\t8\tr\tc\nB\t1\nP\t0\t0000ffff00000000\nN\nS\n;\
        G\t8\t4\t4\t4\tr\tc\nB\t1\nP\t0\t00000000ffffffff\nS\n;\
        G\t8\t4\t2\t1\ta\ts\nB\t9\nP\t2\t123456789abc\nS\nN\n;\
        G\t8\t4\t2\t1\tr\ts\nB\t9\nP\t2\t123456789abc\nS\nN\n",
    )
}

// Programs over the same cells: again, over one another, with and without a barrier between; bits set without an erase, and
// after one.
fn again_cases<P: Program>(rt: &(impl Print + Eprint)) -> io::Result<()> {
    text_cases::<P>(
        rt,
        b"G\t4\t4\t1\t1\ta\ts\nB\t1\nP\t0\t00\nP\t0\t00\nS\n;\
        G\t4\t4\t1\t1\ta\tc\nB\t1\nP\t0\t00\nP\t0\t00\nS\n;\
        G\t4\t4\t1\t1\ta\tc\nB\t1\nP\t0\t0000\nP\t0\t0000\nS\n;\
        G\t4\t4\t1\t1\tr\tc\nB\t1\nP\t0\t0000\nP\t0\t0000\nS\n;\
        G\t4\t4\t1\t1\tr\ts\nB\t1\nP\t0\t0f0f\nS\nN\nB\t2\nP\t0\t0f0f\nS\nN\n;\
        G\t4\t4\t1\t1\ta\tc\nB\t1\nP\t0\t00f0\nN\nP\t0\t00f0\nS\n;\
        G\t4\t4\t1\t1\ta\tc\nB\t1\nP\t0\t000000\nB\t2\nP\t0\t000000\nS\n;\
        G\t4\t4\t1\t1\ta\tc\nB\t1\nP\t0\t000000\nB\t2\nP\t1\t0000\nS\n;\
        G\t4\t4\t1\t1\tr\tc\nB\t1\nP\t0\t000000\nB\t2\nP\t2\t0000\nS\n;\
        G\t4\t4\t1\t1\ta\tc\nB\t1\nP\t0\tf0\nP\t0\t0f\nS\n;\
        G\t4\t4\t1\t1\tr\tc\nB\t1\nP\t0\tf0\nP\t0\t0f\nS\n;\
        G\t4\t4\t1\t1\tr\tc\nB\t1\nP\t0\tf0\nB\t2\nP\t0\t0f\nB\t3\nP\t0\t30\nS\n;\
        G\t4\t4\t1\t1\ta\ts\nB\t1\nP\t0\tf0\nP\t0\t0f\nS\n;\
        G\t4\t4\t1\t1\tr\tc\nB\t1\nP\t0\t00\nP\t0\tff\nP\t0\tff\nS\n;\
        G\t4\t4\t1\t1\tr\ts\nB\t1\nP\t0\t00\nE\t0\t4\nP\t0\tff\nS\n;\
        G\t4\t4\t1\t1\tr\tc\nB\t1\nP\t0\t00\nN\nE\t0\t4\nB\t2\nP\t0\t01\nS\n;\
        G\t4\t4\t1\t1\tr\tc\nB\t1\nP\t0\t00ff\nS\nN\nB\t2\nP\t0\t00fe\nS\nN\n;\
        G\t4\t2\t2\t2\ta\tc\nB\t1\nP\t0\t00ff\nB\t2\nP\t0\tff00\nB\t3\nP\t0\t0000\nS\n",
    )
}

// Erases: of nothing, of erased blocks, of one and several, after a program; one that fails and is done again.
fn erase_cases<P: Program>(rt: &(impl Print + Eprint)) -> io::Result<()> {
    text_cases::<P>(
        rt,
        b"G\t4\t4\t1\t1\ta\ts\nB\t1\nE\t0\t0\nS\n;\
        G\t4\t4\t1\t1\ta\ts\nB\t1\nE\t0\t4\nS\n;\
        G\t4\t2\t1\t1\ta\ts\nB\t1\nE\t2\t2\nS\n;\
        G\t4\t2\t1\t1\ta\ts\nB\t1\nE\t0\t4\nS\n;\
        G\t4\t1\t1\t1\ta\ts\nB\t1\nE\t0\t4\nS\n;\
        G\t4\t4\t1\t1\ta\ts\nP\t0\t00\nB\t1\nE\t0\t4\nS\nN\n;\
        G\t4\t4\t1\t1\ta\tc\nP\t0\t00\nB\t1\nE\t0\t4\nS\nN\n;\
        G\t4\t2\t1\t1\ta\ts\nP\t0\t00000000\nB\t1\nE\t0\t4\nS\nN\n;\
        G\t4\t2\t1\t1\ta\tc\nP\t0\t00000000\nB\t1\nE\t0\t4\nS\nN\n;\
        G\t4\t1\t1\t1\ta\tc\nP\t0\t00ff00\nS\nB\t1\nE\t0\t3\nS\nN\n;\
        G\t4\t2\t1\t1\ta\tc\nP\t0\t00000000\nB\t1\nE\t0\t4\nE\t0\t4\nS\nN\n;\
        G\t4\t2\t1\t1\tr\tc\nP\t3\t00\nB\t1\nE\t0\t4\nB\t2\nE\t2\t2\nS\nN\n;\
        G\t8\t4\t2\t1\tr\ts\nB\t1\nP\t0\t0000\nE\t0\t8\nP\t0\t0102\nS\nN\n;\
        G\t8\t4\t2\t1\tr\tc\nB\t1\nP\t0\t0000\nN\nE\t0\t8\nB\t2\nP\t0\t0102\nS\nN\n;\
        G\t16\t8\t4\t4\ta\ts\nB\t1\nE\t0\t16\nS\nN\n;\
        G\t12\t4\t2\t1\ta\tc\nP\t4\t0000\nB\t1\nE\t0\t12\nS\n;\
        G\t16384\t4096\t4096\t4096\ta\ts\nB\t1\nE\t0\t16384\nS\n",
    )
}

// Barriers: alone, several, before and after; one that fails acknowledges nothing.
fn barrier_cases<P: Program>(rt: &(impl Print + Eprint)) -> io::Result<()> {
    text_cases::<P>(
        rt,
        b"G\t4\t4\t1\t1\ta\ts\nS\n;\
        G\t4\t4\t1\t1\ta\tc\nS\n;\
        G\t4\t4\t1\t1\tr\ts\nS\nS\nS\n;\
        G\t4\t4\t1\t1\ta\ts\nB\t1\nS\nB\t2\nS\nN\nS\n;\
        G\t4\t4\t1\t1\ta\tc\nB\t1\nP\t0\t00\nS\nS\n;\
        G\t4\t4\t1\t1\ta\ts\nB\t1\nP\t0\t00\nS\nS\n;\
        G\t4\t4\t1\t1\ta\tc\nS\nB\t1\nP\t0\t00\n;\
        G\t4\t4\t1\t1\ta\tc\nB\t1\nP\t0\t00\nB\t2\nS\nB\t3\nP\t1\t00\nS\n;\
        G\t4\t4\t1\t1\ta\tc\nB\t1\nP\t0\t00\nS\nP\t1\t00\nN\nS\n;\
        G\t4\t4\t1\t1\ta\tc\nB\t1\nP\t0\t00\nS\nP\t1\t\nS\n;\
        G\t4\t4\t1\t1\ta\tc\nB\t1\nP\t0\t00\nS\nE\t0\t0\n",
    )
}

// Ranges: of operations recorded already, of later ones, backwards, over one another. A writer that stops meets 26 by the first
// kind.
fn range_cases<P: Program>(rt: &(impl Print + Eprint)) -> io::Result<()> {
    text_cases::<P>(
        rt,
        b"G\t4\t4\t1\t1\ta\tc\nP\t0\t00\nS\nM\t1\t0\t1\n;\
        G\t4\t4\t1\t1\ta\tc\nP\t0\t00\nS\nM\t1\t0\t2\n;\
        G\t4\t4\t1\t1\ta\tc\nP\t0\t00\nS\nM\t1\t1\t2\n;\
        G\t4\t4\t1\t1\ta\tc\nP\t0\t00\nS\nM\t1\t2\t0\n;\
        G\t4\t4\t1\t1\ta\tc\nP\t0\t00\nS\nM\t1\t0\t9\n;\
        G\t4\t4\t1\t1\ta\tc\nP\t0\t0000\nP\t2\t00\nS\nM\t1\t0\t1\nM\t2\t1\t2\n;\
        G\t4\t4\t1\t1\ta\tc\nP\t0\t0000\nP\t2\t00\nS\nM\t2\t1\t2\nM\t1\t0\t1\n;\
        G\t4\t4\t1\t1\ta\tc\nP\t0\t0000\nS\nM\t1\t0\t1\nM\t2\t0\t1\nM\t3\t0\t2\n;\
        G\t4\t4\t1\t1\ta\tc\nB\t1\nP\t0\t00\nM\t2\t0\t1\nP\t1\t00\nS\n;\
        G\t4\t4\t1\t1\ta\tc\nB\t1\nP\t0\t00\nM\t2\t1\t2\nP\t1\t00\nS\nN\n;\
        G\t4\t4\t1\t1\ta\tc\nM\t1\t0\t1\nP\t0\t00\nP\t1\t00\nS\n;\
        G\t4\t4\t1\t1\ta\tc\nM\t1\t1\t3\nP\t0\t00\nP\t1\t00\nS\nM\t2\t1\t0\n;\
        G\t4\t4\t1\t1\tr\tc\nB\t1\nP\t0\t00\nN\nM\t2\t0\t0\nB\t3\nP\t1\t00\nS\nM\t4\t1\t3\n;\
        G\t4\t4\t1\t1\tr\tc\nP\t0\tf0\nP\t0\t0f\nS\nM\t1\t0\t1\nM\t2\t1\t2\n;\
        G\t4\t4\t1\t1\ta\ts\nM\t1\t0\t1\nP\t0\t00\nS\n;\
        G\t4\t4\t1\t1\ta\ts\nM\t1\t0\t2\nP\t0\t00\nS\n;\
        G\t4\t4\t1\t1\ta\ts\nM\t1\t1\t2\nP\t0\t00\nP\t1\t00\nS\n;\
        G\t4\t4\t1\t1\ta\ts\nM\t1\t1\t0\nP\t0\t00\nS\n;\
        G\t4\t4\t1\t1\tr\ts\nM\t1\t0\t1\nM\t2\t1\t2\nP\t0\t00\nP\t1\t00\nS\n;\
        G\t4\t4\t1\t1\ta\ts\nP\t0\t00\nM\t1\t1\t2\nP\t1\t00\nS\n;\
        G\t4\t4\t1\t1\ta\ts\nP\t0\t00\nS\nM\t1\t2\t2\n;\
        G\t4\t4\t1\t1\ta\ts\nP\t0\t00\nS\nM\t1\t2\t9\n;\
        G\t4\t4\t1\t1\ta\ts\nB\t1\nP\t0\t00\nM\t2\t1\t1\nS\nN\n;\
        G\t4\t4\t1\t1\ta\ts\nP\t0\t00\nS\nM\t1\t0\t1\n;\
        G\t4\t4\t1\t1\ta\ts\nP\t0\t00\nS\nM\t1\t1\t2\n;\
        G\t4\t4\t1\t1\ta\ts\nP\t0\t00\nS\nM\t1\t2\t1\n;\
        G\t4\t4\t1\t1\ta\ts\nP\t0\t00\nM\t1\t0\t1\n;\
        G\t4\t4\t1\t1\tr\ts\nP\t0\t00\nM\t1\t0\t1\nS\n;\
        G\t4\t4\t1\t1\ta\ts\nS\nM\t1\t0\t0\n;\
        G\t4\t4\t1\t1\ta\ts\nS\nM\t1\t1\t0\nS\n;\
        G\t4\t4\t1\t1\ta\ts\nP\t4\t\nM\t1\t0\t1\n;\
        G\t4\t4\t1\t1\ta\ts\nB\t1\nP\t0\t00\nS\nN\nM\t9\t4294967295\t0\n",
    )
}

// Calls that the geometry refuses, 4 to 6, and 20: a writer that stops returns it (24), one that carries on leaves it out.
fn refused_cases<P: Program>(rt: &(impl Print + Eprint)) -> io::Result<()> {
    text_cases::<P>(
        rt,
        b"G\t8\t4\t2\t1\ta\ts\nP\t1\t0000\n;\
        G\t8\t4\t2\t1\ta\tc\nP\t1\t0000\n;\
        G\t8\t4\t2\t1\ta\ts\nP\t0\t00\n;\
        G\t8\t4\t2\t1\ta\tc\nP\t0\t00\n;\
        G\t8\t4\t2\t1\ta\ts\nP\t8\t0000\n;\
        G\t8\t4\t2\t1\ta\tc\nP\t8\t0000\n;\
        G\t8\t4\t2\t1\ta\ts\nP\t4294967294\t0000\n;\
        G\t8\t4\t2\t1\ta\tc\nP\t4294967294\t0000\n;\
        G\t8\t4\t2\t1\ta\ts\nE\t2\t4\n;\
        G\t8\t4\t2\t1\ta\tc\nE\t2\t4\n;\
        G\t8\t4\t2\t1\ta\ts\nE\t0\t2\n;\
        G\t8\t4\t2\t1\ta\tc\nE\t0\t2\n;\
        G\t8\t4\t2\t1\ta\ts\nE\t4\t8\n;\
        G\t8\t4\t2\t1\ta\tc\nE\t4\t8\n;\
        G\t8\t4\t2\t1\ta\ts\nE\t0\t4294967292\n;\
        G\t8\t4\t2\t1\ta\tc\nE\t4294967292\t4\n;\
        G\t8\t4\t2\t1\ta\tc\nP\t10\t\n;\
        G\t8\t4\t2\t1\ta\ts\nP\t10\t\n;\
        G\t8\t4\t2\t1\ta\ts\nP\t8\t\n;\
        G\t8\t4\t2\t1\ta\ts\nE\t8\t0\n;\
        G\t8\t4\t2\t1\ta\ts\nE\t12\t0\n;\
        G\t4\t4\t1\t1\tr\ts\nP\t0\t00\nP\t0\t01\n;\
        G\t4\t4\t1\t1\ta\ts\nP\t0\t00\nP\t0\t01\n;\
        G\t4\t4\t1\t1\tr\ts\nB\t1\nP\t0\t00\nS\nN\nP\t3\t0000\n;\
        G\t4\t4\t1\t1\ta\tc\nB\t1\nP\t0\t00\nP\t9\t00\nS\nN\nB\t2\nE\t1\t1\nS\n;\
        G\t4\t4\t1\t1\tr\tc\nB\t1\nP\t0\t00\nP\t0\t80\nS\nN\nB\t2\nP\t0\t80\nS\n;\
        G\t4\t4\t1\t1\ta\ts\nS\nS\nS\nP\t9\t00\nS\n;\
        G\t8\t4\t2\t1\tr\tc\nB\t1\nP\t0\t0000\nP\t1\t00\nP\t0\t00\nP\t8\t0000\nP\t0\tffff\nS\nN\n",
    )
}

// Ids that come twice (31), and histories that skip a torn record (32).
fn history_cases<P: Program>(rt: &(impl Print + Eprint)) -> io::Result<()> {
    text_cases::<P>(
        rt,
        b"G\t4\t4\t1\t1\ta\tc\nB\t1\nP\t0\t00\nB\t1\nP\t1\t00\nS\n;\
        G\t4\t4\t1\t1\ta\ts\nB\t1\nP\t0\t0000\nB\t1\nP\t2\t00\nS\n;\
        G\t4\t4\t1\t1\ta\tc\nB\t1\nP\t0\t0000\nB\t1\nP\t2\t0000\nS\n;\
        G\t4\t4\t1\t1\ta\tc\nB\t1\nP\t0\t00\nB\t2\nP\t1\t00\nB\t1\nP\t2\t00\nS\n;\
        G\t4\t4\t1\t1\ta\tc\nB\t5\nP\t0\tff\nB\t5\nP\t1\t00\nS\n;\
        G\t4\t4\t1\t1\ta\tc\nP\t0\t0000\nS\nM\t3\t0\t1\nM\t3\t0\t1\n;\
        G\t4\t4\t1\t1\ta\tc\nB\t1\nP\t0\t0000\nN\nB\t2\nP\t2\t00\nN\nS\n;\
        G\t4\t4\t1\t1\ta\tc\nB\t2\nP\t0\t0000\nB\t1\nP\t2\t0000\nS\n;\
        G\t4\t4\t1\t1\tr\tc\nB\t1\nP\t0\t0000\nB\t2\nP\t2\t00\nB\t3\nP\t3\t00\nS\n;\
        G\t4\t2\t2\t1\ta\tc\nB\t1\nP\t0\t0000\nS\nN\nB\t2\nP\t2\t0000\nS\nN\n;\
        G\t4\t2\t1\t1\ta\tc\nP\t0\t00000000\nB\t1\nE\t0\t4\nB\t2\nP\t0\t0f\nS\n;\
        G\t4\t4\t1\t1\ta\tc\nP\t0\t0000\nP\t2\t00\nS\nM\t2\t1\t2\nM\t1\t0\t1\nM\t3\t1\t2\n;\
        G\t4\t4\t1\t1\ta\tc\nB\t4294967295\nP\t0\t0000\nB\t4294967294\nP\t2\t00\nB\t0\nP\t3\t00\nS\n",
    )
}

// Line 1: absent, of another kind, of too few and too many fields, without its LF; letters and numbers that are none.
fn head_cases<P: Program>(rt: &(impl Print + Eprint)) -> io::Result<()> {
    text_cases::<P>(
        rt,
        b";\
        \n;\
        S\n;\
        G\n;\
        G\t4\t4\t1\t1\ta\n;\
        G\t4\t4\t1\t1\ta\ts\ts\n;\
        G\t4\t4\t1\t1\ts\ta\n;\
        G\t4\t4\t1\t1\ta\ts;\
        G\t4\t4\t1\t1\ta\ts\r\n;\
        g\t4\t4\t1\t1\ta\ts\n;\
        G\t4\t4\t1\t01\ta\ts\n;\
        G\t4\t4\t1\t\ta\ts\n;\
        G\t4294967296\t4\t1\t1\ta\ts\n",
    )
}

// Line 1: what its units refuse, 1 to 3 and 10, after 8 and before a later line's 8.
fn geometry_cases<P: Program>(rt: &(impl Print + Eprint)) -> io::Result<()> {
    text_cases::<P>(
        rt,
        b"G\t0\t4\t1\t1\ta\ts\n;\
        G\t4\t0\t1\t1\ta\ts\n;\
        G\t4\t4\t0\t1\ta\ts\n;\
        G\t4\t4\t1\t0\ta\ts\n;\
        G\t0\t3\t4\t4\ta\ts\n;\
        G\t6\t3\t1\t1\ta\ts\n;\
        G\t8\t8\t6\t1\ta\ts\n;\
        G\t8\t8\t4\t3\ta\ts\n;\
        G\t16\t3\t4\t4\ta\ts\n;\
        G\t20\t8\t4\t4\ta\ts\n;\
        G\t8\t2\t4\t1\ta\ts\n;\
        G\t8\t4\t2\t4\ta\ts\n;\
        G\t4\t8\t4\t4\ta\ts\n;\
        G\t16385\t1\t1\t1\ta\ts\n;\
        G\t16386\t4\t1\t1\ta\ts\n;\
        G\t16388\t4\t1\t1\tr\tc\n;\
        G\t32768\t32768\t1\t1\ta\ts\n;\
        G\t4294967295\t1\t1\t1\ta\ts\n;\
        G\t0\t3\t4\t4\ta\tx\n;\
        G\t0\t3\t4\t4\ta\ts\nx\n;\
        G\t3\t3\t1\t1\ta\ts\nx\n;\
        G\t2\t4\t1\t1\ta\ts\nx\n;\
        G\t16388\t4\t4\t4\ta\ts\nx\n;\
        \tG\t4\t4\t1\t1\ta\ts\n",
    )
}

// Other lines that are none: a letter without a meaning, a second line 1, barriers and marks with fields too few and too many,
// or numbers that are none.
fn line_cases<P: Program>(rt: &(impl Print + Eprint)) -> io::Result<()> {
    text_cases::<P>(
        rt,
        b"G\t4\t4\t1\t1\ta\ts\nX\n;\
        G\t4\t4\t1\t1\ta\ts\ns\n;\
        G\t4\t4\t1\t1\ta\ts\n\n;\
        G\t4\t4\t1\t1\ta\ts\nS\nS\n\n;\
        G\t4\t4\t1\t1\ta\ts\nS\nG\t4\t4\t1\t1\ta\ts\n;\
        G\t4\t4\t1\t1\ta\ts\nS\nS\nS;\
        G\t4\t4\t1\t1\ta\ts\nS\t\n;\
        G\t4\t4\t1\t1\ta\ts\nSS\n;\
        G\t4\t4\t1\t1\ta\ts\nS\r\n;\
        G\t4\t4\t1\t1\ta\ts\nN\t1\n;\
        G\t4\t4\t1\t1\ta\ts\nN\nN\nN\nN;\
        G\t4\t4\t1\t1\ta\ts\nn\n;\
        G\t4\t4\t1\t1\ta\ts\nB\n;\
        G\t4\t4\t1\t1\ta\ts\nB\t\n;\
        G\t4\t4\t1\t1\ta\ts\nB\t1\t\n;\
        G\t4\t4\t1\t1\ta\ts\nB\t01\n;\
        G\t4\t4\t1\t1\ta\ts\nB\t-1\n;\
        G\t4\t4\t1\t1\ta\ts\nB\t+1\n;\
        G\t4\t4\t1\t1\ta\ts\nB\t1a\n;\
        G\t4\t4\t1\t1\ta\ts\nB\t4294967296\n;\
        G\t4\t4\t1\t1\ta\ts\nS\nB\t18446744073709551616\n;\
        G\t4\t4\t1\t1\ta\ts\nM\t1\t2\n;\
        G\t4\t4\t1\t1\ta\ts\nM\t1\t2\t3\t4\n;\
        G\t4\t4\t1\t1\ta\ts\nM\t1\t2\t\n;\
        G\t4\t4\t1\t1\ta\ts\nM\t\t2\t3\n;\
        G\t4\t4\t1\t1\ta\ts\nS\nS\nM\t1\t00\t3\n;\
        G\t4\t4\t1\t1\ta\ts\nM\t1\t2\t4294967296\n",
    )
}

// Erases and programs that are none; then a line that is none after a call that the geometry refuses, and after a whole script.
fn field_cases<P: Program>(rt: &(impl Print + Eprint)) -> io::Result<()> {
    text_cases::<P>(
        rt,
        b"G\t4\t4\t1\t1\ta\ts\nE\t1\n;\
        G\t4\t4\t1\t1\ta\ts\nE\t0\t4\t4\n;\
        G\t4\t4\t1\t1\ta\ts\nE\t0\t04\n;\
        G\t4\t4\t1\t1\ta\ts\nE\t4294967296\t4\n;\
        G\t4\t4\t1\t1\ta\ts\nE\t0\t4;\
        G\t4\t4\t1\t1\ta\ts\nP\t1\n;\
        G\t4\t4\t1\t1\ta\ts\nP\t0\t00\t00\n;\
        G\t4\t4\t1\t1\ta\ts\nP\t0\t0\n;\
        G\t4\t4\t1\t1\ta\ts\nP\t0\t000\n;\
        G\t4\t4\t1\t1\ta\ts\nP\t0\t0F\n;\
        G\t4\t4\t1\t1\ta\ts\nP\t0\t0g\n;\
        G\t4\t4\t1\t1\ta\ts\nP\t0\t/0\n;\
        G\t4\t4\t1\t1\ta\ts\nP\t0\t:0\n;\
        G\t4\t4\t1\t1\ta\ts\nP\t0\t`0\n;\
        G\t4\t4\t1\t1\ta\ts\nP\t0\t00\r\n;\
        G\t4\t4\t1\t1\ta\ts\nP\t00\t00\n;\
        G\t4\t4\t1\t1\ta\ts\nP\t\t00\n;\
        G\t4\t4\t1\t1\ta\ts\nP\t0\t00;\
        G\t4\t4\t1\t1\ta\ts\np\t0\t00\n;\
        G\t4\t4\t1\t1\ta\ts\nP\t9\t00\nx\n;\
        G\t4\t4\t1\t1\ta\ts\nB\t1\nP\t0\t00\nS\nN\nB\t2\nP\t1\t00\nS\nN\nx\n",
    )
}

// Drawn once by the layer's generator from what has few runs.
fn drawn_cases<P: Program>(rt: &(impl Print + Eprint)) -> io::Result<()> {
    text_cases::<P>(
        rt,
        b"G\t8\t4\t4\t2\tr\tc\nB\t1\nP\t0\t000000ff\nP\t0\t9cdc1971ffffffff\nP\t0\t6cdbd64e\nP\t4\tff000ff0\nB\t2\nS\nP\t4\t0ff0f0ff0fffffff\n;\
        G\t16\t8\t4\t1\tr\ts\nB\t2\nP\t0\t00000000\nP\t4\t0ffff0ff\nP\t4\t0ffff0ff\nS\n;\
        G\t4\t2\t2\t1\ta\tc\nP\t0\t0f0f\nE\t2\t2\nB\t4294967196\nS\nN\nP\t0\t0f0f\nE\t2\t0\nE\t0\t0\nB\t4294967197\nE\t0\t4\n;\
        G\t20\t4\t2\t1\tr\tc\nM\t2\t1\t1\nM\t3\t1\t0\nP\t0\t0f00\nP\t10\t62f4338db658ceff\nE\t0\t8\nN\nB\t4\nP\t0\t000000000000000000ffffffffff\n;\
        G\t2\t2\t2\t1\tr\tc\nB\t1\nP\t0\tc770\nP\t0\tc770\nS\nB\t3\nP\t0\t1076\nS\nN\nB\t4\nP\t0\tffff\n;\
        G\t20\t4\t4\t1\tr\tc\nB\t1\nP\t0\t6680f0163620b60c\nP\t8\tef0240ff\nS\nN\n;\
        G\t12288\t4096\t128\t32\tr\ts\nP\t0\t\nP\t0\t\nP\t0\t\nP\t0\t\nS\nS\nP\t8192\t\nN\n;\
        G\t4\t4\t4\t4\tr\tc\nB\t1\nE\t0\t4\nP\t0\tf0ffffff\nS\nP\t0\t000000ff\nE\t0\t0\nP\t0\t\nP\t0\t1f8ad0ba0cff\n;\
        G\t16\t16\t16\t1\ta\ts\nB\t4294967196\nP\t0\t\nB\t3859856493\nP\t0\t\nE\t0\t16\nE\t0\t16\nE\t0\t16\nP\t16\t\nP\t16\t\nS\nB\t4294967198\nS\n;\
        G\t16\t4\t1\t1\ta\ts\nB\t3\nP\t0\t00\nP\t1\tff\nP\t1\tff\nS\nM\t2\t7\t4\nB\t3\nP\t2\t000000ff\nS\nN\n;\
        G\t16\t8\t8\t2\ta\ts\nP\t0\t\nP\t0\t\nB\t1\nP\t0\t\nS\nB\t2\nB\t3\nB\t4\n;\
        G\t6\t2\t2\t1\ta\tc\nS\nE\t2\t4\nE\t4\t0\nP\t0\ta3c8086e9aff\nP\t4\t\nP\t4\t\nE\t0\t0\nB\t2\n;\
        G\t4\t4\t2\t2\tr\tc\nB\t4294967196\nP\t0\t\nP\t0\t\nP\t0\t\nS\nN\nB\t4294967197\nP\t0\t\nS\nN\nB\t4294967198\nP\t0\t00ff\nP\t0\t\nS\nN\nB\t4294967199\nP\t2\tbeff\nP\t0\t7cd2\nN\n;\
        G\t8192\t8192\t8192\t1024\ta\tc\nB\t1\nP\t0\t\nS\nB\t2\nP\t0\t\nP\t0\t\nP\t0\t\nS\nB\t3\nP\t0\t\nP\t0\t\nS\nN\n;\
        G\t24\t8\t2\t1\tr\tc\nB\t1\nP\t0\td482\nS\nP\t22\td5ff\nP\t20\tc0a0ffff\nS\nB\t2\nB\t3\n;\
        G\t4\t4\t4\t1\tr\ts\nB\t1\nM\t2\t1\t2\nN\nS\nB\t3\nM\t4\t4\t202\nS\nE\t0\t0\nM\t5\t6\t6\nP\t0\tff0000ff\nB\t6\nP\t0\t\nP\t0\t000000ff\n;\
        G\t3\t1\t1\t1\ta\ts\nB\t2\nP\t0\t0000\nS\nN\nE\t1\t1\nE\t0\t2\nS\nB\t3\n;\
        G\t4\t1\t1\t1\tr\tc\nB\t1\nM\t2\t0\t0\nB\t3\nS\nP\t0\t6c71\nB\t4\nB\t5\nS\nB\t6\nP\t0\t0ff0ffffff\nP\t0\t\nM\t7\t8\t5\nP\t0\t00000000\nP\t0\t00\nM\t8\t8\t7\nM\t1\t2\t6\n;\
        G\t1\t1\t1\t1\tr\tc\nP\t0\t9d15\nP\t0\t\nP\t0\t9d15\nE\t1\t0\nB\t1\nS\nE\t0\t1\nM\t2\t6\t3\nB\t1252395218\nS\nS\nB\t4\nB\t5\nE\t0\t1\nM\t6\t2\t0\nM\t7\t10\t11\n;\
        G\t320\t64\t4\t1\tr\tc\nM\t1\t2\t1\nS\nN\nN\nN\nM\t2\t3\t2\nN\nP\t4294967292\td2ae6ad3e43f4776cef51cc93a6597ff\nP\t4294967292\td2ae6ad3e43f4776cef51cc93a6597ff\nE\t128\t192\nM\t3\t5\t4\nP\t4294967292\td2ae6ad3e43f4776cef51cc93a6597ff\n;\
        G\t1\t1\t1\t1\tr\tc\nB\t1\nP\t1\t\nP\t0\t\nP\t0\t\nS\nN\nB\t2\nP\t0\t5525ffff\nP\t0\t\nS\nB\t3\nP\t0\t\nP\t0\t00\nN\n;\
        G\t2\t1\t1\t1\ta\ts\nB\t4294967196\nP\t0\t00\nP\t0\t00ff\nP\t0\t00ff\nS\nN\n",
    )
}

// The second half of those drawn.
fn more_drawn_cases<P: Program>(rt: &(impl Print + Eprint)) -> io::Result<()> {
    text_cases::<P>(
        rt,
        b"G\t20\t4\t2\t1\ta\ts\nE\t0\t16\nE\t4\t12\nB\t1\nE\t16\t0\nP\t12\t62ff\n;\
        G\t2\t2\t2\t2\ta\tc\nB\t4294967196\nM\t4294967197\t0\t0\nP\t0\t23ff\nM\t4294967198\t1\t2\nP\t0\t\nS\nS\nB\t4294967199\nE\t0\t2\nB\t4294967200\nM\t2\t0\t6\nN\nP\t0\t07af\nP\t0\t07af\nM\t4294967202\t8\t8\nB\t4294967203\n;\
        G\t1\t1\t1\t1\ta\tc\nE\t0\t1\nP\t0\t00\nE\t0\t0\nP\t0\t00\nS\nB\t4294967196\nM\t4294967197\t2\t6\nS\nP\t0\t8b\nP\t0\t00\n;\
        G\t2\t2\t2\t1\ta\tc\nE\t0\t2\nN\nE\t0\t2\nB\t1\nN\nP\t0\t\nP\t0\t\nE\t0\t0\nP\t0\t1af5\nB\t2179015806\nP\t0\t79ff\nB\t3\nS\n;\
        G\t16384\t16384\t4096\t1\ta\tc\nP\t0\t\nS\nP\t0\t00f0\nP\t2\t\nE\t0\t0\nP\t2\t\nS\nB\t1\n;\
        G\t4\t1\t1\t1\ta\tc\nB\t4294967196\nP\t0\t00\nP\t0\t00\nS\nN\nM\t1\t0\t4\n;\
        G\t12\t4\t1\t1\ta\ts\nP\t0\tc301\nN\nP\t3\t9a2ee707\nE\t4\t0\nM\t4294967196\t5\t5\nB\t4294967197\nP\t6\t0f\nS\n;\
        G\t2\t2\t2\t2\ta\tc\nB\t1\nM\t4097091792\t0\t2\nE\t0\t2\nM\t3\t1\t1\nE\t0\t2\nE\t0\t2\nP\t0\t\nB\t1424237173\n;\
        G\t4\t1\t1\t1\tr\ts\nN\nS\nP\t0\tffff\nE\t2\t2\nS\nE\t1\t0\nP\t2\tff\nP\t2\tff\n;\
        G\t4\t4\t2\t1\ta\ts\nB\t1\nP\t0\t\nP\t0\tf0ff00f0\nS\nN\n;\
        G\t16\t4\t2\t1\tr\ts\nB\t1\nP\t0\t\nS\nN\nM\t2\t2096\t2\nB\t1\nP\t0\t000ffff0ff000000ffff\nS\nN\n;\
        G\t4\t4\t2\t2\tr\ts\nE\t0\t4\nS\nE\t0\t4\nB\t1\nP\t0\t\nS\nB\t2\nP\t0\t\n;\
        G\t4\t2\t2\t1\ta\tc\nB\t2\nE\t2\t2\nE\t0\t0\nE\t2\t0\nN\nB\t3\nP\t0\t\nS\n;\
        G\t16\t4\t4\t1\ta\tc\nS\nN\nP\t0\td04887ff\nS\nP\t0\td04887ff\nP\t4\t\nN\nP\t4\t\n;\
        G\t2\t2\t1\t1\tr\ts\nB\t3\nP\t0\tf5\nS\nB\t4294967197\nP\t1\tce\nP\t0\t\nP\t0\tf5\nS\nB\t4294967198\nP\t0\t\nS\n;\
        G\t2\t2\t2\t1\ta\ts\nP\t0\t0000\nP\t0\t\nE\t0\t0\nB\t2\nM\t3\t3\t3\nE\t0\t0\nS\nE\t0\t0\n;\
        G\t8\t2\t2\t2\tr\ts\nP\t0\tf8a3f6a5edff\nP\t8\t\nM\t2\t4\t4\nB\t3\nM\t4\t3\t3\nB\t5\nE\t0\t2\nE\t2\t6\n;\
        G\t2\t1\t1\t1\ta\ts\nB\t2\nP\t0\t0f\nS\nN\nB\t0\nP\t1\t05\nS\nN\nB\t4\nP\t0\t128b\nS\n;\
        G\t3\t1\t1\t1\ta\ts\nB\t3588250915\nP\t2\t7b\nP\t0\t19\nS\nB\t2\nP\t1\t76ff\nP\t0\t0ff0\nS\nN\n;\
        G\t12\t4\t4\t1\tr\ts\nN\nE\t0\t0\nE\t8\t4\nP\t4\t5f7a841785e7e1ff\nS\n;\
        G\t1024\t1024\t128\t8\tr\ts\nP\t0\t\nP\t512\t\nP\t512\t\nP\t512\t\nP\t512\t\nP\t896\t\nE\t0\t0\nP\t896\t\nP\t896\t\nP\t896\t\nB\t4294967196\nB\t4294967197\nB\t4294967198\nP\t512\t\nB\t4294967199\nP\t896\t\nP\t128\t\nP\t256\t\nS\n;\
        G\t16\t8\t8\t4\tr\ts\nM\t1\t0\t2764\nP\t8\t\nP\t8\t0f000ffff0ffffff\nN\nS\nS\nM\t0\t4\t6\nM\t3\t6\t4\n",
    )
}

// A line 1 of 14 bytes, and lines of one letter behind it up to the text's end.
fn letter_case<P: Program>(
    rt: &(impl Print + Eprint),
    text: &mut [u8],
    front: &[u8; 14],
    letter: u8,
) -> io::Result<()> {
    let (lines, _) = text.as_chunks_mut::<2>();
    lines.fill([letter, b'\n']);
    if let Some(start) = text.first_chunk_mut::<14>() {
        *start = *front;
    }
    script_case::<P>(rt, text)
}

// Scripts of 65,536 and 65,537 bytes; 512 marks, and 513, at which a writer stops or carries on; 1,025 operations.
fn long_cases<P: Program>(rt: &(impl Print + Eprint)) -> io::Result<()> {
    script_case::<P>(rt, &[b'\n'; 65536])?;
    script_case::<P>(rt, &[b'\n'; 65537])?;
    let mut most = [0u8; 1038];
    letter_case::<P>(rt, &mut most, b"G\t4\t4\t1\t1\ta\ts\n", b'N')?;
    let mut more = [0u8; 1040];
    letter_case::<P>(rt, &mut more, b"G\t4\t4\t1\t1\ta\ts\n", b'N')?;
    letter_case::<P>(rt, &mut more, b"G\t4\t4\t1\t1\ta\tc\n", b'N')?;
    let mut operations = [0u8; 2064];
    letter_case::<P>(rt, &mut operations, b"G\t4\t4\t1\t1\ta\ts\n", b'S')
}

// Every script, for one of the programs.
fn all<P: Program>(rt: &(impl Print + Eprint)) -> io::Result<()> {
    worked_cases::<P>(rt)?;
    empty_cases::<P>(rt)?;
    unit_cases::<P>(rt)?;
    again_cases::<P>(rt)?;
    erase_cases::<P>(rt)?;
    barrier_cases::<P>(rt)?;
    range_cases::<P>(rt)?;
    refused_cases::<P>(rt)?;
    history_cases::<P>(rt)?;
    head_cases::<P>(rt)?;
    geometry_cases::<P>(rt)?;
    line_cases::<P>(rt)?;
    field_cases::<P>(rt)?;
    drawn_cases::<P>(rt)?;
    more_drawn_cases::<P>(rt)?;
    long_cases::<P>(rt)
}

fn main(rt: HostRuntime) -> io::Result<()> {
    all::<Swept>(&rt)?;
    all::<Judged>(&rt)
}

// The two forms by reference, through callers with plain parameters, each of which has what it lends in a local. The device is
// 16/8/4/4, with a power loss armed on the second operation, before it runs.
// Three lines of barriers on lent counters: the answer, the count of operations after it, and the first free or last written row:
// kind, offset, length, digest, changed, answered. The first barrier answers 0 and acknowledges, the second is cut and answers 21,
// the third is refused with 21 and changes nothing: its row is empty.
// Then lines of a log of entries: 0 and an entry, or the number that refuses. In that log an erase of 8 bytes at 8 is recorded at an
// index. Asked for: the first barrier; the erase; the empty row behind it; an index outside (11); with the erase outside (11); in
// columns of which the first is shorter (12), and there outside it (11, the lower number); in columns of 1,025 rows, one more than the
// local log has (13).
// Then lines of a log that starts with that erase, laid out in columns that were all 7: the answer and row 0. In a session's columns
// (0, and row 1, which is empty), in columns of which one is longer (12) and in columns that are too short (13), both unchanged.
// The Rust has no such forms, so the file `stdout` replays nothing: each line follows from document 01 and the sentences above.
#![tactic(auto)]

use basics::{Numbered, cell, number_in};
use device::OneWayBits;
use inject::{Injection, Interruption, Progress};
use session::{Counters, Entry, LogMut, LogRef, Told};
use std::io;

fn told() -> Told {
    let geometry = storage::units(16, 8, 4, 4);
    let armed = Injection {
        op: 1,
        progress: Progress::None,
        interruption: Interruption::PowerLoss,
    };
    session::told_with(geometry, OneWayBits::Absorbed, Some(armed))
}

fn show_entry(rt: &impl Print, entry: Entry) -> io::Result<()> {
    let Entry {
        kind,
        offset,
        len,
        digest,
        changed,
        answered,
    } = entry;
    print!(rt; "{kind} {offset} {len} {digest} {changed} {answered}\n")
}

// (`session_entries` has this row as its own: public there, it would have two edits for one program that prints.)
fn show_row(rt: &impl Print, log: &LogRef<'_>, index: usize) -> io::Result<()> {
    let row = Entry {
        kind: cell(log.kinds, index, 0),
        offset: cell(log.offsets, index, 0),
        len: cell(log.lens, index, 0),
        digest: cell(log.digests, index, 0),
        changed: cell(log.changed, index, 0),
        answered: cell(log.answered, index, 0),
    };
    show_entry(rt, row)
}

fn step(
    rt: &impl Print,
    counters: Counters,
    log: &mut LogMut<'_>,
    index: usize,
) -> io::Result<Counters> {
    let called = session_lent::barrier_once(
        told(),
        counters,
        log.kinds,
        log.offsets,
        log.lens,
        log.digests,
        log.changed,
        log.answered,
    );
    let answer = number_in(called.answer);
    let operations = called.counters.operations;
    print!(rt; "{answer} {operations} ")?;
    show_row(rt, &log.seen(), index)?;
    Ok(called.counters)
}

fn erased() -> Entry {
    Entry {
        kind: 1,
        offset: 8,
        len: 8,
        digest: 0,
        changed: 1,
        answered: 1,
    }
}

fn ask(rt: &impl Print, log: &LogRef<'_>, at: usize, index: usize) -> io::Result<()> {
    let found = session_entries_local::entry_with(
        log.kinds,
        log.offsets,
        log.lens,
        log.digests,
        log.changed,
        log.answered,
        at,
        erased(),
        index,
    );
    match found {
        Ok(entry) => {
            print!(rt; "0 ")?;
            show_entry(rt, entry)
        }
        Err(refusal) => {
            let number = refusal.number();
            print!(rt; "{number}\n")
        }
    }
}

fn ask_all(rt: &impl Print, log: &LogRef<'_>) -> io::Result<()> {
    ask(rt, log, 2, 0)?;
    ask(rt, log, 2, 2)?;
    ask(rt, log, 2, 3)?;
    ask(rt, log, 2, 1024)?;
    ask(rt, log, 1024, 0)?;
    let short = [0u8; 1023];
    let uneven = LogRef {
        kinds: &short,
        ..*log
    };
    ask(rt, &uneven, 2, 0)?;
    ask(rt, &uneven, 2, 1023)
}

fn ask_long(rt: &impl Print) -> io::Result<()> {
    let bytes = [0u8; 1025];
    let words = [0u32; 1025];
    let log = LogRef {
        kinds: &bytes,
        offsets: &words,
        lens: &words,
        digests: &[0u64; 1025],
        changed: &bytes,
        answered: &bytes,
    };
    ask(rt, &log, 2, 0)
}

fn start(rt: &impl Print, log: &mut LogMut<'_>) -> io::Result<()> {
    let started = session_entries_local::start_with(
        erased(),
        log.kinds,
        log.offsets,
        log.lens,
        log.digests,
        log.changed,
        log.answered,
    );
    let answer = number_in(started);
    print!(rt; "{answer} ")?;
    show_row(rt, &log.seen(), 0)
}

fn start_all(rt: &impl Print) -> io::Result<()> {
    let mut log = LogMut {
        kinds: &mut [7u8; 1024],
        offsets: &mut [7u32; 1024],
        lens: &mut [7u32; 1024],
        digests: &mut [7u64; 1024],
        changed: &mut [7u8; 1024],
        answered: &mut [7u8; 1024],
    };
    start(rt, &mut log)?;
    show_row(rt, &log.seen(), 1)
}

// The first of the columns may be longer than the others.
fn start_short(rt: &impl Print, kinds: &mut [u8]) -> io::Result<()> {
    let mut log = LogMut {
        kinds,
        offsets: &mut [7u32; 1023],
        lens: &mut [7u32; 1023],
        digests: &mut [7u64; 1023],
        changed: &mut [7u8; 1023],
        answered: &mut [7u8; 1023],
    };
    start(rt, &mut log)
}

fn run_session(rt: &impl Print) -> io::Result<()> {
    let mut log = LogMut {
        kinds: &mut [0u8; 1024],
        offsets: &mut [0u32; 1024],
        lens: &mut [0u32; 1024],
        digests: &mut [0u64; 1024],
        changed: &mut [0u8; 1024],
        answered: &mut [0u8; 1024],
    };
    let first = step(rt, Counters::fresh(), &mut log, 0)?;
    let second = step(rt, first, &mut log, 1)?;
    step(rt, second, &mut log, 2)?;
    ask_all(rt, &log.seen())
}

fn main(rt: HostRuntime) -> io::Result<()> {
    run_session(&rt)?;
    ask_long(&rt)?;
    start_all(&rt)?;
    start_short(&rt, &mut [7u8; 1024])?;
    start_short(&rt, &mut [7u8; 1023])
}

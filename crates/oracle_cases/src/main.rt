// Replays a sample of the Rust's answers about ledgers and of its verdicts. Each line has letters with numbers: the ledger's
// columns (I ids, S states, T torn), then what was asked and what was answered; a dash stands for none. The file stdout beside
// src/ has what the Rust answers to the same inputs, and was made by
//     tests/differential/run sample oracle > crates/oracle_cases/stdout
// The tables and the order of the cases are those of `sample` in tests/differential/src/oracle.rs.
#![tactic(auto)]

ghost use Rattle.std.specs.Prelude.{◌+◌, ◌*◌, ◌<◌, ◌≤◌};

use basics::Numbered;
use model::LedgerRef;
use oracle::{Breach, Verdict};
use refusals::Refusal;
use std::io;

const RECORDS: [u32; 3] = [5, 6, 9];

const COUNTS: [Option<u64>; 5] = [None, Some(0), Some(1), Some(2), Some(18446744073709551615)];

// A list of up to two numbers: no heap, so a count beside them.
#[derive(Clone, Copy)]
struct Pair {
    many: usize,
    first: usize,
    second: usize,
}

// The list at a place among all of up to two numbers below `top`, the shorter ones first.
fn list_at(place: usize, top: usize) -> Pair
    requires { (0 < top) × (place < 1 + top + top * top) }
    ensures { (result.many ≤ 2) × (result.first < top) × (result.second < top) }
{
    if place == 0 {
        return Pair {
            many: 0,
            first: 0,
            second: 0,
        };
    }
    if place <= top {
        return Pair {
            many: 1,
            first: place - 1,
            second: 0,
        };
    }
    Pair {
        many: 2,
        first: (place - 1 - top) / top,
        second: (place - 1 - top) % top,
    }
}

// A ledger of up to two entries, in columns of its own, with a count beside them as above.
#[derive(Clone, Copy)]
struct Ledger {
    many: usize,
    ids: [u32; 2],
    states: [u8; 2],
    torn: [u8; 2],
}

// The ledger at a place: an entry is one of 12, by its id, its state and its torn code.
fn ledger_at(place: usize) -> Ledger
    requires { place < 157 }
    ensures { result.many ≤ 2 }
{
    let entries = list_at(place, 12);
    let both = [entries.first, entries.second];
    Ledger {
        many: entries.many,
        ids: both.map(|entry| (entry / 6 % 2) as u32 + 5),
        states: both.map(|entry| (entry / 2 % 3) as u8),
        torn: both.map(|entry| (entry % 2) as u8),
    }
}

fn print(rt: &impl Print, n: u64) -> io::Result<()> {
    print!(rt; " {n}")
}

fn print_or_none(rt: &impl Print, n: Option<u64>) -> io::Result<()> {
    match n {
        None => rt.write_all(b" -"),
        Some(n) => print(rt, n),
    }
}

fn print_all<T: Copy + Into<u64>>(rt: &impl Print, column: &[T]) -> io::Result<()> {
    for cell in column {
        print(rt, (*cell).into())?;
    }
    Ok(())
}

// What is answered, or the number that refuses it.
fn print_answer(rt: &impl Print, of: Result<Option<u64>, Refusal>) -> io::Result<()> {
    match of {
        Err(refusal) => print(rt, u64::from(refusal.number())),
        Ok(n) => print_or_none(rt, n),
    }
}

fn print_columns(rt: &impl Print, ledger: &LedgerRef<'_>) -> io::Result<()> {
    rt.write_all(b"I")?;
    print_all(rt, ledger.ids)?;
    rt.write_all(b" S")?;
    print_all(rt, ledger.states)?;
    rt.write_all(b" T")?;
    print_all(rt, ledger.torn)
}

// As many ids of a column as are answered, or the number that refuses them.
fn print_ids(rt: &impl Print, of: Result<usize, Refusal>, column: &[u32]) -> io::Result<()> {
    match of {
        Err(refusal) => print_answer(rt, Err(refusal)),
        Ok(count) => print_all(rt, &column[..count.min(column.len())]),
    }
}

// Document 01's number of a verdict, and its values.
fn print_verdict(rt: &impl Print, of: Verdict) -> io::Result<()> {
    print(rt, u64::from(basics::number_in(of)))?;
    let Err(breach) = of else {
        return Ok(());
    };
    match breach {
        Breach::DuplicateRecordId(id)
        | Breach::RecoveredWhatWasNeverAttempted(id)
        | Breach::RecoveredATornRecord(id)
        | Breach::LostAnAcknowledgedRecord(id)
        | Breach::DispatchedWithoutADurableIntent(id) => print(rt, u64::from(id)),
        Breach::NotAPrefix {
            position,
            expected,
            found,
        } => {
            print(rt, position as u64)?;
            print_or_none(rt, expected.map(u64::from))?;
            print(rt, u64::from(found))
        }
        Breach::AmbiguousAuthority(count) => print(rt, count),
        Breach::NoAuthoritativeBank | Breach::Refused => Ok(()),
    }
}

// What a ledger answers about a record.
fn record_case(rt: &impl Print, ledger: &LedgerRef<'_>, id: u32) -> io::Result<()> {
    rt.write_all(b" R")?;
    let state = first_entries::state(ledger, id);
    print_answer(rt, state.map(|found| found.map(|state| state as u64)))?;
    let torn = first_entries::torn(ledger, id);
    print_answer(rt, torn.map(|found| found.map(u64::from)))
}

// A ledger: N entries, its committed (C) and acknowledged (A) ids, and state and torn of each record (R).
fn ledger_line(rt: &impl Print, ledger: &LedgerRef<'_>) -> io::Result<()> {
    print_columns(rt, ledger)?;
    rt.write_all(b" N")?;
    print_answer(rt, ledger.len().map(|count| Some(count as u64)))?;
    let mut column = [0u32; 2];
    rt.write_all(b" C")?;
    let committed = ids_by_state::committed(ledger, &mut column);
    print_ids(rt, committed, &column)?;
    rt.write_all(b" A")?;
    let acknowledged = ids_by_state::acknowledged(ledger, &mut column);
    print_ids(rt, acknowledged, &column)?;
    for id in RECORDS {
        record_case(rt, ledger, id)?;
    }
    rt.write_all(b"\n")
}

// A ledger, a history (H), dispatched ids (D), a bank count (B), and the verdict (V).
fn verdict_line(
    rt: &impl Print,
    ledger: &LedgerRef<'_>,
    history: &[u32],
    dispatched: &[u32],
    banks: Option<u64>,
) -> io::Result<()> {
    print_columns(rt, ledger)?;
    rt.write_all(b" H")?;
    print_all(rt, history)?;
    rt.write_all(b" D")?;
    print_all(rt, dispatched)?;
    rt.write_all(b" B")?;
    print_or_none(rt, banks)?;
    rt.write_all(b" V")?;
    print_verdict(
        rt,
        oracle::verify_oracle(ledger, history, dispatched, banks),
    )?;
    rt.write_all(b"\n")
}

// Document 01's example: ledger ids 5, 5 with bank count 0.
fn example(rt: &impl Print) -> io::Result<()> {
    let ledger = LedgerRef {
        ids: &[5, 5],
        states: &[2, 2],
        torn: &[0, 0],
    };
    verdict_line(rt, &ledger, &[], &[], Some(0))
}

// (The cut is made where it is lent, here and below: a method for it would require the count's bound again.)
fn ledger_case(rt: &impl Print, place: usize) -> io::Result<()>
    requires { place < 157 }
{
    let columns = ledger_at(place);
    let many = columns.many;
    let ledger = LedgerRef {
        ids: &columns.ids[..many],
        states: &columns.states[..many],
        torn: &columns.torn[..many],
    };
    ledger_line(rt, &ledger)
}

fn verdict_case(rt: &impl Print, place: usize) -> io::Result<()>
    requires { place < 2041 }
{
    let columns = ledger_at(place / 13);
    let many = columns.many;
    let ledger = LedgerRef {
        ids: &columns.ids[..many],
        states: &columns.states[..many],
        torn: &columns.torn[..many],
    };
    let records = list_at(place % 13, 3);
    let history = [RECORDS[records.first], RECORDS[records.second]];
    verdict_line(
        rt,
        &ledger,
        &history[..records.many],
        &RECORDS[..place % 4],
        COUNTS[place % 5],
    )
}

fn ledger_cases(rt: &impl Print) -> io::Result<()> {
    for place in 0..157 {
        ledger_case(rt, place)?;
    }
    Ok(())
}

fn verdict_cases(rt: &impl Print) -> io::Result<()> {
    for place in 0..2041 {
        verdict_case(rt, place)?;
    }
    Ok(())
}

fn main(rt: HostRuntime) -> io::Result<()> {
    example(&rt)?;
    ledger_cases(&rt)?;
    verdict_cases(&rt)
}

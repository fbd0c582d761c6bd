// Replays a sample of the Rust's sessions and ledgers: two lists of calls, each with an injection armed at each operation and past
// the last, under each interruption, with each of six progresses. A line has the injection and the calls' answers as numbers; then,
// for the first list, how many operations are recorded and the media, and for the second, which marks records, each record's id,
// state and torn. The file stdout beside src/ has what the Rust answers to the same inputs, and was made by
//     (tests/differential/run sample session; tests/differential/run sample ledger) > crates/session_cases/stdout
// The calls and the order of the cases are those of `sample` in tests/differential/src/session.rs and ledger.rs. Among the lines are
// document 01's examples: a barrier under power loss answers 21 with count 0 and 0 with count 1 (lines 2 and 3; 128 and 129, where
// it acknowledges only then), and a zero-length program under power loss none answers 0, the next call 21 (lines 19 and 163); under
// power loss at 2, the bytes 00 00 ff ff over erased cells are not torn (line 112) and 00 00 00 00 are (line 148).
#![tactic(auto)]

use basics::Numbered;
use device::OneWayBits;
use inject::{Injection, Interruption, Progress};
use model::LedgerMut;
use refusals::Refusal;
use script::CallsRef;
use session::{Counters, LogMut, MarksMut, Told};
use std::io;
use storage::units;

const INTERRUPTIONS: [Interruption; 3] = [
    Interruption::PowerLoss,
    Interruption::Watchdog,
    Interruption::Failure,
];

// The progresses of the injection, for each list.
const PROGRESSES: [Progress; 6] = [
    Progress::None,
    Progress::Bytes(0),
    Progress::Bytes(1),
    Progress::Bytes(5),
    Progress::Bytes(9),
    Progress::Whole,
];

const MARKED_PROGRESSES: [Progress; 6] = [
    Progress::None,
    Progress::Bytes(0),
    Progress::Bytes(1),
    Progress::Bytes(2),
    Progress::Bytes(9),
    Progress::Whole,
];

// The first list: a barrier, a program of no bytes at 4, one of eight at 0, an erase of both blocks, a barrier.
const CALLS: CallsRef<'static> = CallsRef {
    kinds: &[2, 0, 0, 1, 2],
    firsts: &[0, 4, 0, 0, 0],
    seconds: &[0, 0, 8, 16, 0],
    thirds: &[0, 0, 0, 0, 0],
    starts: &[0, 0, 0, 0, 0],
    pool: &[1, 2, 3, 4, 5, 6, 7, 8],
};

// The second: begin 7, a program of four bytes at 0, a barrier, begin 8, programs of four bytes at 4 and of none at 8, a barrier,
// end, an erase of the first block, and operations 2 to 4 marked as 9.
const MARKED_CALLS: CallsRef<'static> = CallsRef {
    kinds: &[3, 0, 2, 3, 0, 0, 2, 4, 1, 5],
    firsts: &[7, 0, 0, 8, 4, 8, 0, 0, 0, 9],
    seconds: &[0, 4, 0, 0, 4, 0, 0, 0, 8, 2],
    thirds: &[0, 0, 0, 0, 0, 0, 0, 0, 0, 4],
    starts: &[0, 0, 0, 0, 4, 0, 0, 0, 0, 0],
    pool: &[0, 0, 255, 255, 0, 0, 0, 0],
};

// The device 16/8/4/4, with the injection armed.
fn told_of(injection: Injection) -> Told {
    session::told_with(units(16, 8, 4, 4), OneWayBits::Absorbed, Some(injection))
}

// Its operation, and the codes of its interruption and its progress.
fn print_injection(rt: &impl Print, injection: Injection) -> io::Result<()> {
    let op = injection.op;
    let cause = injection.interruption as u8;
    let kind = injection.progress.code();
    let count = injection.progress.byte_count();
    print!(rt; "{op} {cause} {kind} {count}")
}

fn print_refusal(rt: &impl Print, refusal: Refusal) -> io::Result<()> {
    let number = refusal.number();
    print!(rt; " {number}")
}

// What the lines of a list tell of what its calls left.
trait Tail {
    fn print(
        rt: &impl Print,
        operations: usize,
        media: &[u8],
        derived: Result<usize, Refusal>,
        ledger: &LedgerMut<'_>,
    ) -> io::Result<()>;
}

// How many operations are recorded, and the media.
struct Operations;

impl Tail for Operations {
    fn print(
        rt: &impl Print,
        operations: usize,
        media: &[u8],
        _derived: Result<usize, Refusal>,
        _ledger: &LedgerMut<'_>,
    ) -> io::Result<()> {
        print!(rt; " {operations}")?;
        for byte in media {
            print!(rt; " {byte}")?;
        }
        Ok(())
    }
}

// The ledger's entries. What refuses a ledger would be its last number.
struct Entries;

impl Tail for Entries {
    fn print(
        rt: &impl Print,
        _operations: usize,
        _media: &[u8],
        derived: Result<usize, Refusal>,
        ledger: &LedgerMut<'_>,
    ) -> io::Result<()> {
        match derived {
            Ok(entries) => print_entries(rt, ledger, entries),
            Err(refusal) => print_refusal(rt, refusal),
        }
    }
}

fn print_entries(rt: &impl Print, ledger: &LedgerMut<'_>, entries: usize) -> io::Result<()> {
    let codes = ledger.states.iter().zip(ledger.torn.iter());
    for (id, (state, torn)) in ledger.ids.iter().zip(codes).take(entries) {
        print!(rt; " {id} {state} {torn}")?;
    }
    Ok(())
}

// The calls in turn, each with its answer, and what they left.
fn run<T: Tail>(
    rt: &impl Print,
    told: Told,
    fresh: Counters,
    calls: &CallsRef<'_>,
    media: &mut [u8],
    copy: &mut [u8],
    log: &mut LogMut<'_>,
    marks: &mut MarksMut<'_>,
) -> io::Result<()> {
    let rows = calls.kinds.len();
    let mut answers = [0u32; 10];
    let mut ledger = LedgerMut {
        ids: &mut [0u32; 16],
        states: &mut [0u8; 16],
        torn: &mut [0u8; 16],
    };
    let (ended, derived) = runner::run_ledgered(
        told,
        true,
        fresh,
        rows,
        calls,
        &mut answers,
        media,
        copy,
        log,
        marks,
        &mut ledger,
    );
    for answer in answers.iter().take(ended.done) {
        print!(rt; " {answer}")?;
    }
    T::print(rt, ended.counters.operations, media, derived, &ledger)
}

// What a line has after its injection. A refused start would be its number alone.
fn one_session<T: Tail>(rt: &impl Print, told: Told, calls: &CallsRef<'_>) -> io::Result<()> {
    let mut media = [0u8; 16];
    let mut copy = [0u8; 16];
    let mut log = LogMut {
        kinds: &mut [0u8; session::OPERATIONS],
        offsets: &mut [0u32; session::OPERATIONS],
        lens: &mut [0u32; session::OPERATIONS],
        digests: &mut [0u64; session::OPERATIONS],
        changed: &mut [0u8; session::OPERATIONS],
        answered: &mut [0u8; session::OPERATIONS],
    };
    let mut marks = MarksMut {
        codes: &mut [0u8; session::MARKS],
        ids: &mut [0u32; session::MARKS],
        places: &mut [0u64; session::MARKS],
    };
    match session_calls::start(told, &mut media, &copy, &log.seen(), &marks.seen()) {
        Ok(fresh) => run::<T>(
            rt, told, fresh, calls, &mut media, &mut copy, &mut log, &mut marks,
        ),
        Err(refusal) => print_refusal(rt, refusal),
    }
}

// One line: the injection, each call's answer, and what the calls left.
fn one_case<T: Tail>(
    rt: &impl Print,
    injection: Injection,
    calls: &CallsRef<'_>,
) -> io::Result<()> {
    print_injection(rt, injection)?;
    one_session::<T>(rt, told_of(injection), calls)?;
    rt.write_all(b"\n")
}

// A line for each injection on the operations up to the last given.
fn lines<T: Tail>(
    rt: &impl Print,
    last: usize,
    progresses: &[Progress; 6],
    calls: &CallsRef<'_>,
) -> io::Result<()> {
    for op in 0..=last {
        for interruption in INTERRUPTIONS {
            for progress in progresses {
                let injection = Injection {
                    op,
                    progress: *progress,
                    interruption,
                };
                one_case::<T>(rt, injection, calls)?;
            }
        }
    }
    Ok(())
}

// Five operations, six in the second list, and one past the last.
fn main(rt: HostRuntime) -> io::Result<()> {
    lines::<Operations>(&rt, 5, &PROGRESSES, &CALLS)?;
    lines::<Entries>(&rt, 6, &MARKED_PROGRESSES, &MARKED_CALLS)
}

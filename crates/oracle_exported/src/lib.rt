// The layers `model`, `first_entries`, `ids_by_state` and `oracle` for callers in Rust or C, which tests/differential holds
// against the original Rust: numbers and lent slices in, a lent reply filled with numbers. Each function makes one call and
// tells its answer whole: document 01's number, 0 where nothing is refused, then for each of its values whether there is one
// and the value. A slice crosses as a pointer, then a length, so the ledger's columns cross one by one; an array as a pointer.
#![tactic(auto)]

ghost use Rattle.std.specs.Prelude.{◌≡◌, [], None};
ghost use Rattle.basics.specs.Replies.{numbered};
ghost use Rattle.refusals.specs.Numbers.{number_of};
ghost use Rattle.model.specs.Answers.{len_asked, list_numbers};
ghost use Rattle.first_entries.specs.Answers.{state_asked, state_numbers, torn_asked, torn_numbers};
ghost use Rattle.ids_by_state.specs.Answers.{committed_written, acknowledged_written};
ghost use Rattle.oracle.specs.Verdict.{verified};
ghost use Rattle.oracle_exported.specs.Cells.{banks_of, verdict_cells, answer_cells, answer_of};

use basics::Numbered;
use model::LedgerRef;
use oracle::{Breach, Verdict};
use refusals::Refusal;

// A bank count, or none.
fn banks_of(present: bool, count: u64) -> Option<u64>
    ensures { result ≡ banks_of present count }
{
    present.then_some(count)
}

// The cells of a verdict.
fn verdict_cells(of: Verdict) -> [u64; 7]
    ensures { result ≡ verdict_cells of }
{
    let Err(breach) = of else {
        return [0; 7];
    };
    let number = u64::from(breach.number());
    match breach {
        Breach::DuplicateRecordId(id)
        | Breach::RecoveredWhatWasNeverAttempted(id)
        | Breach::RecoveredATornRecord(id)
        | Breach::LostAnAcknowledgedRecord(id)
        | Breach::DispatchedWithoutADurableIntent(id) => [number, 1, u64::from(id), 0, 0, 0, 0],
        Breach::NotAPrefix {
            position,
            expected: None,
            found,
        } => [number, 1, position as u64, 0, 0, 1, u64::from(found)],
        Breach::NotAPrefix {
            position,
            expected: Some(id),
            found,
        } => [
            number,
            1,
            position as u64,
            1,
            u64::from(id),
            1,
            u64::from(found),
        ],
        Breach::AmbiguousAuthority(count) => [number, 1, count, 0, 0, 0, 0],
        Breach::NoAuthoritativeBank | Breach::Refused => [number, 0, 0, 0, 0, 0, 0],
    }
}

// The cells of an answer about a ledger.
fn answer_cells(of: Result<Option<u64>, Refusal>) -> [u64; 3]
    ensures { result ≡ answer_cells (answer_of (numbered number_of of)) }
{
    match of {
        Err(refusal) => [u64::from(refusal.number()), 0, 0],
        Ok(None) => [0, 0, 0],
        Ok(Some(value)) => [0, 1, value],
    }
}

// `verify_oracle`: the verdict on a ledger, a recovered history, the dispatched intents and, where `counted`, a bank
// count.
#[unsafe(no_mangle)]
pub extern "C" fn oracle_verify_oracle(
    ids: &[u32],
    states: &[u8],
    torn: &[u8],
    history: &[u32],
    dispatched: &[u32],
    counted: bool,
    count: u64,
    reply: &mut [u64; 7],
)
    ensures { reply.new ≡ verdict_cells (verified ids.now states.now torn.now history.now dispatched.now (banks_of counted count)) }
{
    let ledger = LedgerRef { ids, states, torn };
    let banks = banks_of(counted, count);
    let verdict = oracle::verify_oracle(&ledger, history, dispatched, banks);
    *reply = verdict_cells(verdict);
}

// `verify_recovery`: the verdict where nothing was dispatched and no bank count is given.
#[unsafe(no_mangle)]
pub extern "C" fn oracle_verify_recovery(
    ids: &[u32],
    states: &[u8],
    torn: &[u8],
    history: &[u32],
    reply: &mut [u64; 7],
)
    ensures { reply.new ≡ verdict_cells (verified ids.now states.now torn.now history.now [] None) }
{
    let ledger = LedgerRef { ids, states, torn };
    *reply = verdict_cells(oracle::verify_recovery(&ledger, history));
}

// `state`: the state of an id's first entry, if it has one.
#[unsafe(no_mangle)]
pub extern "C" fn model_state(
    ids: &[u32],
    states: &[u8],
    torn: &[u8],
    id: u32,
    reply: &mut [u64; 3],
)
    ensures { reply.new ≡ answer_cells (state_numbers (state_asked ids.now states.now torn.now id)) }
{
    let ledger = LedgerRef { ids, states, torn };
    let state = first_entries::state(&ledger, id);
    *reply = answer_cells(state.map(|found| found.map(|state| state as u64)));
}

// `torn`: whether an id's first entry is torn, if it has one.
#[unsafe(no_mangle)]
pub extern "C" fn model_torn(ids: &[u32], states: &[u8], torn: &[u8], id: u32, reply: &mut [u64; 3])
    ensures { reply.new ≡ answer_cells (torn_numbers (torn_asked ids.now states.now torn.now id)) }
{
    let ledger = LedgerRef { ids, states, torn };
    let mark = first_entries::torn(&ledger, id);
    *reply = answer_cells(mark.map(|found| found.map(u64::from)));
}

// `committed`: how many records reached media at all, and their ids from the front of `column`.
#[unsafe(no_mangle)]
pub extern "C" fn model_committed(
    ids: &[u32],
    states: &[u8],
    torn: &[u8],
    column: &mut [u32],
    reply: &mut [u64; 3],
)
    ensures { (reply.new ≡ answer_cells (list_numbers (committed_written ids.now states.now torn.now column.old).answer)) × (column.new ≡ (committed_written ids.now states.now torn.now column.old).column) }
{
    let ledger = LedgerRef { ids, states, torn };
    let committed = ids_by_state::committed(&ledger, column);
    *reply = answer_cells(committed.map(|count| Some(count as u64)));
}

// `acknowledged`: how many records recovery is required to produce, and their ids from the front of `column`.
#[unsafe(no_mangle)]
pub extern "C" fn model_acknowledged(
    ids: &[u32],
    states: &[u8],
    torn: &[u8],
    column: &mut [u32],
    reply: &mut [u64; 3],
)
    ensures { (reply.new ≡ answer_cells (list_numbers (acknowledged_written ids.now states.now torn.now column.old).answer)) × (column.new ≡ (acknowledged_written ids.now states.now torn.now column.old).column) }
{
    let ledger = LedgerRef { ids, states, torn };
    let acknowledged = ids_by_state::acknowledged(&ledger, column);
    *reply = answer_cells(acknowledged.map(|count| Some(count as u64)));
}

// `len`: how many records the run declared.
#[unsafe(no_mangle)]
pub extern "C" fn model_len(ids: &[u32], states: &[u8], torn: &[u8], reply: &mut [u64; 3])
    ensures { reply.new ≡ answer_cells (list_numbers (len_asked ids.now states.now torn.now)) }
{
    let ledger = LedgerRef { ids, states, torn };
    let len = ledger.len();
    *reply = answer_cells(len.map(|count| Some(count as u64)));
}

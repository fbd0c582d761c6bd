// The ids of a ledger by what is known of them, after model.rs: those that are committed and those that are acknowledged, in ledger
// order, into a lent column. The ledger is three lent columns, as in `model`: columns that hold none are refused with 12, and a
// lent column that is too short for the result with 13; a refusal changes nothing. Each promise is an equation with a definition
// of specs/.
#![tactic(auto)]

ghost use Rattle.std.specs.Prelude.{◌≡◌, ◌≤◌, Bool, length, drop, ◌++◌};
ghost use Rattle.basics.specs.Replies.{numbered};
ghost use Rattle.refusals.specs.Numbers.{number_of};
ghost use Rattle.model.specs.Answers.{Written};
ghost use Rattle.model.specs.Columns.{entry_of, ledger_of};
ghost use Rattle.model.specs.Ledger.{Entry, is_committed, is_acknowledged};
ghost use Rattle.ids_by_state.specs.Answers.{picked_ids, picked_written, committed_written, acknowledged_written};

use model::{Durability, LedgerRef};
use refusals::Refusal;

// Which entries of a ledger are meant, told of a row of its columns.
pub trait Pick {
    ghost picks: { Entry → Bool };

    fn picks(id: u32, state: u8, torn: u8) -> bool
        ensures { result ≡ picks (entry_of id state torn) };
}

// Those that reached media at all.
struct IsCommitted;

impl Pick for IsCommitted {
    ghost picks = { is_committed };

    fn picks(_id: u32, state: u8, _torn: u8) -> bool {
        Durability::PossiblyDurable as u8 <= state
    }
}

// Those that recovery is required to produce.
struct IsAcknowledged;

impl Pick for IsAcknowledged {
    ghost picks = { is_acknowledged };

    fn picks(_id: u32, state: u8, _torn: u8) -> bool {
        Durability::Acknowledged as u8 <= state
    }
}

// How many ids are meant. (By a sum: a loop with no branch is compiled to vectors.)
fn count<T: Pick>(ledger: &LedgerRef<'_>) -> usize
    requires { (length ledger.now.states.now ≡ length ledger.now.ids.now) × (length ledger.now.torn.now ≡ length ledger.now.ids.now) }
    ensures { result ≡ length (picked_ids T.picks (ledger_of ledger.now.ids.now ledger.now.states.now ledger.now.torn.now)) }
{
    let mut n = 0;
    for i in 0..ledger.ids.len() {
        n += usize::from(T::picks(ledger.ids[i], ledger.states[i], ledger.torn[i]));
    }
    n
}

// Writes those ids into a column that has room for them, in order from its front.
fn fill<T: Pick>(ledger: &LedgerRef<'_>, column: &mut [u32])
    requires { ((length ledger.now.states.now ≡ length ledger.now.ids.now) × (length ledger.now.torn.now ≡ length ledger.now.ids.now)) × (length (picked_ids T.picks (ledger_of ledger.now.ids.now ledger.now.states.now ledger.now.torn.now)) ≤ length column.old) }
    ensures { column.new ≡ picked_ids T.picks (ledger_of ledger.now.ids.now ledger.now.states.now ledger.now.torn.now) ++ drop (length (picked_ids T.picks (ledger_of ledger.now.ids.now ledger.now.states.now ledger.now.torn.now))) column.old }
{
    let mut n = 0;
    for i in 0..ledger.ids.len() {
        let id = ledger.ids[i];
        if T::picks(id, ledger.states[i], ledger.torn[i]) {
            column[n] = id;
            n += 1;
        }
    }
}

// The ids that are meant, in ledger order: from the front of `column`, and how many they are. The cells past them are left alone.
// They are counted before they are written: a column that is too short is left as it was.
pub fn write_picked<T: Pick>(ledger: &LedgerRef<'_>, column: &mut [u32]) -> Result<usize, Refusal>
    ensures { ◌≡◌ {A = Written} (record { answer = numbered number_of result; column = column.new }) (picked_written T.picks ledger.now.ids.now ledger.now.states.now ledger.now.torn.now column.old) }
{
    ledger.refusal()?;
    let n = count::<T>(ledger);
    if column.len() < n {
        return Err(Refusal::ColumnsTooShort);
    }
    fill::<T>(ledger, column);
    Ok(n)
}

// The records that reached media at all.
#[tactic(auto, unfolding(crate::specs::Answers::picked_written, crate::specs::Answers::committed_written, model::specs::Ledger::committed))]
pub fn committed(ledger: &LedgerRef<'_>, column: &mut [u32]) -> Result<usize, Refusal>
    ensures { ◌≡◌ {A = Written} (record { answer = numbered number_of result; column = column.new }) (committed_written ledger.now.ids.now ledger.now.states.now ledger.now.torn.now column.old) }
{
    write_picked::<IsCommitted>(ledger, column)
}

// The records that recovery is required to produce.
#[tactic(auto, unfolding(crate::specs::Answers::picked_written, crate::specs::Answers::acknowledged_written, model::specs::Ledger::acknowledged))]
pub fn acknowledged(ledger: &LedgerRef<'_>, column: &mut [u32]) -> Result<usize, Refusal>
    ensures { ◌≡◌ {A = Written} (record { answer = numbered number_of result; column = column.new }) (acknowledged_written ledger.now.ids.now ledger.now.states.now ledger.now.torn.now column.old) }
{
    write_picked::<IsAcknowledged>(ledger, column)
}

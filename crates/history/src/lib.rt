// The suggested history of a ledger, which `judge` prints with its verdict (document 01, "Scripts and the two programs"). The
// ledger comes as `model`'s three columns, and the ids go into a column that the caller lends. Columns that hold no ledger are
// refused with 12 and a column that is too short with 13; then nothing is written. Each promise is an equation with a
// definition of specs/.
#![tactic(auto)]

ghost use Rattle.std.specs.Prelude.{◌≡◌};
ghost use Rattle.basics.specs.Replies.{numbered};
ghost use Rattle.refusals.specs.Numbers.{number_of};
ghost use Rattle.model.specs.Answers.{Written};
ghost use Rattle.history.specs.History.{is_kept, suggested_written};

use ids_by_state::Pick;
use model::{Durability, LedgerRef};
use refusals::Refusal;

// Committed and not torn.
struct IsKept;

impl Pick for IsKept {
    ghost picks = { is_kept };

    fn picks(_id: u32, state: u8, torn: u8) -> bool {
        (state != Durability::Attempted as u8) & (torn != 1)
    }
}

// The ids of the committed entries that are not torn, in ledger order: from the front of `column`, and how many they are. The
// cells past them are left alone.
#[tactic(auto, unfolding(ids_by_state::specs::Answers::picked_written, crate::specs::History::suggested_written, crate::specs::History::suggested))]
pub fn suggested(ledger: &LedgerRef<'_>, column: &mut [u32]) -> Result<usize, Refusal>
    ensures { ◌≡◌ {A = Written} (record { answer = numbered number_of result; column = column.new }) (suggested_written ledger.now.ids.now ledger.now.states.now ledger.now.torn.now column.old) }
{
    ids_by_state::write_picked::<IsKept>(ledger, column)
}

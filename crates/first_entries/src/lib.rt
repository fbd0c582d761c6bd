// What a ledger says of an id, after model.rs: the state of its first entry, and whether that is torn. The ledger is three lent
// columns, as in `model`, and columns that hold none are refused with 12. Each promise is an equation with a definition of
// specs/.
#![tactic(auto)]

ghost use Rattle.std.specs.Prelude.{◌≡◌};
ghost use Rattle.basics.specs.Replies.{numbered};
ghost use Rattle.refusals.specs.Numbers.{number_of};
ghost use Rattle.first_entries.specs.Answers.{state_asked, torn_asked};

use model::{Durability, LedgerRef};
use refusals::Refusal;

// The state that `id` ended in: that of its first entry. None where it has no entry. (`torn` asks alike: one function for both would take a
// closure that indexes a column, and require that it may.)
pub fn state(ledger: &LedgerRef<'_>, id: u32) -> Result<Option<Durability>, Refusal>
    ensures { numbered number_of result ≡ state_asked ledger.now.ids.now ledger.now.states.now ledger.now.torn.now id }
{
    ledger.refusal()?;
    match id_columns::first_place(ledger.ids, id) {
        None => Ok(None),
        Some(at) => Ok(Some(Durability::from(ledger.states[at]))),
    }
}

// Whether some of `id`'s bytes are on media and the rest are not, by its first entry. Never so where the state is attempted.
pub fn torn(ledger: &LedgerRef<'_>, id: u32) -> Result<Option<bool>, Refusal>
    ensures { numbered number_of result ≡ torn_asked ledger.now.ids.now ledger.now.states.now ledger.now.torn.now id }
{
    ledger.refusal()?;
    let Some(at) = id_columns::first_place(ledger.ids, id) else {
        return Ok(None);
    };
    let attempted = ledger.states[at] == Durability::Attempted as u8;
    Ok(Some(!attempted & (ledger.torn[at] == 1)))
}

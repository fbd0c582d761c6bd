// A log of entries got back into the session's six columns: the other way of `session_entries`' `to_entries`, by the same tests, in a
// crate of its own.
#![tactic(auto)]

ghost use Rattle.std.specs.Prelude.{◌≡◌};
ghost use Rattle.basics.specs.Replies.{number_in};
ghost use Rattle.refusals.specs.Numbers.{number_of};
ghost use Rattle.session.specs.Lent.{log_in, SameLog};
ghost use Rattle.session_entries.specs.Entries.{columns_number, to_columns};

use refusals::Refusal;
use session::{Entry, LogMut};
use session_entries::moved_number;

// Each entry is recorded in its row of the columns, as the session records an operation. Refused with 12 or 13.
pub fn to_columns(log: &[Entry], to: &mut LogMut<'_>) -> Result<(), Refusal>
    ensures same { SameLog to.old to.new }
    ensures left { (number_in number_of result ≡ columns_number log.now (log_in to.old)) × (log_in to.new ≡ to_columns log.now (log_in to.old)) }
{
    moved_number(&to.seen(), log.len(), to.kinds.len())?;
    for (index, entry) in log.iter().enumerate() {
        to.record(index, *entry);
    }
    Ok(())
}

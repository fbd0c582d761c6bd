// The session's barrier on lent counters: document 01's "the session's counters are lent and altered by its barrier call". The
// by-value barrier does the work (`session_calls`); this takes the counters out of the reference, calls it, and puts what comes
// back in their place. It promises what the by-value barrier promises, by the same definition, with the counters that it leaves
// where the other returns them.
#![tactic(auto)]

ghost use Rattle.std.specs.Prelude.{◌≡◌};
ghost use Rattle.basics.specs.Replies.{number_in};
ghost use Rattle.refusals.specs.Numbers.{number_of};
ghost use Rattle.session.specs.Log.{log_of};
ghost use Rattle.session.specs.Lent.{log_in, SameLog};
ghost use Rattle.session.specs.Replies.{told_as};
ghost use Rattle.session.specs.Barrier.{ordered, barriered};
ghost use Rattle.session_lent.specs.Lent.{called_of};

use refusals::Refusal;
use session::{Called, Counters, LogMut, Told};

// Orders everything before it against everything after it, and leaves the counters after it in `counters`. A refusal leaves
// them and every column as they were.
pub fn barrier_lent(
    told: Told,
    counters: &mut Counters,
    log: &mut LogMut<'_>,
) -> Result<(), Refusal>
    ensures same { SameLog log.old log.new }
    ensures left { ordered (called_of (number_in number_of result) counters.new) (log_in log.new) ≡ barriered told counters.old (log_in log.old) }
{
    let called = session_calls::barrier(told, *counters, log);
    *counters = called.counters;
    called.answer
}

// A barrier on counters that it has in a local and lends: for a caller without a reference to lend, and the by-value barrier's
// promise word for word.
pub fn barrier_once(
    told: Told,
    counters: Counters,
    kinds: &mut [u8],
    offsets: &mut [u32],
    lens: &mut [u32],
    digests: &mut [u64],
    changed: &mut [u8],
    answered: &mut [u8],
) -> Called
    ensures { ordered (told_as result) (log_of kinds.new offsets.new lens.new digests.new changed.new answered.new) ≡ barriered told counters (log_of kinds.old offsets.old lens.old digests.old changed.old answered.old) }
{
    let mut held = counters;
    let mut log = LogMut {
        kinds,
        offsets,
        lens,
        digests,
        changed,
        answered,
    };
    let answer = barrier_lent(told, &mut held, &mut log);
    Called {
        answer,
        counters: held,
    }
}

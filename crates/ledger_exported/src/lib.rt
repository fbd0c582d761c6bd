// The layer `ledger` for callers in Rust or C, which tests/differential holds against the original Rust: numbers and lent slices
// in, a number out. What the start was told and the counters cross as in `session_numbers`. A slice crosses as a pointer, then a
// length.
#![tactic(auto)]

ghost use Rattle.std.specs.Prelude.{◌≡◌};
ghost use Rattle.session.specs.Log.{log_of, marks_of};
ghost use Rattle.ledger.specs.Ledger.{entered_of, ledger_call};
ghost use Rattle.session_numbers.specs.Numbers.{told_of, counters_of};
ghost use Rattle.ledger_exported.specs.Left.{ledger_left, ledgered_over};

use basics::Numbered;
use model::LedgerMut;
use session::{LogRef, MarksRef};

// `ledger`: the number that refuses it, how many entries there are, and the columns; a refusal leaves both.
#[unsafe(no_mangle)]
pub extern "C" fn ledger_of_run(
    told: &[u32],
    state: &[u64],
    media: &[u8],
    copy: &[u8],
    kinds: &[u8],
    offsets: &[u32],
    lens: &[u32],
    digests: &[u64],
    changed: &[u8],
    answered: &[u8],
    codes: &[u8],
    names: &[u32],
    places: &[u64],
    ids: &mut [u32],
    states: &mut [u8],
    torn: &mut [u8],
    entries: &mut u64,
) -> u32
    ensures { ledger_left result entries.new (entered_of ids.new states.new torn.new) ≡ ledgered_over entries.old (ledger_call (told_of told.now) (counters_of state.now) media.now copy.now (log_of kinds.now offsets.now lens.now digests.now changed.now answered.now) (marks_of codes.now names.now places.now) (entered_of ids.old states.old torn.old)) }
{
    let given = session_numbers::told_of(told);
    let counters = session_numbers::counters_of(state);
    let log = LogRef {
        kinds,
        offsets,
        lens,
        digests,
        changed,
        answered,
    };
    let marks = MarksRef {
        codes,
        ids: names,
        places,
    };
    let mut columns = LedgerMut { ids, states, torn };
    // C has no `Result`: the number crosses as the answer, and the count in a place that a refusal leaves as it was.
    match ledger::ledger(given, counters, media, copy, &log, &marks, &mut columns) {
        Ok(n) => {
            *entries = n as u64;
            0
        }
        Err(refusal) => refusal.number(),
    }
}

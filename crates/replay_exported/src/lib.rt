// The layer `replay` for callers in Rust or C, which tests/differential holds against a plain run of its own: numbers and lent
// slices and arrays in, a number out. What the start was told crosses as in `session_numbers`. A slice crosses as a pointer, then a
// length; an array as a pointer to that many elements.
#![tactic(auto)]

ghost use Rattle.std.specs.Prelude.{◌≡◌};
ghost use Rattle.session.specs.Log.{log_of, marks_of};
ghost use Rattle.ledger.specs.Ledger.{entered_of};
ghost use Rattle.script.specs.Columns.{columns};
ghost use Rattle.replay.specs.Replay.{lent, replay_call};
ghost use Rattle.session_numbers.specs.Numbers.{told_of};
ghost use Rattle.replay_exported.specs.Left.{replay_left, replayed_over};

use basics::Numbered;
use model::LedgerMut;
use script::CallsRef;

// `replay`: the number that refuses it, how many entries the ledger has, and all that is lent; a refusal leaves all of it.
#[unsafe(no_mangle)]
pub extern "C" fn replay_of_calls(
    told: &[u32],
    rows: usize,
    kinds: &[u8],
    firsts: &[u32],
    seconds: &[u32],
    thirds: &[u32],
    starts: &[u32],
    pool: &[u8],
    answers: &mut [u32],
    media: &mut [u8],
    copy: &mut [u8],
    ops: &mut [u8; 1024],
    spans: &mut [u32; 1024],
    sizes: &mut [u32; 1024],
    digests: &mut [u64; 1024],
    changed: &mut [u8; 1024],
    answered: &mut [u8; 1024],
    marks: &mut [u8; 512],
    named: &mut [u32; 512],
    places: &mut [u64; 512],
    records: &mut [u32],
    states: &mut [u8],
    torn: &mut [u8],
    entries: &mut u64,
) -> u32
    ensures { replay_left result entries.new (lent answers.new media.new copy.new (log_of ops.new spans.new sizes.new digests.new changed.new answered.new) (marks_of marks.new named.new places.new) (entered_of records.new states.new torn.new)) ≡ replayed_over entries.old (replay_call (told_of told.now) rows (columns kinds.now firsts.now seconds.now thirds.now starts.now pool.now) (lent answers.old media.old copy.old (log_of ops.old spans.old sizes.old digests.old changed.old answered.old) (marks_of marks.old named.old places.old) (entered_of records.old states.old torn.old))) }
{
    let given = session_numbers::told_of(told);
    let calls = CallsRef {
        kinds,
        firsts,
        seconds,
        thirds,
        starts,
        pool,
    };
    let mut ledger = LedgerMut {
        ids: records,
        states,
        torn,
    };
    let derived = replay::replay(
        given,
        rows,
        &calls,
        answers,
        media,
        copy,
        ops,
        spans,
        sizes,
        digests,
        changed,
        answered,
        marks,
        named,
        places,
        &mut ledger,
    );
    match derived {
        Ok(n) => {
            *entries = n as u64;
            0
        }
        Err(refusal) => refusal.number(),
    }
}

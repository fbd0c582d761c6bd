// The layer `held` for callers in Rust or C, which tests/differential holds against the original Rust: numbers and lent slices
// in, a number out. An injection crosses as four codes and a run's counters as six, as in `session_numbers`. A slice crosses as a
// pointer, then a length.
#![tactic(auto)]

ghost use Rattle.std.specs.Prelude.{◌≡◌};
ghost use Rattle.held.specs.Held.{recorded_of, held_call};
ghost use Rattle.session_numbers.specs.Numbers.{counters_of};
ghost use Rattle.held_exported.specs.Codes.{injection_of, code_of};

use basics::Numbered;
use held::{Held, Recorded};
use inject::{Injection, Interruption, OpsRef, Progress};
use session::MarksRef;

// `held_to`: 0 for the run, the number that refuses it, or 2^32, which no number is, for the fault-free run relabelled.
#[unsafe(no_mangle)]
pub extern "C" fn held_of_runs(
    op: u64,
    kind: u32,
    count: u32,
    cause: u32,
    free_state: &[u64],
    free_kinds: &[u8],
    free_offsets: &[u32],
    free_lens: &[u32],
    free_digests: &[u64],
    free_codes: &[u8],
    free_ids: &[u32],
    free_places: &[u64],
    state: &[u64],
    kinds: &[u8],
    offsets: &[u32],
    lens: &[u32],
    digests: &[u64],
    codes: &[u8],
    ids: &[u32],
    places: &[u64],
) -> u64
    ensures { result ≡ code_of (held_call (injection_of op kind count cause) (recorded_of (counters_of free_state.now) free_kinds.now free_offsets.now free_lens.now free_digests.now free_codes.now free_ids.now free_places.now) (recorded_of (counters_of state.now) kinds.now offsets.now lens.now digests.now codes.now ids.now places.now)) }
{
    // As `session_numbers` `armed_of`, whose operation is a u32 where this is a u64.
    let injection = Injection {
        op: op as usize,
        progress: Progress::of(kind, count),
        interruption: Interruption::from(cause),
    };
    let free = Recorded {
        counters: session_numbers::counters_of(free_state),
        ops: OpsRef {
            kinds: free_kinds,
            offsets: free_offsets,
            lens: free_lens,
        },
        digests: free_digests,
        marks: MarksRef {
            codes: free_codes,
            ids: free_ids,
            places: free_places,
        },
    };
    let run = Recorded {
        counters: session_numbers::counters_of(state),
        ops: OpsRef {
            kinds,
            offsets,
            lens,
        },
        digests,
        marks: MarksRef { codes, ids, places },
    };
    match held::held_to(injection, &free, &run) {
        Ok(Held::Kept) => 0,
        Ok(Held::Relabelled) => 0x1_0000_0000,
        Err(refusal) => refusal.number() as u64,
    }
}

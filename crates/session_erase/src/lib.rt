// The session's erase. Follows `erase` of `Session` in waymaker-fault's session.rs. An erase that no test refuses is recorded,
// lands as much as the injection armed on it says (all of it where nothing is armed), and what it did not reach goes into the
// withheld copy as 0xFF. The contract is one equation: the reply, the media, the copy and every column of the log.
#![tactic(auto)]

ghost use Rattle.std.specs.Prelude.{◌≡◌, ◌+◌, ◌^◌, ◌<◌, ◌≤◌};
ghost use Rattle.basics.specs.Replies.{number_in};
ghost use Rattle.refusals.specs.Numbers.{number_of};
ghost use Rattle.session.specs.Lent.{log_in, SameLog};
ghost use Rattle.session.specs.Tests.{log_test};
ghost use Rattle.session.specs.Replies.{told_as};
ghost use Rattle.session.specs.Written.{Landing, written};
ghost use Rattle.session_erase.specs.Erase.{erase_number, erase_landing, erase_call};

use refusals::Refusal;
use session::{Called, Counters, Entry, LogMut, Told};

// What refuses an erase, over the lengths of media and copy.
fn erase_refusal(
    told: Told,
    counters: Counters,
    offset: u32,
    len: u32,
    media: usize,
    copy: usize,
    log: &LogMut<'_>,
) -> Result<(), Refusal>
    ensures { number_in number_of result ≡ erase_number told counters offset len media copy (log_test (log_in log.now)) }
{
    session::size_refusal(told.geometry, media, copy)?;
    log.refusal()?;
    counters.stop.refusal()?;
    told.geometry.validate_erase(offset, len)?;
    session::operation_refusal(counters.operations)
}

// Erases what lands on the media and what does not on the copy. Tells whether a cell of the media changed.
fn land_erase(media: &mut [u8], copy: &mut [u8], offset: u32, len: u32, landed: u32) -> bool
    requires { (landed ≤ len) × (offset + len < 2 ^ 32) }
    ensures { ◌≡◌ {A = Landing} (record { media = media.exit.now; copy = copy.new; changed = result }) (erase_landing offset len landed media.entry.now copy.old) }
{
    let changed = device::apply_erase(media, offset, landed);
    device::apply_erase(copy, offset + landed, len - landed);
    changed
}

// Returns `offset..offset + len` to the erased state, as far as the armed injection lets it. (As
// `session_program` has it: one frame for both would take more arguments than it saves lines.)
pub fn erase(
    told: Told,
    counters: Counters,
    offset: u32,
    len: u32,
    media: &mut [u8],
    copy: &mut [u8],
    log: &mut LogMut<'_>,
) -> Called
    ensures same { SameLog log.old log.new }
    ensures left { written (told_as result) media.new copy.new (log_in log.new) ≡ erase_call told counters offset len media.old copy.old (log_in log.old) }
{
    let answer = erase_refusal(told, counters, offset, len, media.len(), copy.len(), log);
    if answer.is_err() {
        return Called { answer, counters };
    }
    let block = told.geometry.erase_size;
    let armed = session::armed_for(told.armed, counters.operations);
    let landed = session::lands(armed, len, block, block);
    let plan = session::planned(counters, armed, len, landed, offset + landed);
    let touched = land_erase(media, copy, offset, len, plan.landed);
    let entry = Entry {
        kind: 1,
        offset,
        len,
        digest: 0,
        changed: u8::from(touched),
        answered: u8::from(plan.reply.answer.is_ok()),
    };
    log.record(counters.operations, entry);
    plan.reply
}

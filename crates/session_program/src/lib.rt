// The session's program. Follows `program` of `Session` in waymaker-fault's session.rs. A program that no test refuses is
// recorded with the digest of all its bytes, as many leading bytes land as the injection armed on it says (all where nothing is
// armed), and for the others the withheld copy holds what the write would have left: the cell AND the byte. The contract is one
// equation: the reply, the media, the copy and every column of the log.
#![tactic(auto)]

ghost use Rattle.std.specs.Prelude.{◌≡◌, ◌+◌, ◌^◌, ◌<◌, ◌≤◌, length};
ghost use Rattle.basics.specs.Replies.{number_in};
ghost use Rattle.refusals.specs.Numbers.{number_of};
ghost use Rattle.storage.specs.Answers.{number_of as geometry_number};
ghost use Rattle.session.specs.Lent.{log_in, SameLog};
ghost use Rattle.session.specs.Tests.{log_test};
ghost use Rattle.session.specs.Replies.{told_as};
ghost use Rattle.session.specs.Written.{Landing, written};
ghost use Rattle.session_program.specs.Program.{span_number, bit_test, program_number, program_landing, program_call};

use device::OneWayBits;
use refusals::Refusal;
use session::{Called, Counters, Entry, LogMut, Told};
use storage::GeometryError;

// The geometry's answer: 1 to 3, then 6 for a buffer longer than u32, then the span's 4, 5 and 6. (The
// first two lines are `device_calls` `counted`, which is private: to share it takes a definition, a public promise and two edits, for a
// line less here.)
fn span_refusal(told: Told, offset: u32, bytes: usize) -> Result<(), GeometryError>
    ensures { number_in geometry_number result ≡ span_number told offset bytes }
{
    told.geometry.check()?;
    let Ok(len) = u32::try_from(bytes) else {
        return Err(GeometryError::OutOfBounds);
    };
    told.geometry.validate_program(offset, len)
}

// 20 where the rule rejects bits that only an erase sets, and a byte has one. Under the other rule no byte is looked at.
fn bit_refusal(bits: OneWayBits, media: &[u8], offset: u32, bytes: &[u8]) -> Result<(), Refusal>
    ensures { number_in number_of result ≡ bit_test bits media.now offset bytes.now }
{
    if bits == OneWayBits::Rejected && device_questions::would_set_a_bit(media, offset, bytes) {
        return Err(Refusal::BitSetWithoutErase);
    }
    Ok(())
}

// What refuses a program, over the length of the copy. The bytes are looked at last but for the limit, and only where nothing
// before refuses.
fn program_refusal(
    told: Told,
    counters: Counters,
    offset: u32,
    bytes: &[u8],
    media: &[u8],
    copy: usize,
    log: &LogMut<'_>,
) -> Result<(), Refusal>
    ensures { number_in number_of result ≡ program_number told counters offset bytes.now media.now copy (log_test (log_in log.now)) }
{
    session::size_refusal(told.geometry, media.len(), copy)?;
    log.refusal()?;
    counters.stop.refusal()?;
    span_refusal(told, offset, bytes.len())?;
    bit_refusal(told.bits, media, offset, bytes)?;
    session::operation_refusal(counters.operations)
}

// Writes to the copy what the bytes that do not land would have left, and programs those that do. Tells whether a cell of the
// media changed.
fn land_program(media: &mut [u8], copy: &mut [u8], offset: u32, bytes: &[u8], landed: u32) -> bool
    requires { (landed ≤ length bytes.now) × (offset + length bytes.now ≤ length media.old) × (length copy.old ≡ length media.old) × (offset + length bytes.now < 2 ^ 32) }
    ensures { ◌≡◌ {A = Landing} (record { media = media.exit.now; copy = copy.new; changed = result }) (program_landing offset landed bytes.now media.entry.now copy.old) }
{
    let count = landed as usize;
    let place = offset + landed;
    let start = place as usize;
    // The copy is as long as the media, so the cells fit, and the number of them says nothing new.
    let _ = device::postimage_of(media, place, &bytes[count..], &mut copy[start..]);
    device::apply_program(media, offset, &bytes[..count])
}

// Writes `bytes` at `offset`, as far as the armed injection lets it. What it shares with an erase are six calls
// of `session`; one frame for both would take the refusal, the kind, the digest, the step, the unit and a closure that writes both buffers.
pub fn program(
    told: Told,
    counters: Counters,
    offset: u32,
    bytes: &[u8],
    media: &mut [u8],
    copy: &mut [u8],
    log: &mut LogMut<'_>,
) -> Called
    ensures same { SameLog log.old log.new }
    ensures left { written (told_as result) media.new copy.new (log_in log.new) ≡ program_call told counters offset bytes.now media.old copy.old (log_in log.old) }
{
    let answer = program_refusal(told, counters, offset, bytes, media, copy.len(), log);
    if answer.is_err() {
        return Called { answer, counters };
    }
    let len = bytes.len() as u32;
    let armed = session::armed_for(told.armed, counters.operations);
    let landed = session::lands(armed, len, 1, told.geometry.program_size);
    let plan = session::planned(counters, armed, len, landed, offset + landed);
    let touched = land_program(media, copy, offset, bytes, plan.landed);
    let entry = Entry {
        kind: 0,
        offset,
        len,
        digest: digest::digest(bytes),
        changed: u8::from(touched),
        answered: u8::from(plan.reply.answer.is_ok()),
    };
    log.record(counters.operations, entry);
    plan.reply
}

// The device's own calls: a call that the geometry forbids never reaches the media. Follows waymaker-fault's device.rs. Where
// the Rust's Device owns its bytes, its geometry and its bit rule, here the caller hands them in, so each call tests the
// geometry and the media's length too (1 to 3, 7); the media are lent to be read by two calls and to be written by the others, so no
// one struct has both. Every contract is an equation: the whole reply and what every lent slice
// holds at the end, after a refusal too.
#![tactic(auto)]

ghost use Rattle.std.specs.Prelude.{◌≡◌, length};
ghost use Rattle.basics.specs.Replies.{number_in, numbered};
ghost use Rattle.storage.specs.Answers.{number_of};
ghost use Rattle.refusals.specs.Numbers.{number_of as refusal_number};
ghost use Rattle.device_calls.specs.declared.FaultError.TheVariants.{Geometry};
ghost use Rattle.device_calls.specs.Answers.{number_of_fault};
ghost use Rattle.device_calls.specs.Nonzero.{fault-nonzero};
ghost use Rattle.device_calls.specs.Calls.{media_test, counted, barrier_refusal, Called, read_call, program_call, erase_call};

use basics::Numbered;
use device::OneWayBits;
use refusals::Refusal;
use storage::{Geometry, GeometryError};

// Anything a modelled device can refuse to do. (The Rust's own enum, which document 01 keeps beside the refusals; the last three are made
// by no call here.)
#[derive(Clone, Copy, Debug, PartialEq, Eq)]
pub enum FaultError {
    // The operation is not one this geometry permits.
    Geometry(GeometryError),
    // The media lent are not of the geometry's capacity.
    MediaLength,
    // A program asked for a bit that only an erase can restore. Only under OneWayBits::Rejected.
    BitSetWithoutErase,
    // The power went away.
    PowerLoss,
    // The core was reset while the supply held.
    WatchdogReset,
    // The injected failure of a program, an erase or a barrier: the caller carries on.
    InjectedFailure,
}

impl Numbered for FaultError {
    ghost number = { number_of_fault };

    ghost nonzero = { fault-nonzero };

    // Document 01's number of the fault, which is that of the refusal it is.
    fn number(self) -> u32 {
        Refusal::from(self).number()
    }
}

impl From<GeometryError> for FaultError {
    ghost from_gives = { λ error fault. fault ≡ Geometry error };

    fn from(error: GeometryError) -> FaultError {
        FaultError::Geometry(error)
    }
}

impl From<FaultError> for Refusal {
    ghost from_gives = { λ fault refusal. refusal_number refusal ≡ number_of_fault fault };

    fn from(fault: FaultError) -> Refusal {
        match fault {
            FaultError::Geometry(error) => Refusal::Geometry(error),
            FaultError::MediaLength => Refusal::MediaLength,
            FaultError::BitSetWithoutErase => Refusal::BitSetWithoutErase,
            FaultError::PowerLoss => Refusal::PowerLoss,
            FaultError::WatchdogReset => Refusal::WatchdogReset,
            FaultError::InjectedFailure => Refusal::InjectedFailure,
        }
    }
}

// A buffer's length as a geometry counts it. No span of a length above u32 is within a capacity: 6, behind the geometry's own
// number.
fn counted(geometry: Geometry, buffer: usize) -> Result<u32, GeometryError>
    ensures { numbered number_of result ≡ counted geometry buffer }
{
    if let Ok(len) = u32::try_from(buffer) {
        return Ok(len);
    }
    geometry.check()?;
    Err(GeometryError::OutOfBounds)
}

// Whether media of this length are of the geometry's capacity.
fn check_media(geometry: Geometry, media: usize) -> Result<(), FaultError>
    ensures { number_in number_of_fault result ≡ media_test geometry media }
{
    if media != geometry.capacity as usize {
        return Err(FaultError::MediaLength);
    }
    Ok(())
}

// Copies cells into a buffer of their length. (By a loop: `copy_from_slice` has a library for C need memmove from outside.)
fn copy_cells(cells: &[u8], dst: &mut [u8])
    requires { length dst.old ≡ length cells.now }
    ensures { dst.new ≡ cells.now }
{
    for i in 0..cells.len() {
        dst[i] = cells[i];
    }
}

// Reads `dst.len()` cells at `offset` into `dst`. Refused, with `dst` as it was: 1 to 3 for the geometry, 6 for a buffer longer
// than a u32 can count, 4 to 6 for the span, 7 for media that are not of capacity length.
pub fn read(geometry: Geometry, media: &[u8], offset: u32, dst: &mut [u8]) -> Result<(), FaultError>
    ensures { ◌≡◌ {A = Called} (record { reply = number_in number_of_fault result; content = dst.new }) (read_call geometry media.now offset dst.old) }
{
    let len = counted(geometry, dst.len())?;
    geometry.validate_read(offset, len)?;
    check_media(geometry, media.len())?;
    let start = offset as usize;
    let read_end = start + dst.len();
    copy_cells(&media[start..read_end], dst);
    Ok(())
}

// Programs `src` at `offset`: each cell becomes cell AND byte. Refused, with the media as they were: as `read`, against the
// program unit, and then, under OneWayBits::Rejected, 20 where a byte has a 1 where its cell has 0.
pub fn program(
    geometry: Geometry,
    rule: OneWayBits,
    media: &mut [u8],
    offset: u32,
    src: &[u8],
) -> Result<(), FaultError>
    ensures { ◌≡◌ {A = Called} (record { reply = number_in number_of_fault result; content = media.new }) (program_call geometry rule media.old offset src.now) }
{
    let len = counted(geometry, src.len())?;
    geometry.validate_program(offset, len)?;
    check_media(geometry, media.len())?;
    if rule == OneWayBits::Rejected && device_questions::would_set_a_bit(media, offset, src) {
        return Err(FaultError::BitSetWithoutErase);
    }
    device::apply_program(media, offset, src);
    Ok(())
}

// Erases `offset..offset + len`: each cell becomes ERASED. Refused, with the media as they were: 1 to 3, 4 to 6 against the
// erase unit, then 7.
pub fn erase(geometry: Geometry, media: &mut [u8], offset: u32, len: u32) -> Result<(), FaultError>
    ensures { ◌≡◌ {A = Called} (record { reply = number_in number_of_fault result; content = media.new }) (erase_call geometry media.old offset len) }
{
    geometry.validate_erase(offset, len)?;
    check_media(geometry, media.len())?;
    device::apply_erase(media, offset, len);
    Ok(())
}

// Succeeds and changes nothing: the media are the durable state. Refused with 1 to 3 for the geometry, then 7 for media that
// are not of capacity length.
pub fn barrier(geometry: Geometry, media: &[u8]) -> Result<(), FaultError>
    ensures { number_in number_of_fault result ≡ barrier_refusal geometry (length media.now) }
{
    geometry.check()?;
    let cells = media.len();
    check_media(geometry, cells)
}

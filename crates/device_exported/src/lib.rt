// The layer `device` for callers in Rust or C, which tests/differential holds against the original Rust: numbers and lent
// slices in, a number out. Each function takes the layer's values from numbers, makes one call, and gives the answer as
// numbers, so that a comparison of the numbers is one of the layer: a geometry is its four units, a bit rule is 0 for
// Absorbed and any other number for Rejected, a yes or no is 1 or 0, and any other answer is document 01's number, 0 where
// nothing is refused. A slice crosses as a pointer, then a length, and a geometry as its units. (A function that
// gives a value matches its answer for itself: the arms show what a refusal leaves.)
#![tactic(auto)]

ghost use Rattle.std.specs.Prelude.{◌≡◌, length};
ghost use Rattle.basics.specs.Tests.{flag};
ghost use Rattle.storage.specs.Geometry.{geometry_of};
ghost use Rattle.device.specs.Media.{new_media, any_changed, programmed, erased, would_set_a_bit, postimage, differs_from, erase_would_change};
ghost use Rattle.device.specs.Answers.{number_of_postimage, copied};
ghost use Rattle.device_calls.specs.Calls.{read_refusal, program_refusal, erase_refusal, barrier_refusal, read_call, program_call, erase_call};
ghost use Rattle.device_exported.specs.Device.{rule_of, count_over};

use basics::{Numbered, number_in};
use device::OneWayBits;

// `fill_erased`: the media of a new device.
#[unsafe(no_mangle)]
pub extern "C" fn device_fill_erased(media: &mut [u8])
    ensures { media.new ≡ new_media (length media.old) }
{
    device::fill_erased(media);
}

// `apply_program`: whether a cell changed.
#[unsafe(no_mangle)]
pub extern "C" fn device_apply_program(media: &mut [u8], offset: u32, src: &[u8]) -> u32
    ensures { (result ≡ flag (any_changed media.old (programmed media.old offset src.now))) × (media.new ≡ programmed media.old offset src.now) }
{
    u32::from(device::apply_program(media, offset, src))
}

// `apply_erase`: whether a cell changed.
#[unsafe(no_mangle)]
pub extern "C" fn device_apply_erase(media: &mut [u8], offset: u32, len: u32) -> u32
    ensures { (result ≡ flag (any_changed media.old (erased media.old offset len))) × (media.new ≡ erased media.old offset len) }
{
    u32::from(device::apply_erase(media, offset, len))
}

// `would_set_a_bit`: whether a byte has a 1 where its cell has 0.
#[unsafe(no_mangle)]
pub extern "C" fn device_would_set_a_bit(media: &[u8], offset: u32, src: &[u8]) -> u32
    ensures { result ≡ flag (would_set_a_bit media.now offset src.now) }
{
    u32::from(device_questions::would_set_a_bit(media, offset, src))
}

// `postimage_of`: 0 or 13, the cells at the start of `out`, and through `count` how many they are; a refusal leaves both.
#[unsafe(no_mangle)]
pub extern "C" fn device_postimage_of(
    media: &[u8],
    offset: u32,
    src: &[u8],
    out: &mut [u8],
    count: &mut usize,
) -> u32
    ensures { (result ≡ number_of_postimage (copied out.old (postimage media.now offset src.now)).answer) × (out.new ≡ (copied out.old (postimage media.now offset src.now)).buffer) × (count.new ≡ count_over (copied out.old (postimage media.now offset src.now)).answer count.old) }
{
    match device::postimage_of(media, offset, src, out) {
        Ok(cells) => {
            *count = cells;
            0
        }
        Err(refusal) => refusal.number(),
    }
}

// `differs_from`: whether the media at `offset` are not the expected bytes.
#[unsafe(no_mangle)]
pub extern "C" fn device_differs_from(media: &[u8], offset: u32, expected: &[u8]) -> u32
    ensures { result ≡ flag (differs_from media.now offset expected.now) }
{
    u32::from(device_questions::differs_from(media, offset, expected))
}

// `erase_would_change`: whether erasing the part would change a cell.
#[unsafe(no_mangle)]
pub extern "C" fn device_erase_would_change(media: &[u8], offset: u32, len: u32) -> u32
    ensures { result ≡ flag (erase_would_change media.now offset len) }
{
    u32::from(device::erase_would_change(media, offset, len))
}

// `read`: the number that refuses it, and `dst` with the cells from `offset` on; a refusal leaves `dst`.
#[unsafe(no_mangle)]
pub extern "C" fn device_read(
    capacity: u32,
    erase: u32,
    program: u32,
    read: u32,
    media: &[u8],
    offset: u32,
    dst: &mut [u8],
) -> u32
    ensures { (result ≡ read_refusal (geometry_of capacity erase program read) (length media.now) offset (length dst.old)) × (dst.new ≡ (read_call (geometry_of capacity erase program read) media.now offset dst.old).content) }
{
    let geometry = storage::units(capacity, erase, program, read);
    number_in(device_calls::read(geometry, media, offset, dst))
}

// `program`: the number that refuses it, and the media with the bytes programmed; a refusal leaves the media.
#[unsafe(no_mangle)]
pub extern "C" fn device_program(
    capacity: u32,
    erase: u32,
    program: u32,
    read: u32,
    rule: u32,
    media: &mut [u8],
    offset: u32,
    src: &[u8],
) -> u32
    ensures { (result ≡ program_refusal (geometry_of capacity erase program read) (rule_of rule) media.old offset src.now) × (media.new ≡ (program_call (geometry_of capacity erase program read) (rule_of rule) media.old offset src.now).content) }
{
    let geometry = storage::units(capacity, erase, program, read);
    let bits = OneWayBits::from(rule);
    number_in(device_calls::program(geometry, bits, media, offset, src))
}

// `erase`: the number that refuses it, and the media with the part erased; a refusal leaves the media.
#[unsafe(no_mangle)]
pub extern "C" fn device_erase(
    capacity: u32,
    erase: u32,
    program: u32,
    read: u32,
    media: &mut [u8],
    offset: u32,
    len: u32,
) -> u32
    ensures { (result ≡ erase_refusal (geometry_of capacity erase program read) (length media.old) offset len) × (media.new ≡ (erase_call (geometry_of capacity erase program read) media.old offset len).content) }
{
    let geometry = storage::units(capacity, erase, program, read);
    number_in(device_calls::erase(geometry, media, offset, len))
}

// `barrier`: the number that refuses it.
#[unsafe(no_mangle)]
pub extern "C" fn device_barrier(
    capacity: u32,
    erase: u32,
    program: u32,
    read: u32,
    media: &[u8],
) -> u32
    ensures { result ≡ barrier_refusal (geometry_of capacity erase program read) (length media.now) }
{
    let geometry = storage::units(capacity, erase, program, read);
    number_in(device_calls::barrier(geometry, media))
}

// The layer `storage` for callers in Rust or C, which tests/differential holds against the original Rust: numbers and lent
// slices in, a number out. Each function takes the layer's values from numbers, makes one call, and gives the answer as
// numbers, so that a comparison of the numbers is one of the layer: a geometry is its four units, an answer is document 01's
// number, 0 where nothing is refused. A slice crosses as a pointer, then a length. (Where an answer has a value, each function matches
// for itself: its arms show what a refusal leaves. Three names of C validate, so three functions do.)
#![tactic(auto)]

ghost use Rattle.std.specs.Prelude.{◌≡◌};
ghost use Rattle.storage.specs.Geometry.{geometry_test, geometry_of};
ghost use Rattle.storage.specs.Span.{read_test, program_test, erase_test};
ghost use Rattle.storage_exported.specs.Storage.{units_in, kept_of, blocks_over};

use basics::{Numbered, number_in, store};
use storage::Geometry;

// Puts the four units into the first four places.
fn keep(kept: &mut [u32], geometry: Geometry)
    ensures { kept.new ≡ units_in geometry kept.old }
{
    store(kept, 0, geometry.capacity);
    store(kept, 1, geometry.erase_size);
    store(kept, 2, geometry.program_size);
    store(kept, 3, geometry.read_size);
}

// `Geometry::new`: the number that refuses the four units. The units of the geometry that it describes are put into the
// first four places of `kept`, in the order of the parameters; a refusal leaves `kept`.
#[unsafe(no_mangle)]
pub extern "C" fn storage_new(
    capacity: u32,
    erase: u32,
    program: u32,
    read: u32,
    kept: &mut [u32],
) -> u32
    ensures { (result ≡ geometry_test (geometry_of capacity erase program read)) × (kept.new ≡ kept_of (geometry_of capacity erase program read) kept.old) }
{
    match Geometry::new(capacity, erase, program, read) {
        Ok(geometry) => {
            keep(kept, geometry);
            0
        }
        Err(error) => error.number(),
    }
}

// `Geometry::erase_blocks`: the number that refuses the four units, and through `blocks` how many erase blocks the device
// has; a refusal leaves `blocks`.
#[unsafe(no_mangle)]
pub extern "C" fn storage_erase_blocks(
    capacity: u32,
    erase: u32,
    program: u32,
    read: u32,
    blocks: &mut u32,
) -> u32
    ensures { (result ≡ geometry_test (geometry_of capacity erase program read)) × (blocks.new ≡ blocks_over (geometry_of capacity erase program read) blocks.old) }
{
    let geometry = storage::units(capacity, erase, program, read);
    match geometry.erase_blocks() {
        Ok(count) => {
            *blocks = count;
            0
        }
        Err(error) => error.number(),
    }
}

// `Geometry::validate_read`: the number that refuses the units or the span.
#[unsafe(no_mangle)]
pub extern "C" fn storage_validate_read(
    capacity: u32,
    erase: u32,
    program: u32,
    read: u32,
    offset: u32,
    len: u32,
) -> u32
    ensures { result ≡ read_test (geometry_of capacity erase program read) offset len }
{
    let geometry = storage::units(capacity, erase, program, read);
    number_in(geometry.validate_read(offset, len))
}

// `Geometry::validate_program`: the number that refuses the units or the span.
#[unsafe(no_mangle)]
pub extern "C" fn storage_validate_program(
    capacity: u32,
    erase: u32,
    program: u32,
    read: u32,
    offset: u32,
    len: u32,
) -> u32
    ensures { result ≡ program_test (geometry_of capacity erase program read) offset len }
{
    let geometry = storage::units(capacity, erase, program, read);
    number_in(geometry.validate_program(offset, len))
}

// `Geometry::validate_erase`: the number that refuses the units or the span.
#[unsafe(no_mangle)]
pub extern "C" fn storage_validate_erase(
    capacity: u32,
    erase: u32,
    program: u32,
    read: u32,
    offset: u32,
    len: u32,
) -> u32
    ensures { result ≡ erase_test (geometry_of capacity erase program read) offset len }
{
    let geometry = storage::units(capacity, erase, program, read);
    number_in(geometry.validate_erase(offset, len))
}

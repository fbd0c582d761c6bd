// The storage contract's geometry: the four units that a device is described by, and which spans a call may name.
// Follows waymaker-flash's storage.rs. Where the Rust keeps a Geometry's fields private, so that only `new` can make one,
// here anybody can: each function checks the four units first, and a Geometry that describes no device gets its number
// 1 to 3, whatever else is asked. Every contract holds for every u32. An offset and a length stay two numbers, as in the Rust: a span
// that one unit allows another forbids, so a struct of both would promise nothing.
#![tactic(auto)]

ghost use Rattle.std.specs.Prelude.{◌≡◌, true, ◌%◌, eqb};
ghost use Rattle.storage.specs.Geometry.{one_bit, geometry_test, geometry_of};
ghost use Rattle.storage.specs.Span.{span_test, read_test, program_test, erase_test};
ghost use Rattle.basics.specs.Replies.{number_in, numbered};
ghost use Rattle.storage.specs.Answers.{number_of, described, blocks_of};
ghost use Rattle.storage.specs.Nonzero.{error-nonzero};

use basics::Numbered;

// The four units that a storage device is described by.
#[derive(Clone, Copy, Debug, PartialEq, Eq)]
pub struct Geometry {
    // Total addressable bytes.
    pub capacity: u32,
    // The smallest region that an erase acts on.
    pub erase_size: u32,
    // The smallest region that a program acts on.
    pub program_size: u32,
    // The smallest region that a read acts on.
    pub read_size: u32,
}

// A geometry that describes no device, or a span that a geometry forbids.
#[derive(Clone, Copy, Debug, PartialEq, Eq)]
pub enum GeometryError {
    // A capacity or a unit was zero.
    ZeroUnit,
    // An erase, program or read unit is not a power of two.
    UnitIsNotAPowerOfTwo,
    // The units are not whole multiples of one another.
    UnitsDoNotNest,
    // The offset is not a multiple of the unit the call acts on.
    MisalignedOffset,
    // The length is not a multiple of the unit the call acts on.
    MisalignedLength,
    // The span reaches past the end of the device, or its end would overflow.
    OutOfBounds,
}

// The geometry of four units, as they come: whether they describe a device is tested by each function that asks something of it.
pub fn units(capacity: u32, erase_size: u32, program_size: u32, read_size: u32) -> Geometry
    ensures { result ≡ geometry_of capacity erase_size program_size read_size }
{
    Geometry {
        capacity,
        erase_size,
        program_size,
        read_size,
    }
}

// Whether a value is a multiple of a unit. A unit that is a power of two has its multiples told by a mask.
fn is_multiple(value: u32, unit: u32) -> bool
    requires { one_bit unit ≡ true }
    ensures { result ≡ eqb (value % unit) 0 }
{
    let mask = unit - 1;
    value & mask == 0
}

impl Geometry {
    // Describes a device, or refuses to: 1 if any of the four is zero, 2 if the erase, program or read unit is not a
    // power of two, 3 if the capacity is not whole erase blocks or the units are not ordered erase, program, read.
    pub fn new(
        capacity: u32,
        erase_size: u32,
        program_size: u32,
        read_size: u32,
    ) -> Result<Geometry, GeometryError>
        ensures { numbered number_of result ≡ described (geometry_of capacity erase_size program_size read_size) }
    {
        let geometry = units(capacity, erase_size, program_size, read_size);
        geometry.check()?;
        Ok(geometry)
    }

    // Whether the four units describe a device. A capacity need not be a power of two: three erase blocks are an
    // ordinary device.
    pub fn check(self) -> Result<(), GeometryError>
        ensures { number_in number_of result ≡ geometry_test self }
    {
        let capacity = self.capacity;
        let erase = self.erase_size;
        let program = self.program_size;
        let read = self.read_size;
        if (capacity == 0) | (erase == 0) | (program == 0) | (read == 0) {
            return Err(GeometryError::ZeroUnit);
        }
        let erase_ones = u32::count_ones(erase);
        let program_ones = u32::count_ones(program);
        let read_ones = u32::count_ones(read);
        if (erase_ones != 1) | (program_ones != 1) | (read_ones != 1) {
            return Err(GeometryError::UnitIsNotAPowerOfTwo);
        }
        let whole_blocks = is_multiple(capacity, erase);
        if !whole_blocks | (erase < program) | (program < read) {
            return Err(GeometryError::UnitsDoNotNest);
        }
        Ok(())
    }

    // How many erase blocks the device has: at least one.
    pub fn erase_blocks(self) -> Result<u32, GeometryError>
        ensures { numbered number_of result ≡ blocks_of self }
    {
        Geometry::check(self)?;
        Ok(self.capacity / self.erase_size)
    }

    // Whether `offset..offset + len` is a legal read: 4 or 5 if either is not a multiple of the read unit, 6 if the span
    // reaches past the capacity or its end overflows.
    pub fn validate_read(self, offset: u32, len: u32) -> Result<(), GeometryError>
        ensures { number_in number_of result ≡ read_test self offset len }
    {
        self.validate(offset, len, self.read_size)
    }

    // Whether `offset..offset + len` is a legal program: as `validate_read`, against the program unit.
    pub fn validate_program(self, offset: u32, len: u32) -> Result<(), GeometryError>
        ensures { number_in number_of result ≡ program_test self offset len }
    {
        self.validate(offset, len, self.program_size)
    }

    // Whether `offset..offset + len` is a legal erase: as `validate_read`, against the erase unit.
    pub fn validate_erase(self, offset: u32, len: u32) -> Result<(), GeometryError>
        ensures { number_in number_of result ≡ erase_test self offset len }
    {
        self.validate(offset, len, self.erase_size)
    }

    // The one arithmetic that the three validators share. Alignment comes before bounds: a misaligned offset is a
    // caller's fault, an end past the device may be a legitimate caller at the end of a bank. A zero length is legal at
    // any aligned offset up to and including the capacity.
    fn validate(self, offset: u32, len: u32, unit: u32) -> Result<(), GeometryError>
        requires { geometry_test self ≡ 0 → one_bit unit ≡ true }
        ensures { number_in number_of result ≡ span_test self unit offset len }
    {
        self.check()?;
        if !is_multiple(offset, unit) {
            return Err(GeometryError::MisalignedOffset);
        }
        if !is_multiple(len, unit) {
            return Err(GeometryError::MisalignedLength);
        }
        // A u64 holds the end of every span of u32, so nothing wraps.
        let end = offset as u64 + len as u64;
        if end <= self.capacity as u64 {
            Ok(())
        } else {
            Err(GeometryError::OutOfBounds)
        }
    }
}

impl Numbered for GeometryError {
    ghost number = { number_of };

    ghost nonzero = { error-nonzero };

    // Document 01's number of the error, 1 to 6: the one place where it gets it.
    fn number(self) -> u32 {
        match self {
            GeometryError::ZeroUnit => 1,
            GeometryError::UnitIsNotAPowerOfTwo => 2,
            GeometryError::UnitsDoNotNest => 3,
            GeometryError::MisalignedOffset => 4,
            GeometryError::MisalignedLength => 5,
            GeometryError::OutOfBounds => 6,
        }
    }
}

// Replays a sample of the Rust's answers on geometries and spans. Each line has the inputs and the answers as numbers; the
// file stdout beside src/ has what the Rust answers to the same inputs, and was made by
//     tests/differential/run sample storage > crates/storage_cases/stdout
// The tables and the order of the cases are those of `sample` in tests/differential/src/storage.rs.
#![tactic(auto)]

use basics::number_in;
use std::io;
use storage::Geometry;

const CAPACITIES: [u32; 8] = [0, 1, 16, 20, 48, 2147483648, 4294967280, 4294967295];

const UNITS: [u32; 6] = [0, 1, 3, 4, 8, 16];

const DEVICES: [[u32; 4]; 4] = [
    [16, 8, 4, 4],
    [48, 16, 4, 1],
    [4294967280, 16, 8, 2],
    [20, 8, 4, 4],
];

const SPANS: [u32; 11] = [0, 1, 2, 3, 4, 8, 12, 16, 48, 4294967280, 4294967295];

fn print_units(rt: &impl Print, geometry: Geometry) -> io::Result<()> {
    let Geometry {
        capacity,
        erase_size,
        program_size,
        read_size,
    } = geometry;
    print!(rt; "{capacity} {erase_size} {program_size} {read_size} ")
}

// Four units, what `new` refuses them with, and the number of erase blocks, 0 where they are refused.
fn geometry_case(rt: &impl Print, geometry: Geometry) -> io::Result<()> {
    print_units(rt, geometry)?;
    let made = Geometry::new(
        geometry.capacity,
        geometry.erase_size,
        geometry.program_size,
        geometry.read_size,
    );
    let refused = number_in(made);
    let blocks = geometry.erase_blocks().unwrap_or(0);
    println!(rt; "{refused} {blocks}")
}

// Four units, a span, and what refuses it as a read, as a program and as an erase.
fn span_case(rt: &impl Print, geometry: Geometry, offset: u32, len: u32) -> io::Result<()> {
    print_units(rt, geometry)?;
    let read = number_in(geometry.validate_read(offset, len));
    let program = number_in(geometry.validate_program(offset, len));
    let erase = number_in(geometry.validate_erase(offset, len));
    println!(rt; "{offset} {len} {read} {program} {erase}")
}

// A capacity with every three units.
fn geometry_cases(rt: &impl Print, capacity: u32) -> io::Result<()> {
    for erase in UNITS {
        for program in UNITS {
            for read in UNITS {
                geometry_case(rt, storage::units(capacity, erase, program, read))?;
            }
        }
    }
    Ok(())
}

// A device with every span.
fn span_cases(rt: &impl Print, geometry: Geometry) -> io::Result<()> {
    for offset in SPANS {
        for len in SPANS {
            span_case(rt, geometry, offset, len)?;
        }
    }
    Ok(())
}

fn main(rt: HostRuntime) -> io::Result<()> {
    for capacity in CAPACITIES {
        geometry_cases(&rt, capacity)?;
    }
    for [capacity, erase, program, read] in DEVICES {
        span_cases(&rt, storage::units(capacity, erase, program, read))?;
    }
    Ok(())
}

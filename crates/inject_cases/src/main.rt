// Replays a sample of the Rust's crash points. Each list of operations has three lines: the erase and program units, the
// operations' kinds, offsets and lengths and how many points there are; every point by its place, and the number that
// refuses the place past the last; every point from the columns, and how many rows were written. The file stdout beside
// src/ has what the Rust answers to the same inputs, and was made by
//     tests/differential/run sample inject > crates/inject_cases/stdout
// The tables and the order of the cases are those of `sample` in tests/differential/src/inject.rs.
#![tactic(auto)]

ghost use Rattle.std.specs.Prelude.{◌≤◌, ◌<◌};

use basics::Numbered;
use inject::{Injection, OpsRef};
use inject_columns::PointsMut;
use std::io;
use storage::Geometry;

// The operations of the lists: programs of 0, 1 and 5 bytes, erases of 0, 8 and 16, a barrier.
const KINDS: [u8; 7] = [0, 0, 0, 1, 1, 1, 2];

const LENS: [u32; 7] = [0, 1, 5, 0, 8, 16, 0];

// A number and a blank.
fn print<N: Into<u64>>(rt: &impl Print, n: N) -> io::Result<()> {
    let n: u64 = n.into();
    print!(rt; "{n} ")
}

// A number that ends the line.
fn print_last<N: Into<u64>>(rt: &impl Print, n: N) -> io::Result<()> {
    let n: u64 = n.into();
    println!(rt; "{n}")
}

fn print_injection(rt: &impl Print, injection: Injection) -> io::Result<()> {
    print(rt, injection.op as u64)?;
    print(rt, injection.progress.code())?;
    print(rt, injection.progress.byte_count())?;
    print(rt, injection.interruption as u8)
}

// The operations, a row of three numbers for each.
fn print_operations(rt: &impl Print, list: &OpsRef<'_>) -> io::Result<()> {
    for ((kind, offset), len) in list.kinds.iter().zip(list.offsets).zip(list.lens) {
        print(rt, *kind)?;
        print(rt, *offset)?;
        print(rt, *len)?;
    }
    Ok(())
}

// The point at a place, or the number that refuses it, which ends the line.
fn print_place(
    rt: &impl Print,
    list: &OpsRef<'_>,
    geometry: Geometry,
    place: u64,
) -> io::Result<()> {
    match list.injection_at(geometry, place) {
        Ok(injection) => print_injection(rt, injection),
        Err(refusal) => print_last(rt, refusal.number()),
    }
}

// Every place, and the one past the last.
fn print_places(
    rt: &impl Print,
    list: &OpsRef<'_>,
    geometry: Geometry,
    points: u64,
) -> io::Result<()> {
    for place in 0..points {
        print_place(rt, list, geometry, place)?;
    }
    print_place(rt, list, geometry, points)
}

// The rows that were written, and how many.
fn print_rows(rt: &impl Print, points: &PointsMut<'_>, rows: usize) -> io::Result<()> {
    let numbers = points.ops.iter().zip(&*points.progresses);
    let causes = points.counts.iter().zip(&*points.interruptions);
    for ((op, progress), (count, interruption)) in numbers.zip(causes).take(rows) {
        print(rt, *op)?;
        print(rt, *progress)?;
        print(rt, *count)?;
        print(rt, *interruption)?;
    }
    print_last(rt, rows as u64)
}

// Every point from the columns, or the number that refuses them. No list here has more points than they have rows.
fn print_columns(rt: &impl Print, list: &OpsRef<'_>, geometry: Geometry) -> io::Result<()> {
    let mut points = PointsMut {
        ops: &mut [0u32; 64],
        progresses: &mut [0u8; 64],
        counts: &mut [0u32; 64],
        interruptions: &mut [0u8; 64],
    };
    match inject_columns::injections(list, geometry, &mut points) {
        Ok(rows) => print_rows(rt, &points, rows),
        Err(refusal) => print_last(rt, refusal.number()),
    }
}

fn print_list(rt: &impl Print, list: &OpsRef<'_>, geometry: Geometry) -> io::Result<()> {
    print(rt, geometry.erase_size)?;
    print(rt, geometry.program_size)?;
    print_operations(rt, list)?;
    match list.injection_count(geometry) {
        Ok(points) => {
            print_last(rt, points)?;
            print_places(rt, list, geometry, points)?;
        }
        Err(refusal) => print_last(rt, refusal.number())?,
    }
    print_columns(rt, list, geometry)
}

// A list of so many operations: a first, a second, and a third that these two tell.
fn list_case(
    rt: &impl Print,
    operations: usize,
    first: usize,
    second: usize,
    geometry: Geometry,
) -> io::Result<()>
    requires { (operations ≤ 3) × (first < 7) × (second < 7) }
{
    let third = (first + second * 2) % 7;
    let kinds = [KINDS[first], KINDS[second], KINDS[third]];
    let offsets = [0u32, 16, 32];
    let lens = [LENS[first], LENS[second], LENS[third]];
    let operations_of_list = OpsRef {
        kinds: &kinds[..operations],
        offsets: &offsets[..operations],
        lens: &lens[..operations],
    };
    print_list(rt, &operations_of_list, geometry)
}

// Each pair, alone or with a third.
fn pair_cases(rt: &impl Print, operations: usize, geometry: Geometry) -> io::Result<()>
    requires { operations ≤ 3 }
{
    for first in 0..7 {
        for second in 0..7 {
            list_case(rt, operations, first, second, geometry)?;
        }
    }
    Ok(())
}

// The empty list, each operation alone, each pair, and each pair with a third.
fn list_cases(rt: &impl Print, geometry: Geometry) -> io::Result<()> {
    list_case(rt, 0, 0, 0, geometry)?;
    for first in 0..7 {
        list_case(rt, 1, first, 0, geometry)?;
    }
    pair_cases(rt, 2, geometry)?;
    pair_cases(rt, 3, geometry)
}

fn main(rt: HostRuntime) -> io::Result<()> {
    list_cases(&rt, storage::units(48, 8, 4, 1))?;
    list_cases(&rt, storage::units(48, 4, 1, 1))
}

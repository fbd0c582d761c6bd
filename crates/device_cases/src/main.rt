// Replays a sample of the Rust's answers on devices and their media. Each line has inputs and answers as numbers, then the
// bytes of the slice that the call may have written. The file stdout beside src/ has what the Rust answers to the same
// inputs, and was made by
//     tests/differential/run sample device > crates/device_cases/stdout
// The tables and the order of the cases are those of `sample` in tests/differential/src/device.rs.
#![tactic(auto)]

use basics::number_in;
use device::OneWayBits;
use device_calls::FaultError;
use std::io;
use storage::{Geometry, units};

const OFFSETS: [u32; 7] = [0, 2, 4, 8, 15, 16, 4294967292];

const BYTES: [u8; 16] = [
    0xFF, 0xF0, 0x00, 0x0F, 0xA5, 0xFF, 0x7F, 0x5A, 0xFE, 0x80, 0xFF, 0x3C, 0x01, 0xFF, 0xC3, 0x00,
];

// The end of a line: a colon, and bytes.
fn print_bytes(rt: &impl Print, bytes: &[u8]) -> io::Result<()> {
    rt.write_all(b":")?;
    for byte in bytes {
        print!(rt; " {byte}")?;
    }
    rt.write_all(b"\n")
}

// Bytes of the table, from a place on and around.
fn of_table(bytes: &mut [u8], from: usize) {
    for (i, byte) in bytes.iter_mut().enumerate() {
        *byte = BYTES[(from % 16 + i % 16) % 16];
    }
}

// What stands before an answer: the call's kind, the rule, the capacity, the cells lent, and the span. (Rule and kind as the numbers that
// the line shows.)
fn print_call(
    rt: &impl Print,
    kind: usize,
    rule: u32,
    geometry: Geometry,
    cells: usize,
    offset: u32,
    len: usize,
) -> io::Result<()> {
    let capacity = geometry.capacity;
    print!(rt; "{kind} {rule} {capacity} {cells} {offset} {len} ")
}

// The end of a call's line: what refused it, and the bytes.
fn print_answer(rt: &impl Print, answer: Result<(), FaultError>, bytes: &[u8]) -> io::Result<()> {
    let refused = number_in(answer);
    print!(rt; "{refused} ")?;
    print_bytes(rt, bytes)
}

fn program_case(
    rt: &impl Print,
    geometry: Geometry,
    rule: u32,
    media: &mut [u8],
    place: usize,
) -> io::Result<()> {
    let offset = OFFSETS[place / 9 % 7];
    let len = place % 9;
    let mut src = [0u8; 8];
    of_table(&mut src, place);
    print_call(rt, 0, rule, geometry, media.len(), offset, len)?;
    let answer = device_calls::program(
        geometry,
        OneWayBits::from(rule),
        media,
        offset,
        &src[..len],
    );
    print_answer(rt, answer, media)
}

fn read_into(
    rt: &impl Print,
    geometry: Geometry,
    rule: u32,
    media: &[u8],
    offset: u32,
    dst: &mut [u8],
) -> io::Result<()> {
    print_call(rt, 1, rule, geometry, media.len(), offset, dst.len())?;
    let answer = device_calls::read(geometry, media, offset, dst);
    print_answer(rt, answer, dst)
}

// The buffer's bytes are 90 before.
fn read_case(
    rt: &impl Print,
    geometry: Geometry,
    rule: u32,
    media: &[u8],
    place: usize,
) -> io::Result<()> {
    let offset = OFFSETS[place / 9 % 7];
    let len = place % 9;
    let mut buffer = [90u8; 8];
    read_into(rt, geometry, rule, media, offset, &mut buffer[..len])
}

fn erase_case(
    rt: &impl Print,
    geometry: Geometry,
    rule: u32,
    media: &mut [u8],
    place: usize,
) -> io::Result<()> {
    let offset = OFFSETS[place / 9 % 7];
    let len = place % 9;
    print_call(rt, 2, rule, geometry, media.len(), offset, len)?;
    let answer = device_calls::erase(geometry, media, offset, len as u32);
    print_answer(rt, answer, media)
}

// The calls on one device, each on the media as the one before left them.
fn calls(rt: &impl Print, geometry: Geometry, rule: u32, media: &mut [u8]) -> io::Result<()> {
    device::fill_erased(media);
    for place in 0..63 {
        program_case(rt, geometry, rule, media, place)?;
        read_case(rt, geometry, rule, media, place)?;
        erase_case(rt, geometry, rule, media, place)?;
    }
    print_call(rt, 3, rule, geometry, media.len(), 0, 0)?;
    let answer = device_calls::barrier(geometry, media);
    print_answer(rt, answer, media)
}

// Two devices, units that do not nest, media shorter than the capacity, and units of 0 with media.
fn devices(rt: &impl Print, rule: u32) -> io::Result<()> {
    let mut one = [0u8; 1];
    let mut fifteen = [0u8; 15];
    let mut sixteen = [0u8; 16];
    let mut twenty = [0u8; 20];
    let mut twenty_four = [0u8; 24];
    calls(rt, units(16, 8, 4, 4), rule, &mut sixteen)?;
    calls(rt, units(24, 8, 2, 1), rule, &mut twenty_four)?;
    calls(rt, units(20, 8, 4, 4), rule, &mut twenty)?;
    calls(rt, units(16, 8, 4, 4), rule, &mut fifteen)?;
    calls(rt, units(0, 0, 0, 0), rule, &mut one)
}

// What is asked of the media.
fn print_questions(
    rt: &impl Print,
    media: &[u8],
    offset: u32,
    src: &[u8],
    len: u32,
) -> io::Result<()> {
    let sets = device_questions::would_set_a_bit(media, offset, src) as u8;
    let differs = device_questions::differs_from(media, offset, src) as u8;
    let changes = device::erase_would_change(media, offset, len) as u8;
    print!(rt; "{sets} {differs} {changes} ")
}

// The cells that programming would leave: the number, how many, and a buffer of three bytes.
fn print_postimage(rt: &impl Print, media: &[u8], offset: u32, src: &[u8]) -> io::Result<()> {
    let mut out = [90u8; 3];
    let answer = device::postimage_of(media, offset, src, &mut out);
    let refused = number_in(answer);
    let count = answer.unwrap_or(0);
    print!(rt; "{refused} {count} ")?;
    print_bytes(rt, &out)
}

// A part of twelve cells, and bytes for it.
fn question_case(rt: &impl Print, media: [u8; 12], place: usize) -> io::Result<()> {
    let offset = (place / 5 % 14) as u32;
    let len = place % 5;
    let mut src = [0u8; 4];
    of_table(&mut src, place);
    print!(rt; "{offset} {len} ")?;
    print_questions(rt, &media, offset, &src[..len], len as u32)?;
    let mut programmed = media;
    let changed = device::apply_program(&mut programmed, offset, &src[..len]) as u8;
    print!(rt; "{changed} ")?;
    print_bytes(rt, &programmed)?;
    print_postimage(rt, &media, offset, &src[..len])?;
    let mut erased = media;
    let changed = device::apply_erase(&mut erased, offset, len as u32) as u8;
    print!(rt; "{changed} ")?;
    print_bytes(rt, &erased)
}

// Of erased media, and then of media with bytes of the table: every part.
fn question_cases(rt: &impl Print) -> io::Result<()> {
    let mut written = [0u8; 12];
    of_table(&mut written, 5);
    for place in 0..140 {
        let media = if place < 70 {
            [device::ERASED; 12]
        } else {
            written
        };
        question_case(rt, media, place)?;
    }
    Ok(())
}

fn main(rt: HostRuntime) -> io::Result<()> {
    devices(&rt, 0)?;
    devices(&rt, 1)?;
    question_cases(&rt)
}

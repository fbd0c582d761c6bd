// FNV-1a's published vectors, 64 bits: a text and its digest in hexadecimal to a line. The expected output, stdout, holds the values
// that FNV's authors publish with their test suite (the ones without a terminating zero byte).
#![tactic(auto)]

use std::io;

const TEXTS: [&str; 12] = [
    "", "a", "b", "c", "d", "e", "f", "fo", "foo", "foob", "fooba", "foobar",
];

fn main(rt: HostRuntime) -> io::Result<()> {
    for text in TEXTS {
        let value = digest::digest(text.as_bytes());
        println!(&rt; "{text}\t{value:016x}")?;
    }
    Ok(())
}

// The digest of the bytes that a program call is handed: FNV-1a, 64 bits. Follows `digest` of waymaker-fault's session.rs.
// A run's digests are compared with another's, so that bytes need not be kept.
#![tactic(auto)]

ghost use Rattle.std.specs.Prelude.{◌≡◌, ◌*◌, ◌%◌, ◌^◌};
ghost use Rattle.digest.specs.Fnv.{digest_of};

// FNV's 64-bit offset basis: the digest of no bytes.
pub const OFFSET_BASIS: u64 = 0xcbf2_9ce4_8422_2325;

// FNV's 64-bit prime.
pub const PRIME: u64 = 0x100_0000_01b3;

// The product modulo 2^64: `a` is added once for each bit that is set in `b`, shifted to that bit's place. Where `b` is a constant the
// compiler unrolls the loop and folds what is left to one multiplication.
pub fn wrapping_mul(a: u64, b: u64) -> u64
    ensures { result ≡ a * b % 2 ^ 64 }
{
    let mut product: u64 = 0;
    let mut shifted = a;
    let mut bits = b;
    while bits != 0 {
        if bits % 2 == 1 {
            product = std::num::wrapping_add_u64(product, shifted);
        }
        shifted = shifted << 1;
        bits = bits / 2;
    }
    product
}

// FNV-1a over all the bytes.
pub fn digest(bytes: &[u8]) -> u64
    ensures { result ≡ digest_of bytes.now }
{
    let mut hash = OFFSET_BASIS;
    for byte in bytes {
        hash = wrapping_mul(hash ^ *byte as u64, PRIME);
    }
    hash
}

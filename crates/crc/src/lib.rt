// Cyclic redundancy checks. `checksum` is the one that packets carry and by which a card judges its
// flash region: CRC16-CCITT, computed bit by bit as its definition in specs/Crc.antt goes. It takes the
// register to start from, so that a check can be continued; the papers' checksum starts at `START`.
#![tactic(auto)]

ghost use Rattle.std.specs.Prelude.{◌≡◌, ◌∷◌, [], ◌<◌};
ghost use Rattle.crc.specs.Crc.{shifted, bit_in, register, register_of, joined_of};

// The register that every checksum of the papers starts from.
pub const START: u16 = 0xFFFF;

// The register one place to the left, with the polynomial where a 1 falls out at the top.
fn shift(from: u16) -> u16
    ensures { result ≡ shifted 16 0x1021 from }
{
    if from < 0x8000 {
        from << 1
    } else {
        (from << 1) ^ 0x1021
    }
}

// The register after one data bit.
fn bit_in(from: u16, bit: u16) -> u16
    requires { bit < 2 }
    ensures { result ≡ bit_in 16 0x1021 from bit }
{
    shift(from ^ (bit * 0x8000))
}

// The register after one byte, high bit first.
fn byte_in(from: u16, byte: u8) -> u16
    ensures { result ≡ register 16 0x1021 from (byte ∷ []) }
{
    let mut r = from;
    for taken in 0..8u8 {
        let bit = (byte >> (7 - taken)) % 2;
        r = bit_in(r, bit as u16);
    }
    r
}

// The register from a start over a string of bytes. With the start `START` it is their checksum; with the
// register over earlier bytes it is the register over the earlier bytes and these behind them.
pub fn checksum(start: u16, bytes: &[u8]) -> u16
    ensures { result ≡ register_of start bytes.now }
{
    let mut r = start;
    for &byte in bytes {
        r = byte_in(r, byte);
    }
    r
}

// The checksum of joined bytes, from the checksums of the two parts and the number of the second's
// bytes, where both parts started at `START`, as the range checksums of a card do.
pub fn joined(first: u16, second: u16, count: u16) -> u16
    ensures { result ≡ joined_of first second count }
{
    let mut r = first ^ START;
    for _ in 0..count {
        r = byte_in(r, 0);
    }
    r ^ second
}

// Numbers as bytes, low byte first, as every field of several bytes stands in packets, scripts and
// the sensor record: read at a place of a list of bytes, and stored at one. None of these functions
// asks anything of its input: a byte past the end counts as 0, and what does not fit is not stored.
#![tactic(auto)]

ghost use Rattle.std.specs.Prelude.{◌≡◌, get_or};
ghost use Rattle.little_endian.specs.Bytes.{number_at, little_endian, stretch, stored_at};

use byte_parts::{behind, front};

// The byte at a place.
pub fn byte_at(bytes: &[u8], at: usize) -> u8
    ensures { result ≡ get_or bytes.now at 0 }
{
    bytes.get(at).copied().unwrap_or(0)
}

// So many bytes from a place on.
fn array_at<const N: usize>(bytes: &[u8], at: usize) -> [u8; N]
    ensures { result ≡ stretch N at bytes.now }
{
    let mut array = [0u8; N];
    let held = front(behind(bytes, at), N);
    array[..held.len()].copy_from_slice(held);
    array
}

// New bytes stored from a place on, if they fit there.
pub fn store(new: &[u8], at: usize, out: &mut [u8])
    ensures { out.new ≡ stored_at at new.now out.old }
{
    if at <= out.len() && new.len() <= out.len() - at {
        out[at..at + new.len()].copy_from_slice(new);
    }
}

// A number that stands in so many bytes.
pub trait Number: Copy {
    ghost use Rattle.std.specs.Prelude.{◌≡◌, ℕ};
    ghost use Rattle.little_endian.specs.Bytes.{number_at, little_endian, stored_at};

    ghost width: { ℕ };

    ghost value: { Self → ℕ };

    // The number of the bytes from a place on.
    fn number_at(bytes: &[u8], at: usize) -> Self
        ensures { value result ≡ number_at width at bytes.now };

    // The bytes of the number stored from a place on, if they fit there.
    fn store_at(self, at: usize, out: &mut [u8])
        ensures { out.new ≡ stored_at at (little_endian width (value self)) out.old };
}

impl Number for u16 {
    ghost width = { 2 };

    ghost value = { λ n. n };

    fn number_at(bytes: &[u8], at: usize) -> u16 {
        u16::from_le_bytes(array_at(bytes, at))
    }

    fn store_at(self, at: usize, out: &mut [u8]) {
        let two = self.to_le_bytes();
        store(&two, at, out);
    }
}

impl Number for u32 {
    ghost width = { 4 };

    ghost value = { λ n. n };

    fn number_at(bytes: &[u8], at: usize) -> u32 {
        u32::from_le_bytes(array_at(bytes, at))
    }

    fn store_at(self, at: usize, out: &mut [u8]) {
        let four = self.to_le_bytes();
        store(&four, at, out);
    }
}

impl Number for u64 {
    ghost width = { 8 };

    ghost value = { λ n. n };

    fn number_at(bytes: &[u8], at: usize) -> u64 {
        u64::from_le_bytes(array_at(bytes, at))
    }

    fn store_at(self, at: usize, out: &mut [u8]) {
        let eight = self.to_le_bytes();
        store(&eight, at, out);
    }
}

// What the loader's commands do to a flash region and ask of it: a write, which only clears bits, the
// checksum of a range, and whether the firmware may start. An erase fills it with 0xFF. None
// of these functions asks anything of its input.
#![tactic(auto)]

ghost use Rattle.std.specs.Prelude.{◌≡◌, cond};
ghost use Rattle.little_endian.specs.Bytes.{stored_at};
ghost use Rattle.flash.specs.Flash.{inside, writable, allows_of, written, write_of, range_of, starts_of};

// Whether a range of n bytes at an address lies inside a region of the size.
fn is_inside(address: usize, n: usize, size: usize) -> bool
    ensures { result ≡ inside address n size }
{
    address <= size && n <= size - address
}

// Whether every new byte equals old AND new.
fn is_writable(old: &[u8], new: &[u8]) -> bool
    ensures { result ≡ writable old.now new.now }
{
    new.len() <= old.len() && old.iter().zip(new).all(|(&old, &new)| new == old & new)
}

// Whether a region allows new bytes at an address: the range is inside the region, and every byte of
// it allows the new one.
pub fn allows(new: &[u8], address: usize, region: &[u8]) -> bool
    ensures { result ≡ allows_of new.now address region.now }
{
    let n = new.len();
    is_inside(address, n, region.len()) && is_writable(&region[address..address + n], new)
}

// A write. The answer is false, and the region as it was, if the region does not allow the new bytes. It stays a bool: no
// value goes with it.
#[tactic(auto, unfolding(crate::specs::Flash::write_of))]
pub fn write(new: &[u8], address: usize, region: &mut [u8]) -> bool
    ensures { written result region.new ≡ write_of new.now address region.old }
{
    let allowed = allows(new, address, region);
    if allowed {
        little_endian::store(new, address, region);
    }
    allowed
}

// The checksum of n bytes from an address on, where they are inside the region.
#[tactic(auto, unfolding(crate::specs::Flash::range_of))]
pub fn range_checksum(address: usize, n: usize, region: &[u8]) -> Option<u16>
    ensures { result ≡ range_of address n region.now }
{
    if !is_inside(address, n, region.len()) {
        return None;
    }
    Some(crc::checksum(crc::START, &region[address..address + n]))
}

// Whether the firmware may start at an entry address.
#[tactic(auto, unfolding(crate::specs::Flash::starts_of))]
pub fn starts(entry: usize, expected: u16, region: &[u8]) -> bool
    ensures { result ≡ starts_of entry expected region.now }
{
    entry < region.len() && crc::checksum(crc::START, region) == expected
}

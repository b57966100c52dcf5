// A room for bytes, which is filled from its front.
ghost use Rattle.std.specs.Prelude.{◌≡◌, ◌+◌, ◌-◌, ◌<◌, ◌≤◌, ◌++◌, [], length, take, vec_len, replicate, OnOk, OnErr, IfOk};

use byte_parts::front;
use std::alloc::{AllocError, Global};

// Bytes put behind each other, at most so many: what the room does not hold is left out. Behind those that are held
// stand bytes that were held before, until others are put over them.
#[derive(Drop)]
pub struct Room {
    pub bytes: Vec<u8>,
    pub held: usize,
    pub size: usize,
    ghost within: { (held ≤ vec_len bytes) × (vec_len bytes ≤ size) },
}

// Fills bytes with the first of them, as many as a unit has, over and over.
fn repeat(bytes: &mut [u8], unit: usize)
    requires { 0 < unit }
{
    // What is filled is put behind itself, so that each turn doubles it.
    let mut filled = unit;
    while filled < bytes.len() {
        let (first, rest) = bytes.split_at_mut(filled);
        let count = first.len().min(rest.len());
        rest[..count].copy_from_slice(&first[..count]);
        filled += count;
    }
}

impl Room {
    pub fn new(alloc: Global, size: usize) -> Room
        ensures empty { result.bytes.items ≡ [] }
        ensures held { result.held ≡ 0 }
        ensures size { result.size ≡ size }
    {
        let bytes = Vec::new(alloc);
        Room {
            bytes,
            held: 0,
            size,
        }
    }

    // A room that has its memory from the first, zeros, so that nothing put into it asks for more.
    pub fn whole(alloc: Global, size: usize) -> Result<Room, AllocError>
        ensures zeros { IfOk result (λ room. room.bytes.items ≡ replicate size 0) }
        ensures held { IfOk result (λ room. room.held ≡ 0) }
        ensures size { IfOk result (λ room. room.size ≡ size) }
    {
        let bytes = vec![in alloc; 0; size]?;
        Ok(Room {
            bytes,
            held: 0,
            size,
        })
    }

    pub fn bytes(&self) -> &[u8]
        ensures { result.now ≡ take self.now.held self.now.bytes.items }
    {
        &self.bytes[..self.held]
    }

    // How many bytes there is room for.
    pub fn left(&self) -> usize
        ensures { result ≡ self.now.size - self.now.held }
    {
        self.size - self.held
    }

    // Has at least so many bytes stand in the room, held or not.
    pub(crate) fn reach(&mut self, count: usize) -> Result<(), AllocError>
        requires { count ≤ self.old.size }
        ensures enough { OnOk result (count ≤ vec_len self.new.bytes) }
        ensures kept { take self.old.held self.new.bytes.items ≡ take self.old.held self.old.bytes.items }
        ensures held { self.new.held ≡ self.old.held }
        ensures size { self.new.size ≡ self.old.size }
    {
        if self.bytes.len() < count {
            self.bytes.resize(count, 0)?;
        }
        Ok(())
    }

    // Puts bytes behind the others.
    pub fn put(&mut self, bytes: &[u8]) -> Result<(), AllocError>
        ensures ok { OnOk result (take self.new.held self.new.bytes.items
            ≡ take self.old.held self.old.bytes.items ++ take (self.old.size - self.old.held) bytes.now) }
        ensures err { OnErr result (take self.new.held self.new.bytes.items ≡ take self.old.held self.old.bytes.items) }
        ensures size { self.new.size ≡ self.old.size }
    {
        let left = self.left();
        let new = front(bytes, left);
        let end = self.held + new.len();
        self.reach(end)?;
        self.bytes[self.held..end].copy_from_slice(new);
        self.held = end;
        Ok(())
    }

    // Puts bytes behind the others if there is room for all of them.
    pub fn put_whole(&mut self, bytes: &[u8]) -> Result<(), AllocError>
        ensures fits { length bytes.now ≤ self.old.size - self.old.held
            → OnOk result (take self.new.held self.new.bytes.items ≡ take self.old.held self.old.bytes.items ++ bytes.now) }
        ensures too_long { self.old.size - self.old.held < length bytes.now
            → take self.new.held self.new.bytes.items ≡ take self.old.held self.old.bytes.items }
        ensures err { OnErr result (take self.new.held self.new.bytes.items ≡ take self.old.held self.old.bytes.items) }
        ensures size { self.new.size ≡ self.old.size }
    {
        if self.left() < bytes.len() {
            return Ok(());
        }
        self.put(bytes)
    }

    // Puts the first of the bytes that a unit is when it is repeated without end, so many of them.
    pub fn put_repeated(&mut self, unit: &[u8], count: usize) -> Result<(), AllocError>
        ensures size { self.new.size ≡ self.old.size }
    {
        self.put(front(unit, count))?;
        self.go_on(unit.len(), count.saturating_sub(unit.len()))
    }

    // Puts the last bytes, as many as `back`, over and over for `count` bytes more.
    pub fn go_on(&mut self, back: usize, count: usize) -> Result<(), AllocError>
        ensures size { self.new.size ≡ self.old.size }
    {
        if back == 0 || self.held < back {
            return Ok(());
        }
        let end = self.held + count.min(self.left());
        self.reach(end)?;
        repeat(&mut self.bytes[self.held - back..end], back);
        self.held = end;
        Ok(())
    }

    // Holds so many more of the bytes that stand behind those that are held, or all of them.
    pub fn hold_more(&mut self, count: usize)
        ensures same { self.new.bytes.items ≡ self.old.bytes.items }
        ensures more { self.new.held - self.old.held ≤ count }
        ensures kept { self.old.held ≤ self.new.held }
        ensures all { count ≤ vec_len self.old.bytes - self.old.held → self.new.held ≡ self.old.held + count }
        ensures size { self.new.size ≡ self.old.size }
    {
        self.held += count.min(self.bytes.len() - self.held);
    }

    // Holds the first bytes alone, so many.
    pub fn keep(&mut self, count: usize)
        ensures same { self.new.bytes.items ≡ self.old.bytes.items }
        ensures first { take self.new.held self.new.bytes.items ≡ take count (take self.old.held self.old.bytes.items) }
        ensures size { self.new.size ≡ self.old.size }
    {
        self.held = self.held.min(count);
    }
}

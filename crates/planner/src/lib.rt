// The planner: the page's own script of a firmware text, written into a lent output, or a refusal that
// leaves the output as it was. The script is written twice by the same functions: first over a buffer
// without room, which tells its length, then over the output, which is known to have the room.
#![tactic(auto)]

ghost use Rattle.std.specs.Prelude.{List, [], ◌∷◌, ◌++◌, ℕ, ◌≡◌, cond, ◌<◌, ◌≤◌, leb, length, take};
ghost use Rattle.firmware_text.specs.Machine.{image_of};
ghost use Rattle.firmware_text.specs.Segments.{segments_of};
ghost use Rattle.script.specs.Page.{addressed, writes_of, packets_of, page_script};
ghost use Rattle.planner.specs.Plan.{said, left, put_over, plan_of};
ghost use Rattle.planner.specs.Walk.{PutIfRoom, packet_from, front};

use refusal::{Refusal, Refused};
use std::marker::Model;
use text_cursor::{Reading, Token};

// The least length of a write's core: code, address and one byte.
const LEAST: usize = 6;

// The length of a full block's core: code, address and 256 bytes.
const FULL: usize = 261;

// A code and an address: how the core of a write or a start begins.
fn opening(code: u8, address: u64) -> [u8; 5]
    ensures { result ≡ addressed code address }
{
    let [a, b, c, d, ..] = address.to_le_bytes();
    [code, a, b, c, d]
}

// The packet around a core of at least so many bytes, put behind the first n of a buffer that has the
// room. The answer is how many the buffer has then: it goes on without room, as no rest of a slice could.
fn put(core: &[u8], least: usize, n: usize, out: &mut [u8]) -> usize
    requires { (length core.now ≤ 261) × (0 < least) × (n < 4294967296) }
    ensures { PutIfRoom (packet_from least core.now) n out.old result out.new }
{
    if core.len() < least {
        return n;
    }
    let end = n + core.len() + 5;
    if out.len() < end {
        return end;
    }
    packet::write(core, &mut out[n..end]);
    end
}

// The core of a write as far as it is filled: code and address, and the bytes of a block behind them.
#[derive(Drop)]
struct Block {
    core: [u8; FULL],
    filled: usize,
}

impl Model for Block {
    ghost Value = { List ℕ };

    ghost view = { λ block. take block.filled block.core };

    ghost invariant = { λ block. (5 ≤ block.filled) × (block.filled ≤ 261) };
}

impl Block {
    // An empty block at the address 0.
    fn new() -> Block
        ensures { result ≡ addressed 0x20 0 }
    {
        let mut block = Block {
            core: [0; FULL],
            filled: 5,
        };
        block.begin(0);
        block
    }

    // Its code, address and bytes.
    fn core(&self) -> &[u8]
        ensures same { result.now ≡ self.now }
        ensures few { length result.now ≤ 261 }
    {
        &self.core[..self.filled]
    }

    // Begins it anew, empty, at an address.
    fn begin(&mut self, address: u64)
        ensures { self.new ≡ addressed 0x20 address }
    {
        little_endian::store(&opening(0x20, address), 0, &mut self.core);
        self.filled = 5;
    }

    // Puts a byte behind the others. A full block begins anew at the byte's address.
    fn push(&mut self, address: u64, value: u8)
        ensures { self.new ≡ cond (leb 261 (length self.old)) (addressed 0x20 address) self.old ++ (value ∷ []) }
    {
        if FULL <= self.filled {
            self.begin(address);
        }
        self.core[self.filled] = value;
        self.filled += 1;
    }
}

// The write packets of a text's segments, put behind the first n bytes of a buffer. The length of the text
// is asked for here and in the two callers below; a struct of one text for its sake would be no plainer.
fn put_writes(text: &[u8], n: usize, out: &mut [u8]) -> usize
    requires { (length text.now ≤ 1048576) × (n < 1000) }
    ensures { PutIfRoom (packets_of (writes_of (segments_of (image_of text.now)))) n out.old result out.new }
{
    // no byte stands before the first segment
    let mut block = Block::new();
    let mut held = n;
    for token in Reading::of(text) {
        let Ok(token) = token else {
            return put(block.core(), LEAST, held, out);
        };
        match token {
            Token::Segment { address, .. } => {
                held = put(block.core(), LEAST, held, out);
                block.begin(address);
            }
            Token::Byte { address, value, .. } => {
                held = put(block.core(), FULL, held, out);
                block.push(address, value);
            }
            Token::End => {}
        }
    }
    put(block.core(), LEAST, held, out)
}

// What every script begins with: head, password, erase.
fn put_front(password: &[u8; 256], out: &mut [u8]) -> usize
    ensures { PutIfRoom (front password.now) 0 out.old result out.new }
{
    // the code, and the password behind it
    let mut unlock = [0x21; 257];
    little_endian::store(password, 1, &mut unlock);
    little_endian::store(&script::head(), 0, out);
    let unlocked = put(&unlock, 1, 5, out);
    put(&[0x15], 1, unlocked, out)
}

// The page's own script of a text with no range checksum.
fn put_script(text: &[u8], password: &[u8; 256], entry: u32, out: &mut [u8]) -> usize
    requires { length text.now ≤ 1048576 }
    ensures { PutIfRoom (page_script (image_of text.now) password.now entry []) 0 out.old result out.new }
{
    let erased = put_front(password, out);
    let written = put_writes(text, erased, out);
    put(&opening(0x27, u64::from(entry)), 1, written, out)
}

// The script of a sound text over the front of an output that has the room.
fn write(text: &[u8], password: &[u8; 256], entry: u32, out: &mut [u8]) -> Result<usize, Refused>
    requires { length text.now ≤ 1048576 }
    ensures { left (said result) out.new ≡ put_over (page_script (image_of text.now) password.now entry []) out.old }
{
    // no room for a script, so nothing but its length comes of it
    let mut none = [0u8; 1];
    let length = put_script(text, password, entry, &mut none);
    if out.len() < length {
        return Err(Refusal::OutputShort.into());
    }
    Ok(put_script(text, password, entry, out))
}

// The page's own script of a text over the front of the output, or a refusal.
pub fn plan(
    text: &[u8],
    password: &[u8],
    entry: u32,
    size: usize,
    out: &mut [u8],
) -> Result<usize, Refused>
    ensures { left (said result) out.new ≡ plan_of text.now password.now entry size out.old }
{
    if !region::size_good(size) {
        return Err(Refusal::RegionSize.into());
    }
    let Some(password) = password.as_array::<256>() else {
        return Err(Refusal::PasswordLength.into());
    };
    if size <= entry as usize {
        return Err(Refusal::EntryOutside.into());
    }
    text_image::judge(text, size)?;
    write(text, password, entry, out)
}

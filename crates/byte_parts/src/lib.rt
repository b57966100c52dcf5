// Parts of byte strings: their first bytes, what stands from a place on, a line, and what every byte is. None of
// these functions asks anything of its input: a part that is not there is empty.
#![tactic(auto)]

ghost use Rattle.std.specs.Prelude.{◌≡◌, ◌-◌, ◌≤◌, length, take, drop, All, IsTrue, ◌↔◌};

// The first bytes of a list, at most so many.
pub fn front(bytes: &[u8], count: usize) -> &[u8]
    ensures { result.now ≡ take count bytes.now }
{
    &bytes[..count.min(bytes.len())]
}

// The same of a list that may be changed.
pub fn front_mut(bytes: &mut [u8], count: usize) -> &mut [u8] {
    let held = count.min(bytes.len());
    &mut bytes[..held]
}

// What stands from a place on, nothing if the place is past the end.
pub fn behind(bytes: &[u8], at: usize) -> &[u8]
    ensures { result.now ≡ drop at bytes.now }
{
    &bytes[at.min(bytes.len())..]
}

// The place of the first such byte, or the end.
pub fn find(text: &[u8], wanted: u8) -> usize
    ensures { result ≤ length text.now }
{
    text.iter()
        .position(|&byte| byte == wanted)
        .unwrap_or(text.len())
}

// What stands from a place on before the next such byte.
pub fn part_at(text: &[u8], at: usize, end: u8) -> &[u8]
    ensures { length result.now ≤ length text.now - at }
{
    let rest = behind(text, at);
    &rest[..find(rest, end)]
}

// The line from a place on, without its end.
pub fn line_at(text: &[u8], at: usize) -> &[u8]
    ensures { length result.now ≤ length text.now - at }
{
    part_at(text, at, b'\n')
}

// The part of a text that has a number, from 0 on, each with such a byte after it; nothing where the text has fewer.
pub fn part_of(text: &[u8], number: usize, end: u8) -> &[u8] {
    text.split(|&byte| byte == end).nth(number).unwrap_or(&[])
}

// The line of a text that has a number, from 0 on; nothing where the text has fewer.
pub fn line_of(text: &[u8], number: usize) -> &[u8] {
    part_of(text, number, b'\n')
}

// Whether every byte is the value.
pub fn every(bytes: &[u8], value: u8) -> bool
    ensures { IsTrue result ↔ All (λ byte. byte ≡ value) bytes.now }
{
    bytes.iter().all(|&byte| byte == value)
}

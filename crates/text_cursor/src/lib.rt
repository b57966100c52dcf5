// A walk through a firmware text: a cursor by value, whose method hands back the next token (a
// segment's address, or a byte with its place and address) with the moved cursor, or the place where
// the text is malformed. No cursor is refused by a `requires`: one that no text has finds a fault.
#![tactic(auto)]

ghost use Rattle.std.specs.Prelude.{◌≡◌, ℕ, ◌+◌, ◌^◌, ◌<◌, ◌≤◌, drop, length, get_or, Ok, IsTrue, ◌↔◌};
ghost use Rattle.firmware_text.specs.Machine.{Line, sign, half, full, gap, quit, within, image_of};
ghost use Rattle.text_cursor.specs.Walk.{from, near, line_state, stop_state, rest, beginning, Tells};
ghost use Rattle.text_cursor.specs.Left.{ahead, Gives, left_at};
ghost use Rattle.std.specs.Iterator.{at_most};
ghost use Rattle.text_cursor.specs.Parts.{Numbered, end_from, DigitAt, behind, Beyond, ahead_image, Reached};

use firmware_text::digit_of;

// The most pairs of a line.
const MOST: u64 = 16;

// The pairs of a cursor at the start of a text, one more than a line can have.
const START: u64 = 17;

// A place in a text and how one came there. Its fields are all of one size: a cursor is copied for each
// byte of an image, and holes in it would cost more than the reading.
#[derive(Clone, Copy)]
pub struct Cursor {
    pub at: usize,
    // the pairs of the line so far; 0 at a line's start, below a segment; START and above at the start of the text
    pub pairs: u64,
    // the next byte's address
    pub address: u64,
}

// What stands next in a text.
#[derive(Clone, Copy)]
pub enum Token {
    // a line that opens a segment
    Segment {
        address: u64,
        cursor: Cursor,
    },
    // a byte; its place is that of its first digit
    Byte {
        place: usize,
        address: u64,
        value: u8,
        cursor: Cursor,
    },
    // the last line
    End,
}

// What stands behind a cursor: another pair of its line, by its place and first digit, or a line.
#[derive(Clone, Copy)]
enum Ahead {
    Pair(usize, u8),
    Line(usize),
}

// An address, and the place behind its digits.
#[derive(Clone, Copy)]
struct Number {
    value: u64,
    past: usize,
}

// The hex digit at a place.
fn digit_at(text: &[u8], at: usize) -> Result<u8, usize>
    ensures { DigitAt text.now at result }
{
    text.get(at).and_then(|&b| digit_of(b)).ok_or(at)
}

// Whether the byte stands at a place.
fn stands(text: &[u8], at: usize, b: u8) -> bool
    ensures { IsTrue result ↔ ((at < length text.now) × (get_or text.now at 0 ≡ b)) }
{
    text.get(at) == Some(&b)
}

// The place behind LF, or CR LF.
fn line_end(text: &[u8], at: usize) -> Result<usize, usize>
    ensures { ((l : Line) → behind text.now l result ≡ end_from l at (drop at text.now)) × Beyond text.now at result }
{
    if stands(text, at, b'\n') {
        return Ok(at + 1);
    }
    if !stands(text, at, b'\r') {
        return Err(at);
    }
    let next = at + 1;
    if !stands(text, next, b'\n') {
        return Err(next);
    }
    Ok(next + 1)
}

// What may follow the q: its line end, and nothing else.
fn last(text: &[u8], at: usize) -> Result<Token, usize>
    ensures { Tells text.now at (from quit at text.now) result }
{
    if text.len() <= at {
        return Ok(Token::End);
    }
    let past = line_end(text, at)?;
    if past < text.len() {
        return Err(past);
    }
    Ok(Token::End)
}

// The digits of an address behind its first, at most 8 in all.
fn digits(text: &[u8], at: usize, first: u8) -> Number
    requires { (first < 16) × (at ≤ length text.now) }
    ensures { Numbered text.now at first result }
{
    let rest = &text[at..at + (text.len() - at).min(7)];
    let mut value = u64::from(first);
    for (i, &b) in rest.iter().enumerate() {
        let Some(digit) = digit_of(b) else {
            return Number {
                value,
                past: at + i,
            };
        };
        value = value * 16 + u64::from(digit);
    }
    Number {
        value,
        past: at + rest.len(),
    }
}

// An address, from behind its @ on.
fn opening(text: &[u8], at: usize) -> Result<Token, usize>
    ensures { Tells text.now at (from sign at text.now) result }
{
    let first = digit_at(text, at)?;
    let number = digits(text, at + 1, first);
    let past = line_end(text, number.past)?;
    let address = number.value;
    let cursor = Cursor {
        at: past,
        pairs: 0,
        address,
    };
    Ok(Token::Segment { address, cursor })
}

// A pair whose first digit is known; which of its line it is.
fn pair(text: &[u8], at: usize, pairs: u64, address: u64, high: u8) -> Result<Token, usize>
    requires { (high < 16) × (address ≤ 2 ^ 32 + at) × (at < length text.now) × (0 < pairs) × (pairs < 17) }
    ensures { Tells text.now at (from (half at pairs address high) (at + 1) text.now) result }
{
    let second = at + 1;
    let low = digit_at(text, second)?;
    Ok(Token::Byte {
        place: at,
        address,
        value: high * 16 + low,
        cursor: Cursor {
            at: second + 1,
            pairs,
            address: address + 1,
        },
    })
}

// What stands first in a line: a pair only below a segment.
fn line_start(text: &[u8], at: usize, pairs: u64, address: u64) -> Result<Token, usize>
    requires { address ≤ 2 ^ 32 + at }
    ensures { Tells text.now at (from (line_state pairs address) at text.now) result }
{
    if let Ok(high) = digit_at(text, at) {
        if START <= pairs {
            return Err(at);
        }
        return pair(text, at, 1, address, high);
    }
    if stands(text, at, b'@') {
        return opening(text, at + 1);
    }
    if stands(text, at, b'q') {
        return last(text, at + 1);
    }
    Err(at)
}

// Another pair of a line, of which no line has a 17th.
fn another(text: &[u8], at: usize, pairs: u64, address: u64, high: u8) -> Result<Token, usize>
    requires { (address ≤ 2 ^ 32 + at) × DigitAt text.now at (Ok high) }
    ensures { Tells text.now at (from (gap pairs address) at text.now) result }
{
    if MOST <= pairs {
        return Err(at);
    }
    pair(text, at, pairs + 1, address, high)
}

// The line behind this one's end.
fn line_ahead(text: &[u8], at: usize) -> Result<Ahead, usize>
    ensures { ((k a : ℕ) → k < 17 → ahead_image text.now k a result ≡ end_from (within a) at (drop at text.now))
        × Reached text.now at result }
{
    Ok(Ahead::Line(line_end(text, at)?))
}

// Behind a pair: a space and another pair, or the line's end.
fn behind_pair(text: &[u8], at: usize) -> Result<Ahead, usize>
    ensures { ((k a : ℕ) → k < 17 → ahead_image text.now k a result ≡ from (full k a) at text.now) × Reached text.now at result }
{
    if !stands(text, at, b' ') {
        return line_ahead(text, at);
    }
    let next = at + 1;
    match digit_at(text, next) {
        Ok(high) => Ok(Ahead::Pair(next, high)),
        Err(_) => line_ahead(text, next),
    }
}

// Where the next token begins.
fn look_ahead(text: &[u8], at: usize, pairs: u64) -> Result<Ahead, usize>
    ensures { ((a : ℕ) → ahead_image text.now pairs a result ≡ from (stop_state pairs a) at text.now) × Reached text.now at result }
{
    if pairs == 0 || START <= pairs {
        return Ok(Ahead::Line(at));
    }
    behind_pair(text, at)
}

// Whether a text can have reached the address at the place.
fn is_near(at: usize, address: u64) -> bool
    ensures { result ≡ near at address }
{
    address.saturating_sub(1 << 32) <= at as u64
}

impl Cursor {
    // The start of a text.
    pub fn new() -> Cursor
        ensures { result ≡ beginning }
    {
        Cursor {
            at: 0,
            pairs: START,
            address: 0,
        }
    }

    // The next token from the cursor on. It is built into each walk, so that no token is copied there.
    #[inline(always)]
    pub fn next(self, text: &[u8]) -> Result<Token, usize>
        ensures { Tells text.now self.at (rest text.now self) result }
    {
        let Cursor { at, pairs, address } = self;
        if !is_near(at, address) {
            return Err(at);
        }
        match look_ahead(text, at, pairs)? {
            Ahead::Pair(place, high) => another(text, place, pairs, address, high),
            Ahead::Line(place) => line_start(text, place, pairs, address),
        }
    }
}

// The tokens of a text, one by one: up to its last line, or to the place where it is malformed.
#[derive(Drop)]
pub struct Reading<'a> {
    text: &'a [u8],
    // none behind the last line and behind a fault
    cursor: Option<Cursor>,
}

impl<'a> Reading<'a> {
    // From the start of a text.
    pub fn of(text: &'a [u8]) -> Reading<'a>
        ensures { ahead result ≡ image_of text.now }
    {
        Reading {
            text,
            cursor: Some(Cursor::new()),
        }
    }
}

impl<'a> Iterator for Reading<'a> {
    type Item = Result<Token, usize>;

    ghost next_gives = { Gives };

    ghost remaining = { λ reading. at_most (left_at reading) };

    // The next token. It is built into each walk, so that no token is copied there.
    #[inline(always)]
    fn next(&mut self) -> Option<Result<Token, usize>> {
        let token = self.cursor.take()?.next(self.text);
        self.cursor = match token {
            Ok(Token::Segment { cursor, .. }) | Ok(Token::Byte { cursor, .. }) => Some(cursor),
            Ok(Token::End) => return None,
            Err(_) => None,
        };
        Some(token)
    }
}

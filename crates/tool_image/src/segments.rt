// The segments of a firmware text that is sound, one after the other.
ghost use Rattle.std.specs.Iterator.{at_most};

use text_cursor::{Cursor, Token};

// A segment: its number, from 1, its address, and how many bytes it has.
#[derive(Clone, Copy)]
pub(crate) struct Segment {
    pub number: usize,
    pub address: usize,
    pub count: usize,
}

// The line that opens a segment: the segment's address, and the place behind the line.
#[derive(Clone, Copy)]
struct Opening {
    address: u64,
    cursor: Cursor,
}

// The number of a segment's bytes, and the line behind it that opens the next.
#[derive(Clone, Copy)]
struct Ending {
    count: usize,
    next: Option<Opening>,
}

// The segments of a text. Each takes at least one byte of it, so there are no more than that.
#[derive(Drop)]
pub(crate) struct Segments<'a> {
    text: &'a [u8],
    number: usize,
    next: Option<Opening>,
}

impl<'a> Segments<'a> {
    pub(crate) fn of(text: &'a [u8]) -> Segments<'a> {
        Segments {
            text,
            number: 0,
            next: opened_by(Cursor::new().next(text)),
        }
    }

    // Whether no line opens a segment more. To ask is no walk to the segment's end, as `next` is.
    pub(crate) fn is_done(&self) -> bool {
        self.next.is_none()
    }
}

impl<'a> Iterator for Segments<'a> {
    type Item = Segment;

    ghost use Rattle.std.specs.Prelude.{◌-◌, length};

    ghost remaining = { λ s. at_most (length s.text.now - s.number) };

    fn next(&mut self) -> Option<Segment> {
        let Opening { address, cursor } = self.next?;
        if self.text.len() <= self.number {
            return None;
        }
        let Ending { count, next } = end_of(self.text, cursor);
        self.number += 1;
        self.next = next;
        Some(Segment {
            number: self.number,
            address: address as usize,
            count,
        })
    }
}

// The line that a token is, if that opens a segment.
fn opened_by(token: Result<Token, usize>) -> Option<Opening> {
    match token {
        Ok(Token::Segment { address, cursor }) => Some(Opening { address, cursor }),
        _ => None,
    }
}

// How a segment of a text ends that begins at a cursor. Each of its bytes takes at least one of the text, so there are no
// more than that. The cursor is moved by hand: an iterator would lose the token behind the last byte, which opens the next.
fn end_of(text: &[u8], begin: Cursor) -> Ending {
    let mut cursor = begin;
    for count in 0..text.len() {
        match cursor.next(text) {
            Ok(Token::Byte { cursor: next, .. }) => cursor = next,
            token => {
                return Ending {
                    count,
                    next: opened_by(token),
                };
            }
        }
    }
    Ending {
        count: text.len(),
        next: None,
    }
}

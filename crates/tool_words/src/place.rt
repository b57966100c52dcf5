// Places in a firmware text, as people count: the line and the column, and the line itself with a mark
// below the column.
ghost use Rattle.std.specs.Prelude.{◌≤◌};

use crate::cause;
use byte_parts::{front, line_at};
use refusal::{Refusal, Refused};
use report::Line;
use std::io;

// A line of a text: its number, from 1, and where it starts.
#[derive(Drop)]
struct Position {
    line: usize,
    start: usize,
}

// The most bytes of a line that are shown.
const SHOWN: usize = 72;

// The line in which a place of a text stands.
fn position_of(text: &[u8], place: usize) -> Position
    ensures { result.start ≤ place }
{
    let before = front(text, place);
    let ends = before.iter().filter(|b| **b == b'\n').count();
    let start = before
        .iter()
        .rposition(|b| *b == b'\n')
        .map_or(0, |end| end + 1);
    Position {
        line: ends.saturating_add(1),
        start,
    }
}

// Prints a line of the text, as far as it is shown: a point stands for a byte that cannot be.
fn print_line(rt: &impl Print, words: &[u8]) -> io::Result<()> {
    let mut line = Line::new().text("  ");
    for &b in front(words, SHOWN) {
        line = line.byte(if matches!(b, b' '..=b'~') { b } else { b'.' });
    }
    line.print(rt)
}

// Prints a mark below a column of a line that is shown as far as that.
fn print_mark(rt: &impl Print, column: usize) -> io::Result<()> {
    if SHOWN < column {
        return Ok(());
    }
    Line::new().to(column + 2).text("^").print(rt)
}

// Says where a place of a text stands.
fn in_text(rt: &impl Print, text: &[u8], place: usize) -> io::Result<()> {
    let at = position_of(text, place);
    let column = place - at.start;
    cause::place(place)
        .text(": line ")
        .decimal(at.line)
        .text(", column ")
        .decimal(column.saturating_add(1))
        .print(rt)?;
    print_line(rt, line_at(text, at.start))?;
    print_mark(rt, column)
}

// Says what stands at the place of a refusal, for those that a text gets and those without a place.
pub fn located(rt: &impl Print, text: &[u8], refused: Refused) -> io::Result<()> {
    match refused.refusal {
        Refusal::TextMalformed | Refusal::AddressOutside | Refusal::AddressRepeated => {
            in_text(rt, text, refused.place)
        }
        _ => cause::place(refused.place).print(rt),
    }
}

// Says that a text is refused, why, and where.
pub fn refused(rt: &impl Print, text: &[u8], refused: Refused) -> io::Result<()> {
    cause::refused(rt, refused.refusal)?;
    located(rt, text, refused)
}

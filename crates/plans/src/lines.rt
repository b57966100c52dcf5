// The lines: each one's order and numbers read, its text made, planned and answered.
use crate::answers::{BEFORE, Plan};
use crate::rooms::Rooms;
use byte_parts::behind;
use std::io;
use vector_lines::words::put_text;
use vector_lines::{cut, number_of, secret, show};

// The answer to numbers and the words of a text, with just as many bytes of password and output as are asked for.
fn ask(rt: &impl Print, listed: bool, words: &[u8], rooms: &mut Rooms) -> io::Result<()> {
    let (size, rest) = number_of(words);
    let (entry, rest) = number_of(behind(rest, 1));
    let (password, rest) = number_of(behind(rest, 1));
    let (room, rest) = number_of(behind(rest, 1));
    let secret = secret();
    let Some(password) = secret.get(..password) else {
        return show::text(rt, b" no such password");
    };
    let Some(out) = rooms.out.as_mut_slice().get_mut(..room) else {
        return show::text(rt, b" no such room");
    };
    rooms.text.keep(0);
    put_text(behind(rest, 1), &mut rooms.text)?;
    out.fill(BEFORE);
    let plan = Plan {
        listed,
        size,
        entry: entry as u32,
        password,
        text: rooms.text.bytes(),
    };
    plan.answer(rt, out, &mut rooms.regions)
}

// The answer to an order, in the rooms that stand ready.
fn answer(rt: &impl Print, words: &[u8], rooms: &mut Rooms) -> io::Result<()> {
    let (order, rest) = cut(words, b' ');
    match order {
        b"plan" => ask(rt, false, rest, rooms),
        b"list" => ask(rt, true, rest, rooms),
        _ => show::text(rt, b" no such order"),
    }
}

pub fn run(rt: &(impl Print + AllocGlobal), input: &[u8]) -> io::Result<()> {
    let mut rooms = Rooms::new(rt.alloc())?;
    vector_lines::answer_lines(rt, input, |words| answer(rt, words, &mut rooms))
}

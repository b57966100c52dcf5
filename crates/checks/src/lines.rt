// The lines: each one's settings read, its text and its script made, checked and answered.
use crate::answers;
use crate::rooms::Rooms;
use crate::scripts::Planning;
use crate::settings::Setup;
use byte_parts::behind;
use std::io;
use vector_lines::words::put_text;
use vector_lines::{cut, read_settings};

// The answer to settings, steps and a text, with a stroke and a space between.
fn answer(rt: &impl Print, case: &[u8], rooms: &mut Rooms) -> io::Result<()> {
    let (settings, rest) = cut(case, b'|');
    let (steps, words) = cut(behind(rest, 1), b'|');
    let mut setup = Setup::new();
    read_settings(settings, &mut setup);
    rooms.text.keep(0);
    put_text(behind(words, 1), &mut rooms.text)?;
    let planning = Planning {
        text: rooms.text.bytes(),
        size: setup.size,
    };
    planning.script_of(rt, steps, &mut rooms.script)?;
    answers::answer(rt, setup, rooms)
}

pub fn run(rt: &(impl Print + AllocGlobal), input: &[u8]) -> io::Result<()> {
    let mut rooms = Rooms::new(rt.alloc())?;
    vector_lines::answer_lines(rt, input, |words| answer(rt, words, &mut rooms))
}

// The lines: each one's settings read, its order carried out and answered.
use crate::bench::Bench;
use byte_parts::behind;
use std::io;
use vector_lines::room::Room;
use vector_lines::{cut, packets, read_settings};

// How many bytes the words of an order stand for at most.
const ROOM: usize = 16400;

// What stands behind a label carried out on the bench. Before a call the lengths that are lent hold for that call only.
fn answer(rt: &impl Print, bench: &mut Bench, bytes: &mut Room, words: &[u8]) -> io::Result<()> {
    let before = bench.lent;
    let rest = read_settings(words, bench);
    let (order, _) = cut(rest, b' ');
    bytes.keep(0);
    packets::put(rt, behind(rest, order.len()), bytes)?;
    match order {
        b"call" => {
            bench.call(rt, bytes.bytes())?;
            bench.lent = before;
            Ok(())
        }
        b"key" => bench.key(rt, bytes.bytes()),
        b"record" => bench.record(rt, bytes.bytes()),
        _ => bench.state(rt),
    }
}

pub fn run(rt: &(impl Print + AllocGlobal), input: &[u8]) -> io::Result<()> {
    let mut bench = Bench::new(rt.alloc())?;
    let mut bytes = Room::whole(rt.alloc(), ROOM)?;
    vector_lines::answer_lines(rt, input, |words| answer(rt, &mut bench, &mut bytes, words))
}

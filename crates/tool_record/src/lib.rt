// `record`: a sensor record of 64 bytes in words.
#![tactic(auto)]

mod values;

use arguments::Options;
use report::System;
use std::io;
use std::rt::{Env, Files};
use tool_words::cause;

// A record, and one byte more.
const ROOM: usize = 65;

// Prints a record, or says why it is refused.
fn print(rt: &impl Print, bytes: &[u8]) -> io::Result<()> {
    match sensor_record::read(bytes) {
        Ok(values) => values::print(rt, values),
        Err(why) => cause::refused(rt, why),
    }
}

pub fn run(rt: &(impl System + Env + Files), options: Options) -> io::Result<()> {
    let mut room = [0u8; ROOM];
    match files::read(rt, options.first, &mut room) {
        Some(bytes) => print(rt, bytes),
        None => Ok(()),
    }
}

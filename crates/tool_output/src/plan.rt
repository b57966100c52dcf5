// `plan`: the script of a firmware text, written into a file.
use crate::{image_checksum, rule};
use arguments::Options;
use byte_parts::{front, front_mut};
use files::{PASSWORD_ROOM, Replacing};
use report::System;
use std::io;
use std::random::RandomSource;
use std::rt::{Env, Files};
use tool_words::{entry, lines, packets, place};

// Says what a script is that was written.
fn print(
    rt: &impl System,
    options: Options,
    text: &[u8],
    script: &[u8],
    sum: u16,
) -> io::Result<()> {
    lines::bytes(rt, "planned ", script.len())?;
    lines::number(rt, "packets ", packets::count(script))?;
    lines::checksum(rt, "image checksum ", sum)?;
    entry::print(rt, text, options.entry as usize)
}

// Puts a script into its file, which may not be one of those that were read, and says what it is.
fn save(
    rt: &(impl System + Env + Files + RandomSource + Alloc),
    options: Options,
    text: &[u8],
    script: &[u8],
    sum: u16,
) -> io::Result<()> {
    let replaced = rule(options, options.password, Replacing::Scripts);
    if files::save(rt, options.second, script, replaced) {
        return print(rt, options, text, script, sum);
    }
    Ok(())
}

// Plans a text with a password, and says what comes of it.
fn plan(
    rt: &(impl System + Env + Files + RandomSource + Alloc),
    options: Options,
    text: &[u8],
    password: &[u8],
    script: &mut [u8],
    region: &mut [u8],
) -> io::Result<()> {
    match planner::plan(text, password, options.entry, options.size, script) {
        Err(refused) => place::refused(rt, text, refused),
        Ok(n) => {
            let sum = image_checksum(text, front_mut(region, options.size));
            save(rt, options, text, front(script, n), sum)
        }
    }
}

pub fn run(
    rt: &(impl System + Env + Files + RandomSource + Alloc),
    options: Options,
    room: &mut [u8],
    script: &mut [u8],
    region: &mut [u8],
) -> io::Result<()> {
    let Some(text) = files::read(rt, options.first, room) else {
        return Ok(());
    };
    let mut room = [0u8; PASSWORD_ROOM];
    match files::read_password(rt, options.password, &mut room) {
        Some(password) => plan(rt, options, text, password, script, region),
        None => Ok(()),
    }
}

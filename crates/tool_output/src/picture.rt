// `picture`: the picture of a firmware text, byte for byte what the flash region is to hold, written into a file.
use crate::rule;
use arguments::Options;
use byte_parts::front_mut;
use files::Replacing;
use report::System;
use std::io;
use std::random::RandomSource;
use std::rt::{Env, Files};
use tool_words::{lines, place};

// Puts a region into its file, which may not be the text, and says what it is.
fn save(
    rt: &(impl System + Env + Files + RandomSource + Alloc),
    options: Options,
    region: &[u8],
) -> io::Result<()> {
    let replaced = rule(options, None, Replacing::Nothing);
    if !files::save(rt, options.second, region, replaced) {
        return Ok(());
    }
    lines::bytes(rt, "written ", region.len())?;
    lines::checksum(rt, "image checksum ", crc::checksum(crc::START, region))
}

// Fills a region with the picture of a text and saves it, or says why the text is refused.
fn picture(
    rt: &(impl System + Env + Files + RandomSource + Alloc),
    options: Options,
    text: &[u8],
    region: &mut [u8],
) -> io::Result<()> {
    match ti_txt::read(text, options.size, region) {
        Err(refused) => place::refused(rt, text, refused),
        Ok(()) => save(rt, options, region),
    }
}

pub fn run(
    rt: &(impl System + Env + Files + RandomSource + Alloc),
    options: Options,
    room: &mut [u8],
    region: &mut [u8],
) -> io::Result<()> {
    match files::read(rt, options.first, room) {
        Some(text) => picture(rt, options, text, front_mut(region, options.size)),
        None => Ok(()),
    }
}

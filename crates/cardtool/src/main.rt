// The tool of field staff, over the proved functions: scripts planned, checked and listed, images shown, summed and
// written, sensor records printed. The first line of standard output says how it went: `refused` and a number for a
// refusal, nothing at all where the usage or a file was wrong, which standard error then says, and anything else for a
// success. The launcher beside the README turns that line into an exit status; the program's own says only whether
// what it printed was taken. The large rooms stand here once, and are lent.
#![tactic(auto)]

mod check;

use arguments::{Command, Request};
use report::System;
use std::io;
use std::process::ExitCode;
use std::random::RandomSource;
use std::rt::{Env, Files};
use tool_words::usage;

// The status where what is printed cannot be written: as the system ends a program whose reader has gone.
const UNHEARD: u8 = 141;

// Room for so many bytes. It is made here, as the check would go over each byte of an array that it knows.
fn room<const N: usize>() -> [u8; N] {
    [0; N]
}

// Does what the arguments ask for.
fn run(rt: &(impl System + Env + Files + RandomSource + Alloc)) -> io::Result<()> {
    let Some(Request { command, options }) = arguments::read(rt) else {
        usage::complain(rt);
        return Ok(());
    };
    let mut text = room::<{ input_rooms::TEXT }>();
    let mut script = room::<{ input_rooms::SCRIPT }>();
    let mut region = room::<{ input_rooms::REGION }>();
    let mut known = room::<{ input_rooms::KNOWN }>();
    match command {
        Command::Plan => tool_output::plan::run(rt, options, &mut text, &mut script, &mut region),
        Command::Check | Command::Cuts => {
            check::run(
                rt,
                command,
                options,
                &mut text,
                &mut script,
                &mut region,
                &mut known,
            )
        }
        Command::Show => tool_show::run(rt, options, &mut script),
        Command::Image => tool_image::image(rt, options, &mut text, &mut region),
        Command::Sums => tool_image::checksums(rt, options, &mut text, &mut region),
        Command::Picture => tool_output::picture::run(rt, options, &mut text, &mut region),
        Command::Record => tool_record::run(rt, options),
        Command::Help => usage::print(rt),
        Command::Version => usage::print_version(rt),
    }
}

fn main(rt: HostRuntime) -> ExitCode {
    match run(&rt) {
        Ok(()) => ExitCode::SUCCESS,
        Err(_) => ExitCode::from(UNHEARD),
    }
}

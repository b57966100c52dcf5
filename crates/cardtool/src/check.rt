// `check`: whether a script puts the image of a firmware text into every card; and `cuts`, which says of one that does
// how a card comes up if the power fails while it is sent.
use arguments::{Command, Options};
use byte_parts::{front, front_mut};
use files::PASSWORD_ROOM;
use report::System;
use std::io;
use std::rt::{Env, Files};
use tool_verdict::Behind;

// Checks a script against the text of so many bytes by the options, and says what came of it. The table of cuts takes a
// second region: by then the text is done with, and its room is lent for that. So script, text and password are no struct, which
// would hold the room; and `command` is handed down, as a closure in its place would take all that is handed down beside it.
fn judge(
    rt: &(impl System + Env + Files),
    command: Command,
    options: Options,
    script: &[u8],
    texts: &mut [u8],
    length: usize,
    password: &[u8],
    room: &mut [u8],
    bits: &mut [u8],
) -> io::Result<()> {
    let size = options.size;
    let text = front(texts, length);
    let region = front_mut(room, size);
    let known = front_mut(bits, size / 8);
    let expected = tool_output::expected_checksum(options.expect, text, region);
    let checked = checker::check(script, text, password, expected, size, region, known);
    let behind = Behind {
        packets: checked.packets,
        unknown: checked.unknown,
        expected,
    };
    match checked.answer {
        Err(refused) => {
            tool_verdict::refused(rt, script, text, password, refused, behind, region)
        }
        Ok(()) if command == Command::Cuts => {
            tool_cuts::say(rt, options, script, texts, length, password, behind, room)
        }
        Ok(()) => tool_verdict::passed(rt, script, text, behind),
    }
}

pub fn run(
    rt: &(impl System + Env + Files),
    command: Command,
    options: Options,
    texts: &mut [u8],
    scripts: &mut [u8],
    region: &mut [u8],
    known: &mut [u8],
) -> io::Result<()> {
    let Some(script) = files::read(rt, options.first, scripts) else {
        return Ok(());
    };
    let Some(text) = files::read(rt, options.second, texts) else {
        return Ok(());
    };
    let length = text.len();
    let mut room = [0u8; PASSWORD_ROOM];
    let Some(password) = files::read_password(rt, options.password, &mut room) else {
        return Ok(());
    };
    judge(
        rt, command, options, script, texts, length, password, region, known,
    )
}

// A new file in the place of another: it is made in the folder of that place, and takes its name once its bytes are on
// their device. So the old file stands until the new one is whole.
use crate::standing::{Reason, judge};
use crate::{Rule, is_done};
use report::{Line, System};
use std::fs::{OpenFile, OpenOptions, Permissions};
use std::io::{Error, ErrorKind, Write};
use std::os::unix::fs::{OpenOptionsExt, PermissionsExt};
use std::random::RandomSource;
use std::rt::{Env, Files};
use std::{fs, io};
use tool_paths::{Word, text, too_long};

// The most links that are followed, as the system has it.
const MOST_LINKS: usize = 40;

// Who may read and write a new file: its owner alone, since a script carries the password.
const OWNER_ALONE: u32 = 0o600;

// How many letters of a new file's name are random, and what they are drawn from.
const RANDOM: usize = 6;

const LETTERS: &[u8; 62] = b"abcdefghijklmnopqrstuvwxyzABCDEFGHIJKLMNOPQRSTUVWXYZ0123456789";

// How many names of new files are tried, each of which may be taken already.
const MOST_NAMES: usize = 238328;

// A path's folder, with the slash at its end, empty for the current one.
fn folder(path: &[u8]) -> &[u8] {
    match path.iter().rposition(|&b| b == b'/') {
        Some(at) => &path[..=at],
        None => b"",
    }
}

// A folder and a name in it, if that is no longer than a word.
fn joined(folder: &[u8], name: &[u8]) -> Option<Word> {
    let mut whole = Word::try_from(folder).ok()?;
    whole.try_extend_from_slice(name).ok()?;
    Some(whole)
}

// The path to which a link at a path leads, by the text of the link.
fn followed(link: &[u8], path: &[u8]) -> Option<Word> {
    if link.starts_with(b"/") {
        return joined(b"", link);
    }
    joined(folder(path), link)
}

// The path to which a path leads, links followed, if that is no longer than a word.
fn resolved(rt: &(impl Files + Alloc), path: &[u8]) -> io::Result<Option<Word>> {
    let mut place = Word::try_from(path).ok();
    for _ in 0..MOST_LINKS {
        let Some(at) = place else { return Ok(None) };
        let Some(link) = tool_paths::link(rt, &at)? else {
            return Ok(Some(at));
        };
        place = followed(&link, &at);
    }
    Ok(place)
}

// The name of a new file in the folder of a path: it holds the number of this process, and room for random letters.
fn name_beside(rt: &impl System, path: &[u8]) -> Option<Word> {
    let line = Line::new()
        .text("cardtool.new.")
        .decimal(rt.process_number() as usize)
        .text(".")
        .repeat(b'X', RANDOM);
    joined(folder(path), line.words())
}

// Puts random letters at the end of a name.
fn put_random(rt: &impl RandomSource, name: &mut [u8]) -> io::Result<()> {
    let mut drawn = [0u8; RANDOM];
    rt.fill_bytes(&mut drawn)?;
    for (letter, &number) in name.iter_mut().rev().zip(&drawn) {
        *letter = LETTERS[usize::from(number) % LETTERS.len()];
    }
    Ok(())
}

// Makes a file that did not stand before.
fn create<R: Files>(rt: &R, name: &[u8]) -> io::Result<R::File> {
    let mut how = OpenOptions::new();
    how.read(true)
        .write(true)
        .create_new(true)
        .mode(OWNER_ALONE);
    how.open(rt, text(name)?)
}

// Makes a new file by a name at whose end random letters are put, others where a file has that name already.
fn create_random<R: Files + RandomSource>(rt: &R, name: &mut [u8]) -> io::Result<R::File> {
    for _ in 0..MOST_NAMES {
        put_random(rt, name)?;
        match create(rt, name) {
            Err(why) if why.kind() == ErrorKind::AlreadyExists => {}
            made => return made,
        }
    }
    Err(Error::from(ErrorKind::AlreadyExists))
}

// Puts bytes into a new file. It is an error where not all of them are on its device.
fn fill(file: &mut (impl OpenFile + Write), bytes: &[u8]) -> io::Result<()> {
    let _ = file.set_permissions(Permissions::from_mode(OWNER_ALONE));
    let written = file.write_all(bytes);
    file.sync_all()?;
    written
}

// Removes a new file that is not wanted any more.
fn remove(rt: &impl Files, name: &[u8]) {
    if let Ok(path) = text(name) {
        let _ = fs::remove_file(rt, path);
    }
}

// What came of a step after which a new file is not wanted if it failed.
fn or_remove(rt: &impl Files, name: &[u8], done: io::Result<()>) -> io::Result<()> {
    if done.is_err() {
        remove(rt, name);
    }
    done
}

// Puts bytes into a new file that was made by a name; or leaves none.
fn complete<R: Files>(rt: &R, mut file: R::File, bytes: &[u8], name: &[u8]) -> io::Result<()> {
    or_remove(rt, name, fill(&mut file, bytes))
}

// Whether a new file may take its place still, which is looked at again, as writing takes its time, in which another file may
// have come there. Where it may not, that is said, by a name of the place, and only then is the new file removed.
fn is_free_still(
    rt: &(impl System + Env + Files),
    new: &[u8],
    name: &[u8],
    place: &[u8],
    rule: Rule,
) -> bool {
    let free = is_done(rt, name, judge(rt, place, rule).map(|()| true));
    if !free {
        remove(rt, new);
    }
    free
}

// Gives a new file the name of a place.
fn rename(rt: &impl Files, new: &[u8], place: &[u8]) -> io::Result<()> {
    fs::rename(rt, text(new)?, text(place)?)
}

// The place of the file at a path, or where its link leads, if what stands at the path may be replaced.
pub(crate) fn place_of(
    rt: &(impl Env + Files + Alloc),
    path: &[u8],
    rule: Rule,
) -> Result<Word, Reason> {
    judge(rt, path, rule)?;
    let place = resolved(rt, path)?.ok_or_else(too_long)?;
    Ok(place)
}

// Puts bytes into the file at a place that is no link, whole or not at all. The place is looked at by its own name. The answer
// is whether it did; where it did not, that was said.
pub(crate) fn put_at_place(
    rt: &(impl System + Env + Files + RandomSource),
    place: &[u8],
    bytes: &[u8],
    rule: Rule,
) -> Result<bool, Reason> {
    judge(rt, place, rule)?;
    let mut new = name_beside(rt, place).ok_or_else(too_long)?;
    let file = create_random(rt, &mut new)?;
    complete(rt, file, bytes, &new)?;
    if !is_free_still(rt, &new, place, place, rule) {
        return Ok(false);
    }
    or_remove(rt, &new, rename(rt, &new, place))?;
    Ok(true)
}

// Whether a path and all to which it leads by links are UTF-8, so that a file can be put there by its own name.
pub(crate) fn leads_in_text(rt: &(impl Files + Alloc), path: &[u8]) -> bool {
    resolved(rt, path).is_ok()
}

// Puts bytes into a new file beside a link which is lent, if the file to which it leads may be replaced. The launcher then
// gives it that file's name. The answer is whether it is made; where it is not, that was said, by a name of the file.
pub(crate) fn put_beside(
    rt: &(impl System + Env + Files),
    name: &[u8],
    link: &[u8],
    bytes: &[u8],
    rule: Rule,
) -> Result<bool, Reason> {
    judge(rt, link, rule)?;
    let new = joined(link, b".new").ok_or_else(too_long)?;
    let file = create(rt, &new)?;
    complete(rt, file, bytes, &new)?;
    Ok(is_free_still(rt, &new, name, link, rule))
}

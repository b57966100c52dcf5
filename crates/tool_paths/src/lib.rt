// Paths as the system takes them: which file stands at one, of what kind it is, and where a link points. A path
// is a slice of at most 4,095 bytes, and text in UTF-8. None of these functions asks anything of its input.
#![tactic(auto)]

ghost use Rattle.std.specs.Prelude.{◌≡◌, None};
ghost use Rattle.std.specs.IoError.{error_kind, raw_os_error};
ghost use Rattle.std.specs.declared.io.ErrorKind.TheVariants.{InvalidFilename};

use arrayvec::ArrayVec;
use std::io::{Error, ErrorKind};
use std::os::unix::fs::MetadataExt;
use std::rt::Files;
use std::{fs, io, str};

// One byte more than the longest path has: room for a path and the 0 that ends it for the system.
pub const PATH_MAX: usize = 4096;

// A path, or another word of the arguments.
pub type Word = ArrayVec<u8, PATH_MAX>;

// A file by its device and its number there, whatever its names are.
#[derive(Clone, Copy, PartialEq, Eq)]
pub struct File {
    pub device: u64,
    pub number: u64,
}

// What stands at a path, links followed.
#[derive(Clone, Copy, PartialEq, Eq)]
pub enum Standing {
    Missing,
    Regular(File),
    // A folder, a pipe, a device: anything else.
    Other(File),
}

// That a path has more bytes than a word or the system takes.
pub fn too_long() -> Error
    ensures kind { error_kind result ≡ InvalidFilename }
    ensures own { raw_os_error result ≡ None }
{
    Error::new(ErrorKind::InvalidFilename, "the name is too long")
}

// A path as it is asked for, if it is text.
pub fn text(path: &[u8]) -> io::Result<&str> {
    str::from_utf8(path).map_err(|_| Error::new(
        ErrorKind::InvalidFilename,
        "the name is not UTF-8",
    ))
}

// What stands at a path. It is an error where the system does not say, or the path is too long to be asked for.
pub fn look_at(rt: &impl Files, path: &[u8]) -> io::Result<Standing> {
    if PATH_MAX <= path.len() {
        return Err(too_long());
    }
    let found = match fs::metadata(rt, text(path)?) {
        Err(why) if why.kind() == ErrorKind::NotFound => return Ok(Standing::Missing),
        asked => asked?,
    };
    let file = File {
        device: found.dev(),
        number: found.ino(),
    };
    if found.is_file() {
        return Ok(Standing::Regular(file));
    }
    Ok(Standing::Other(file))
}

// The text of a link, if the path is one. It is an error where a link leads to a name that is not UTF-8, or memory runs out.
pub fn link(rt: &(impl Files + Alloc), path: &[u8]) -> io::Result<Option<Word>> {
    if PATH_MAX <= path.len() {
        return Ok(None);
    }
    match fs::read_link(rt, text(path)?) {
        Err(why) if why.raw_os_error().is_some() => Ok(None),
        read => {
            let link = read?;
            let word = Word::try_from(link.as_str().as_bytes()).map_err(|_| too_long())?;
            Ok(Some(word))
        }
    }
}

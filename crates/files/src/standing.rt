// What stands where a file is to be written, and whether it may be replaced. Files are told apart by device and number,
// whatever their names are.
use crate::{Replacing, Rule, path_of, read_all};
use arguments::Name;
use std::io;
use std::rt::{Env, Files};
use thiserror::Error;
use tool_paths::{File, Standing};

// Why no file is written.
#[derive(Debug, Drop, Error)]
pub(crate) enum Reason {
    #[error("the file stands already; --force replaces it")]
    Stands,
    #[error("the file stands already and is no script; --force replaces it")]
    NoScript,
    #[error("the file is one of those read, and is not replaced")]
    Read,
    #[error("this is no regular file, and is not replaced")]
    NotRegular,
    #[error(transparent)]
    Failed(#[from] io::Error),
}

// Whether a file is the one of a name.
fn is_named(rt: &(impl Env + Files), file: File, name: Option<Name>) -> bool {
    match tool_paths::look_at(rt, &path_of(rt, name)) {
        Ok(Standing::Regular(other) | Standing::Other(other)) => file == other,
        _ => false,
    }
}

// Whether the file at a path begins as a script does.
fn is_script(rt: &impl Files, path: &[u8]) -> bool {
    let mut mark = [0u8; 3];
    read_all(rt, path, &mut mark).is_ok() && mark == *b"BSX"
}

// Whether a regular file may be replaced, or why not.
fn judge_regular(
    rt: &(impl Env + Files),
    path: &[u8],
    file: File,
    rule: Rule,
) -> Result<(), Reason> {
    if is_named(rt, file, rule.first) || is_named(rt, file, rule.second) {
        return Err(Reason::Read);
    }
    match rule.replacing {
        Replacing::Any => Ok(()),
        Replacing::Nothing => Err(Reason::Stands),
        Replacing::Scripts if is_script(rt, path) => Ok(()),
        Replacing::Scripts => Err(Reason::NoScript),
    }
}

// Whether a file may be written at a path, or why not.
pub(crate) fn judge(rt: &(impl Env + Files), path: &[u8], rule: Rule) -> Result<(), Reason> {
    match tool_paths::look_at(rt, path)? {
        Standing::Missing => Ok(()),
        Standing::Regular(file) => judge_regular(rt, path, file, rule),
        Standing::Other(_) => Err(Reason::NotRegular),
    }
}

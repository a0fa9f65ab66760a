//! Files that get a text whole, or stay as they were.

use std::fs::{File, Metadata, OpenOptions};
use std::io::{Error, ErrorKind, Write};
use std::os::unix::fs::{MetadataExt, fchown};
use std::path::{Path, PathBuf};
use std::{fs, io};

/// Where the system tells what standard output and standard error go to.
const STANDARD_OUTPUT: &str = "/proc/self/fd/1";

const STANDARD_ERROR: &str = "/proc/self/fd/2";

/// How many names are tried for a file beside another.
const NAMES: u32 = 1000;

/// How many links are followed, one behind another; the system follows 40.
const LINKS: u32 = 40;

/// Writes a text to the file of a path. What standard output or standard error goes to gets it by that stream, behind
/// what was written there. Any other file, or one that isn't there, gets it from one that is written beside it and
/// takes its name: so it has all of the text, or is as it was. A device or a pipe gets the text as it is.
///
/// # Errors
/// Those of the system. A file that can't be written to is refused, though its folder could take another in its place.
pub(crate) fn write(rt: &HostRuntime, path: &str, text: &[u8]) -> io::Result<()> {
    match fs::metadata(rt, path) {
        Ok(found) if leads_to(rt, STANDARD_OUTPUT, &found) => rt.stdout().write_all(text),
        Ok(found) if leads_to(rt, STANDARD_ERROR, &found) => rt.stderr().write_all(text),
        Ok(found) if found.is_file() => write_over(rt, path, &found, text),
        Ok(_) => fs::write(rt, path, text),
        Err(error) if error.kind() == ErrorKind::NotFound => {
            let target = behind_links(rt, path)?;
            replace(rt, target.as_path(), None, text)
        }
        Err(error) => Err(error),
    }
}

/// Whether a path leads to a file that was found by another.
fn leads_to(rt: &HostRuntime, path: &str, found: &Metadata) -> bool {
    fs::metadata(rt, path).is_ok_and(|there| there.dev() == found.dev()
        && there.ino() == found.ino())
}

/// Writes a text to a file in the place of what it held.
fn write_over(rt: &HostRuntime, path: &str, found: &Metadata, text: &[u8]) -> io::Result<()> {
    OpenOptions::new().write(true).open(rt, path)?;
    let target = behind_links(rt, path)?;
    // A descriptor's link may tell a name that its file has no more.
    if leads_to(rt, target.as_path().as_str(), found) {
        replace(rt, target.as_path(), Some(found), text)
    } else {
        Err(Error::from(ErrorKind::NotFound))
    }
}

/// The path that the links at the end of a path lead to, though there be no file.
fn behind_links(rt: &HostRuntime, path: &str) -> io::Result<PathBuf> {
    let mut target = PathBuf::from_str(rt.alloc(), path)?;
    for _ in 0..LINKS {
        match fs::read_link(rt, target.as_path()) {
            Ok(next) => target.set_file_name(next.as_path().as_str())?,
            Err(error) => match error.kind() {
                ErrorKind::InvalidInput | ErrorKind::NotFound => return Ok(target),
                _ => return Err(error),
            },
        }
    }
    Err(Error::from(ErrorKind::NotFound))
}

/// Writes a text to a new file beside a path, which then takes that path; it is removed where that fails.
fn replace(
    rt: &HostRuntime,
    path: Path<'_>,
    old: Option<&Metadata>,
    text: &[u8],
) -> io::Result<()> {
    let (name, file) = beside(rt, path)?;
    let moved = fill(file, old, text).and_then(|()| fs::rename(rt, name.as_path(), path));
    if moved.is_err() {
        let _removed = fs::remove_file(rt, name.as_path());
    }
    moved
}

/// A new file in the folder of a path, and its name, for which there is room wherever there is for a file.
fn beside(rt: &HostRuntime, path: Path<'_>) -> io::Result<(PathBuf, File)> {
    for number in 0..NAMES {
        let name = format!(in rt.alloc(); ".pcom-{number}.new")?;
        let name = path.with_file_name(rt.alloc(), name.as_str())?;
        match File::create_new(rt, name.as_path()) {
            Ok(file) => return Ok((name, file)),
            Err(error) if error.kind() == ErrorKind::AlreadyExists => {}
            Err(error) => return Err(error),
        }
    }
    Err(Error::from(ErrorKind::AlreadyExists))
}

/// Writes a text to a file, which gets the rights of an old one, and its owner and group where the system lets it. It
/// is on the disk then.
fn fill(mut file: File, old: Option<&Metadata>, text: &[u8]) -> io::Result<()> {
    if let Some(old) = old {
        let _grouped = fchown(&file, None, Some(old.gid()));
        let _owned = fchown(&file, Some(old.uid()), None);
        file.set_permissions(old.permissions())?;
    }
    file.write_all(text)?;
    file.sync_data()
}

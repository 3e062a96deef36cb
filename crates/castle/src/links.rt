//! Symbolic links that stand where the store's file is named.
use std::fs;
use std::io::ErrorKind;
use std::path::PathBuf;
use std::rt::Files;
use strat_model::Ended;

/// How many links are followed, one after the other. Linux follows as many.
const LINKS: u32 = 40;

/// The path at which the file itself is named, though there may be none yet: the last of the links
/// that begin at this path leads there. What cannot be read as a link is taken for the file.
/// Nothing is opened.
pub fn file_of<R: Files + AllocGlobal>(rt: &R, path: &str) -> Result<PathBuf, Ended> {
    let mut file = PathBuf::from_str(rt.alloc(), path).map_err(|_| Ended::NoMemory)?;
    for _ in 0..LINKS {
        match fs::read_link(rt, file.as_path()) {
            Ok(next) => {
                file.pop();
                file.push(next.as_path()).map_err(|_| Ended::NoMemory)?;
            }
            Err(e) => match e.kind() {
                ErrorKind::OutOfMemory => return Err(Ended::NoMemory),
                // the file's path is no text
                ErrorKind::InvalidFilename => return Err(Ended::Device),
                _ => return Ok(file),
            },
        }
    }
    Err(Ended::Device)
}

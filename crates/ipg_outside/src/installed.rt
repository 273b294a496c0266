//! The grammars of installed formats: where they lie, and their list.

use std::alloc::{AllocError, Global};
use std::env::{self, VarError};
use std::fs;
use std::io::{self, Error, ErrorKind, Read};
use std::path::PathBuf;
use std::rt::{Env, Files};

/// Names the folder of grammars.
const VARIABLE: &str = "IPG_FORMATS";

/// Where that lies beside the program's own folder.
const BESIDE: &str = "share/ipg/formats";

const ENDING: &str = ".ipg";

/// Comments begin at this column of the list.
const COLUMN: usize = 16;

/// So many bytes of a grammar are read for its line at most.
const MOST_OF_LINE: usize = 1 << 8;

/// The file of this name; where there is none and the name is `@` and a format's, the grammar of that.
pub(crate) fn open<R: Files + Env + AllocGlobal>(rt: &R, name: &str) -> io::Result<R::File> {
    match fs::open(rt, name) {
        Err(error) if error.kind() == ErrorKind::NotFound => match format_in(name) {
            Some(format) => fs::open(rt, grammar_file(rt, format)?),
            None => Err(error),
        },
        answer => answer,
    }
}

/// The format that a name means.
fn format_in(name: &str) -> Option<&str> {
    let format = name.strip_prefix('@')?;
    is_format(format).then_some(format)
}

/// Whether a word can name a format. So no path leads out of the folder.
fn is_format(word: &str) -> bool {
    !word.is_empty()
        && word
            .bytes()
            .all(|b| b.is_ascii_alphanumeric() || matches!(b, b'-' | b'_'))
}

/// The folder of grammars; it need not be there.
fn folder<R: Files + Env + AllocGlobal>(rt: &R) -> io::Result<PathBuf> {
    match env::var(rt, VARIABLE) {
        Ok(named) if !named.is_empty() => Ok(PathBuf::from_str(rt.alloc(), named.as_str())?),
        Err(VarError::OutOfMemory) => Err(Error::from(AllocError)),
        Err(VarError::NotUnicode) => Err(Error::from(ErrorKind::InvalidFilename)),
        _ => beside_program(rt),
    }
}

fn beside_program<R: Files + AllocGlobal>(rt: &R) -> io::Result<PathBuf> {
    let program = env::current_exe(rt)?;
    match program.parent().and_then(|folder| folder.parent()) {
        Some(above) => Ok(above.join(rt.alloc(), BESIDE)?),
        None => Err(Error::from(ErrorKind::NotFound)),
    }
}

fn grammar_file<R: Files + Env + AllocGlobal>(rt: &R, format: &str) -> io::Result<PathBuf> {
    file_in(rt.alloc(), &folder(rt)?, format)
}

fn file_in(alloc: Global, folder: &PathBuf, format: &str) -> io::Result<PathBuf> {
    let mut path = folder.join(alloc, format)?;
    path.add_extension("ipg")?;
    Ok(path)
}

/// A line for each grammar in the folder, in the order of their names: `@NAME`, and the first line of its text where that is a comment.
pub(crate) fn list<R: Files + Env + AllocGlobal + Clone + Drop>(rt: &R) -> io::Result<Vec<u8>> {
    let folder = folder(rt)?;
    let mut formats = formats_in(rt, &folder)?;
    formats.sort_unstable();
    let mut list = Vec::new(rt.alloc());
    for format in &formats {
        let line = first_line(rt, &file_in(rt.alloc(), &folder, format.as_str())?)?;
        add_line(&mut list, format.as_str(), &line)?;
    }
    Ok(list)
}

/// The formats whose grammars lie in a folder; none where it isn't there.
fn formats_in<R: Files + AllocGlobal + Clone + Drop>(
    rt: &R,
    folder: &PathBuf,
) -> io::Result<Vec<String>> {
    let mut formats = Vec::new(rt.alloc());
    let entries = match fs::read_dir(rt, folder) {
        Ok(entries) => entries,
        Err(error) if error.kind() == ErrorKind::NotFound => return Ok(formats),
        Err(error) => return Err(error),
    };
    for entry in entries {
        match entry {
            Ok(entry) => add_format(&mut formats, rt.alloc(), entry.file_name())?,
            // A name that is no text is no format's.
            Err(error) if error.kind() == ErrorKind::InvalidFilename => {}
            Err(error) => return Err(error),
        }
    }
    Ok(formats)
}

fn add_format(formats: &mut Vec<String>, alloc: Global, file: &str) -> Result<(), AllocError> {
    match file.strip_suffix(ENDING) {
        Some(format) if is_format(format) => Ok(formats.push(String::from_str(alloc, format)?)?),
        _ => Ok(()),
    }
}

/// The first bytes of a file; none where it can't be read.
fn first_line<R: Files + AllocGlobal>(rt: &R, path: &PathBuf) -> io::Result<Vec<u8>> {
    let mut front = [0u8; MOST_OF_LINE];
    let count = match fs::open(rt, path) {
        Ok(mut file) => file.read(&mut front).unwrap_or(0),
        Err(_) => 0,
    };
    Ok(Vec::from_slice(rt.alloc(), &front[..count])?)
}

/// Adds the line of a format.
fn add_line(list: &mut Vec<u8>, format: &str, front: &[u8]) -> Result<(), AllocError> {
    list.push(b'@')?;
    list.extend_from_slice(format.as_bytes())?;
    let comment = comment(front);
    if !comment.is_empty() {
        add_comment(list, COLUMN.saturating_sub(format.len() + 1), comment)?;
    }
    Ok(list.push(b'\n')?)
}

/// Adds a comment behind so many blanks, or one. What a terminal might obey is left out.
fn add_comment(list: &mut Vec<u8>, blanks: usize, comment: &[u8]) -> Result<(), AllocError> {
    for _ in 0..blanks.max(1) {
        list.push(b' ')?;
    }
    for byte in comment {
        list.push(if matches!(byte, b' '..=b'~') {
            *byte
        } else {
            b'?'
        })?;
    }
    Ok(())
}

/// The comment that a text begins with, up to the end of its line.
fn comment(front: &[u8]) -> &[u8] {
    let line = match front.iter().position(|b| *b == b'\n') {
        Some(end) => &front[..end],
        None => front,
    };
    match line.strip_prefix(b"#") {
        Some(comment) => comment.trim_ascii(),
        None => b"",
    }
}

// Lists each file that an argument names, under a line with its name.
#![tactic(auto)]

ghost use Rattle.std.specs.Prelude.{◌≤◌, length, IfOk};

use listing::stream::StreamError;
use std::env::{Env, FillError};
use std::fs::Files;
use std::io::Write;
use std::{fs, io};

// The file of a name.
fn open<R: Files>(rt: &R, path: &[u8]) -> io::Result<R::File> {
    match str::from_utf8(path) {
        Ok(text) => fs::open(rt, text),
        Err(_) => Err(io::Error::from(io::ErrorKind::InvalidInput)),
    }
}

// The listing of one file.
fn list_file<R: Files, W: Write>(rt: &R, writer: &mut W, path: &[u8]) -> Result<(), StreamError> {
    let mut file = open(rt, path)?;
    writer.write_all(b"# ")?;
    writer.write_all(path)?;
    writer.write_all(b"\n")?;
    listing::stream::list(&mut file, writer)
}

// Says that a file could not be listed whole.
fn complain<E: Write>(
    errors: &mut E,
    path: &[u8],
    listed: Result<(), StreamError>,
) -> io::Result<()> {
    match listed {
        Ok(()) => Ok(()),
        Err(StreamError::Uncounted) => {
            errors.write_all(path)?;
            errors.write_all(b": there are more octets than can be counted\n")
        }
        Err(StreamError::Io(e)) => {
            errors.write_all(path)?;
            writeln!(errors, ": {e}")
        }
    }
}

// The listing of the file that argument i names: whether there is such an argument. One that is too long for any path names none.
fn list_arg<R: Env + Files, W: Write, E: Write>(
    rt: &R,
    writer: &mut W,
    errors: &mut E,
    i: usize,
) -> io::Result<bool> {
    let mut name = [0u8; 4096];
    let n = match rt.arg(i, &mut name) {
        Ok(n) => n,
        Err(FillError::TooLong) => 0,
        Err(FillError::NotPresent) => return Ok(false),
    };
    let listed = list_file(rt, writer, &name[..n]);
    complain(errors, &name[..n], listed)?;
    Ok(true)
}

fn main(rt: HostRuntime) -> io::Result<()> {
    for i in 1..usize::MAX {
        if !list_arg(&rt, &mut rt.stdout(), &mut rt.stderr(), i)? {
            break;
        }
    }
    Ok(())
}

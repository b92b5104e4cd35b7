// Decodes each frame of standard input and encodes it again, or says that its octets cannot be counted; a reading or a writing that fails
// is what the program ends with. With the argument counted a length line is added to every frame that has a body and none, as the archive
// feeder needs it. With the argument 1.1 frames are read and written in protocol version 1.1, otherwise in 1.2.
#![tactic(auto)]

use frames::version::Version;
use listing::arguments::{has_arg, is_arg};
use listing::rewrite::Asked;
use listing::stream::StreamError;
use std::io;

fn main(rt: HostRuntime) -> io::Result<()> {
    let counted = is_arg(&rt, 1, b"counted");
    let next = if counted { 2 } else { 1 };
    let older = is_arg(&rt, next, b"1.1");
    if has_arg(&rt, if older { next + 1 } else { next }) {
        return eprintln!(rt; "rewrite: the only arguments are counted and 1.1");
    }
    let version = if older { Version::V11 } else { Version::V12 };
    let mut reader = rt.stdin();
    let mut writer = rt.stdout();
    let mut errors = rt.stderr();
    let asked = Asked { version, counted };
    match listing::rewrite::rewrite(&mut reader, &mut writer, &mut errors, asked) {
        Ok(()) => Ok(()),
        Err(StreamError::Uncounted) => {
            eprintln!(rt; "rewrite: there are more octets than can be counted")
        }
        Err(StreamError::Io(e)) => Err(e),
    }
}

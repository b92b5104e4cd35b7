// Lists the items of standard input, or says that it could not be listed whole.
#![tactic(auto)]

use listing::stream::StreamError;
use std::io;

fn main(rt: HostRuntime) -> io::Result<()> {
    match listing::stream::list(&mut rt.stdin(), &mut rt.stdout()) {
        Ok(()) => Ok(()),
        Err(StreamError::Uncounted) => {
            eprintln!(rt; "list: there are more octets than can be counted")
        }
        Err(StreamError::Io(e)) => Err(e),
    }
}

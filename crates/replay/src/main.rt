// Replays a client's stream on standard input with one session. The server's offers, how often it can send heart-beats and how often it
// wants to hear them, are two arguments, or 0 and 0 where there are none. With `log` as the last argument the stream is the log of both
// sides, in which a MESSAGE is one that the server sent.
#![tactic(auto)]

use listing::arguments::{has_arg, is_arg, number_arg};
use listing::replay::ReplayError;
use std::env::Env;
use std::io;

// The offers, and whether the stream is a log.
#[derive(Clone, Copy)]
struct Asked {
    sends: u32,
    wants: u32,
    log: bool,
}

fn no_offers(log: bool) -> Asked {
    Asked {
        sends: 0,
        wants: 0,
        log,
    }
}

// The offers in the first two arguments, if they are two numbers.
fn two_offers(rt: &impl Env, log: bool) -> Option<Asked> {
    let sends = number_arg(rt, 1)?;
    let wants = number_arg(rt, 2)?;
    Some(Asked { sends, wants, log })
}

// What the arguments ask for, if they are as they should be.
fn read_asked(rt: &impl Env) -> Option<Asked> {
    if !has_arg(rt, 1) {
        return Some(no_offers(false));
    }
    if !has_arg(rt, 2) {
        return is_arg(rt, 1, b"log").then_some(no_offers(true));
    }
    if !has_arg(rt, 3) {
        return two_offers(rt, false);
    }
    if !has_arg(rt, 4) && is_arg(rt, 3, b"log") {
        return two_offers(rt, true);
    }
    None
}

fn main(rt: HostRuntime) -> io::Result<()> {
    let Some(asked) = read_asked(&rt) else {
        return eprintln!(rt; "replay: the arguments are no two decimals, nor log, nor both");
    };
    let mut reader = rt.stdin();
    let mut writer = rt.stdout();
    match listing::replay::replay(
        &mut reader,
        &mut writer,
        asked.sends,
        asked.wants,
        asked.log,
    ) {
        Ok(()) => Ok(()),
        Err(ReplayError::Unmade) => eprintln!(rt; "replay: the offers are refused 34"),
        Err(ReplayError::Uncounted) => {
            eprintln!(rt; "replay: there are more octets than can be counted")
        }
        Err(ReplayError::Io(e)) => Err(e),
    }
}

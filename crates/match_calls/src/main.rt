// Calls of matches, read from standard input, each as two numbers of four octets, high first, the lengths of the name and the pattern,
// and then both. For each call the answer, as stomp_match gives it, in decimal, and a line end.
#![tactic(auto)]

use listing::calls::{CallError, each_call, number_at, read_head, read_text, tell};
use std::io;
use std::io::{Read, Write};

// Reads the texts of a call, whose lengths are read, and answers it. Its buffers stand before any reading: behind one, which may fail,
// they would be cleared twice.
fn answer<R: Read, W: Write>(
    input: &mut R,
    output: &mut W,
    head: &[u8; 8],
) -> Result<(), CallError> {
    let mut name = [0u8; 65536];
    let mut pattern = [0u8; 65536];
    let name = read_text(input, &mut name, number_at(head, 0))?;
    let pattern = read_text(input, &mut pattern, number_at(head, 4))?;
    let answer = topics::exports::stomp_match(name, pattern);
    writeln!(output, "{answer}")?;
    Ok(())
}

// Reads a call and answers it: whether there is one.
fn call<R: Read, W: Write>(input: &mut R, output: &mut W) -> Result<bool, CallError> {
    let Some(head) = read_head::<8, R>(input)? else {
        return Ok(false);
    };
    answer(input, output, &head)?;
    Ok(true)
}

fn main(rt: HostRuntime) -> io::Result<()> {
    let mut output = rt.stdout();
    let made = each_call(&mut rt.stdin(), |input| call(input, &mut output));
    tell(&rt, "match_calls", made)
}

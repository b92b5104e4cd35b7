// Calls of encode, read from standard input, each as five numbers of four octets, high first, and then the block and the body. For each
// call the answer, as stomp_encode_with gives it, in decimal, and the target, which held octet 170 everywhere; a line end after each.
#![tactic(auto)]

ghost use Rattle.std.specs.Prelude.{◌≤◌};

use frames::exports::stomp_encode_with;
use listing::calls::{CallError, at_most, each_call, number_at, read_head, read_text, tell};
use std::io;
use std::io::{Read, Write};

// Reads the block and the body of a call, whose five numbers are read, and answers it: options, command, and the lengths of block, body
// and target. Its buffers stand before any reading: behind one, which may fail, they would be cleared twice.
fn answer<R: Read, W: Write>(
    input: &mut R,
    output: &mut W,
    head: &[u8; 20],
) -> Result<(), CallError> {
    let mut block = [0u8; 65536];
    let mut body = [0u8; 65536];
    let mut target = [170u8; 65536];
    let block = read_text(input, &mut block, number_at(head, 8))?;
    let body = read_text(input, &mut body, number_at(head, 12))?;
    let target = &mut target[..at_most(number_at(head, 16))];
    let answer = stomp_encode_with(number_at(head, 0), number_at(head, 4), block, body, target);
    writeln!(output, "{answer}")?;
    output.write_all(target)?;
    output.write_all(b"\n")?;
    Ok(())
}

// Reads a call and answers it: whether there is one.
fn call<R: Read, W: Write>(input: &mut R, output: &mut W) -> Result<bool, CallError> {
    let Some(head) = read_head::<20, R>(input)? else {
        return Ok(false);
    };
    answer(input, output, &head)?;
    Ok(true)
}

fn main(rt: HostRuntime) -> io::Result<()> {
    let mut output = rt.stdout();
    let made = each_call(&mut rt.stdin(), |input| call(input, &mut output));
    tell(&rt, "encode_calls", made)
}

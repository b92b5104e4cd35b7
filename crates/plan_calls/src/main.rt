// Calls of check_plan, read from standard input, each as three numbers of four octets, high first, the lengths of the messages, the
// subscriptions and the plan, and then these. For each call the answer, as stomp_check_plan gives it, in decimal, and a line end.
#![tactic(auto)]

use listing::calls::{CallError, each_call, number_at, read_head, read_text, tell};
use std::io;
use std::io::{Read, Write};

// Reads the lists of a call, whose lengths are read, and answers it. Its buffers stand before any reading: behind one, which may fail,
// they would be cleared twice.
fn answer<R: Read, W: Write>(
    input: &mut R,
    output: &mut W,
    head: &[u8; 12],
) -> Result<(), CallError> {
    let mut messages = [0u8; 65536];
    let mut subscriptions = [0u8; 65536];
    let mut plan = [0u8; 65536];
    let messages = read_text(input, &mut messages, number_at(head, 0))?;
    let subscriptions = read_text(input, &mut subscriptions, number_at(head, 4))?;
    let plan = read_text(input, &mut plan, number_at(head, 8))?;
    let answer = topics::exports::stomp_check_plan(messages, subscriptions, plan);
    writeln!(output, "{answer}")?;
    Ok(())
}

// Reads a call and answers it: whether there is one.
fn call<R: Read, W: Write>(input: &mut R, output: &mut W) -> Result<bool, CallError> {
    let Some(head) = read_head::<12, R>(input)? else {
        return Ok(false);
    };
    answer(input, output, &head)?;
    Ok(true)
}

fn main(rt: HostRuntime) -> io::Result<()> {
    let mut output = rt.stdout();
    let made = each_call(&mut rt.stdin(), |input| call(input, &mut output));
    tell(&rt, "plan_calls", made)
}

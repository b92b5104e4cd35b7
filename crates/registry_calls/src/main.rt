// Calls on one registry's record, read from standard input, each as an octet, its kind, a session in eight octets, three lengths in four
// octets, all high first, and then three texts of these lengths. 0 open: the first text is the run's label; 1 close: the same; 2 publish:
// run, destination, the port's text, and the session; 3 ask: run, destination; 4 end: the session; 5 set: the first text becomes the
// record, of whatever length. What a kind does not ask for is not looked at. Before the first call the record is an empty registry's. For
// each call the answer in decimal, as the call for C gives it, to set 0 or 89, and either ` same` and a line end, where the record is as
// it was before the call, or set, or ` changed`, a line end, the record and a line end.
#![tactic(auto)]

ghost use Rattle.std.specs.Prelude.{◌≤◌};

use listing::calls::{CallError, each_call, number_at, read_full, read_text, tell};
use registry::Refusal;
use registry::exports::{
    stomp_registry_ask, stomp_registry_close, stomp_registry_end, stomp_registry_open,
    stomp_registry_publish,
};
use std::io;
use std::io::{Read, Write};

// What a call asks for.
#[derive(Clone, Copy)]
enum Kind {
    Open,
    Close,
    Publish,
    Ask,
    End,
    Set,
}

impl TryFrom<u8> for Kind {
    type Error = CallError;

    fn try_from(kind: u8) -> Result<Kind, CallError> {
        match kind {
            0 => Ok(Kind::Open),
            1 => Ok(Kind::Close),
            2 => Ok(Kind::Publish),
            3 => Ok(Kind::Ask),
            4 => Ok(Kind::End),
            5 => Ok(Kind::Set),
            _ => Err(CallError::UnknownKind),
        }
    }
}

// A registry's record, at the front of its octets.
#[derive(Clone, Copy)]
struct Record {
    octets: [u8; 65536],
    size: usize,
    ghost held: { size ≤ 65536 },
}

// The session of a call.
fn session_of(head: &[u8; 21]) -> u64 {
    u64::from(number_at(head, 1)) * 4294967296 + u64::from(number_at(head, 5))
}

// What setting the record answers.
fn validity(reg: &[u8]) -> u64 {
    if registry::is_valid(reg) {
        0
    } else {
        u64::from(Refusal::InvalidRecord.number())
    }
}

// What a call gives, and the record where it is another one than before.
fn show<W: Write>(output: &mut W, answer: u64, before: &[u8], after: &[u8]) -> io::Result<()> {
    if before == after {
        return writeln!(output, "{answer} same");
    }
    writeln!(output, "{answer} changed")?;
    output.write_all(after)?;
    output.write_all(b"\n")
}

// Reads the texts of a call on a record, whose kind and head are read, and answers it. Its buffers stand before any reading: behind one,
// which may fail, they would be cleared twice.
fn answer<R: Read, W: Write>(
    input: &mut R,
    output: &mut W,
    record: &mut Record,
    kind: Kind,
    head: &[u8; 21],
) -> Result<(), CallError> {
    let mut run = [0u8; 65536];
    let mut destination = [0u8; 65536];
    let mut text = [0u8; 65536];
    let run = read_text(input, &mut run, number_at(head, 9))?;
    let destination = read_text(input, &mut destination, number_at(head, 13))?;
    let text = read_text(input, &mut text, number_at(head, 17))?;
    let session = session_of(head);
    if let Kind::Set = kind {
        let octets = &mut record.octets[..];
        octets[..run.len()].copy_from_slice(run);
        record.size = run.len();
    }
    let before = *record;
    let octets = &mut record.octets[..];
    let reg = &mut octets[..before.size];
    let answer = match kind {
        Kind::Open => stomp_registry_open(reg, run),
        Kind::Close => stomp_registry_close(reg, run),
        Kind::Publish => stomp_registry_publish(reg, run, destination, text, session),
        Kind::Ask => stomp_registry_ask(reg, run, destination),
        Kind::End => stomp_registry_end(reg, session),
        Kind::Set => validity(reg),
    };
    show(
        output,
        answer,
        &before.octets[..before.size],
        &record.octets[..before.size],
    )?;
    Ok(())
}

// Reads a call on a record and answers it: whether there is one.
fn call<R: Read, W: Write>(
    input: &mut R,
    output: &mut W,
    record: &mut Record,
) -> Result<bool, CallError> {
    let mut head = [0u8; 21];
    match read_full(input, &mut head)? {
        0 => return Ok(false),
        21 => {}
        _ => return Err(CallError::Cut),
    }
    let kind = Kind::try_from(head[0])?;
    answer(input, output, record, kind, &head)?;
    Ok(true)
}

fn main(rt: HostRuntime) -> io::Result<()> {
    let mut output = rt.stdout();
    // That of an empty registry, made here: a function that gave it would need room for it twice.
    let mut record = Record {
        octets: [0; 65536],
        size: 3524,
    };
    let made = each_call(&mut rt.stdin(), |input| {
        call(input, &mut output, &mut record)
    });
    tell(&rt, "registry_calls", made)
}

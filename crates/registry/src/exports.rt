// Calls for C: numbers and byte slices, and an answer in one number.
ghost use Rattle.std.specs.Prelude.{◌≡◌};
ghost use Rattle.registry.specs.Calls.{open_run, close_run, publish, ask, end_session};
ghost use Rattle.registry.specs.Records.{answer_to, next, text_start};
ghost use Rattle.registry.specs.Answers.{done_says, answer_number, Bounded, packed_ask, asked_number, asked_read};

use crate::refusals::Refusal;
use headers::Span;

// An answer in one number, as calls for C give it: 0 where accepted.
fn done_number(done: Result<(), Refusal>) -> u64
    ensures { result ≡ answer_number (done_says done) }
{
    match done {
        Ok(()) => 0,
        Err(e) => u64::from(e.number()),
    }
}

// An answer to asking in one number, as calls for C give it. The casts widen: there is no `From<usize>` for a `u64`.
fn pack_asked(asked: Result<Option<Span>, Refusal>) -> u64
    requires { Bounded asked }
    ensures { result ≡ asked_number asked }
{
    match asked {
        Ok(Some(p)) => (p.len as u64) * 65536 + (p.start as u64),
        Ok(None) => 0,
        Err(e) => u64::from(e.number()),
    }
}

pub fn stomp_registry_open(reg: &mut [u8], run: &[u8]) -> u64
    ensures { (result ≡ answer_number (answer_to reg.old (open_run run.now)))
        × (reg.new ≡ next reg.old (open_run run.now)) }
{
    done_number(crate::registry::open_run(reg, run))
}

pub fn stomp_registry_close(reg: &mut [u8], run: &[u8]) -> u64
    ensures { (result ≡ answer_number (answer_to reg.old (close_run run.now)))
        × (reg.new ≡ next reg.old (close_run run.now)) }
{
    done_number(crate::registry::close_run(reg, run))
}

pub fn stomp_registry_publish(
    reg: &mut [u8],
    run: &[u8],
    destination: &[u8],
    text: &[u8],
    session: u64,
) -> u64
    ensures { (result ≡ answer_number (answer_to reg.old (publish run.now destination.now text.now session)))
        × (reg.new ≡ next reg.old (publish run.now destination.now text.now session)) }
{
    done_number(crate::registry::publish(reg, run, destination, text, session))
}

pub fn stomp_registry_end(reg: &mut [u8], session: u64) -> u64
    ensures { (result ≡ answer_number (answer_to reg.old (end_session session)))
        × (reg.new ≡ next reg.old (end_session session)) }
{
    done_number(crate::registry::end_session(reg, session))
}

// The answer to asking, in one number: where the text is, which reads back.
pub fn stomp_registry_ask(reg: &[u8], run: &[u8], destination: &[u8]) -> u64
    ensures { (result ≡ packed_ask (answer_to reg.now (ask run.now destination.now))
        (text_start reg.now run.now destination.now))
        × (asked_read reg.now result ≡ answer_to reg.now (ask run.now destination.now)) }
{
    pack_asked(crate::registry::ask(reg, run, destination))
}

// The calls on a registry: its record is 3,524 octets that the caller keeps. An empty one is all 0.
ghost use Rattle.std.specs.Prelude.{◌≡◌, length};
ghost use Rattle.registry.specs.Registry.{bad_size, runs_max};
ghost use Rattle.registry.specs.Calls.{open_run, close_run, publish, ask, end_session};
ghost use Rattle.stores.specs.Searches.{first_from, search_says};
ghost use Rattle.registry.specs.Records.{parts, run_size, is_valid, answer_to, next, text_start};
ghost use Rattle.registry.specs.Tests.{is_named};
ghost use Rattle.registry.specs.Answers.{done_says, asked_says, StartsAt, Bounded};
ghost use Rattle.registry.specs.Steps.{admitted, Movable, moved_by};

use crate::refusals::Refusal;
use crate::rows::Table;
use crate::run::RUN_SIZE;
use crate::text::FIELD;
use headers::Span;

// How many runs a record has.
const RUNS: usize = 4;

// How many octets the slots of a run have.
const SLOTS_SIZE: usize = 848;

// How many octets a record has.
const RECORD_SIZE: usize = 3524;

// The longest label or destination.
const LABEL_MAX: usize = 32;

// The longest text of a port.
const TEXT_MAX: usize = 64;

// Whether the record is valid (not 89).
pub fn is_valid(reg: &[u8]) -> bool
    ensures { result ≡ is_valid reg.now }
{
    if reg.len() != RECORD_SIZE {
        return false;
    }
    let runs = Table {
        octets: reg,
        count: RUNS,
        size: RUN_SIZE,
    };
    if !runs.all(|row| crate::run::is_run(row)) {
        return false;
    }
    runs.is_distinct()
}

// Whether a text is empty or too long.
fn is_bad(text: &[u8], max: usize) -> bool
    ensures { result ≡ bad_size max text.now }
{
    (text.len() == 0) | (max < text.len())
}

// What comes before all else: the record is tested, and the texts' sizes, of which one may be bad.
fn admit(reg: &[u8], bad: bool) -> Result<(), Refusal>
    ensures { result ≡ admitted (is_valid reg.now) bad }
{
    if !is_valid(reg) {
        return Err(Refusal::InvalidRecord);
    }
    if bad {
        return Err(Refusal::BadSize);
    }
    Ok(())
}

// The row of the run of that label; with an empty one, the first that is free.
fn row_of(reg: &[u8], run: &[u8]) -> Option<usize>
    requires { length reg.now ≡ 3524 }
    ensures { search_says result ≡ first_from (is_named run.now) 0 (parts run_size runs_max reg.now) }
{
    let runs = Table {
        octets: reg,
        count: RUNS,
        size: RUN_SIZE,
    };
    runs.find(run)
}

// A run opened.
pub fn open_run(reg: &mut [u8], run: &[u8]) -> Result<(), Refusal>
    ensures { (done_says result ≡ answer_to reg.old (open_run run.now))
        × (reg.new ≡ next reg.old (open_run run.now)) }
{
    admit(reg, is_bad(run, LABEL_MAX))?;
    if row_of(reg, run).is_some() {
        return Err(Refusal::AlreadyOpen);
    }
    let k = row_of(reg, &run[0..0]).ok_or(Refusal::FourOpen)?;
    let at = k * RUN_SIZE;
    let end = at + FIELD;
    crate::text::put_text(&mut reg[at..end], run);
    Ok(())
}

// A run closed, its ports withdrawn.
pub fn close_run(reg: &mut [u8], run: &[u8]) -> Result<(), Refusal>
    ensures { (done_says result ≡ answer_to reg.old (close_run run.now))
        × (reg.new ≡ next reg.old (close_run run.now)) }
{
    admit(reg, is_bad(run, LABEL_MAX))?;
    let k = row_of(reg, run).ok_or(Refusal::NotOpen)?;
    let at = k * RUN_SIZE;
    let end = at + RUN_SIZE;
    reg[at..end].fill(0);
    Ok(())
}

// A port published under a run and a destination.
pub fn publish(
    reg: &mut [u8],
    run: &[u8],
    destination: &[u8],
    text: &[u8],
    session: u64,
) -> Result<(), Refusal>
    ensures { (done_says result ≡ answer_to reg.old (publish run.now destination.now text.now session))
        × (reg.new ≡ next reg.old (publish run.now destination.now text.now session)) }
{
    let bad = is_bad(run, LABEL_MAX) | (is_bad(destination, LABEL_MAX) | is_bad(text, TEXT_MAX));
    admit(reg, bad)?;
    let k = row_of(reg, run).ok_or(Refusal::NotOpen)?;
    let at = k * RUN_SIZE + FIELD;
    let end = at + SLOTS_SIZE;
    crate::run::publish_in(&mut reg[at..end], destination, text, session)
}

// A place in a part of the record that begins at `from`, as a place in the record.
fn moved(found: Option<Span>, from: usize) -> Option<Span>
    requires { Movable found from }
    ensures { result ≡ moved_by found from }
{
    let p = found?;
    Some(Span {
        start: from + p.start,
        len: p.len,
    })
}

// The port under a destination of a run: where its text is in the record, or that there is none.
pub fn ask(reg: &[u8], run: &[u8], destination: &[u8]) -> Result<Option<Span>, Refusal>
    ensures { (asked_says reg.now result ≡ answer_to reg.now (ask run.now destination.now))
        × StartsAt reg.now (text_start reg.now run.now destination.now) result
        × Bounded result }
{
    admit(reg, is_bad(run, LABEL_MAX) | is_bad(destination, LABEL_MAX))?;
    let k = row_of(reg, run).ok_or(Refusal::NotOpen)?;
    let at = k * RUN_SIZE + FIELD;
    let end = at + SLOTS_SIZE;
    Ok(moved(crate::run::port_in(&reg[at..end], destination), at))
}

// A session's end: its ports are withdrawn.
pub fn end_session(reg: &mut [u8], session: u64) -> Result<(), Refusal>
    ensures { (done_says result ≡ answer_to reg.old (end_session session))
        × (reg.new ≡ next reg.old (end_session session)) }
{
    admit(reg, false)?;
    crate::rows::change_each(
        reg,
        RUNS,
        RUN_SIZE,
        |row| crate::run::withdraw_from(row, session),
    );
    Ok(())
}

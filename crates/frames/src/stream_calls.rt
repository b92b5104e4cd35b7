// The stream parser for C: its record as 16 octets that the caller keeps, and an answer in one number.
ghost use Rattle.std.specs.Prelude.{◌≡◌, ◌+◌, ◌≤◌, ◌<◌, length};
ghost use Rattle.frames.specs.Answers.{parsed_says, version_in};
ghost use Rattle.frames.specs.Streams.{feed_answer, feed_state, feed_buffer, is_taken};
ghost use Rattle.frames.specs.Records.{mark, record_of, is_record, pair_at, fields, read_record, record_left, told_record};
ghost use Rattle.frames.specs.Records.{packed_taken, packed_feed, Packable};

use crate::parse::Item;
use crate::state::Scan;
use crate::stream::{StreamParser, Taken};

// A number in two octets, high first. The sum is such that each octet is read by itself: a record that was just written, octet by
// octet, is not read back sooner than it is in memory if two are read at once.
fn pair_at(r: &[u8], i: usize) -> usize
    requires { i + 1 < length r.now }
    ensures { result ≡ pair_at r.now i }
{
    let j = i + 1;
    usize::from(r[i]) * 255 + (usize::from(r[i]) + usize::from(r[j]))
}

// Whether octets are a record.
fn is_record(r: &[u8]) -> bool
    ensures { result ≡ is_record r.now }
{
    if r.len() != 16 {
        return false;
    }
    (r[4] <= 1) & ((r[12] <= 1) & ((r[13] == 0) & (r[15] == 0)))
}

// The state that the octets of a record have.
fn fields(r: &[u8]) -> Scan
    requires { length r.now ≡ 16 }
    ensures { result ≡ fields r.now }
{
    let command = u32::from(r[1]);
    let code = u32::from(r[5]);
    let sized = r[4] == 1;
    let crlf = r[12] == 0;
    Scan {
        lines: usize::from(r[2]),
        matched: usize::from(r[3]),
        size: pair_at(r, 6),
        len: pair_at(r, 8),
        at: pair_at(r, 10),
        phase: r[0],
        rest: r[14],
        sized,
        crlf,
        command,
        code,
    }
}

// The state that a record has, or one of no known phase. It is a state, and no Option: the buffer's length is looked at before it (70
// before 71), as `read_record` of specs/Records says.
fn read_record(r: &[u8]) -> Scan
    ensures { result ≡ read_record r.now }
{
    if is_record(r) {
        return fields(r);
    }
    Scan {
        lines: 0,
        matched: 0,
        size: 0,
        len: 0,
        at: 0,
        phase: 255,
        rest: 0,
        sized: false,
        crlf: true,
        command: 0,
        code: 0,
    }
}

// A state as a record.
fn write_record(r: &mut [u8], st: Scan)
    requires { length r.old ≡ 16 }
    ensures { r.new ≡ record_of st }
{
    let sized = u8::from(st.sized);
    let version = u8::from(!st.crlf);
    let size = ((st.size % 65536) as u16).to_be_bytes();
    let len = ((st.len % 65536) as u16).to_be_bytes();
    let at = ((st.at % 65536) as u16).to_be_bytes();
    let octets = [
        st.phase,
        (st.command % 256) as u8,
        (st.lines % 256) as u8,
        (st.matched % 256) as u8,
        sized,
        (st.code % 256) as u8,
        size[0],
        size[1],
        len[0],
        len[1],
        at[0],
        at[1],
        version,
        0,
        st.rest,
        0,
    ];
    headers::copy(r, 0, &octets);
}

// A reply and the octets taken in one number.
fn pack_taken(t: Taken) -> u64
    requires { Packable (parsed_says t.reply) × (t.octets ≤ 70000) }
    ensures { result ≡ packed_taken (parsed_says t.reply) t.octets }
{
    // No From goes from usize to u64, so it is cast, here and below.
    let n = t.octets as u64;
    match t.reply {
        Ok(Some(Item::HeartBeat(len))) => 1 + 4 * (n + 65536 * (len as u64)),
        Ok(Some(Item::Frame(frame))) => 2 + 4 * (n + 65536 * frame.packed()),
        Ok(None) => 4 * n,
        Err(refusal) => 3 + 4 * (n + 65536 * refusal.packed()),
    }
}

// What feed answers, in one number, with the record in 16 octets: all 0 for a new stream, and handed back as they were left.
pub fn stomp_feed(state: &mut [u8], buffer: &mut [u8], piece: &[u8]) -> u64
    ensures { (result ≡ packed_feed (feed_answer (read_record state.old) buffer.old piece.now))
        × (state.new ≡ record_left
        (feed_answer (read_record state.old) buffer.old piece.now)
        (feed_state (read_record state.old) buffer.old piece.now)
        state.old)
        × (buffer.new ≡ feed_buffer (read_record state.old) buffer.old piece.now) }
{
    let scan = read_record(state);
    let step = crate::stream::feed(StreamParser { scan }, buffer, piece);
    match step.answer {
        Ok(t) => {
            write_record(state, step.parser.scan);
            pack_taken(t)
        }
        Err(e) => 3 + 4 * (65536 * u64::from(e.number())),
    }
}

// The version of the options is told to the stream parser whose record the octets are: 1 where it was taken, 0 where it was not.
pub fn stomp_feed_tell(state: &mut [u8], options: u32) -> u64
    ensures { (result ≡ mark (is_taken (read_record state.old)))
        × (state.new ≡ told_record (version_in options) state.old) }
{
    let scan = read_record(state);
    match crate::stream::tell(StreamParser { scan }, crate::version::of_options(options)) {
        Some(parser) => {
            write_record(state, parser.scan);
            1
        }
        None => 0,
    }
}

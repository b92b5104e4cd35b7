// Calls for C: numbers and byte slices, and an answer in one number.
ghost use Rattle.std.specs.Prelude.{◌≡◌, false};
ghost use Rattle.frames.specs.Grammar.{v1_2};
ghost use Rattle.frames.specs.Parsing.{parsed};
ghost use Rattle.frames.specs.Exactness.{Exact};
ghost use Rattle.headers.specs.Answers.{find_answer};
ghost use Rattle.frames.specs.Answers.{parsed_says, packed, unpacked, Packs, packed_decode, unpacked_decode};
ghost use Rattle.frames.specs.Answers.{version_in, packed_encode, unpacked_encode, is_counted, packed_find, unpacked_find};
ghost use Rattle.frames.specs.Answers.{place_alone, later_alone, packed_later, unpacked_later};
ghost use Rattle.frames.specs.Decoding.{Decodes};
ghost use Rattle.frames.specs.Encoding.{Encodes};

use crate::parse::{Item, Refusal};
use crate::version::Version;

// A refusal of decode or encode is this many times its number: no length is as large.
const REFUSED: u64 = 65536;

// What stomp_later says of a malformed block: 2^63, which no count reaches, and its number.
const MALFORMED: u64 = (1 << 63) + 22;

// The option of stomp_encode_with that asks for a length line.
pub const COUNTED: u32 = 1;

// A reply in one number.
fn pack(reply: Result<Option<Item>, Refusal>) -> u64
    requires { Packs (parsed_says reply) }
    ensures { result ≡ packed (parsed_says reply) }
{
    // No From goes from usize to u64, so it is cast, here and below.
    match reply {
        Ok(Some(Item::HeartBeat(n))) => 1 + 4 * (n as u64),
        Ok(Some(Item::Frame(frame))) => 2 + 4 * ((frame.len as u64) + 65536 * frame.packed()),
        Ok(None) => 0,
        Err(refusal) => 3 + 4 * refusal.packed(),
    }
}

// What parse replies in a version, in one number; its fields read back.
fn parse_packed(version: Version, octets: &[u8]) -> u64
    ensures { (result ≡ packed (parsed version octets.now))
        × (unpacked result ≡ parsed version octets.now)
        × Exact version octets.now (unpacked result) }
{
    pack(crate::parse::parse(version, octets))
}

// The calls. Each with options and that without are two, since both are names of the C interface.

// The same in the version that the options ask for.
pub fn stomp_parse_with(options: u32, octets: &[u8]) -> u64
    ensures { (result ≡ packed (parsed (version_in options) octets.now))
        × (unpacked result ≡ parsed (version_in options) octets.now)
        × Exact (version_in options) octets.now (unpacked result) }
{
    parse_packed(crate::version::of_options(options), octets)
}

// The same in version 1.2.
pub fn stomp_parse(octets: &[u8]) -> u64
    ensures { (result ≡ packed (parsed v1_2 octets.now))
        × (unpacked result ≡ parsed v1_2 octets.now)
        × Exact v1_2 octets.now (unpacked result) }
{
    parse_packed(Version::V12, octets)
}

// What find answers, in one number; it reads back with the block and the name.
pub fn stomp_find(block: &[u8], name: &[u8]) -> u64
    ensures { (result ≡ packed_find (find_answer block.now name.now))
        × (unpacked_find block.now name.now result ≡ place_alone (find_answer block.now name.now)) }
{
    match headers::find(block, name) {
        Ok(Some(p)) => p.start as u64,
        Ok(None) => 0,
        Err(_) => 1,
    }
}

// How many later entries of a name follow the first, in one number, which reads back.
pub fn stomp_later(block: &[u8], name: &[u8]) -> u64
    ensures { (result ≡ packed_later (later_alone (find_answer block.now name.now)))
        × (unpacked_later result ≡ later_alone (find_answer block.now name.now)) }
{
    match headers::find(block, name) {
        Ok(Some(p)) => p.later as u64,
        Ok(None) => 0,
        Err(_) => MALFORMED,
    }
}

// What decode answers in a version, in one number: what is read back of it is the answer, and its content of the block is decode's.
fn decode_packed(version: Version, frame: &[u8], block: &mut [u8]) -> u64
    ensures { Decodes version frame.now block.old (unpacked_decode result) block.new
        × (result ≡ packed_decode (unpacked_decode result)) }
{
    match crate::decode::decode(version, frame, block) {
        Ok(n) => n as u64,
        Err(e) => REFUSED * u64::from(e.number()),
    }
}

// The same in the version that the options ask for.
pub fn stomp_decode_with(options: u32, frame: &[u8], block: &mut [u8]) -> u64
    ensures { Decodes (version_in options) frame.now block.old (unpacked_decode result) block.new
        × (result ≡ packed_decode (unpacked_decode result)) }
{
    decode_packed(crate::version::of_options(options), frame, block)
}

// The same in version 1.2.
pub fn stomp_decode(frame: &[u8], block: &mut [u8]) -> u64
    ensures { Decodes v1_2 frame.now block.old (unpacked_decode result) block.new
        × (result ≡ packed_decode (unpacked_decode result)) }
{
    decode_packed(Version::V12, frame, block)
}

// What encode answers, in one number; it reads back, and the target is as encode leaves it. The lowest bit of the options asks for a
// length line, the next for version 1.1; the others are not looked at.
pub fn stomp_encode_with(
    options: u32,
    command: u32,
    block: &[u8],
    body: &[u8],
    target: &mut [u8],
) -> u64
    ensures { Encodes (version_in options)
        (record { command = command; block = block.now; body = body.now; counted = is_counted options })
        target.old (unpacked_encode result) target.new
        × (result ≡ packed_encode (unpacked_encode result)) }
{
    match crate::encode::encode(
        crate::version::of_options(options),
        command,
        block,
        body,
        target,
        options % 2 == COUNTED,
    ) {
        Ok(n) => n as u64,
        Err(e) => REFUSED * u64::from(e.number()) + (e.entry().unwrap_or(0) as u64),
    }
}

// The same where nothing is asked for.
pub fn stomp_encode(command: u32, block: &[u8], body: &[u8], target: &mut [u8]) -> u64
    ensures { Encodes v1_2 (record { command = command; block = block.now; body = body.now; counted = false })
        target.old (unpacked_encode result) target.new
        × (result ≡ packed_encode (unpacked_encode result)) }
{
    stomp_encode_with(0, command, block, body, target)
}

// The calls of frames for C, as a static library: each calls the one of frames by the same name.
#![tactic(auto)]

ghost use Rattle.std.specs.Prelude.{◌≡◌, false};
ghost use Rattle.frames.specs.Grammar.{v1_2};
ghost use Rattle.frames.specs.Parsing.{parsed};
ghost use Rattle.frames.specs.Exactness.{Exact};
ghost use Rattle.headers.specs.Answers.{find_answer};
ghost use Rattle.frames.specs.Answers.{packed, unpacked, packed_decode, unpacked_decode, version_in, packed_encode, unpacked_encode, is_counted, packed_find, unpacked_find, place_alone, later_alone, packed_later, unpacked_later};
ghost use Rattle.frames.specs.Decoding.{Decodes};
ghost use Rattle.frames.specs.Encoding.{Encodes};
ghost use Rattle.frames.specs.Streams.{feed_answer, feed_state, feed_buffer, is_taken};
ghost use Rattle.frames.specs.Records.{mark, read_record, record_left, told_record, packed_feed};

// What parse replies in the version that the options ask for, in one number; its fields read back.
#[unsafe(no_mangle)]
pub extern "C" fn stomp_parse_with(options: u32, octets: &[u8]) -> u64
    ensures { (result ≡ packed (parsed (version_in options) octets.now))
        × (unpacked result ≡ parsed (version_in options) octets.now)
        × Exact (version_in options) octets.now (unpacked result) }
{
    frames::exports::stomp_parse_with(options, octets)
}

// The same in version 1.2.
#[unsafe(no_mangle)]
pub extern "C" fn stomp_parse(octets: &[u8]) -> u64
    ensures { (result ≡ packed (parsed v1_2 octets.now))
        × (unpacked result ≡ parsed v1_2 octets.now)
        × Exact v1_2 octets.now (unpacked result) }
{
    frames::exports::stomp_parse(octets)
}

// What find answers, in one number; it reads back with the block and the name.
#[unsafe(no_mangle)]
pub extern "C" fn stomp_find(block: &[u8], name: &[u8]) -> u64
    ensures { (result ≡ packed_find (find_answer block.now name.now))
        × (unpacked_find block.now name.now result ≡ place_alone (find_answer block.now name.now)) }
{
    frames::exports::stomp_find(block, name)
}

// How many later entries of a name follow the first, in one number, which reads back.
#[unsafe(no_mangle)]
pub extern "C" fn stomp_later(block: &[u8], name: &[u8]) -> u64
    ensures { (result ≡ packed_later (later_alone (find_answer block.now name.now)))
        × (unpacked_later result ≡ later_alone (find_answer block.now name.now)) }
{
    frames::exports::stomp_later(block, name)
}

// What decode answers in the version that the options ask for, in one number: what is read back of it is the answer, and its content of the
// block is decode's.
#[unsafe(no_mangle)]
pub extern "C" fn stomp_decode_with(options: u32, frame: &[u8], block: &mut [u8]) -> u64
    ensures { Decodes (version_in options) frame.now block.old (unpacked_decode result) block.new
        × (result ≡ packed_decode (unpacked_decode result)) }
{
    frames::exports::stomp_decode_with(options, frame, block)
}

// The same in version 1.2.
#[unsafe(no_mangle)]
pub extern "C" fn stomp_decode(frame: &[u8], block: &mut [u8]) -> u64
    ensures { Decodes v1_2 frame.now block.old (unpacked_decode result) block.new
        × (result ≡ packed_decode (unpacked_decode result)) }
{
    frames::exports::stomp_decode(frame, block)
}

// What encode answers, in one number; it reads back, and the target is as encode leaves it. The lowest bit of the options asks for a
// length line, the next for version 1.1; the others are not looked at.
#[unsafe(no_mangle)]
pub extern "C" fn stomp_encode_with(
    options: u32,
    command: u32,
    block: &[u8],
    body: &[u8],
    target: &mut [u8],
) -> u64
    ensures { Encodes (version_in options)
        (record { command = command; block = block.now; body = body.now; counted = is_counted options })
        target.old (unpacked_encode result) target.new
        × (result ≡ packed_encode (unpacked_encode result)) }
{
    frames::exports::stomp_encode_with(options, command, block, body, target)
}

// The same where nothing is asked for.
#[unsafe(no_mangle)]
pub extern "C" fn stomp_encode(command: u32, block: &[u8], body: &[u8], target: &mut [u8]) -> u64
    ensures { Encodes v1_2 (record { command = command; block = block.now; body = body.now; counted = false })
        target.old (unpacked_encode result) target.new
        × (result ≡ packed_encode (unpacked_encode result)) }
{
    frames::exports::stomp_encode(command, block, body, target)
}

// What feed answers, in one number, with the record in 16 octets: all 0 for a new stream, and handed back as they were left.
#[unsafe(no_mangle)]
pub extern "C" fn stomp_feed(state: &mut [u8], buffer: &mut [u8], piece: &[u8]) -> u64
    ensures { (result ≡ packed_feed (feed_answer (read_record state.old) buffer.old piece.now))
        × (state.new ≡ record_left
        (feed_answer (read_record state.old) buffer.old piece.now)
        (feed_state (read_record state.old) buffer.old piece.now)
        state.old)
        × (buffer.new ≡ feed_buffer (read_record state.old) buffer.old piece.now) }
{
    frames::stream_calls::stomp_feed(state, buffer, piece)
}

// The version of the options is told to the stream parser whose record the octets are: 1 where it was taken, 0 where it was not.
#[unsafe(no_mangle)]
pub extern "C" fn stomp_feed_tell(state: &mut [u8], options: u32) -> u64
    ensures { (result ≡ mark (is_taken (read_record state.old)))
        × (state.new ≡ told_record (version_in options) state.old) }
{
    frames::stream_calls::stomp_feed_tell(state, options)
}

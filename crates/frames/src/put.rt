// The octets of a frame, written part by part: each part at the front of what is left of the target.
ghost use Rattle.std.specs.Prelude.{◌≡◌, true, cond, [], ◌∷◌, ◌++◌, ◌+◌, ◌≤◌, ◌<◌, length, drop};
ghost use Rattle.headers.specs.Block.{entries, listed};
ghost use Rattle.headers.specs.Answers.{is_block, Puts};
ghost use Rattle.headers.specs.Stretches.{unescaped};
ghost use Rattle.frames.specs.Scanning.{word_of};
ghost use Rattle.frames.specs.Encoding.{written_lines};
ghost use Rattle.frames.specs.Writing.{length_octets, added_octets, octets_of, Bare};

use crate::encode::{Image, Request};
use headers::Style;

// The word of a command and a line end.
fn put_word(d: &mut [u8], command: u32) -> usize
    requires { (command ≤ 15) × (length (word_of command) < length d.old) }
    ensures { (result ≡ length (word_of command) + 1)
        × (d.new ≡ (word_of command ++ (10 ∷ [])) ++ drop (length (word_of command) + 1) d.old) }
{
    let n = crate::valid::word_len(command);
    for i in 0..n {
        d[i] = crate::word::letter(command, i);
    }
    d[n] = 10;
    n + 1
}

// The lines of the entries of a block.
fn put_lines(d: &mut [u8], block: &[u8], style: Style) -> usize
    requires { (is_block block.now ≡ true) × (length (written_lines style (listed (entries block.now))) ≤ length d.old) }
    ensures { Puts (written_lines style (listed (entries block.now))) result d.old d.new }
{
    let mut used = 0usize;
    let mut at = 0usize;
    while let Ok(Some(l)) = headers::entry_at(block, at) {
        let from = at + 6;
        let mid = from + l.name;
        let next = mid + l.value;
        let k = headers::write_encoded(
            &mut d[used..],
            &block[from..mid],
            &block[mid..next],
            style,
        ).unwrap();
        used += k;
        at = next;
    }
    used
}

// The line that says a body's length.
fn put_length(d: &mut [u8], body: usize, style: Style) -> usize
    requires { length (length_octets style body) ≤ length d.old }
    ensures { Puts (length_octets style body) result d.old d.new }
{
    let mut digits = [0u8; 20];
    // No From goes from usize to u64, so it is cast.
    let k = headers::write_decimal(&mut digits, body as u64).unwrap();
    headers::write_encoded(d, b"content-length", &digits[0..k], style).unwrap()
}

// The same where it is added, and nothing where it is not.
fn put_added(d: &mut [u8], adds: bool, body: usize, style: Style) -> usize
    requires { length (added_octets style adds body) ≤ length d.old }
    ensures { Puts (added_octets style adds body) result d.old d.new }
{
    if adds {
        return put_length(d, body, style);
    }
    0
}

// A body and octet 0.
fn put_body(d: &mut [u8], body: &[u8])
    requires { length body.now < length d.old }
    ensures { d.new ≡ (body.now ++ (0 ∷ [])) ++ drop (length body.now + 1) d.old }
{
    let n = body.len();
    headers::octets::copy_long(d, 0, body);
    d[n] = 0;
}

// The style that lines are written in: where no octet is escaped, that without escapes, so that they are copied.
fn line_style(style: Style, plain: bool) -> Style
    ensures { result ≡ cond plain unescaped style }
{
    if plain {
        return Style {
            escapes: false,
            crlf: true,
        };
    }
    style
}

// A whole frame, as it was settled.
pub(crate) fn put_frame(d: &mut [u8], request: &Request<'_>, image: Image)
    requires { (request.now.command ≤ 15)
        × (is_block request.now.block.now ≡ true)
        × (length (octets_of request.now image.adds) ≤ length d.old)
        × (image.plain ≡ true → Bare request.now) }
    ensures { d.new ≡ octets_of request.now image.adds ++ drop (length (octets_of request.now image.adds)) d.old }
{
    let style = request.style();
    let lines = line_style(style, image.plain);
    let mut at = put_word(d, request.command);
    at += put_lines(&mut d[at..], request.block, lines);
    at += put_added(&mut d[at..], image.adds, request.body.len(), style);
    d[at] = 10;
    let next = at + 1;
    put_body(&mut d[next..], request.body);
}

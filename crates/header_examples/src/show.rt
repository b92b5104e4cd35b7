// Octets, and what a call writes, as the answers are shown.
use std::io;
use std::io::Write;

// The octets in decimal, each behind a blank, and a line end.
fn octets<W: Write>(output: &mut W, s: &[u8]) -> io::Result<()> {
    for x in s {
        write!(output, " {x}")?;
    }
    output.write_all(b"\n")
}

// The first n octets of a buffer, or all that it has.
pub(crate) fn front<W: Write>(output: &mut W, d: &[u8], n: usize) -> io::Result<()> {
    octets(output, &d[..n.min(d.len())])
}

// What a call makes of room for so many octets, all sevens, at most 600: the length that it wrote, and as many octets and one more; or the
// number of its refusal, and the first two octets.
pub(crate) fn written<W: Write, F: FnOnce(&mut [u8]) -> Result<usize, u32>>(
    output: &mut W,
    room: usize,
    call: F,
) -> io::Result<()>
    requires { F.IsAlwaysCallable call }
{
    let mut d = [7u8; 600];
    let Some(d) = d.get_mut(..room) else {
        return Ok(());
    };
    match call(d) {
        Ok(n) => {
            write!(output, "{n}")?;
            front(output, d, n.saturating_add(1))
        }
        Err(number) => {
            write!(output, "{number}")?;
            front(output, d, 2)
        }
    }
}

pub(crate) fn yes_or_no<W: Write>(output: &mut W, ok: bool) -> io::Result<()> {
    if ok {
        return output.write_all(b"yes\n");
    }
    output.write_all(b"no\n")
}

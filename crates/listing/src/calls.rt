// Calls that programs read: numbers of four octets, high first, and rows of octets.
ghost use Rattle.std.specs.Prelude.{◌≡◌, true, false, ◌+◌, ◌*◌, ◌≤◌, ◌<◌, min, length, get_or, take, Ok, Err, IfOk, IfSome, IsNone};
ghost use Rattle.std.specs.Io.KnownBytes.{Consumes, IsAtEnd};
ghost use Rattle.listing.specs.declared.calls.CallError.{CallError};

use std::io;
use std::io::Read;

// The number of the four octets at i, or 0 where fewer stand there; the clause says both.
pub fn number_at(head: &[u8], i: usize) -> u32
    ensures { (i + 4 ≤ length head.now → result ≡
        get_or head.now i 0 * 16777216 + get_or head.now (i + 1) 0 * 65536
        + get_or head.now (i + 2) 0 * 256 + get_or head.now (i + 3) 0)
        × (length head.now < i + 4 → result ≡ 0) }
{
    if head.len() < 4 || head.len() - 4 < i {
        return 0;
    }
    u32::from_be_bytes([head[i], head[i + 1], head[i + 2], head[i + 3]])
}

// A length, at most that of a large buffer.
pub fn at_most(n: u32) -> usize
    ensures { (result ≡ min n 65536) × (result ≤ 65536) }
{
    n.min(65536) as usize
}

// Octets at the front of a buffer, until it is full or there are no more: how many they are.
pub fn read_full<R: Read>(reader: &mut R, buf: &mut [u8]) -> io::Result<usize>
    ensures length { length buf.new ≡ length buf.old }
    ensures bound { IfOk result (λ n. n ≤ length buf.old) }
    ensures bytes { IfOk result (λ n. Consumes (R.remaining reader.old) (R.remaining reader.new) (take n buf.new)) }
    ensures end { IfOk result (λ n. n < length buf.old → IsAtEnd (R.remaining reader.new)) }
{
    // How far each turn goes is known only after its reading, so this is a while.
    let mut done = 0usize;
    while done < buf.len() {
        let n = reader.read(&mut buf[done..])?;
        if n == 0 {
            break;
        }
        done += n;
    }
    Ok(done)
}

// n octets at the front of a buffer: whether there were as many, and room for them.
pub fn read_front<R: Read>(reader: &mut R, buf: &mut [u8], n: usize) -> io::Result<bool>
    ensures length { length buf.new ≡ length buf.old }
    ensures bytes { IfOk result (λ whole. whole ≡ true → Consumes (R.remaining reader.old) (R.remaining reader.new) (take n buf.new)) }
    ensures end { IfOk result (λ whole. whole ≡ false → n ≤ length buf.old → IsAtEnd (R.remaining reader.new)) }
{
    if buf.len() < n {
        return Ok(false);
    }
    Ok(read_full(reader, &mut buf[0..n])? == n)
}

// Why no call more is made: one is cut, or has an unknown kind, or a reading or a writing failed.
#[derive(Clone, Copy)]
pub enum CallError {
    Cut,
    UnknownKind,
    Io(io::Error),
}

impl From<io::Error> for CallError {
    ghost from_gives = { λ e r. r ≡ CallError.Io e };

    fn from(e: io::Error) -> CallError {
        CallError::Io(e)
    }
}

// The text of a call, at the front of a buffer: as many octets as its length says, at most those of a large buffer.
pub fn read_text<'a, R: Read>(
    reader: &mut R,
    buf: &'a mut [u8; 65536],
    len: u32,
) -> Result<&'a [u8], CallError>
    ensures bytes { IfOk result (λ text. Consumes (R.remaining reader.old) (R.remaining reader.new) text.now) }
    ensures length { IfOk result (λ text. length text.now ≡ min len 65536) }
{
    let n = at_most(len);
    if !read_front(reader, buf, n)? {
        return Err(CallError::Cut);
    }
    Ok(&buf[..n])
}

// The octets that a call begins with, or nothing where there are fewer.
pub fn read_head<const N: usize, R: Read>(reader: &mut R) -> io::Result<Option<[u8; N]>>
    ensures bytes { IfOk result (λ head. IfSome head (λ octets. Consumes (R.remaining reader.old) (R.remaining reader.new) octets)) }
    ensures end { IfOk result (λ head. IsNone head → IsAtEnd (R.remaining reader.new)) }
{
    let mut head = [0u8; N];
    if read_full(reader, &mut head)? < N {
        return Ok(None);
    }
    Ok(Some(head))
}

// The octets of a call behind its kind.
pub fn read_rest<const N: usize, R: Read>(reader: &mut R) -> Result<[u8; N], CallError>
    ensures { IfOk result (λ rest. Consumes (R.remaining reader.old) (R.remaining reader.new) rest) }
{
    match read_head(reader)? {
        Some(rest) => Ok(rest),
        None => Err(CallError::Cut),
    }
}

// Makes the calls of a reader, one after another, until there is none more or one has an error.
pub fn each_call<R: Read, F: FnMut(&mut R) -> Result<bool, CallError>>(
    reader: &mut R,
    mut call: F,
) -> Result<(), CallError>
    requires { F.IsAlwaysCallable call }
{
    for _ in 0..u64::MAX {
        if !call(reader)? {
            break;
        }
    }
    Ok(())
}

// Tells on standard error why no call more is made; a reading or a writing that failed is the answer.
pub fn tell(rt: &impl Eprint, program: &str, made: Result<(), CallError>) -> io::Result<()>
    ensures whole { made ≡ Ok tt → result ≡ Ok tt }
    ensures failed { (e : _) → made ≡ Err (CallError.Io e) → result ≡ Err e }
{
    match made {
        Ok(()) => Ok(()),
        Err(CallError::Cut) => eprintln!(rt; "{program}: a call is cut"),
        Err(CallError::UnknownKind) => eprintln!(rt; "{program}: a call has an unknown kind"),
        Err(CallError::Io(e)) => Err(e),
    }
}

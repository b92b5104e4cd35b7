// The buffers that a stream passes through: what was read of it, and what is laid out to be written.
ghost use Rattle.std.specs.Prelude.{◌≡◌, false, [], ◌∷◌, ◌++◌, ◌+◌, ◌-◌, ◌≤◌, length, take, slice_range, OnOk};
ghost use Rattle.std.specs.Io.KnownBytes.{Consumes, Appends};
ghost use Rattle.frames.specs.Parsing.{parsed};
ghost use Rattle.frames.specs.Replies.{used_of};
ghost use Rattle.frames.specs.Answers.{parsed_says};

use crate::calls::read_full;
use crate::line::{Refused, put_line, put_number, put_word};
use frames::parse::{Item, Refusal};
use frames::version::Version;
use std::io;
use std::io::{Read, Write};

// The octets of a buffer: any item has fewer.
pub(crate) const SIZE: usize = 65536;

// The octets that were read and are not yet done with, from lo to hi.
#[derive(Drop)]
pub(crate) struct Input {
    octets: [u8; SIZE],
    lo: usize,
    hi: usize,
    // The stream has no more octets.
    pub ended: bool,
    ghost held: { (lo ≤ hi) × (hi ≤ 65536) },
}

impl Input {
    // Before the first octet.
    pub(crate) fn new() -> Input
        ensures { (result.lo ≡ 0) × (result.hi ≡ 0) × (result.ended ≡ false) }
    {
        Input {
            octets: [0; SIZE],
            lo: 0,
            hi: 0,
            ended: false,
        }
    }

    // The octets that are held.
    pub(crate) fn held(&self) -> &[u8]
        ensures octets { result.now ≡ slice_range self.now.octets self.now.lo self.now.hi }
        ensures length { length result.now ≡ self.now.hi - self.now.lo }
    {
        &self.octets[self.lo..self.hi]
    }

    // The reply to the octets that are held, in a version. An item lies within them.
    pub(crate) fn reply(&self, version: Version) -> Result<Option<Item>, Refusal>
        ensures reply { parsed_says result ≡ parsed version (slice_range self.now.octets self.now.lo self.now.hi) }
        ensures within { self.now.lo + used_of (parsed_says result) ≤ self.now.hi }
    {
        frames::parse::parse(version, self.held())
    }

    // The first n octets are done with.
    pub(crate) fn pass(&mut self, n: usize)
        requires { self.old.lo + n ≤ self.old.hi }
        ensures { (self.new.lo ≡ self.old.lo + n) × (self.new.hi ≡ self.old.hi) × (self.new.octets ≡ self.old.octets) }
    {
        self.lo += n;
    }

    // More octets behind those that are held, which move to the front.
    pub(crate) fn refill<R: Read>(&mut self, reader: &mut R) -> io::Result<()>
        ensures front { OnOk result (self.new.lo ≡ 0) }
        ensures kept { OnOk result (take (self.old.hi - self.old.lo) self.new.octets ≡ slice_range self.old.octets self.old.lo self.old.hi) }
        ensures bytes { OnOk result (Consumes (R.remaining reader.old) (R.remaining reader.new)
            (slice_range self.new.octets (self.old.hi - self.old.lo) self.new.hi)) }
    {
        let held = self.hi - self.lo;
        self.octets.copy_within(self.lo..self.hi, 0);
        self.lo = 0;
        self.hi = held;
        let n = read_full(reader, &mut self.octets[held..])?;
        self.hi = held + n;
        self.ended = self.hi < SIZE;
        Ok(())
    }
}

// What is laid out and not yet written, at the front of a buffer.
#[derive(Drop)]
pub(crate) struct Output {
    pub octets: [u8; SIZE],
    pub used: usize,
    ghost laid: { used ≤ 65536 },
}

impl Output {
    ghost use Rattle.headers.specs.Numbers.{shortest};
    ghost use Rattle.listing.specs.Lines.{reply_says, line_of};
    ghost use Rattle.listing.specs.Buffers.{Lays, line_in};

    // Nothing is laid out.
    pub(crate) fn new() -> Output
        ensures { result.used ≡ 0 }
    {
        Output {
            octets: [0; SIZE],
            used: 0,
        }
    }

    // How many octets more there is room for.
    pub(crate) fn room(&self) -> usize
        ensures { self.now.used + result ≡ 65536 }
    {
        SIZE - self.used
    }

    // What is laid out is written.
    pub(crate) fn flush<W: Write>(&mut self, writer: &mut W) -> io::Result<()>
        ensures used { OnOk result (self.new.used ≡ 0) }
        ensures bytes { OnOk result (Appends (W.contents writer.old) (W.contents writer.new) (take self.old.used self.old.octets)) }
    {
        writer.write_all(&self.octets[..self.used])?;
        self.used = 0;
        Ok(())
    }

    // The line of a reply is laid out, where there is room.
    pub(crate) fn lay_line(
        &mut self,
        start: u64,
        reply: Result<Option<Item>, Refused>,
        nothing_left: bool,
    )
        ensures { Lays (line_in (65536 - self.old.used) (line_of start (reply_says reply) nothing_left)) self.old self.new }
    {
        self.used += put_line(&mut self.octets[self.used..], start, reply, nothing_left);
    }

    // A word is laid out.
    pub(crate) fn lay_word(&mut self, word: &[u8])
        requires { self.old.used + length word.now ≤ 65536 }
        ensures { Lays word.now self.old self.new }
    {
        self.used += put_word(&mut self.octets[self.used..], word);
    }

    // A number is laid out, and an octet behind it.
    pub(crate) fn lay_number(&mut self, n: u64, behind: u8)
        requires { self.old.used + 21 ≤ 65536 }
        ensures row { Lays (shortest n ++ (behind ∷ [])) self.old self.new }
        ensures most { self.new.used ≤ self.old.used + 21 }
    {
        self.used += put_number(&mut self.octets[self.used..], n, behind);
    }
}

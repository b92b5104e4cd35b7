// The clock: a count of milliseconds in 32 bits that rolls over.
ghost use Rattle.std.specs.Prelude.{◌≡◌};
ghost use Rattle.sessions.specs.Opening.{passed};

// The milliseconds from an earlier time to a time.
pub(crate) fn passed_since(time: u32, earlier: u32) -> u32
    ensures { result ≡ passed time earlier }
{
    time.wrapping_sub(earlier)
}

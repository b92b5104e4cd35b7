// The protocol versions.
ghost use Rattle.std.specs.Prelude.{◌≡◌};
ghost use Rattle.frames.specs.Grammar.{crlf};
ghost use Rattle.frames.specs.Answers.{version_in};

// The protocol version that octets are read and written by: 1.1 or 1.2.
#[derive(Clone, Copy)]
pub enum Version {
    V11,
    V12,
}

// Whether a line end may have the octet 13 before its 10.
pub(crate) fn has_crlf(version: Version) -> bool
    ensures { result ≡ crlf version }
{
    match version {
        Version::V11 => false,
        Version::V12 => true,
    }
}

// The option of the calls for C that asks for version 1.1: the bit of value 2. Other bits are not looked at.
pub const OPTION_1_1: u32 = 2;

// The version that options ask for: bits of a number, as the calls for C take them.
pub(crate) fn of_options(options: u32) -> Version
    ensures { result ≡ version_in options }
{
    if options / OPTION_1_1 % 2 == 1 {
        return Version::V11;
    }
    Version::V12
}

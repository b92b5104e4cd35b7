// The words of commands, recognised octet by octet: of the octets read it is kept how many they are, and which command is the first
// that begins with them. Then what a command asks of its head and its body. Commands go by their numbers: the record that C keeps of a
// scan has one, and 0 before the first octet.
ghost use Rattle.std.specs.Prelude.{◌≡◌, ◌≤◌, ◌<◌, get_or};
ghost use Rattle.frames.specs.Scanning.{word_of, next_command, whole_command, Reached, style_of, most_of};
ghost use Rattle.frames.specs.Words.{packed, command_or_none};

use crate::commands;
use headers::Style;

// The letters of each command's word in one number, five bits each, the first lowest; 0 for no command.
const LETTERS: [u64; 16] = [
    0,
    21576769,
    11361,
    14982306,
    680965603,
    21581216227,
    4591426419171,
    707173293346084,
    19384901,
    5605280941,
    363566,
    22021311666,
    145587,
    17219219,
    5576549042867,
    5710386219896277,
];

// The letters of a command's word in one number.
fn letters(c: u32) -> u64
    requires { c ≤ 15 }
    ensures { result ≡ packed (word_of c) }
{
    // No From goes from u32 to usize, so it is cast.
    LETTERS[c as usize]
}

// The letter at place k of a command's word, or 64 behind it. It is no Option: 64 is what the definition has there, `get_or .. 64`, and
// so one comparison of an octet asks for the letter and for the word's end.
pub(crate) fn letter(c: u32, k: usize) -> u8
    requires { (c ≤ 15) × (k ≤ 11) }
    ensures { result ≡ get_or (word_of c) k 64 }
{
    64 + ((letters(c) >> (5 * k)) % 32) as u8
}

// The first command that begins with an octet.
fn first_command(x: u8) -> Option<u32>
    ensures { result ≡ command_or_none (next_command 0 0 x) }
{
    match x {
        65 => Some(commands::ABORT),
        66 => Some(commands::BEGIN),
        67 => Some(commands::COMMIT),
        68 => Some(commands::DISCONNECT),
        69 => Some(commands::ERROR),
        77 => Some(commands::MESSAGE),
        78 => Some(commands::NACK),
        82 => Some(commands::RECEIPT),
        83 => Some(commands::SEND),
        85 => Some(commands::UNSUBSCRIBE),
        _ => None,
    }
}

// The first command that begins with the first k letters of c and x, where x is not c's next letter: A goes on with C, CO with N,
// CONNECT with E, S with T or U.
fn sibling(c: u32, k: usize, x: u8) -> Option<u32>
    requires { Reached c k × (0 < k) × (x ≡ get_or (word_of c) k 64 → ⊥) }
    ensures { result ≡ command_or_none (next_command c k x) }
{
    match (c, k, x) {
        (commands::ABORT, 1, 67) => Some(commands::ACK),
        (commands::COMMIT, 2, 78) => Some(commands::CONNECT),
        (commands::CONNECT, 7, 69) => Some(commands::CONNECTED),
        (commands::SEND, 1, 84) => Some(commands::STOMP),
        (commands::SEND, 1, 85) => Some(commands::SUBSCRIBE),
        _ => None,
    }
}

// The first command that begins with the first k letters of c and x.
pub(crate) fn next_command(c: u32, k: usize, x: u8) -> Option<u32>
    requires { Reached c k }
    ensures { result ≡ command_or_none (next_command c k x) }
{
    if k == 0 {
        return first_command(x);
    }
    if x == letter(c, k) {
        if x == 64 {
            return None;
        }
        return Some(c);
    }
    sibling(c, k, x)
}

// The command that the first k letters of c are. No letter is read where c is none.
pub(crate) fn whole_command(c: u32, k: usize) -> Option<u32>
    requires { Reached c k }
    ensures { result ≡ command_or_none (whole_command c k) }
{
    if (c != 0) & (letter(c, k) == 64) {
        Some(c)
    } else {
        None
    }
}

// What a command makes of header text, where octet 13 begins a line end or does not.
pub(crate) fn style_of(crlf: bool, command: u32) -> Style
    ensures { result ≡ style_of crlf command }
{
    Style {
        escapes: !((command == commands::CONNECT) | (command == commands::CONNECTED)),
        crlf,
    }
}

// The longest body of a command.
pub(crate) fn most_of(command: u32) -> usize
    ensures { result ≡ most_of command }
{
    if (command == commands::ERROR) | (command == commands::MESSAGE) | (command == commands::SEND) {
        crate::limits::BODY
    } else {
        0
    }
}

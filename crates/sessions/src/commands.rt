// The numbers of the commands. They stay numbers: the definitions of specs take a command by its number, a call may get any, and one that is
// no command's is answered with 39.
pub const ABORT: u32 = 1;

pub const ACK: u32 = 2;

pub const BEGIN: u32 = 3;

pub const COMMIT: u32 = 4;

pub const CONNECT: u32 = 5;

pub const CONNECTED: u32 = 6;

pub const DISCONNECT: u32 = 7;

pub const ERROR: u32 = 8;

pub const MESSAGE: u32 = 9;

pub const NACK: u32 = 10;

pub const RECEIPT: u32 = 11;

pub const SEND: u32 = 12;

pub const STOMP: u32 = 13;

pub const SUBSCRIBE: u32 = 14;

pub const UNSUBSCRIBE: u32 = 15;

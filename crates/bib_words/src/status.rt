//! How the program ends, as its exit status.

/// The command was carried out.
pub const DONE: u8 = 0;

/// The command was refused, and its message says why.
pub const REFUSED: u8 = 1;

/// The command line is not a command of the program.
pub const COMMAND_LINE: u8 = 2;

/// A call on a file, on standard input or on standard output failed.
pub const FAULT: u8 = 3;

/// Memory ran out.
pub const MEMORY: u8 = 4;

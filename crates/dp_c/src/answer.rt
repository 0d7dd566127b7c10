//! What the calls answer. include/dp_c.h has the same names, with DP_ in front, and numbers.

/// The call did its work, and wrote.
pub const DONE: u32 = 0;

/// The key hasn't 16, 24 or 32 bytes.
pub const BAD_KEY_LENGTH: u32 = 1;

/// What is to be opened hasn't the length that its form asks for.
pub const BAD_LENGTH: u32 = 2;

/// The deciphered text isn't padded.
pub const BAD_PADDING: u32 = 3;

/// No memory was found.
pub const NO_MEMORY: u32 = 4;

/// The room is too small.
pub const NO_ROOM: u32 = 5;

/// The tag is another.
pub const BAD_TAG: u32 = 6;

/// More bytes came, or were asked for, than the call takes.
pub const TOO_LONG: u32 = 7;

/// No algorithm has the code.
pub const BAD_CODE: u32 = 8;

/// The vector hasn't the length that the algorithm asks for.
pub const BAD_VECTOR: u32 = 9;

/// The body was altered, or was sealed otherwise.
pub const TAMPERED: u32 = 10;

// Programs in C were compiled with these numbers.
const _: () = prove!(DONE == 0);

const _: () = prove!(BAD_KEY_LENGTH == 1);

const _: () = prove!(BAD_LENGTH == 2);

const _: () = prove!(BAD_PADDING == 3);

const _: () = prove!(NO_MEMORY == 4);

const _: () = prove!(NO_ROOM == 5);

const _: () = prove!(BAD_TAG == 6);

const _: () = prove!(TOO_LONG == 7);

const _: () = prove!(BAD_CODE == 8);

const _: () = prove!(BAD_VECTOR == 9);

const _: () = prove!(TAMPERED == 10);

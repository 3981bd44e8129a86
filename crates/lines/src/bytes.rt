// The bytes that have a meaning of their own in a text.

// The digits 0 and 9.
pub const ZERO: u8 = 48;

pub const NINE: u8 = 57;

// What stands between two fields, and behind the last of a line.
pub const SPACE: u8 = 32;

pub const LINE_END: u8 = 10;

// The numbers of a table file, as in specs/Sizes.antt.

pub const BLOCK: usize = 512;

pub const BODY: usize = 508;

pub const HEADER: usize = 8;

pub const SLOT: usize = 8;

pub const SLOTS: usize = 62;

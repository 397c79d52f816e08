// Where each word of the workspace stands. specs/Layout.antt has the same numbers, and nothing else knows them.
//
//   0                 header: n, k, a, beta1, beta2, p, edition, 0
//   8                 512 records of 13 words: 4 of name, slot, 4 of parents, state, confidence, ordinal, mark
//   6,664             256 slot entries of 4 words: preferred, last, counter, bookings
//   7,688             the end
pub const MOST_BOOKINGS: usize = 512;

pub const SLOTS: usize = 256;

pub const MOST_PARENTS: usize = 4;

pub const HEADER_WORDS: usize = 8;

pub const RECORD_WORDS: usize = 13;

pub const SLOT_WORDS: usize = 4;

pub const SLOTS_START: usize = 6664;

pub const SIZE: usize = 7688;

// A parent place, preferred or last that holds no number.
pub const NONE: u16 = 65535;

// Words of the header.
pub const BOOKINGS: usize = 0;

pub const K: usize = 1;

pub const A: usize = 2;

pub const BETA1: usize = 3;

pub const BETA2: usize = 4;

pub const POLLS: usize = 5;

pub const EDITION: usize = 6;

pub const SPARE: usize = 7;

// Words of a record.
pub const NAME: usize = 0;

pub const SLOT: usize = 4;

pub const PARENTS: usize = 5;

pub const STATE: usize = 9;

pub const CONFIDENCE: usize = 10;

pub const ORDINAL: usize = 11;

pub const MARK: usize = 12;

// Words of a slot entry.
pub const PREFERRED: usize = 0;

pub const LAST: usize = 1;

pub const COUNTER: usize = 2;

pub const HELD: usize = 3;

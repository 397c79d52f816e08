// Where each part of a day file stands, in bytes, as it follows from specs/Bytes.antt.
//
//   0         how many numbers the setting has: 4 in edition 0, else 5
//   2         k, a, beta1, beta2, and in edition 1 the edition: two bytes each
//   10 or 12  how many bookings
//   ..        the bookings: 8 of name, 2 of slot, 2 of how many parents, 2 for each parent
//   ..        how many polls: two bytes
//   ..        the polls: 2 of booking, 2 of outcome
//   ..        in the second form, how many marks: two bytes
//   ..        the marks: 2 of booking
pub const NUMBER_BYTES: usize = 2;

// How many numbers a setting has without the edition, and with it.
pub const FIRST_NUMBERS: u16 = 4;

pub const LATER_NUMBERS: u16 = 5;

pub const K: usize = 2;

pub const A: usize = 4;

pub const BETA1: usize = 6;

pub const BETA2: usize = 8;

pub const EDITION: usize = 10;

// Where the bookings' section starts, behind each of the two.
pub const FIRST_END: usize = 10;

pub const LATER_END: usize = 12;

// In a booking.
pub const SLOT: usize = 8;

pub const PARENTS_COUNT: usize = 10;

pub const PARENTS: usize = 12;

pub const POLL_BYTES: usize = 4;

// No booking and no poll, in edition 0.
pub const LEAST_FILE: usize = 14;

// The genesis is marked.
pub const LEAST_MARKS: usize = 4;

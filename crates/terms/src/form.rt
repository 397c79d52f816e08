// The two forms of a day file. Writing, reading and moving name theirs, a move that of its input.
// The first carries setting, bookings and polls; the second the marks too.
#[derive(Clone, Copy)]
pub enum Form {
    First,
    Second,
}

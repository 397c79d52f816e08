// Rows of the day file: a booking in the second section, a poll in the third. A row is what the record of its booking says.
#![tactic(auto)]

ghost use Rattle.std.specs.Prelude.{◌≡◌, ◌+◌, ◌*◌, ◌<◌, ◌≤◌, length};
ghost use Rattle.rules.specs.Layout.{size, most_bookings, ordinal_of};
ghost use Rattle.put.specs.Put.{Put};
ghost use Rattle.day_file.specs.Day.{parent_count, booking_at};
ghost use Rattle.day_file.specs.Bytes.{booking_bytes};
ghost use Rattle.day_file.specs.InTurn.{pair_at};

use rules::layout;

// How many parents booking i has.
pub fn parent_count(w: &[u16], i: usize) -> usize
    requires { (length w.now ≡ size) × (i < most_bookings) }
    ensures { result ≡ parent_count w.now i }
{
    let places = words::fields(w, i, layout::PARENTS, layout::MOST_PARENTS);
    places.iter().take_while(|p| **p != layout::NONE).count()
}

// Name and slot of booking i, how many parents it has, and their numbers.
pub fn put_booking(w: &[u16], i: usize, out: &mut [u8], at: usize) -> usize
    requires { (length w.now ≡ size) × (i < most_bookings) × (at + (12 + 2 * parent_count w.now i) ≤ length out.old) }
    ensures { Put out.old at (booking_bytes (booking_at w.now i)) result out.new }
{
    let parents = parent_count(w, i);
    let named = day_put::put_name(out, at, words::name(w, i));
    let placed = day_put::put_number(out, named, words::field(w, i, layout::SLOT));
    let counted = day_put::put_number(out, placed, parents as u16);
    day_put::put_numbers(out, counted, words::fields(w, i, layout::PARENTS, parents))
}

// The poll of booking i, if it had one, at the place of its ordinal: the booking's number, and 1 for a success, which leaves a chit.
pub fn put_poll(w: &[u16], i: usize, out: &mut [u8])
    requires { (length w.now ≡ size) × (i < most_bookings) × (2 + 4 * ordinal_of w.now i ≤ length out.old) }
    ensures { out.new ≡ pair_at w.now i out.old }
{
    let ordinal = words::wide_field(w, i, layout::ORDINAL);
    if ordinal != 0 {
        let success = words::chit(w, i);
        let next = day_put::put_number(out, 2 + 4 * (ordinal - 1), i as u16);
        day_put::put_number(out, next, success as u16);
    }
}

// By how much a booking's confidence leads those of its slot's other bookings.
ghost use Rattle.std.specs.Prelude.{◌≡◌, ◌<◌, ◌≤◌, length};
ghost use Rattle.rules.specs.Layout.{size, most_bookings, bookings};
ghost use Rattle.rules.specs.Readings.{is_rival, rival_confidence, rivals_most, lead_of};

use crate::booking;

// Whether j is another booking of i's slot.
fn is_rival(w: &[u16], i: usize, j: usize) -> bool
    requires { (length w.now ≡ size) × (i < most_bookings) × (j < most_bookings) }
    ensures { result ≡ is_rival w.now i j }
{
    (booking::slot_of(w, j) == booking::slot_of(w, i)) & (j != i)
}

// The confidence of j where it is a rival of i, else 0.
fn rival_confidence(w: &[u16], i: usize, j: usize) -> u16
    requires { (length w.now ≡ size) × (i < most_bookings) × (j < most_bookings) }
    ensures { result ≡ rival_confidence w.now i j }
{
    if is_rival(w, i, j) {
        booking::confidence_of(w, j)
    } else {
        0
    }
}

// The greatest confidence among the slot's other bookings, or 0 if there are none.
fn rivals_most(w: &[u16], i: usize) -> u16
    requires { (length w.now ≡ size) × (bookings w.now ≤ most_bookings) × (i < most_bookings) }
    ensures { result ≡ rivals_most w.now i }
{
    (0..booking::how_many(w))
        .map(|j| rival_confidence(w, i, j))
        .fold(0, u16::max)
}

// The lead of booking i, below 0 where a rival is ahead.
pub fn lead_of(w: &[u16], i: usize) -> i64
    requires { (length w.now ≡ size) × (bookings w.now ≤ most_bookings) × (i < most_bookings) }
    ensures { result ≡ lead_of w.now i }
{
    (booking::confidence_of(w, i) as i64) - (rivals_most(w, i) as i64)
}

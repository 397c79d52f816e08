// Is a slot entry in order.
ghost use Rattle.std.specs.Prelude.{◌≡◌, ◌<◌, length};
ghost use Rattle.rules.specs.Layout.{size, slots};
ghost use Rattle.rules.specs.IsSound.{chits, bookings_of, is_booking_of, entry_empty, entry_held, slot_good};
ghost use Rattle.sound_rows.specs.HasBookings.{HasBookings};

use rules::layout;

// 65535, 65535, 0, 0.
fn entry_empty(w: &[u16], s: usize) -> bool
    requires { (length w.now ≡ size) × (s < slots) }
    ensures { result ≡ entry_empty w.now s }
{
    (words::entry(w, s, layout::PREFERRED) == layout::NONE)
        & (words::entry(w, s, layout::LAST) == layout::NONE)
        & (words::entry(w, s, layout::COUNTER) == 0)
        & (words::entry(w, s, layout::HELD) == 0)
}

// i is one of the n bookings, and has slot s.
fn is_booking_of(w: &[u16], n: usize, s: usize, i: usize) -> bool
    requires { HasBookings w.now n }
    ensures { result ≡ is_booking_of w.now s i }
{
    i < n && words::wide_field(w, i, layout::SLOT) == s
}

// The number of bookings is the true one, preferred and last are bookings of the slot, the counter is within the limit.
fn entry_held(w: &[u16], n: usize, limit: usize, s: usize, held: usize) -> bool
    requires has_bookings { HasBookings w.now n × (s < slots) }
    requires limit_value { (limit ≡ chits w.now) × (held ≡ bookings_of w.now s) }
    ensures { result ≡ entry_held w.now s }
{
    (words::wide_entry(w, s, layout::HELD) == held)
        & is_booking_of(w, n, s, words::wide_entry(w, s, layout::PREFERRED))
        & is_booking_of(w, n, s, words::wide_entry(w, s, layout::LAST))
        & (words::wide_entry(w, s, layout::COUNTER) <= limit)
}

// Slot entry s, where held is its true number of bookings and limit the number of records in state 2.
pub fn slot_good(w: &[u16], n: usize, limit: usize, s: usize, held: usize) -> bool
    requires has_bookings { HasBookings w.now n × (s < slots) }
    requires limit_value { (limit ≡ chits w.now) × (held ≡ bookings_of w.now s) }
    ensures { result ≡ slot_good w.now s }
{
    if held == 0 {
        return entry_empty(w, s);
    }
    entry_held(w, n, limit, s, held)
}

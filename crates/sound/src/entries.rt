// The slot entries.
ghost use Rattle.std.specs.Prelude.{◌≡◌, ◌<◌};
ghost use Rattle.loops.specs.Search.{found_below};
ghost use Rattle.rules.specs.Layout.{slots};
ghost use Rattle.rules.specs.IsSound.{chits, slot_good, bad_slot};
ghost use Rattle.sound_rows.specs.HasBookings.{HasBookings};
ghost use Rattle.sound.specs.Held.{held_below};

use crate::held;
use rules::layout;

// Slot entry s, where the table has the bookings of each slot.
fn entry_good(w: &[u16], n: usize, limit: usize, held: &[u16], s: usize) -> bool
    requires { HasBookings w.now n × (limit ≡ chits w.now) × (held.now ≡ held_below w.now n) × (s < slots) }
    ensures { result ≡ slot_good w.now s }
{
    sound_rows::entry::slot_good(w, n, limit, s, words::wide(held[s]))
}

// The lowest slot entry that breaks a rule, if any does, where the table has the bookings of each slot.
fn bad_entry(w: &[u16], n: usize, limit: usize, held: &[u16]) -> Option<usize>
    requires { HasBookings w.now n × (limit ≡ chits w.now) × (held.now ≡ held_below w.now n) }
    ensures { result ≡ found_below slots (bad_slot w.now) }
{
    (0..layout::SLOTS).find(|s| !entry_good(w, n, limit, held, *s))
}

// The same, with the bookings counted first.
pub(crate) fn bad_slot(w: &[u16], n: usize, limit: usize) -> Option<usize>
    requires { HasBookings w.now n × (limit ≡ chits w.now) }
    ensures { result ≡ found_below slots (bad_slot w.now) }
{
    let mut held = [0u16; layout::SLOTS];
    held::count_all(w, n, &mut held);
    bad_entry(w, n, limit, &held)
}

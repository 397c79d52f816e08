// How many bookings each slot has.
ghost use Rattle.std.specs.Prelude.{◌≡◌, ◌<◌, ◌≤◌, length, get_or};
ghost use Rattle.rules.specs.Layout.{size, most_bookings, slots};
ghost use Rattle.sound.specs.Held.{counted, held_below};

use rules::layout;

// One booking more for slot s, unless it is past the end. By index: `get_mut` leaves a goal about a name of the kit's own.
fn count(held: &mut [u16], s: usize)
    requires { (length held.old ≡ slots) × (get_or held.old s 0 < most_bookings) }
    ensures { held.new ≡ counted s held.old }
{
    if s < layout::SLOTS {
        held[s] += 1;
    }
}

// Counts the bookings of each slot among the first n records, into a table of zeros.
pub(crate) fn count_all(w: &[u16], n: usize, held: &mut [u16])
    requires { (length w.now ≡ size) × (n ≤ most_bookings) × (held.old ≡ held_below w.now 0) }
    ensures { held.new ≡ held_below w.now n }
{
    for i in 0..n {
        let s = words::wide_field(w, i, layout::SLOT);
        count(held, s);
    }
}

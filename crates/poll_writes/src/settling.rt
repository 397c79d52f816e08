// Each member is settled in its slot: first the preference, then the last booking and the counter.
ghost use Rattle.std.specs.Prelude.{◌≡◌, ◌<◌, length};
ghost use Rattle.rules.specs.Layout.{most_bookings, slot_of};
ghost use Rattle.rules.specs.Poll.{prefer, follow, settled};
ghost use Rattle.bits.specs.Members.{bit_words, members_in};
ghost use Rattle.poll_writes.specs.Settling.{Settleable, Settling};

use crate::walk;
use crate::walk::Task;
use rules::layout;
use terms::edition;

// Strictly above the slot's preferred booking, or nothing moves: a tie keeps the preference.
fn prefer_one(w: &mut [u16], s: usize, j: usize)
    requires { Settleable w.old s × (j < most_bookings) }
    ensures { w.new ≡ prefer s j w.old }
{
    let preferred = words::wide(words::entry(w, s, layout::PREFERRED));
    let held = words::field(w, preferred, layout::CONFIDENCE);
    let own = words::field(w, j, layout::CONFIDENCE);
    if held < own {
        words::set_entry(w, s, layout::PREFERRED, j as u16);
    }
}

// The slot's last booking counts one more; another becomes last, and the edition says where it counts from.
fn follow_one(w: &mut [u16], s: usize, j: usize)
    requires { Settleable w.old s × (j < most_bookings) }
    ensures { w.new ≡ follow s j w.old }
{
    let last = words::wide(words::entry(w, s, layout::LAST));
    if last == j {
        let counter = words::entry(w, s, layout::COUNTER);
        words::set_entry(w, s, layout::COUNTER, counter + 1);
    } else {
        let start = edition::restart(words::header(w, layout::EDITION));
        words::set_entry(w, s, layout::LAST, j as u16);
        words::set_entry(w, s, layout::COUNTER, start);
    }
}

// Both for j, in this order.
fn settle_one(w: &mut [u16], j: usize)
    requires { Settleable w.old (slot_of w.old j) × (j < most_bookings) }
    ensures { w.new ≡ follow (slot_of w.old j) j (prefer (slot_of w.old j) j w.old) }
{
    let s = words::wide_field(w, j, layout::SLOT);
    prefer_one(w, s, j);
    follow_one(w, s, j);
}

struct Settles;

impl Task for Settles {
    ghost done = { λ j w. follow (slot_of w j) j (prefer (slot_of w j) j w) };

    ghost ready = { λ w j. Settleable w (slot_of w j) × (j < most_bookings) };

    fn act(w: &mut [u16], j: usize) {
        settle_one(w, j);
    }
}

// Each member below n in rising number.
pub fn settle(w: &mut [u16], members: &[u64], n: usize)
    requires { Settling w.old n × (length members.now ≡ bit_words) }
    ensures { w.new ≡ settled (members_in members.now) n w.old }
{
    walk::walk::<Settles>(w, members, n);
}

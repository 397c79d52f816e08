// Where a failed poll clears, the counter of every slot in the ancestry becomes 0, whoever is last there.
ghost use Rattle.std.specs.Prelude.{◌≡◌, ◌<◌, length};
ghost use Rattle.rules.specs.Layout.{size, most_bookings, slots, counter_field, slot_of, with_entry};
ghost use Rattle.rules.specs.Poll.{cleared};
ghost use Rattle.bits.specs.Members.{bit_words, members_in};
ghost use Rattle.poll_writes.specs.Clearing.{Clearing};

use crate::walk;
use crate::walk::Task;
use rules::layout;

// The counter of j's slot.
fn clear_one(w: &mut [u16], j: usize)
    requires { (length w.old ≡ size) × (j < most_bookings) × (slot_of w.old j < slots) }
    ensures { w.new ≡ with_entry w.old (slot_of w.old j) counter_field 0 }
{
    let s = words::wide_field(w, j, layout::SLOT);
    words::set_entry(w, s, layout::COUNTER, 0);
}

struct Clears;

impl Task for Clears {
    ghost done = { λ j w. with_entry w (slot_of w j) counter_field 0 };

    ghost ready = { λ w j. (length w ≡ size) × (j < most_bookings) × (slot_of w j < slots) };

    fn act(w: &mut [u16], j: usize) {
        clear_one(w, j);
    }
}

// Each member below n.
pub fn clear(w: &mut [u16], members: &[u64], n: usize)
    requires { Clearing w.old n × (length members.now ≡ bit_words) }
    ensures { w.new ≡ cleared (members_in members.now) n w.old }
{
    walk::walk::<Clears>(w, members, n);
}

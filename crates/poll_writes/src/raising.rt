// A poll is noted, and every member of the ancestry gains one confidence.
ghost use Rattle.std.specs.Prelude.{◌≡◌, ◌+◌, ◌≤◌, ◌<◌, length};
ghost use Rattle.rules.specs.Layout.{size, most_bookings, polls, confidence_field, confidence_of, with_field};
ghost use Rattle.rules.specs.Poll.{noted, raised};
ghost use Rattle.bits.specs.Members.{bit_words, members_in};
ghost use Rattle.poll_writes.specs.Raising.{Raising};

use crate::walk;
use crate::walk::Task;
use rules::layout;

// p rises and becomes the ordinal of booking i, whose state is as given: a number, since the promise is of any.
pub fn note(w: &mut [u16], i: usize, state: u16)
    requires { (length w.old ≡ size) × (i < most_bookings) × (polls w.old < most_bookings) }
    ensures { w.new ≡ noted w.old i state }
{
    let p = words::header(w, layout::POLLS) + 1;
    words::set_header(w, layout::POLLS, p);
    words::set_field(w, i, layout::STATE, state);
    words::set_field(w, i, layout::ORDINAL, p);
}

// One confidence more for j.
fn raise_one(w: &mut [u16], j: usize)
    requires { (length w.old ≡ size) × (j < most_bookings) × (confidence_of w.old j ≤ most_bookings) }
    ensures { w.new ≡ with_field w.old j confidence_field (confidence_of w.old j + 1) }
{
    let confidence = words::field(w, j, layout::CONFIDENCE);
    words::set_field(w, j, layout::CONFIDENCE, confidence + 1);
}

struct Raises;

impl Task for Raises {
    ghost done = { λ j w. with_field w j confidence_field (confidence_of w j + 1) };

    ghost ready = { λ w j. (length w ≡ size) × (j < most_bookings) × (confidence_of w j ≤ most_bookings) };

    fn act(w: &mut [u16], j: usize) {
        raise_one(w, j);
    }
}

// Each member below n, once: bits know no paths.
pub fn raise(w: &mut [u16], members: &[u64], n: usize)
    requires { Raising w.old n × (length members.now ≡ bit_words) }
    ensures { w.new ≡ raised (members_in members.now) n w.old }
{
    walk::walk::<Raises>(w, members, n);
}

// How a booking stands in its slot, and whether everything that it rests on is preferred.
#![tactic(auto)]

ghost use Rattle.std.specs.Prelude.{◌≡◌, ◌<◌, eqb};
ghost use Rattle.rules.specs.Layout.{slot_words, bookings, slot_of, entry};
ghost use Rattle.rules.specs.Sound.{Ledger};
ghost use Rattle.rules.specs.Readings.{is_preferred, is_last, query_of};
ghost use Rattle.bits.specs.Members.{members_in};
ghost use Rattle.preference.specs.Steps.{in_the_way};

use booking_reads::booking;
use rules::layout;

// Whether word f of the entry of booking j's slot is j itself.
fn stands_at(w: &[u16], j: usize, f: usize) -> bool
    requires { Ledger w.now × (j < bookings w.now) × (f < slot_words) }
    ensures { result ≡ eqb (entry w.now (slot_of w.now j) f) j }
{
    words::wide(booking::entry_of(w, j, f)) == j
}

// Whether booking j is preferred in its slot.
pub fn is_preferred(w: &[u16], j: usize) -> bool
    requires { Ledger w.now × (j < bookings w.now) }
    ensures { result ≡ is_preferred w.now j }
{
    stands_at(w, j, layout::PREFERRED)
}

// Whether booking j is its slot's last.
pub fn is_last(w: &[u16], j: usize) -> bool
    requires { Ledger w.now × (j < bookings w.now) }
    ensures { result ≡ is_last w.now j }
{
    stands_at(w, j, layout::LAST)
}

// Whether booking j is a member that is not preferred.
fn is_in_the_way(w: &[u16], m: &[u64], j: usize) -> bool
    requires { Ledger w.now × (j < bookings w.now) }
    ensures { result ≡ in_the_way w.now (members_in m.now) j }
{
    bits::is_set(m, j) & !is_preferred(w, j)
}

// The query of booking i: none of its ancestry is in the way.
pub fn query_of(w: &[u16], i: usize) -> bool
    requires { Ledger w.now × (i < bookings w.now) }
    ensures { result ≡ query_of w.now i }
{
    let mut m = [0u64; bits::BIT_WORDS];
    ancestry::gather_ancestry(w, &mut m, i);
    !(0..booking::how_many(w)).any(|j| is_in_the_way(w, &m, j))
}

// Who is marked as accepted after a poll. A bit for each slot that has a mark spares looking at the others of the slot.
#![tactic(auto)]

ghost use Rattle.std.specs.Prelude.{◌≡◌, ◌<◌, ◌≤◌};
ghost use Rattle.rules.specs.Layout.{bookings};
ghost use Rattle.rules.specs.Sound.{Ledger};
ghost use Rattle.rules.specs.Marks.{marked_below, marked};
ghost use Rattle.acceptance.specs.SlotsNoted.{SlotsNoted, MarkedOne};

use booking_reads::booking;
use rules::layout;

// Marks j if its slot has no mark and it meets the rule. Where its slot has one, either another's stands in the way or its own is set already.
fn mark_one(w: &mut [u16], noted: &mut [u64], j: usize)
    requires { Ledger w.old × (j < bookings w.old) × SlotsNoted w.old noted.old }
    ensures { MarkedOne w.old j w.new noted.new }
{
    let s = booking::slot_of(w, j);
    if bits::is_set(noted, s) {
        return;
    }
    if acceptance_rule::meets_rule(w, j) {
        words::set_field(w, j, layout::MARK, 1);
        bits::set_bit(noted, s);
    }
}

// The bookings below n in rising number, so that a mark of this pass counts for those that rest on it.
fn mark_below(w: &mut [u16], noted: &mut [u64], n: usize)
    requires { Ledger w.old × (n ≤ bookings w.old) × SlotsNoted w.old noted.old }
    ensures { w.new ≡ marked_below n w.old }
{
    for j in 0..n {
        mark_one(w, noted, j);
    }
}

// Marks every booking that is due, of the polled ancestry or not.
pub fn mark_accepted(w: &mut [u16])
    requires { Ledger w.old }
    ensures { w.new ≡ marked w.old }
{
    let n = booking::how_many(w);
    let mut noted = [0u64; bits::BIT_WORDS];
    marked_slots::note_marks(w, n, &mut noted);
    mark_below(w, &mut noted, n);
}

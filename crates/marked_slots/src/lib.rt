// Which slots have a mark, a bit for each: so nobody who judges a mark, or sets one, looks back at the others of its slot.
#![tactic(auto)]

ghost use Rattle.std.specs.Prelude.{◌≡◌, ◌<◌, ◌≤◌, length};
ghost use Rattle.bits.specs.Bits.{with_bit};
ghost use Rattle.bits.specs.Members.{no_bits};
ghost use Rattle.rules.specs.Layout.{size, most_bookings};
ghost use Rattle.marked_slots.specs.MarkedSlots.{marked_slot, marks_below, mark_good_by};

use rules::layout;

// No bit of eight words stands for it. A number and no None: `note_mark` promises its bit of any longer buffer too.
const NO_SLOT: usize = layout::NONE as usize;

// The slot of record i if it is marked, else 65535.
fn marked_slot(w: &[u16], i: usize) -> usize
    requires { (length w.now ≡ size) × (i < most_bookings) }
    ensures { result ≡ marked_slot w.now i }
{
    if words::field(w, i, layout::MARK) == 1 {
        return words::wide_field(w, i, layout::SLOT);
    }
    NO_SLOT
}

// Sets the bit of record i's slot, if it is marked.
pub fn note_mark(w: &[u16], i: usize, marked: &mut [u64])
    requires { (length w.now ≡ size) × (i < most_bookings) }
    ensures { marked.new ≡ with_bit (marked_slot w.now i) marked.old }
{
    bits::set_bit(marked, marked_slot(w, i));
}

// Sets the bit of each slot that a marked record among the first n has, in eight words of zeros.
pub fn note_marks(w: &[u16], n: usize, marked: &mut [u64])
    requires { (length w.now ≡ size) × (n ≤ most_bookings) × (marked.old ≡ no_bits) }
    ensures { marked.new ≡ marks_below w.now n }
{
    for i in 0..n {
        note_mark(w, i, marked);
    }
}

// The mark of record i is 0, or 1 in a slot whose bit is not set.
pub fn mark_good(w: &[u16], i: usize, marked: &[u64]) -> bool
    requires { (length w.now ≡ size) × (i < most_bookings) }
    ensures { result ≡ mark_good_by marked.now w.now i }
{
    let mark = words::field(w, i, layout::MARK);
    let s = words::wide_field(w, i, layout::SLOT);
    (mark <= 1) & ((mark != 1) | !bits::is_set(marked, s))
}

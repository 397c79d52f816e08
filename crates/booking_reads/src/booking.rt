// How many bookings there are, which has a name, and single words of one and of its slot.
ghost use Rattle.std.specs.Prelude.{◌≡◌, ◌<◌, ◌≤◌, length};
ghost use Rattle.rules.specs.Layout.{
  size,
  most_bookings,
  slot_words,
  bookings,
  slot_of,
  confidence_of,
  entry,
};
ghost use Rattle.rules.specs.Sound.{Ledger};
ghost use Rattle.rules.specs.Book.{look_up};
ghost use Rattle.rules.specs.Readings.{accepted_of};

use rules::layout;

// How many bookings the ledger has.
pub fn how_many(w: &[u16]) -> usize
    requires { length w.now ≡ size }
    ensures { result ≡ bookings w.now }
{
    words::wide(words::header(w, layout::BOOKINGS))
}

// The number of the booking with the name.
pub fn find(w: &[u16], name: u64) -> Option<usize>
    requires { (length w.now ≡ size) × (bookings w.now ≤ most_bookings) }
    ensures { result ≡ look_up w.now name }
{
    (0..how_many(w)).find(|i| words::name(w, *i) == name)
}

// The slot of booking i.
pub fn slot_of(w: &[u16], i: usize) -> usize
    requires { (length w.now ≡ size) × (i < most_bookings) }
    ensures { result ≡ slot_of w.now i }
{
    words::wide_field(w, i, layout::SLOT)
}

// The confidence of booking i.
pub fn confidence_of(w: &[u16], i: usize) -> u16
    requires { (length w.now ≡ size) × (i < most_bookings) }
    ensures { result ≡ confidence_of w.now i }
{
    words::field(w, i, layout::CONFIDENCE)
}

// Whether booking i is accepted: the mark, which polls set.
pub fn is_accepted(w: &[u16], i: usize) -> bool
    requires { (length w.now ≡ size) × (i < most_bookings) }
    ensures { result ≡ accepted_of w.now i }
{
    words::field(w, i, layout::MARK) == 1
}

// Word f of the entry of booking j's slot.
pub fn entry_of(w: &[u16], j: usize, f: usize) -> u16
    requires { Ledger w.now × (j < bookings w.now) × (f < slot_words) }
    ensures { result ≡ entry w.now (slot_of w.now j) f }
{
    words::entry(w, slot_of(w, j), f)
}

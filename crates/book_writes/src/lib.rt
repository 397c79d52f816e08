// A taken booking becomes number n, and enters its slot.
#![tactic(auto)]

ghost use Rattle.std.specs.Prelude.{◌≡◌, ◌<◌, length};
ghost use Rattle.rules.specs.Layout.{size, most_bookings, slots, none, bookings, held_in};
ghost use Rattle.rules.specs.Sound.{Ledger};
ghost use Rattle.rules.specs.Book.{new_record, entered, booked_with};

use rules::layout;

// Nobody is accepted before a poll.
const UNMARKED: u16 = 0;

// The record of a booking: the name's four parts, highest first, the slot, the parents, state 0, confidence 0, no ordinal and no mark.
fn new_record(
    name: u64,
    slot: u16,
    parents: &[u16; layout::MOST_PARENTS],
) -> [u16; layout::RECORD_WORDS]
    ensures { result ≡ new_record name slot parents.now }
{
    [
        (name >> 48) as u16,
        ((name >> 32) % 65536) as u16,
        ((name >> 16) % 65536) as u16,
        (name % 65536) as u16,
        slot,
        parents[0],
        parents[1],
        parents[2],
        parents[3],
        0,
        0,
        0,
        UNMARKED,
    ]
}

// The first booking of a slot is preferred and last there; a later one is only counted.
fn enter_slot(w: &mut [u16], s: usize, i: u16)
    requires { (length w.old ≡ size) × (s < slots) × (held_in w.old s < none) }
    ensures { w.new ≡ entered s i w.old }
{
    let held = words::entry(w, s, layout::HELD);
    if held == 0 {
        words::set_entry(w, s, layout::PREFERRED, i);
        words::set_entry(w, s, layout::LAST, i);
        words::set_entry(w, s, layout::COUNTER, 0);
        words::set_entry(w, s, layout::HELD, 1);
    } else {
        words::set_entry(w, s, layout::HELD, held + 1);
    }
}

pub fn write_booking(w: &mut [u16], name: u64, slot: u16, parents: &[u16; layout::MOST_PARENTS])
    requires { Ledger w.old × (bookings w.old < most_bookings) × (slot < slots) }
    ensures { w.new ≡ booked_with w.old name slot parents.now }
{
    let n = words::header(w, layout::BOOKINGS);
    let row = new_record(name, slot, parents);
    words::set_fields(w, words::wide(n), 0, &row);
    enter_slot(w, words::wide(slot), n);
    words::set_header(w, layout::BOOKINGS, n + 1);
}

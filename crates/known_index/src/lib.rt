// The calls on an index of the right length, beside words that are known to be a ledger: refusals 1, 18, 2, 14 and 15 are judged above, once.
// None changes a word.
#![tactic(auto)]

ghost use Rattle.std.specs.Prelude.{◌≡◌, not, ◌<◌, length};
ghost use Rattle.terms.specs.Answers.{handover};
ghost use Rattle.rules.specs.Layout.{size, most_bookings};
ghost use Rattle.rules.specs.Sound.{Ledger};
ghost use Rattle.name_index.specs.Index.{cells, is_full, with_number, empty_index};
ghost use Rattle.name_index.specs.Calls.{index_build_call, index_enter_call, index_find_call};

use name_index::cells;
use terms::answer::{Answer, Refusal};

// Every cell becomes empty, whatever it held.
fn clear(index: &mut [u16])
    requires { length index.old ≡ cells }
    ensures { index.new ≡ empty_index }
{
    index.fill(cells::EMPTY);
}

// Booking i's number into the first empty cell from its name's home on. If no cell is empty, nothing is written and the answer is no.
fn put_number(w: &[u16], index: &mut [u16], i: usize) -> bool
    requires { (length w.now ≡ size) × (length index.old ≡ cells) × (i < most_bookings) }
    ensures { (result ≡ not (is_full index.old)) × (index.new ≡ with_number w.now i index.old) }
{
    let h = name_hash::home(words::name(w, i));
    let Some(c) = name_probe::free_cell(index, h) else {
        return false;
    };
    index[c] = i as u16;
    true
}

// The numbers of all bookings, in rising order, into an index that was cleared.
pub fn build(w: &[u16], index: &mut [u16]) -> Answer
    requires { Ledger w.now × (length index.old ≡ cells) }
    ensures { handover result w.now index.new ≡ index_build_call w.now index.old }
{
    let n = booking_reads::booking::how_many(w);
    clear(index);
    for i in 0..n {
        put_number(w, index, i);
    }
    Ok(0)
}

// The newest booking's number, or refusal 27. Names are not looked at: who is entered twice is there twice.
pub fn enter(w: &[u16], index: &mut [u16]) -> Answer
    requires { Ledger w.now × (length index.old ≡ cells) }
    ensures { handover result w.now index.new ≡ index_enter_call w.now index.old }
{
    let newest = booking_reads::booking::how_many(w) - 1;
    if put_number(w, index, newest) {
        Ok(0)
    } else {
        Err(Refusal::IndexFull)
    }
}

// The number of the booking with the name, as the index has it, or refusal 10.
pub fn find(w: &[u16], index: &[u16], name: u64) -> Answer
    requires { Ledger w.now × (length index.now ≡ cells) }
    ensures { result ≡ index_find_call w.now index.now name }
{
    let Some(i) = name_probe::find(w, index, name) else {
        return Err(Refusal::UnknownName);
    };
    Ok(i as i64)
}

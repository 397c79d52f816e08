// A booking on words that are known to be a ledger: refusals 1, 2, 14 and 15 are judged above, once; 4, 5 and 6 here, and the parents' in `known_book_parents`.
#![tactic(auto)]

ghost use Rattle.std.specs.Prelude.{◌≡◌};
ghost use Rattle.terms.specs.Answers.{outcome};
ghost use Rattle.rules.specs.Sound.{Ledger};
ghost use Rattle.rules.specs.Book.{look_up, is_found};
ghost use Rattle.rules.specs.Calls.{is_bad_slot, is_bad_count, book_call};

use rules::layout;
use terms::answer::{Answer, Refusal};

// The name is already booked.
fn is_booked(w: &[u16], name: u64) -> bool
    requires { Ledger w.now }
    ensures { result ≡ is_found (look_up w.now name) }
{
    booking_reads::booking::find(w, name).is_some()
}

// Slot 0 is the genesis's alone, and above 255 there is none.
fn is_bad_slot(slot: u16) -> bool
    ensures { result ≡ is_bad_slot slot }
{
    !(1..layout::SLOTS).contains(&words::wide(slot))
}

// A booking has one to four parents.
fn is_bad_count(count: usize) -> bool
    ensures { result ≡ is_bad_count count }
{
    !(1..=layout::MOST_PARENTS).contains(&count)
}

// Refusals 4, 5 and 6 come before those of the parents.
pub fn book(w: &mut [u16], name: u64, slot: u16, parents: &[u64]) -> Answer
    requires { Ledger w.old }
    ensures { outcome result w.new ≡ book_call w.old name slot parents.now }
{
    if is_booked(w, name) {
        return Err(Refusal::NameTaken);
    }
    if is_bad_slot(slot) {
        return Err(Refusal::BadSlot);
    }
    if is_bad_count(parents.len()) {
        return Err(Refusal::BadParents);
    }
    known_book_parents::book_parents(w, name, slot, parents)
}

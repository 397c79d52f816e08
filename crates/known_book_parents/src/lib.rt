// The parents of a booking: looked up one after another, judged by refusals 7, 8 and 9 in their order, and then written with it.
#![tactic(auto)]

ghost use Rattle.std.specs.Prelude.{◌≡◌, ◌<◌, ◌≤◌, length};
ghost use Rattle.rules.specs.Layout.{slots, most_parents};
ghost use Rattle.terms.specs.Answers.{outcome};
ghost use Rattle.rules.specs.Sound.{Ledger};
ghost use Rattle.rules.specs.Book.{has_twice};
ghost use Rattle.known_book_parents.specs.Parents.{Looked, parents_call};

use rules::layout;
use terms::answer::{Answer, Refusal};

// Each parent's name is looked up in the order given, and its number stored in its place of four, since there is no heap; one that is not found ends the call.
fn look_parents(
    w: &[u16],
    parents: &[u64],
    numbers: &mut [u16; layout::MOST_PARENTS],
) -> Result<(), Refusal>
    requires { Ledger w.now × (length parents.now ≤ most_parents) }
    ensures { Looked w.now parents.now numbers.old result numbers.new }
{
    for (a, parent) in parents.iter().enumerate() {
        let Some(p) = booking_reads::booking::find(w, *parent) else {
            return Err(Refusal::UnknownParent);
        };
        numbers[a] = p as u16;
    }
    Ok(())
}

// A parent is named twice.
fn has_twice(parents: &[u64]) -> bool
    ensures { result ≡ has_twice parents.now }
{
    (0..parents.len()).any(|a| parents[..a].contains(&parents[a]))
}

// Refusals 7, 8 and 9 in their order, or the booking is written.
pub fn book_parents(w: &mut [u16], name: u64, slot: u16, parents: &[u64]) -> Answer
    requires { Ledger w.old × (slot < slots) × (length parents.now ≤ most_parents) }
    ensures { outcome result w.new ≡ parents_call w.old name slot parents.now }
{
    let mut numbers = [layout::NONE; layout::MOST_PARENTS];
    look_parents(w, parents, &mut numbers)?;
    if has_twice(parents) {
        return Err(Refusal::ParentTwice);
    }
    if booking_reads::booking::how_many(w) == layout::MOST_BOOKINGS {
        return Err(Refusal::Full);
    }
    book_writes::write_booking(w, name, slot, &numbers);
    Ok(0)
}

// Whether a booking meets the rule of acceptance, with its parents' acceptance read from their marks.
#![tactic(auto)]

ghost use Rattle.std.specs.Prelude.{◌≡◌, ◌<◌};
ghost use Rattle.rules.specs.Layout.{most_parents, bookings};
ghost use Rattle.rules.specs.Sound.{Ledger};
ghost use Rattle.rules.specs.Marks.{parents_marked, counter_enough, first_arm, second_arm, meets_rule};
ghost use Rattle.acceptance_rule.specs.Steps.{unmarked_parent};

use booking_reads::booking;
use rules::layout;
use terms::edition;

// Whether place a of booking j holds a parent that is not marked.
fn is_unmarked(w: &[u16], j: usize, a: usize) -> bool
    requires { Ledger w.now × (j < bookings w.now) × (a < most_parents) }
    ensures { result ≡ unmarked_parent w.now j a }
{
    let p = words::parent(w, j, a);
    p != words::wide(layout::NONE) && !booking::is_accepted(w, p)
}

// Every parent is marked.
fn parents_marked(w: &[u16], j: usize) -> bool
    requires { Ledger w.now × (j < bookings w.now) }
    ensures { result ≡ parents_marked w.now j }
{
    !(0..layout::MOST_PARENTS).any(|a| is_unmarked(w, j, a))
}

// The counter of j's slot is enough for beta: above it, or at least by the edition.
fn has_enough(w: &[u16], j: usize, beta: u16) -> bool
    requires { Ledger w.now × (j < bookings w.now) }
    ensures { result ≡ counter_enough w.now j beta }
{
    edition::is_enough(
        words::header(w, layout::EDITION),
        beta,
        booking::entry_of(w, j, layout::COUNTER),
    )
}

// All parents are marked, the slot has one booking, and its counter is enough for beta1.
fn first_arm(w: &[u16], j: usize) -> bool
    requires { Ledger w.now × (j < bookings w.now) }
    ensures { result ≡ first_arm w.now j }
{
    parents_marked(w, j)
        & (booking::entry_of(w, j, layout::HELD) == 1)
        & has_enough(w, j, words::header(w, layout::BETA1))
}

// The booking is both preferred and last in its slot, and the counter is enough for beta2: only one of two rivals is.
fn second_arm(w: &[u16], j: usize) -> bool
    requires { Ledger w.now × (j < bookings w.now) }
    ensures { result ≡ second_arm w.now j }
{
    preference::is_preferred(w, j)
        & preference::is_last(w, j)
        & has_enough(w, j, words::header(w, layout::BETA2))
}

// The genesis, or by one of the arms. A counter that is not enough for beta1 is enough for neither, and most are not.
pub fn meets_rule(w: &[u16], j: usize) -> bool
    requires { Ledger w.now × (j < bookings w.now) }
    ensures { result ≡ meets_rule w.now j }
{
    if !has_enough(w, j, words::header(w, layout::BETA1)) {
        return j == 0;
    }
    (j == 0) | first_arm(w, j) | second_arm(w, j)
}

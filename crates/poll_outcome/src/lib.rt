// A poll's outcome, written: a success raises and settles the ancestry of its booking, which is gathered first; a failure is noted only, or clears the
// ancestry's slots too by the edition. Then, whatever the outcome, those who meet the rule of acceptance are marked.
#![tactic(auto)]

ghost use Rattle.std.specs.Prelude.{◌≡◌, ◌<◌};
ghost use Rattle.rules.specs.Layout.{bookings, state_of};
ghost use Rattle.rules.specs.Sound.{Ledger};
ghost use Rattle.rules.specs.Poll.{concluded, polled_by};

use poll_writes::writing;
use rules::layout;
use terms::edition;

// Booking i after a poll, before anybody is marked. Nothing is gathered for a failure that clears nothing.
fn conclude(w: &mut [u16], i: usize, success: bool)
    requires { Ledger w.old × (i < bookings w.old) }
    ensures { w.new ≡ concluded success w.old i }
{
    let clears = edition::failure_clears(words::header(w, layout::EDITION));
    if success | clears {
        let mut members = [0u64; bits::BIT_WORDS];
        ancestry::gather_ancestry(w, &mut members, i);
        if success {
            writing::write_success(w, &members, i);
        } else {
            writing::write_cleared(w, &members, i);
        }
    } else {
        writing::write_failure(w, i);
    }
}

// The words after a poll of booking i, which waits.
pub fn write_outcome(w: &mut [u16], i: usize, success: bool)
    requires { Ledger w.old × (i < bookings w.old) × (state_of w.old i ≡ 0) }
    ensures { w.new ≡ polled_by success w.old i }
{
    conclude(w, i, success);
    acceptance::mark_accepted(w);
}

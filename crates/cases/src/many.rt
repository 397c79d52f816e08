// Many calls at once, and how many of them were taken.
ghost use Rattle.std.specs.Prelude.{◌≤◌};

use terms::answer::Answer;

fn one_if_taken(a: Answer) -> u64
    ensures { result ≤ 1 }
{
    u64::from(a.is_ok())
}

// The bookings 1 to 510 for slot 9, each on the one before.
pub(crate) fn fill(w: &mut [u16]) -> u64 {
    let mut n: u64 = 0;
    for name in 1u64..511 {
        n += one_if_taken(ledger::book(w, name, 9, &[name - 1]));
    }
    n
}

// The polls of 1 to 511, each with one yes.
pub(crate) fn vote(w: &mut [u16]) -> u64 {
    let mut n: u64 = 0;
    for name in 1u64..512 {
        n += one_if_taken(ledger::poll(w, name, &[1]));
    }
    n
}

// The readings by name, on a workspace that is known to be a ledger. The public calls test once and come here.
// Here and in all that works on a ledger the words are a slice, and the contract asks for a ledger: a type that is one would ask more of callers.
#![tactic(auto)]

ghost use Rattle.std.specs.Prelude.{◌≡◌, ◌<◌, pos};
ghost use Rattle.rules.specs.Layout.{bookings, confidence_of};
ghost use Rattle.rules.specs.Readings.{size_of, reading_of};
ghost use Rattle.rules.specs.Sound.{Ledger};
ghost use Rattle.rules.specs.Calls.{read_call};

use terms::answer::{Answer, Reading, Refusal};

fn confidence_value(w: &[u16], i: usize) -> i64
    requires { Ledger w.now × (i < bookings w.now) }
    ensures { result ≡ pos (confidence_of w.now i) }
{
    i64::from(booking_reads::booking::confidence_of(w, i))
}

fn size_value(w: &[u16], i: usize) -> i64
    requires { Ledger w.now × (i < bookings w.now) }
    ensures { result ≡ pos (size_of w.now i) }
{
    booking_reads::size::size_of(w, i) as i64
}

// What the reading says of booking i. Each has its own function, so a match and no table.
fn value_of(w: &[u16], i: usize, what: Reading) -> i64
    requires { Ledger w.now × (i < bookings w.now) }
    ensures { result ≡ reading_of what w.now i }
{
    match what {
        Reading::Query => i64::from(preference::query_of(w, i)),
        Reading::Accepted => i64::from(booking_reads::booking::is_accepted(w, i)),
        Reading::Lead => booking_reads::lead::lead_of(w, i),
        Reading::Confidence => confidence_value(w, i),
        Reading::Size => size_value(w, i),
    }
}

// The reading of the booking with the name, or refusal 10.
pub fn ask(w: &[u16], name: u64, what: Reading) -> Answer
    requires { Ledger w.now }
    ensures { result ≡ read_call what w.now name }
{
    let Some(i) = booking_reads::booking::find(w, name) else {
        return Err(Refusal::UnknownName);
    };
    Ok(value_of(w, i, what))
}

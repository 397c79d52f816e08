// A completed poll on words that are known to be a ledger: refusals 1, 2, 14 and 15 are judged above, once, and every other one here, in its order.
#![tactic(auto)]

ghost use Rattle.std.specs.Prelude.{◌≡◌, ◌<◌, length};
ghost use Rattle.rules.specs.Layout.{size, most_bookings, bookings, state_of};
ghost use Rattle.terms.specs.Answers.{outcome};
ghost use Rattle.rules.specs.Sound.{Ledger};
ghost use Rattle.rules.specs.Poll.{is_success, polled};
ghost use Rattle.rules.specs.Calls.{is_polled, is_miscounted, poll_call};

use rules::layout;
use terms::answer::{Answer, Refusal};
use terms::vote;
use terms::vote::State;
use votes;

// The yes votes number a or more.
fn is_success(w: &[u16], votes: &[u8]) -> bool
    requires { length w.now ≡ size }
    ensures { result ≡ is_success w.now votes.now }
{
    words::wide(words::header(w, layout::A)) <= votes::count_yes(votes)
}

// The words after the poll of booking i, which waits, by the votes.
fn write_poll(w: &mut [u16], i: usize, votes: &[u8])
    requires { Ledger w.old × (i < bookings w.old) × (state_of w.old i ≡ 0) }
    ensures { w.new ≡ polled w.old i votes.now }
{
    let success = is_success(w, votes);
    poll_outcome::write_outcome(w, i, success);
}

// The state of booking i isn't 0.
fn is_polled(w: &[u16], i: usize) -> bool
    requires { (length w.now ≡ size) × (i < most_bookings) }
    ensures { result ≡ is_polled w.now i }
{
    match vote::read_state(words::field(w, i, layout::STATE)) {
        State::Waiting => false,
        State::NoChit => true,
        State::Chit => true,
        State::Unknown => true,
    }
}

// The number of votes isn't k.
fn is_miscounted(w: &[u16], count: usize) -> bool
    requires { length w.now ≡ size }
    ensures { result ≡ is_miscounted w.now count }
{
    count != words::wide(words::header(w, layout::K))
}

// Refusals 10, 11, 12 and 13 in their order, the last three of the booking found; or the poll is written.
pub fn poll(w: &mut [u16], name: u64, votes: &[u8]) -> Answer
    requires { Ledger w.old }
    ensures { outcome result w.new ≡ poll_call w.old name votes.now }
{
    let Some(i) = booking_reads::booking::find(w, name) else {
        return Err(Refusal::UnknownName);
    };
    if is_polled(w, i) {
        return Err(Refusal::NotWaiting);
    }
    if is_miscounted(w, votes.len()) {
        return Err(Refusal::WrongVotes);
    }
    if votes::has_refused(votes) {
        return Err(Refusal::BadVote);
    }
    write_poll(w, i, votes);
    Ok(0)
}

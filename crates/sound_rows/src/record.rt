// Is a record in order: the genesis, any other below n, and one from n on. Each test reads the words of that record, and p.
ghost use Rattle.std.specs.Prelude.{◌≡◌, ◌<◌, length};
ghost use Rattle.rules.specs.Layout.{size, most_bookings};
ghost use Rattle.rules.specs.IsSound.{genesis_good, parents_good, state_good, record_zero};

use rules::layout;
use terms::vote;
use terms::vote::State;

// What stands at a place with no parent.
const NO_PARENT: usize = layout::NONE as usize;

// Name 0, slot 0, no parents, state 1, ordinal 0, marked.
pub fn genesis_good(w: &[u16]) -> bool
    requires { length w.now ≡ size }
    ensures { result ≡ genesis_good w.now }
{
    (words::name(w, 0) == 0)
        & (words::field(w, 0, layout::SLOT) == 0)
        & (words::parent(w, 0, 0) == NO_PARENT)
        & (words::parent(w, 0, 1) == NO_PARENT)
        & (words::parent(w, 0, 2) == NO_PARENT)
        & (words::parent(w, 0, 3) == NO_PARENT)
        & (words::field(w, 0, layout::STATE) == 1)
        & (words::field(w, 0, layout::ORDINAL) == 0)
        & (words::field(w, 0, layout::MARK) == 1)
}

// At least one parent, unused places after used ones, parents distinct and below i.
pub fn parents_good(w: &[u16], i: usize) -> bool
    requires { (length w.now ≡ size) × (i < most_bookings) }
    ensures { result ≡ parents_good w.now i }
{
    let a = words::parent(w, i, 0);
    let b = words::parent(w, i, 1);
    let c = words::parent(w, i, 2);
    let d = words::parent(w, i, 3);
    (a != NO_PARENT)
        & ((b != NO_PARENT) | (c == NO_PARENT))
        & ((c != NO_PARENT) | (d == NO_PARENT))
        & ((a == NO_PARENT) | (a < i))
        & ((b == NO_PARENT) | ((b < i) & (a != b)))
        & ((c == NO_PARENT) | ((c < i) & !((a == c) | (b == c))))
        & ((d == NO_PARENT) | ((d < i) & !((a == d) | (b == d) | (c == d))))
}

// State 0, 1 or 2, ordinal 0 exactly if the state is 0, and no more than p.
pub fn state_good(w: &[u16], i: usize) -> bool
    requires { (length w.now ≡ size) × (i < most_bookings) }
    ensures { result ≡ state_good w.now i }
{
    let o = words::field(w, i, layout::ORDINAL);
    let p = words::header(w, layout::POLLS);
    match vote::read_state(words::field(w, i, layout::STATE)) {
        State::Waiting => (o == 0) & (o <= p),
        State::NoChit | State::Chit => (o != 0) & (o <= p),
        State::Unknown => false,
    }
}

// All zero, as a record from n on is.
pub fn record_zero(w: &[u16], i: usize) -> bool
    requires { (length w.now ≡ size) × (i < most_bookings) }
    ensures { result ≡ record_zero w.now i }
{
    words::fields(w, i, 0, layout::RECORD_WORDS)
        .iter()
        .all(|word| *word == 0)
}

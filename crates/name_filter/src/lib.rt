// Names: is one new among those before it. A filter of bits tells most new names at once; only where it can't is a look back needed.
#![tactic(auto)]

ghost use Rattle.std.specs.Prelude.{◌≡◌, ◌<◌, length};
ghost use Rattle.rules.specs.Layout.{size, most_bookings, name_of};
ghost use Rattle.rules.specs.IsSound.{name_new};
ghost use Rattle.name_filter.specs.Names.{first_bit, second_bit, is_noted, with_noted, names_below};

// How many words a filter has.
pub const FILTER_WORDS: usize = 124;

// The two bits of a name: its remainders by two primes.
const FIRST_PRIME: u64 = 7879;

const SECOND_PRIME: u64 = 7741;

fn first_bit(name: u64) -> usize
    ensures { result ≡ first_bit name }
{
    (name % FIRST_PRIME) as usize
}

fn second_bit(name: u64) -> usize
    ensures { result ≡ second_bit name }
{
    (name % SECOND_PRIME) as usize
}

// Notes a name in the filter, and tells whether both of its bits were set. If not, no name noted before is this one.
pub fn note(filter: &mut [u64], name: u64) -> bool
    ensures { (result ≡ is_noted filter.old name) × (filter.new ≡ with_noted name filter.old) }
{
    let a = first_bit(name);
    let b = second_bit(name);
    let seen = bits::is_set(filter, a) & bits::is_set(filter, b);
    bits::set_bit(filter, a);
    bits::set_bit(filter, b);
    seen
}

// No lower record has the name of record i: a look at each.
fn look_back(w: &[u16], i: usize, name: u64) -> bool
    requires { (length w.now ≡ size) × (i < most_bookings) × (name ≡ name_of w.now i) }
    ensures { result ≡ name_new w.now i }
{
    !(0..i).any(|j| words::name(w, j) == name)
}

// Notes the name of record i in the filter, which has those of the lower records, and tells whether none of them has it.
pub fn enter(w: &[u16], i: usize, filter: &mut [u64]) -> bool
    requires { (length w.now ≡ size) × (i < most_bookings) × (filter.old ≡ names_below w.now i) }
    ensures { (result ≡ name_new w.now i) × (filter.new ≡ with_noted (name_of w.now i) filter.old) }
{
    let name = words::name(w, i);
    if note(filter, name) {
        return look_back(w, i, name);
    }
    true
}

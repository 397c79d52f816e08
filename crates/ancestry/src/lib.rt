// Who is reached from a booking, each member once: eight words, in which bit j is that of booking j.
// Members are lent as a slice of eight words, as the public contracts have it.
#![tactic(auto)]

ghost use Rattle.std.specs.Prelude.{◌≡◌, ◌+◌, ◌*◌, ◌/◌, ◌<◌, ◌≤◌, length};
ghost use Rattle.rules.specs.Layout.{bookings};
ghost use Rattle.rules.specs.Sound.{Ledger};
ghost use Rattle.rules.specs.Ancestry.{spread, sweep, ancestry};
ghost use Rattle.bits.specs.Members.{bit_words, members_in, members_with, no_bits};

// The members with the parents of j too if it is one of them. The word with its own bit stands apart, and comes back.
fn spread_one(w: &[u16], m: &mut [u64], own: u64, j: usize) -> u64
    requires { Ledger w.now × (j < bookings w.now) × (length m.old ≡ bit_words) }
    ensures { members_with m.new (j / 64) result ≡ spread w.now j (members_with m.old (j / 64) own) }
{
    if bits::has_bit(own, j % bits::WORD_BITS) {
        return ancestry_parents::gather_parents(w, m, own, j);
    }
    own
}

// From n - 1 down to the first number of word q, which is then done: what is left to sweep is below.
fn sweep_word(w: &[u16], m: &mut [u64], q: usize, n: usize)
    requires { Ledger w.now × (n ≤ bookings w.now) × (length m.old ≡ bit_words) × (64 * q < n) × (n ≤ 64 * q + 64) }
    ensures { sweep w.now (64 * q) (members_in m.new) ≡ sweep w.now n (members_in m.old) }
{
    let mut own = m[q];
    for j in (bits::WORD_BITS * q..n).rev() {
        own = spread_one(w, m, own, j);
    }
    m[q] = own;
}

// From n - 1 down to 0, a word at a time: parents are lower, so a member is met before its parents.
fn sweep_down(w: &[u16], m: &mut [u64], n: usize)
    requires { Ledger w.now × (n ≤ bookings w.now) × (length m.old ≡ bit_words) }
    ensures { members_in m.new ≡ sweep w.now n (members_in m.old) }
{
    for q in (0..n.div_ceil(bits::WORD_BITS)).rev() {
        sweep_word(w, m, q, bits::word_end(bits::WORD_BITS * q, n));
    }
}

// Gathers booking i's ancestry, where there was no member.
pub fn gather_ancestry(w: &[u16], m: &mut [u64], i: usize)
    requires { Ledger w.now × (i < bookings w.now) × (m.old ≡ no_bits) }
    ensures { members_in m.new ≡ ancestry w.now i }
{
    bits::set_bit(m, i);
    sweep_down(w, m, i + 1);
}

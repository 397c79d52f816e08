// A booking's parents among the members of an ancestry: eight words, in which bit j is that of booking j.
#![tactic(auto)]

ghost use Rattle.std.specs.Prelude.{◌≡◌, ◌/◌, ◌<◌, length};
ghost use Rattle.rules.specs.Layout.{bookings};
ghost use Rattle.rules.specs.Sound.{Ledger};
ghost use Rattle.rules.specs.Ancestry.{with_parents};
ghost use Rattle.bits.specs.Members.{bit_words, members_with};

use rules::layout;

// The members with the parents of j too. The word with j's own bit stands apart, and comes back: parents are often near.
pub fn gather_parents(w: &[u16], m: &mut [u64], own: u64, j: usize) -> u64
    requires { Ledger w.now × (j < bookings w.now) × (length m.old ≡ bit_words) }
    ensures { members_with m.new (j / 64) result ≡ with_parents w.now j (members_with m.old (j / 64) own) }
{
    let mut word = own;
    for parent in words::fields(w, j, layout::PARENTS, layout::MOST_PARENTS) {
        let p = usize::from(*parent);
        if p / bits::WORD_BITS == j / bits::WORD_BITS {
            word = bits::with_bit(word, p % bits::WORD_BITS);
        } else if layout::MOST_BOOKINGS <= p {
            // no booking's number: the place is unused, and so are those after it
            return word;
        } else {
            bits::set_bit(m, p);
        }
    }
    word
}

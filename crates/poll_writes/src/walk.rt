// A walk over the members of an ancestry, in rising number, each once: bits know no paths. What is done at a member is its parameter.
ghost use Rattle.std.specs.Prelude.{◌≡◌, List, ℕ, ◌≤◌, ◌<◌, length};
ghost use Rattle.loops.specs.Turns.{up_to};
ghost use Rattle.rules.specs.Layout.{most_bookings};
ghost use Rattle.bits.specs.Members.{bit_words, members_in};
ghost use Rattle.poll_writes.specs.Walk.{at_member};

// What the task does, at each member below n. A word of members is loaded once for its numbers.
pub(crate) fn walk<T: Task>(w: &mut [u16], members: &[u64], n: usize)
    requires fits { (n ≤ most_bookings) × (length members.now ≡ bit_words) }
    requires ready { (j : ℕ) → j < n → T.ready (up_to (at_member T.done (members_in members.now)) j w.old) j }
    ensures { w.new ≡ up_to (at_member T.done (members_in members.now)) n w.old }
{
    for q in 0..n.div_ceil(bits::WORD_BITS) {
        let word = members[q];
        let start = bits::WORD_BITS * q;
        for j in start..bits::word_end(start, n) {
            if bits::has_bit(word, j % bits::WORD_BITS) {
                T::act(w, j);
            }
        }
    }
}

// What is done at a member.
pub(crate) trait Task {
    // The words after it was done at a booking, and what that needs of the words before.
    ghost done: { ℕ → List ℕ → List ℕ };

    ghost ready: { List ℕ → ℕ → Type 0 };

    fn act(w: &mut [u16], j: usize)
        requires { ready w.old j }
        ensures { w.new ≡ done j w.old };
}

// The words of a newly opened ledger: with the genesis only, in the setting given.
#![tactic(auto)]

ghost use Rattle.std.specs.Prelude.{◌≡◌, length};
ghost use Rattle.rules.specs.Layout.{size};
ghost use Rattle.rules.specs.Open.{opened};

use rules::layout;
use terms::setting::Setting;

// The header and the genesis.
const FIRST_WORDS: usize = layout::HEADER_WORDS + layout::RECORD_WORDS;

// The last word of the header.
const SPARE: u16 = 0;

// How many bookings slot 0 holds.
const FIRST_HELD: usize = layout::SLOTS_START + layout::HELD;

// The genesis is accepted from the start.
const MARKED: u16 = 1;

// In the order of the words, so that each part becomes a run of wide stores.
pub fn write_open(w: &mut [u16], s: Setting)
    requires { length w.old ≡ size }
    ensures { w.new ≡ opened s }
{
    // n = 1, k to beta2, p = 0, the edition; then name 0, slot 0, no parents, polled without a chit, marked
    let first: [u16; FIRST_WORDS] = [
        1,
        s.k,
        s.a,
        s.beta1,
        s.beta2,
        0,
        s.edition,
        SPARE,
        0,
        0,
        0,
        0,
        0,
        layout::NONE,
        layout::NONE,
        layout::NONE,
        layout::NONE,
        1,
        0,
        0,
        MARKED,
    ];
    w[..FIRST_WORDS].copy_from_slice(&first);
    // the other records, and slot 0, whose preferred and last booking is the genesis
    w[FIRST_WORDS..FIRST_HELD].fill(0);
    w[FIRST_HELD] = 1;
    // the other slots are empty; word by word, since a copy for each entry takes four times as long
    for t in 1..layout::SLOTS {
        let at = layout::SLOTS_START + layout::SLOT_WORDS * t;
        w[at + layout::PREFERRED] = layout::NONE;
        w[at + layout::LAST] = layout::NONE;
        w[at + layout::COUNTER] = 0;
        w[at + layout::HELD] = 0;
    }
}

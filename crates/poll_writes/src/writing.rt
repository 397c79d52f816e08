// The poll is noted; on success the members of the ancestry are raised, and then each is settled; on failure their slots may be cleared.
ghost use Rattle.std.specs.Prelude.{◌≡◌, ◌<◌, length};
ghost use Rattle.rules.specs.Layout.{bookings};
ghost use Rattle.rules.specs.Sound.{Ledger};
ghost use Rattle.rules.specs.Poll.{noted, cleared, succeeded_with};
ghost use Rattle.bits.specs.Members.{bit_words, members_in};

use crate::{clearing, raising, settling};
use rules::layout;

// The states that a poll writes, as terms::vote reads them.
const FAILED: u16 = 1;

const CHIT: u16 = 2;

// The state becomes 1, and nothing else but p and the ordinal moves: a failure that clears nothing.
pub fn write_failure(w: &mut [u16], i: usize)
    requires { Ledger w.old × (i < bookings w.old) }
    ensures { w.new ≡ noted w.old i 1 }
{
    raising::note(w, i, FAILED);
}

// A failure that clears: the counters of the members' slots become 0 too.
pub fn write_cleared(w: &mut [u16], members: &[u64], i: usize)
    requires { Ledger w.old × (i < bookings w.old) × (length members.now ≡ bit_words) }
    ensures { w.new ≡ cleared (members_in members.now) (bookings w.old) (noted w.old i 1) }
{
    let n = words::wide(words::header(w, layout::BOOKINGS));
    write_failure(w, i);
    clearing::clear(w, members, n);
}

// The state becomes 2; every member is raised, and only then each is settled.
pub fn write_success(w: &mut [u16], members: &[u64], i: usize)
    requires { Ledger w.old × (i < bookings w.old) × (length members.now ≡ bit_words) }
    ensures { w.new ≡ succeeded_with (members_in members.now) w.old i }
{
    let n = words::wide(words::header(w, layout::BOOKINGS));
    raising::note(w, i, CHIT);
    raising::raise(w, members, n);
    settling::settle(w, members, n);
}

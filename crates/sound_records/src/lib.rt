// The pass over the records: each is looked at once, with what the lower ones left in scratch. A name is compared with lower ones only where the filter
// of names can't tell.
#![tactic(auto)]

mod ordinals;

ghost use Rattle.std.specs.Prelude.{◌≡◌, not, ◌<◌};
ghost use Rattle.loops.specs.Search.{first, found_below};
ghost use Rattle.rules.specs.Layout.{polls};
ghost use Rattle.rules.specs.IsSound.{chits, name_new, booking_good, record_good, record_rows, bad_record};
ghost use Rattle.bits.specs.Members.{no_bits};
ghost use Rattle.name_filter.specs.Names.{names_below};
ghost use Rattle.marked_slots.specs.MarkedSlots.{marks_below, mark_good_by};
ghost use Rattle.sound_rows.specs.HasBookings.{HasBookings};
ghost use Rattle.sound_records.specs.Ordinals.{ordinals_below, Reached};
ghost use Rattle.sound_records.specs.Rest.{is_clear};

use rules::layout;

// How many of the n records are in state 2.
pub fn chits(w: &[u16], n: usize) -> usize
    requires { HasBookings w.now n }
    ensures { result ≡ chits w.now }
{
    (0..n).map(|i| words::chit(w, i)).sum()
}

// A record below n other than the genesis, where seen has the ordinals of the lower ones, fresh tells that none of them has its name, and single that
// its mark is one that it may have.
fn booking_good(w: &[u16], i: usize, seen: &[u64], fresh: bool, single: bool) -> bool
    requires { Reached w.now i seen.now × (fresh ≡ name_new w.now i) × (single ≡ mark_good_by (marks_below w.now i) w.now i) }
    ensures { result ≡ booking_good w.now i }
{
    let s = words::wide_field(w, i, layout::SLOT);
    let o = words::wide_field(w, i, layout::ORDINAL);
    fresh
        & (1 <= s)
        & (s < layout::SLOTS)
        & sound_rows::record::parents_good(w, i)
        & sound_rows::record::state_good(w, i)
        & ((o == 0) | !bits::is_set(seen, o))
        & single
}

// A record below n, where limit is the number of records in state 2.
fn record_good(w: &[u16], i: usize, limit: usize, seen: &[u64], fresh: bool, single: bool) -> bool
    requires { Reached w.now i seen.now × (limit ≡ chits w.now) × (fresh ≡ name_new w.now i) × (single ≡ mark_good_by (marks_below w.now i) w.now i) }
    ensures { result ≡ record_good w.now i }
{
    let confidence = words::wide_field(w, i, layout::CONFIDENCE);
    if i == 0 {
        return sound_rows::record::genesis_good(w) & (confidence <= limit);
    }
    booking_good(w, i, seen, fresh, single) & (confidence <= limit)
}

// The lowest of the n records that breaks a rule, if any does. The ordinals of those before it are seen then. The filter, of no names at first, and the
// bits of marked slots, none of them set at first, are scratch.
fn bad_record(
    w: &[u16],
    n: usize,
    limit: usize,
    seen: &mut [u64],
    filter: &mut [u64],
    marked: &mut [u64],
) -> Option<usize>
    requires has_bookings { HasBookings w.now n × Reached w.now 0 seen.old × (limit ≡ chits w.now) }
    requires filter_value { (filter.old ≡ names_below w.now 0) × (marked.old ≡ no_bits) }
    ensures { (result ≡ found_below n (first (λ i. not (record_good w.now i)) n))
        × (seen.new ≡ ordinals_below w.now (first (λ i. not (record_good w.now i)) n)) }
{
    for i in 0..n {
        let fresh = name_filter::enter(w, i, filter);
        let single = marked_slots::mark_good(w, i, marked);
        if !record_good(w, i, limit, seen, fresh, single) {
            return Some(i);
        }
        let o = words::wide_field(w, i, layout::ORDINAL);
        bits::set_bit(seen, o);
        marked_slots::note_mark(w, i, marked);
    }
    None
}

// The lowest row from n on whose record is not all zero, if there is one.
fn stray_record(w: &[u16], n: usize) -> Option<usize>
    requires { HasBookings w.now n }
    ensures { result ≡ found_below record_rows (first (λ i. not (is_clear w.now i)) record_rows) }
{
    (n..layout::MOST_BOOKINGS).find(|i| !sound_rows::record::record_zero(w, *i))
}

// The lowest row that breaks a rule, if any does: a record below n, then n for a missing ordinal, then a record that is not all zero.
pub fn bad_row(w: &[u16], n: usize, limit: usize) -> Option<usize>
    requires { HasBookings w.now n × (polls w.now < n) × (limit ≡ chits w.now) }
    ensures { result ≡ found_below record_rows (bad_record w.now) }
{
    let p = words::wide(words::header(w, layout::POLLS));
    let mut seen = [0u64; bits::BIT_WORDS];
    let mut filter = [0u64; name_filter::FILTER_WORDS];
    let mut marked = [0u64; bits::BIT_WORDS];
    if let Some(row) = bad_record(w, n, limit, &mut seen, &mut filter, &mut marked) {
        return Some(row);
    }
    if !ordinals::all_seen(&seen, p) {
        return Some(n);
    }
    stray_record(w, n)
}

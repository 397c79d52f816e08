// Whether a file is good: its bytes are those of the day that they are read as, and each of that day's calls is taken. One pass over the bytes; only where the filter
// of names can't tell are the names before looked through.
#![tactic(auto)]

ghost use Rattle.std.specs.Prelude.{◌≡◌, not, ◌+◌, ◌≤◌, ◌<◌, length, drop};
ghost use Rattle.rules.specs.Layout.{most_bookings};
ghost use Rattle.bits.specs.Bits.{with_bit};
ghost use Rattle.bits.specs.Members.{no_bits};
ghost use Rattle.name_filter.specs.Names.{with_noted, names_noted};
ghost use Rattle.day_file.specs.Bytes.{booking_bytes};
ghost use Rattle.day_file.specs.Decode.{read_booking, read_poll};
ghost use Rattle.day_file.specs.Replay.{good_file};
ghost use Rattle.day_judge.specs.Parts.{HoldsMany, name_read, is_named, fields_good, parents_good, PollGood, PollsGood};
ghost use Rattle.day_judge.specs.Judged.{Decides, SettingJudged, RowJudged, BookingsJudged};

use day_file::bytes;
use rules::layout;
use terms::setting::Setting;

// Where the setting ends, if it is good. Four numbers are a setting of edition 0, and five one whose edition, the fifth, isn't 0.
fn setting_end(file: &[u8]) -> Option<usize>
    requires { 12 ≤ length file.now }
    ensures { SettingJudged file.now result }
{
    let k = day_get::number_at(file, bytes::K);
    let a = day_get::number_at(file, bytes::A);
    let beta1 = day_get::number_at(file, bytes::BETA1);
    let beta2 = day_get::number_at(file, bytes::BETA2);
    let (edition, end) = match day_get::number_at(file, 0) {
        bytes::FIRST_NUMBERS => (Setting::FIRST_EDITION, bytes::FIRST_END),
        bytes::LATER_NUMBERS => {
            let edition = day_get::number_at(file, bytes::EDITION);
            if edition == Setting::FIRST_EDITION {
                return None;
            }
            (edition, bytes::LATER_END)
        }
        _ => return None,
    };
    let setting = Setting {
        k,
        a,
        beta1,
        beta2,
        edition,
    };
    setting.is_good().then_some(end)
}

// ---- the sections behind the setting

// The rules of a booking's slot, of how many parents it has and of its own number.
fn fields_good(j: usize, slot: u16, count: usize) -> bool
    requires { j < 65536 }
    ensures { result ≡ fields_good j slot count }
{
    (1..layout::SLOTS).contains(&(slot as usize))
        & (1..=layout::MOST_PARENTS).contains(&count)
        & (j + 1 < layout::MOST_BOOKINGS)
}

// Each of so many parents is a lower number than the booking's own, j + 1, and none is named twice: the bits set are the numbers named before.
fn parents_good(parents: &[u16], count: usize, j: usize) -> bool
    requires { (count ≤ length parents.now) × (j + 1 < most_bookings) }
    ensures { result ≡ parents_good j parents.now count }
{
    let mut named = [0u64; bits::BIT_WORDS];
    for parent in &parents[..count] {
        let p = *parent as usize;
        if !((p < j + 1) & !bits::is_set(&named, p)) {
            return false;
        }
        bits::set_bit(&mut named, p);
    }
    true
}

// Where the booking ends that starts at the offset, after j others, if no bytes are missing and no rule is broken, but for that of its name.
fn row_end(sections: &[u8], at: usize, j: usize) -> Option<usize>
    requires { (at ≤ length sections.now) × (j < 65536) }
    ensures { RowJudged sections.now at j result }
{
    if sections.len() - at < bytes::PARENTS {
        return None;
    }
    let slot = day_get::number_at(sections, at + bytes::SLOT);
    let count = day_get::number_at(sections, at + bytes::PARENTS_COUNT) as usize;
    if !fields_good(j, slot, count) {
        return None;
    }
    let end = at + bytes::PARENTS + bytes::NUMBER_BYTES * count;
    if sections.len() < end {
        return None;
    }
    let parents = day_get::parents_at(sections, at + bytes::PARENTS, count);
    parents_good(&parents, count, j).then_some(end)
}

// No number up to j has the name: a look at the genesis, and at each of the first j bookings.
fn look_back(sections: &[u8], j: usize, name: u64) -> bool
    requires { HoldsMany booking_bytes read_booking j (drop 2 sections.now) × (2 ≤ length sections.now) }
    ensures { result ≡ not (is_named (drop 2 sections.now) (j + 1) name) }
{
    if name == 0 {
        return false;
    }
    let mut at = bytes::NUMBER_BYTES;
    for _ in 0..j {
        if day_get::name_at(sections, at) == name {
            return false;
        }
        let count = day_get::number_at(sections, at + bytes::PARENTS_COUNT) as usize;
        at = at + bytes::PARENTS + bytes::NUMBER_BYTES * count;
    }
    true
}

// Notes the name in the filter, which has those of the numbers up to j, and tells whether none of them has it.
fn enter_name(sections: &[u8], j: usize, name: u64, filter: &mut [u64]) -> bool
    requires { HoldsMany booking_bytes read_booking j (drop 2 sections.now) × (2 ≤ length sections.now) × (filter.old ≡ names_noted (name_read (drop 2 sections.now)) (j + 1)) }
    ensures { (result ≡ not (is_named (drop 2 sections.now) (j + 1) name)) × (filter.new ≡ with_noted name filter.old) }
{
    if name_filter::note(filter, name) {
        return look_back(sections, j, name);
    }
    true
}

// Where the bookings end, so many of them, if no bytes are missing and no rule is broken. The filter, of the genesis's name at first, is scratch.
fn bookings_end(sections: &[u8], count: usize, filter: &mut [u64]) -> Option<usize>
    requires { (2 ≤ length sections.now) × (count < 65536) × (filter.old ≡ names_noted (name_read (drop 2 sections.now)) 1) }
    ensures { BookingsJudged sections.now count result }
{
    let mut at = bytes::NUMBER_BYTES;
    for j in 0..count {
        let end = row_end(sections, at, j)?;
        let name = day_get::name_at(sections, at);
        if !enter_name(sections, j, name, filter) {
            return None;
        }
        at = end;
    }
    Some(at)
}

// Sets the bit of the poll's booking, and tells whether the poll is good: of a booking other than the genesis that was not polled before, and with an outcome of 0 or 1.
// A number past the bits sets none; it is above the most, so its poll isn't good.
fn enter_poll(sections: &[u8], at: usize, most: usize, seen: &mut [u64]) -> bool
    requires { at + 4 ≤ length sections.now }
    ensures { Decides result (PollGood most seen.old (drop at sections.now)) × (seen.new ≡ with_bit (read_poll (drop at sections.now)).value.booking seen.old) }
{
    let i = day_get::number_at(sections, at) as usize;
    let outcome = day_get::number_at(sections, at + bytes::NUMBER_BYTES);
    let good = (i != 0) & (i <= most) & !bits::is_set(seen, i) & (outcome <= 1);
    bits::set_bit(seen, i);
    good
}

// The polls stand from the offset to the end, and each is good. The bits of bookings seen, none at first, are scratch. By place: a poll is four bytes, and sets
// its booking's bit.
fn polls_good(sections: &[u8], at: usize, most: usize, seen: &mut [u64]) -> bool
    requires { (at ≤ length sections.now) × (most < most_bookings) × (seen.old ≡ no_bits) }
    ensures { Decides result (PollsGood most (drop at sections.now)) }
{
    if sections.len() - at < bytes::NUMBER_BYTES {
        return false;
    }
    let polls = day_get::number_at(sections, at) as usize;
    let start = at + bytes::NUMBER_BYTES;
    if sections.len() - start != bytes::POLL_BYTES * polls {
        return false;
    }
    for q in 0..polls {
        if !enter_poll(sections, start + bytes::POLL_BYTES * q, most, seen) {
            return false;
        }
    }
    true
}

// Whether the file is good.
pub fn is_good(file: &[u8]) -> bool
    ensures { result ≡ good_file file.now }
{
    if file.len() < bytes::LEAST_FILE {
        return false;
    }
    let Some(start) = setting_end(file) else {
        return false;
    };
    let sections = &file[start..];
    let count = day_get::number_at(sections, 0) as usize;
    let mut filter = [0u64; name_filter::FILTER_WORDS];
    name_filter::note(&mut filter, 0);
    let Some(at) = bookings_end(sections, count, &mut filter) else {
        return false;
    };
    let mut seen = [0u64; bits::BIT_WORDS];
    polls_good(sections, at, count, &mut seen)
}

// The fourth section of a second-form file: where it starts, and whether the file is good. The three before it are judged by `day_judge`, and the marks in one pass
// over their numbers and one over the bookings.
#![tactic(auto)]

ghost use Rattle.std.specs.Prelude.{◌≡◌, ◌+◌, ◌*◌, ◌<◌, ◌≤◌, length, get_or, drop};
ghost use Rattle.day_file.specs.Decode.{read_number, read_many, read_setting, read_booking, decode, behind_day, marks_in};
ghost use Rattle.day_file.specs.Marks.{slots_differ};
ghost use Rattle.day_judge.specs.Judged.{Decides};
ghost use Rattle.day_marks.specs.Judged.{NumbersGood, SlotsGood, SecondJudged};

use day_file::bytes;

// ---- where the parts of a file start. Bytes that are missing are read as zeros, as the law reads them

// The byte at an offset, 0 past the end.
fn byte_at(file: &[u8], at: usize) -> usize
    ensures { (result ≡ get_or file.now at 0) × (result < 256) }
{
    file.get(at).copied().unwrap_or(0) as usize
}

// The number of two bytes at an offset.
fn number_at(file: &[u8], at: usize) -> usize
    requires { at ≤ length file.now }
    ensures { (result ≡ (read_number (drop at file.now)).value) × (result < 65536) }
{
    byte_at(file, at) * 256 + byte_at(file, at + 1)
}

// The offset so many bytes on, or the end.
fn past(file: &[u8], at: usize, count: usize) -> usize
    requires { at ≤ length file.now }
    ensures { (result ≤ length file.now) × (drop result file.now ≡ drop count (drop at file.now)) }
{
    at.saturating_add(count).min(file.len())
}

// Where the bookings start, at their count.
fn bookings_start(file: &[u8]) -> usize
    ensures { (result ≤ length file.now) × (drop result file.now ≡ (read_setting file.now).rest) }
{
    let numbers = number_at(file, 0);
    past(file, 0, bytes::NUMBER_BYTES + bytes::NUMBER_BYTES * numbers)
}

// Where the booking ends that starts at the offset.
fn booking_end(file: &[u8], at: usize) -> usize
    requires { at ≤ length file.now }
    ensures { (result ≤ length file.now) × (drop result file.now ≡ (read_booking (drop at file.now)).rest) }
{
    let parents = number_at(file, past(file, at, bytes::PARENTS_COUNT));
    past(file, at, bytes::PARENTS + bytes::NUMBER_BYTES * parents)
}

// Where so many bookings end that start at the offset. Behind the last byte nothing is left to pass.
fn bookings_end(file: &[u8], start: usize, count: usize) -> usize
    requires { start ≤ length file.now }
    ensures { (result ≤ length file.now) × (drop result file.now ≡ (read_many read_booking count (drop start file.now)).rest) }
{
    let mut at = start;
    for _ in 0..count {
        if at == file.len() {
            return at;
        }
        at = booking_end(file, at);
    }
    at
}

// Where the three sections end, as their counts say.
fn day_end(file: &[u8]) -> usize
    ensures { (result ≤ length file.now) × (drop result file.now ≡ behind_day file.now) }
{
    let start = bookings_start(file);
    let count = number_at(file, start);
    let end = bookings_end(file, past(file, start, bytes::NUMBER_BYTES), count);
    let polls = number_at(file, end);
    past(file, end, bytes::NUMBER_BYTES + bytes::POLL_BYTES * polls)
}

// ---- whether the marks are good

// The number of mark a.
fn mark_at(section: &[u8], a: usize) -> usize
    requires { (a < length (marks_in section.now)) × (2 + 2 * length (marks_in section.now) ≤ length section.now) }
    ensures { result ≡ get_or (marks_in section.now) a 0 }
{
    number_at(section, bytes::NUMBER_BYTES + bytes::NUMBER_BYTES * a)
}

// The section holds its count and as many numbers, the first 0, each above the one before it and below n. A loop that carries the last: over pairs each
// would be read twice.
fn numbers_good(section: &[u8], n: usize) -> bool
    requires { 0 < n }
    ensures { Decides result (NumbersGood n section.now) }
{
    if section.len() < bytes::LEAST_MARKS {
        return false;
    }
    let count = number_at(section, 0);
    if section.len() - bytes::NUMBER_BYTES != bytes::NUMBER_BYTES * count {
        return false;
    }
    let mut last = mark_at(section, 0);
    if last != 0 {
        return false;
    }
    for a in 1..count {
        let m = mark_at(section, a);
        if !((last < m) & (m < n)) {
            return false;
        }
        last = m;
    }
    true
}

// No two of the marks are of one slot: the bits set are the slots of the marks before. The numbers rise as the bookings do, so the bookings are walked once,
// beside the marks: a loop by place.
fn slots_differ(file: &[u8], section: &[u8]) -> bool
    requires { NumbersGood (length (decode file.now).bookings + 1) section.now × SlotsGood (decode file.now).bookings }
    ensures { result ≡ slots_differ (decode file.now).bookings (marks_in section.now) }
{
    let mut at = past(file, bookings_start(file), bytes::NUMBER_BYTES);
    let mut walked = 0;
    let count = number_at(section, 0);
    let mut seen = [0u64; bits::BIT_WORDS];
    bits::set_bit(&mut seen, 0);
    for a in 1..count {
        let j = mark_at(section, a) - 1;
        at = bookings_end(file, at, j - walked);
        let slot = number_at(file, past(file, at, bytes::SLOT));
        if bits::is_set(&seen, slot) {
            return false;
        }
        bits::set_bit(&mut seen, slot);
        walked = j;
    }
    true
}

// Where the marks of a good second-form file start, behind a good first-form one, if the file is good.
pub fn judge(file: &[u8]) -> Option<usize>
    ensures { SecondJudged file.now result }
{
    let end = day_end(file);
    if !day_judge::is_good(&file[..end]) {
        return None;
    }
    let n = number_at(file, bookings_start(file)) + 1;
    let section = &file[end..];
    if !numbers_good(section, n) {
        return None;
    }
    if !slots_differ(file, section) {
        return None;
    }
    Some(end)
}

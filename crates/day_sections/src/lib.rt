// The sections of the day file, on words that are known to be a ledger: each is written to the front of what it is lent, and every byte past it stays.
// And how long the first form is.
#![tactic(auto)]

ghost use Rattle.std.specs.Prelude.{◌≡◌, ◌+◌, ◌*◌, ◌-◌, ◌<◌, ◌≤◌, length};
ghost use Rattle.std.proofs.lemmas.List.Edits.{sets};
ghost use Rattle.loops.specs.Fill.{from};
ghost use Rattle.loops.specs.Total.{total};
ghost use Rattle.terms.specs.Setting.{setting_numbers};
ghost use Rattle.rules.specs.Layout.{size, most_bookings, bookings, setting_in, polls};
ghost use Rattle.rules.specs.Sound.{Ledger};
ghost use Rattle.put.specs.Put.{Put};
ghost use Rattle.day_file.specs.Day.{parent_count, booking_at, poll_of, holder, marks_of};
ghost use Rattle.day_file.specs.Bytes.{setting_section, bookings_section, polls_section, marks_section, day_file};
ghost use Rattle.day_file.specs.InTurn.{edition_length, booking_length};

use day_file::bytes;
use rules::layout;

// How many numbers tell the setting: edition 0 is not written.
fn setting_numbers(w: &[u16]) -> u16
    requires { length w.now ≡ size }
    ensures { result ≡ length (setting_numbers (setting_in w.now)) }
{
    if words::header(w, layout::EDITION) == 0 {
        return bytes::FIRST_NUMBERS;
    }
    bytes::LATER_NUMBERS
}

// How many bytes booking i takes: 12 and its parents.
#[tactic(auto, using(day_file::proofs::Parents::parent_count_most))]
fn row_length(w: &[u16], i: usize) -> usize
    requires { (length w.now ≡ size) × (i < most_bookings) }
    ensures { result ≡ 12 + 2 * parent_count w.now i }
{
    12 + 2 * day_rows::parent_count(w, i)
}

// How many bytes the bookings take.
fn rows_length(w: &[u16]) -> usize
    requires { Ledger w.now }
    ensures { result ≡ total (booking_length w.now) (bookings w.now - 1) }
{
    let n = words::wide(words::header(w, layout::BOOKINGS));
    (1..n).map(|i| row_length(w, i)).sum()
}

// Three counts and the setting, 12 bytes and its parents for each booking, and 4 for each poll.
#[tactic(auto, using(day_file::proofs::Lengths::bookings_most_lem))]
pub fn file_length(w: &[u16]) -> usize
    requires { Ledger w.now }
    ensures { result ≡ length (day_file w.now) }
{
    let p = words::wide(words::header(w, layout::POLLS));
    let numbers = words::wide(setting_numbers(w));
    6 + 2 * numbers + rows_length(w) + 4 * p
}

// The first: how many numbers tell the setting, and each of them. The edition is the last.
pub fn put_setting(w: &[u16], out: &mut [u8]) -> usize
    requires { (length w.now ≡ size) × (10 + edition_length (setting_in w.now).edition ≤ length out.old) }
    ensures { Put out.old 0 (setting_section (setting_in w.now)) result out.new }
{
    let next = day_put::put_number(out, 0, setting_numbers(w));
    let end = day_put::put_numbers(out, next, words::setting(w));
    let edition = words::header(w, layout::EDITION);
    if edition == 0 {
        return end;
    }
    day_put::put_number(out, end, edition)
}

// The second: how many bookings there are beside the genesis, and each of them.
pub fn put_bookings(w: &[u16], out: &mut [u8]) -> usize
    requires { Ledger w.now × (2 + total (booking_length w.now) (bookings w.now - 1) ≤ length out.old) }
    ensures { Put out.old 0 (bookings_section (from (booking_at w.now) 1 (bookings w.now - 1))) result out.new }
{
    let n = words::header(w, layout::BOOKINGS);
    let mut next = day_put::put_number(out, 0, n - 1);
    for i in 1..n as usize {
        next = day_rows::put_booking(w, i, out, next);
    }
    next
}

// The third: how many polls there are, and each at the place of its ordinal, so one pass over the records is enough.
pub fn put_polls(w: &[u16], out: &mut [u8])
    requires { Ledger w.now × (2 + 4 * polls w.now ≤ length out.old) }
    ensures { out.new ≡ sets out.old 0 (polls_section (from (λ ordinal. poll_of w.now (holder w.now ordinal)) 1 (polls w.now))) }
{
    let n = words::wide(words::header(w, layout::BOOKINGS));
    day_put::put_number(out, 0, words::header(w, layout::POLLS));
    for i in 0..n {
        day_rows::put_poll(w, i, out);
    }
}

// How many bookings are marked.
pub fn mark_count(w: &[u16]) -> usize
    requires { (length w.now ≡ size) × (bookings w.now ≤ most_bookings) }
    ensures { result ≡ length (marks_of w.now) }
{
    let n = words::wide(words::header(w, layout::BOOKINGS));
    (0..n)
        .filter(|i| words::field(w, *i, layout::MARK) == 1)
        .count()
}

// The fourth, in the second form: how many bookings are marked, and their numbers.
pub fn put_marks(w: &[u16], out: &mut [u8])
    requires { (length w.now ≡ size) × (bookings w.now ≤ most_bookings) × (2 + 2 * length (marks_of w.now) ≤ length out.old) }
    ensures { out.new ≡ sets out.old 0 (marks_section (marks_of w.now)) }
{
    let n = words::wide(words::header(w, layout::BOOKINGS));
    let mut next = day_put::put_number(out, 0, mark_count(w) as u16);
    for i in 0..n {
        if words::field(w, i, layout::MARK) == 1 {
            next = day_put::put_number(out, next, i as u16);
        }
    }
}

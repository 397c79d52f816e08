// The marks of a second-form file and those of words: put in place of the words' own, and compared with them.
#![tactic(auto)]

ghost use Rattle.std.specs.Prelude.{◌≡◌, ◌≤◌, length};
ghost use Rattle.rules.specs.Layout.{size, most_bookings, bookings};
ghost use Rattle.day_file.specs.Day.{marks_of};
ghost use Rattle.day_file.specs.Marks.{unmarked, remarked};
ghost use Rattle.day_file.specs.Replay.{same_list};
ghost use Rattle.day_file.specs.Decode.{marks_in};
ghost use Rattle.day_remark.specs.Section.{MarksLaid};

use day_file::bytes;
use rules::layout;

// No booking has a mark.
fn clear(w: &mut [u16])
    requires { (length w.old ≡ size) × (bookings w.old ≤ most_bookings) }
    ensures { w.new ≡ unmarked w.old }
{
    let n = words::wide(words::header(w, layout::BOOKINGS));
    for i in 0..n {
        words::set_field(w, i, layout::MARK, 0);
    }
}

// The bookings whose numbers stand in the section have a mark, and no others. By place: a number is two bytes of it.
pub fn remark(w: &mut [u16], section: &[u8])
    requires { (length w.old ≡ size) × (bookings w.old ≤ most_bookings) × MarksLaid section.now }
    ensures { w.new ≡ remarked (marks_in section.now) w.old }
{
    clear(w);
    let count = day_get::number_at(section, 0) as usize;
    for a in 0..count {
        let i = day_get::number_at(section, bytes::NUMBER_BYTES + bytes::NUMBER_BYTES * a) as usize;
        words::set_field(w, i, layout::MARK, 1);
    }
}

// Whether the words' marks are those of the section: each mark of the words, in rising number, is the next of the section, and none is left. A loop: std has
// no law that two chains which are equal give equal lists.
pub fn has_same(w: &[u16], section: &[u8]) -> bool
    requires { (length w.now ≡ size) × (bookings w.now ≤ most_bookings) × MarksLaid section.now }
    ensures { result ≡ same_list (marks_of w.now) (marks_in section.now) }
{
    let n = words::wide(words::header(w, layout::BOOKINGS));
    let count = day_get::number_at(section, 0) as usize;
    let mut next = 0;
    for i in 0..n {
        if words::field(w, i, layout::MARK) == 1 {
            if next == count {
                return false;
            }
            let mark = day_get::number_at(
                section,
                bytes::NUMBER_BYTES + bytes::NUMBER_BYTES * next,
            ) as usize;
            if mark != i {
                return false;
            }
            next += 1;
        }
    }
    next == count
}

// The words of the day that a good file carries: the opening, then each booking, then each poll, in the file's order. The file is known to be good, so each of
// its calls is taken, and no refusal is judged again. That it is good is asked for: a type that says so would ask more of callers.
#![tactic(auto)]

ghost use Rattle.std.specs.Prelude.{◌≡◌, true, ◌+◌, ◌*◌, ◌≤◌, length, drop};
ghost use Rattle.rules.specs.Layout.{size};
ghost use Rattle.day_file.specs.Bytes.{polls_section};
ghost use Rattle.day_file.specs.Decode.{read_booking, read_poll, decode};
ghost use Rattle.day_file.specs.Replay.{replay, good_file};
ghost use Rattle.day_file.specs.InTurn.{rebooked, repolled};
ghost use Rattle.day_replay.specs.Rows.{behind_setting, Rebookable, Repollable, rebooked_once, repolled_once, Replayed};

use day_file::bytes;
use terms::setting::Setting;

// The opening, with the file's setting; the offset of the bookings. Four numbers are a setting of edition 0, and the fifth of five is the edition.
#[tactic(auto, using(crate::proofs::GoodFile::file_least))]
fn reopen(w: &mut [u16], file: &[u8]) -> usize
    requires { (length w.old ≡ size) × (good_file file.now ≡ true) }
    ensures { (w.new ≡ (rebooked (decode file.now) 0).words) × (drop result file.now ≡ behind_setting (decode file.now)) }
{
    let k = day_get::number_at(file, bytes::K);
    let a = day_get::number_at(file, bytes::A);
    let beta1 = day_get::number_at(file, bytes::BETA1);
    let beta2 = day_get::number_at(file, bytes::BETA2);
    let (edition, end) = if day_get::number_at(file, 0) == bytes::FIRST_NUMBERS {
        (Setting::FIRST_EDITION, bytes::FIRST_END)
    } else {
        (day_get::number_at(file, bytes::EDITION), bytes::LATER_END)
    };
    let setting = Setting {
        k,
        a,
        beta1,
        beta2,
        edition,
    };
    open_writes::write_open(w, setting);
    end
}

// Books what stands at an offset, and gives the offset behind it.
fn rebook(w: &mut [u16], file: &[u8], at: usize) -> usize
    requires { Rebookable w.old (read_booking (drop at file.now)).value × (at + (12 + 2 * length (read_booking (drop at file.now)).value.parents) ≤ length file.now) }
    ensures { Replayed rebooked_once (read_booking (drop at file.now)) w.old file.now result w.new }
{
    let name = day_get::name_at(file, at);
    let slot = day_get::number_at(file, at + bytes::SLOT);
    let count = words::wide(day_get::number_at(file, at + bytes::PARENTS_COUNT));
    let parents = day_get::parents_at(file, at + bytes::PARENTS, count);
    book_writes::write_booking(w, name, slot, &parents);
    at + bytes::PARENTS + bytes::NUMBER_BYTES * count
}

// Each booking, behind their count; the offset of the polls.
fn rebook_all(w: &mut [u16], file: &[u8], start: usize) -> usize
    requires { (w.old ≡ (rebooked (decode file.now) 0).words) × (good_file file.now ≡ true) × (drop start file.now ≡ behind_setting (decode file.now)) }
    ensures { (w.new ≡ (repolled (decode file.now) 0).words) × (drop result file.now ≡ polls_section (decode file.now).polls) }
{
    let count = words::wide(day_get::number_at(file, start));
    let mut at = start + bytes::NUMBER_BYTES;
    for _ in 0..count {
        at = rebook(w, file, at);
    }
    at
}

// Polls what stands at an offset, and gives the offset behind it.
fn repoll(w: &mut [u16], file: &[u8], at: usize) -> usize
    requires { Repollable w.old (read_poll (drop at file.now)).value × (at + 4 ≤ length file.now) }
    ensures { Replayed repolled_once (read_poll (drop at file.now)) w.old file.now result w.new }
{
    let i = words::wide(day_get::number_at(file, at));
    let outcome = day_get::number_at(file, at + bytes::NUMBER_BYTES);
    poll_outcome::write_outcome(w, i, outcome == 1);
    at + bytes::POLL_BYTES
}

// Each poll, behind their count.
fn repoll_all(w: &mut [u16], file: &[u8], at: usize)
    requires { (w.old ≡ (repolled (decode file.now) 0).words) × (good_file file.now ≡ true) × (drop at file.now ≡ polls_section (decode file.now).polls) }
    ensures { w.new ≡ (replay (decode file.now)).words }
{
    let polls = words::wide(day_get::number_at(file, at));
    let mut next = at + bytes::NUMBER_BYTES;
    for _ in 0..polls {
        next = repoll(w, file, next);
    }
}

// The words become those of the file's day: opened, then booked, then polled.
pub fn replay(w: &mut [u16], file: &[u8])
    requires { (length w.old ≡ size) × (good_file file.now ≡ true) }
    ensures { w.new ≡ (replay (decode file.now)).words }
{
    let start = reopen(w, file);
    let at = rebook_all(w, file, start);
    repoll_all(w, file, at);
}

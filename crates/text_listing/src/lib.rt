// The listing of a ledger, written into a lent buffer: the header, and then a row for each booking.
#![tactic(auto)]

ghost use Rattle.std.specs.Prelude.{◌≡◌, ◌+◌, ◌*◌, ◌<◌, ◌≤◌, length};
ghost use Rattle.rules.specs.Layout.{bookings};
ghost use Rattle.rules.specs.Sound.{Ledger};
ghost use Rattle.put.specs.Put.{Put};
ghost use Rattle.text_print.specs.Columns.{row_prints};
ghost use Rattle.text_listing.specs.Listed.{list_row, rows_print, list_prints, row_most, line_most};

use booking_reads::booking;
use rules::layout;

// The most bytes that a listing takes.
pub const LINE_MOST: usize = 64560;

// Number, slot, state, confidence, preferred, accepted.
#[tactic(auto, unfolding(crate::specs::Listed::list_row))]
fn row_of(w: &[u16], i: usize) -> [u64; 6]
    requires { Ledger w.now × (i < bookings w.now) }
    ensures { result ≡ list_row w.now i }
{
    let slot = booking::slot_of(w, i);
    let state = words::wide_field(w, i, layout::STATE);
    let confidence = u64::from(booking::confidence_of(w, i));
    let preferred = u64::from(preference::is_preferred(w, i));
    let accepted = u64::from(booking::is_accepted(w, i));
    [
        i as u64,
        slot as u64,
        state as u64,
        confidence,
        preferred,
        accepted,
    ]
}

// The row of booking i.
fn put_one(w: &[u16], i: usize, out: &mut [u8], at: usize) -> usize
    requires { Ledger w.now × (i < bookings w.now) × (at + row_most ≤ length out.old) }
    ensures { Put out.old at (row_prints (list_row w.now i)) result out.new }
{
    let row = row_of(w, i);
    text_print::columns::put_row(out, at, &row)
}

// The rows of all bookings in rising number.
fn put_rows(w: &[u16], out: &mut [u8], at: usize) -> usize
    requires { Ledger w.now × (at + row_most * bookings w.now ≤ length out.old) }
    ensures { Put out.old at (rows_print w.now (bookings w.now)) result out.new }
{
    let n = booking::how_many(w);
    let mut next = at;
    for i in 0..n {
        next = put_one(w, i, out, next);
    }
    next
}

// The header and the rows of all bookings.
pub fn put_list(w: &[u16], out: &mut [u8], at: usize) -> usize
    requires { Ledger w.now × (at + line_most ≤ length out.old) }
    ensures { Put out.old at (list_prints w.now) result out.new }
{
    let next = text_print::columns::put_list_header(out, at);
    put_rows(w, out, next)
}

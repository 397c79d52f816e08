// THE C FACE: the calls of the ledger as C has them, declared in include/filzhammer.h. What C and Rust link is crates/station_c, which makes these calls under
// their names. Each returns the call's number, writes its value through the last pointer, and leaves the call's words, and the call's bytes or cells in a buffer
// lent for them.
#![tactic(auto)]

ghost use Rattle.rules.specs.Calls.{open_call, book_call, poll_call, query_call, accepted_call, lead_call, confidence_call, size_call};
ghost use Rattle.terms.specs.declared.form.Form.TheVariants.{First, Second};
ghost use Rattle.day_file.specs.Calls.{write_file_call, read_file_call, move_file_call};
ghost use Rattle.name_index.specs.Calls.{index_build_call, index_enter_call, index_find_call};
ghost use Rattle.station.specs.Returned.{Returned, Handed, HandedOver};
ghost use Rattle.terms.specs.Setting.{setting_of};

use terms::answer;
use terms::answer::Answer;
use terms::form::Form;
use terms::setting::Setting;

// An answer as its number and its value.
fn tell(told: Answer, value: &mut i64) -> u32
    ensures { Returned told result value.new }
{
    *value = answer::value(told);
    answer::number(told)
}

// The words become a ledger with the genesis only. Refusals 1, 3.
pub fn filz_open(
    ws: &mut [u16],
    k: u16,
    a: u16,
    beta1: u16,
    beta2: u16,
    edition: u16,
    value: &mut i64,
) -> u32
    ensures { Handed (open_call ws.old (setting_of k a beta1 beta2 edition)) result value.new ws.new }
{
    let setting = Setting {
        k,
        a,
        beta1,
        beta2,
        edition,
    };
    tell(ledger::open(ws, setting), value)
}

// One booking more. Refusals 1, 2, 14, 15, 4, 5, 6, 7, 8, 9.
pub fn filz_book(ws: &mut [u16], name: u64, slot: u16, parents: &[u64], value: &mut i64) -> u32
    ensures { Handed (book_call ws.old name slot parents.now) result value.new ws.new }
{
    tell(ledger::book(ws, name, slot, parents), value)
}

// A completed poll. Refusals 1, 2, 14, 15, 10, 11, 12, 13.
pub fn filz_poll(ws: &mut [u16], name: u64, votes: &[u8], value: &mut i64) -> u32
    ensures { Handed (poll_call ws.old name votes.now) result value.new ws.new }
{
    tell(ledger::poll(ws, name, votes), value)
}

// 1 if the whole ancestry is preferred, else 0. Refusals 1, 2, 14, 15, 10, as for every reading below.
pub fn filz_query(ws: &[u16], name: u64, value: &mut i64) -> u32
    ensures { Returned (query_call ws.now name) result value.new }
{
    tell(ledger::query(ws, name), value)
}

// 1 if the booking is accepted, else 0.
pub fn filz_accepted(ws: &[u16], name: u64, value: &mut i64) -> u32
    ensures { Returned (accepted_call ws.now name) result value.new }
{
    tell(ledger::accepted(ws, name), value)
}

// The confidence, less the greatest among the slot's other bookings.
pub fn filz_lead(ws: &[u16], name: u64, value: &mut i64) -> u32
    ensures { Returned (lead_call ws.now name) result value.new }
{
    tell(ledger::lead(ws, name), value)
}

// The confidence itself.
pub fn filz_confidence(ws: &[u16], name: u64, value: &mut i64) -> u32
    ensures { Returned (confidence_call ws.now name) result value.new }
{
    tell(ledger::confidence(ws, name), value)
}

// How many members the ancestry has.
pub fn filz_size(ws: &[u16], name: u64, value: &mut i64) -> u32
    ensures { Returned (size_call ws.now name) result value.new }
{
    tell(ledger::size(ws, name), value)
}

// The day file, in its first form, at the front of the lent bytes; no word changes. Refusals 1, 2, 14, 15, 16.
pub fn filz_write_first(ws: &[u16], out: &mut [u8], value: &mut i64) -> u32
    ensures { HandedOver (write_file_call First ws.now out.old) result value.new ws.now out.new }
{
    tell(ledger::write_file(ws, Form::First, out), value)
}

// The same in its second form, with the marks.
pub fn filz_write_second(ws: &[u16], out: &mut [u8], value: &mut i64) -> u32
    ensures { HandedOver (write_file_call Second ws.now out.old) result value.new ws.now out.new }
{
    tell(ledger::write_file(ws, Form::Second, out), value)
}

// The words become the ledger that a day file, in its first form, carries, whatever they held; no byte changes. Refusals 1, 17.
pub fn filz_read_first(ws: &mut [u16], file: &[u8], value: &mut i64) -> u32
    ensures { Handed (read_file_call First ws.old file.now) result value.new ws.new }
{
    tell(ledger::read_file(ws, Form::First, file), value)
}

// The same of a day file in its second form, with its marks.
pub fn filz_read_second(ws: &mut [u16], file: &[u8], value: &mut i64) -> u32
    ensures { Handed (read_file_call Second ws.old file.now) result value.new ws.new }
{
    tell(ledger::read_file(ws, Form::Second, file), value)
}

// A day file in its first form, at the front of the lent output in its second, with the marks that its reading gives; no byte of the file changes.
// Refusals 17, 16.
pub fn filz_move_first(file: &[u8], out: &mut [u8], value: &mut i64) -> u32
    ensures { Handed (move_file_call First file.now out.old) result value.new out.new }
{
    tell(ledger::move_file(Form::First, file, out), value)
}

// A day file in its second form, at the front of the lent output in its first, without its marks; no byte of the file changes. Refusals 17, 19, 16.
pub fn filz_move_second(file: &[u8], out: &mut [u8], value: &mut i64) -> u32
    ensures { Handed (move_file_call Second file.now out.old) result value.new out.new }
{
    tell(ledger::move_file(Form::Second, file, out), value)
}

// The index becomes the empty one with every booking's number entered, whatever it held; no word changes. Refusals 1, 18, 2, 14, 15.
pub fn filz_index_build(ws: &[u16], index: &mut [u16], value: &mut i64) -> u32
    ensures { HandedOver (index_build_call ws.now index.old) result value.new ws.now index.new }
{
    tell(index::build(ws, index), value)
}

// The newest booking's number enters the index; no word changes. Refusals 1, 18, 2, 14, 15, 27.
pub fn filz_index_enter(ws: &[u16], index: &mut [u16], value: &mut i64) -> u32
    ensures { HandedOver (index_enter_call ws.now index.old) result value.new ws.now index.new }
{
    tell(index::enter(ws, index), value)
}

// The number of the booking with the name, as probing the index finds it; no word and no cell changes. Refusals 1, 18, 2, 14, 15, 10.
pub fn filz_index_find(ws: &[u16], index: &[u16], name: u64, value: &mut i64) -> u32
    ensures { Returned (index_find_call ws.now index.now name) result value.new }
{
    tell(index::find(ws, index, name), value)
}

// THE PUBLIC CALLS. Each takes any lent words and any arguments, needs no check first, and settles answer and all that it was lent by the law.
// The readings stand in `ledger_reads`, the move of a file in `day_move`, and are passed on.
#![tactic(auto)]

ghost use Rattle.std.specs.Prelude.{◌≡◌, length};
ghost use Rattle.rules.specs.Layout.{size};
ghost use Rattle.terms.specs.Answers.{outcome, handover};
ghost use Rattle.rules.specs.Calls.{open_call, book_call, poll_call};
ghost use Rattle.terms.specs.declared.form.Form.TheVariants.{First, Second};
ghost use Rattle.day_file.specs.Calls.{write_file_call, read_file_call};

pub use day_move::move_file;
pub use ledger_reads::{accepted, confidence, lead, query, size};
use rules::layout;
use terms::answer::{Answer, Refusal};
use terms::form::Form;
use terms::setting::Setting;

// The workspace becomes a ledger with the genesis only. Refusals 1, 3.
pub fn open(w: &mut [u16], s: Setting) -> Answer
    ensures { outcome result w.new ≡ open_call w.old s }
{
    if w.len() != layout::SIZE {
        return Err(Refusal::WrongLength);
    }
    if s.is_good() {
        open_writes::write_open(w, s);
        Ok(0)
    } else {
        Err(Refusal::BadSetting)
    }
}

// One booking more. Refusals 1, 2, 14, 15, 4, 5, 6, 7, 8, 9.
pub fn book(w: &mut [u16], name: u64, slot: u16, parents: &[u64]) -> Answer
    ensures { outcome result w.new ≡ book_call w.old name slot parents.now }
{
    ledger_test::test(w)?;
    known_book::book(w, name, slot, parents)
}

// A completed poll. Refusals 1, 2, 14, 15, 10, 11, 12, 13.
pub fn poll(w: &mut [u16], name: u64, votes: &[u8]) -> Answer
    ensures { outcome result w.new ≡ poll_call w.old name votes.now }
{
    ledger_test::test(w)?;
    known_poll::poll(w, name, votes)
}

// The day file, in the form that is named, to the front of a lent buffer. No word changes. Refusals 1, 2, 14, 15, 16.
pub fn write_file(w: &[u16], form: Form, out: &mut [u8]) -> Answer
    ensures { handover result w.now out.new ≡ write_file_call form w.now out.old }
{
    ledger_test::test(w)?;
    known_write::write(w, form, out)
}

// The ledger that a first-form file carries, into words of the right length. The file is judged before a word is touched.
fn take_first(w: &mut [u16], file: &[u8]) -> Answer
    requires { length w.old ≡ size }
    ensures { outcome result w.new ≡ read_file_call First w.old file.now }
{
    if !day_judge::is_good(file) {
        return Err(Refusal::BadFile);
    }
    day_replay::replay(w, file);
    Ok(0)
}

// The same of a second-form file: what its first three sections carry, with its marks instead.
fn take_second(w: &mut [u16], file: &[u8]) -> Answer
    requires { length w.old ≡ size }
    ensures { outcome result w.new ≡ read_file_call Second w.old file.now }
{
    let Some(end) = day_marks::judge(file) else {
        return Err(Refusal::BadFile);
    };
    day_replay::replay(w, &file[..end]);
    day_remark::remark(w, &file[end..]);
    Ok(0)
}

// The words become the ledger that a day file, in the form that is named, carries. What they held before is not looked at. Each form has
// its own function, so a match and no table. Refusals 1, 17.
pub fn read_file(w: &mut [u16], form: Form, file: &[u8]) -> Answer
    ensures { outcome result w.new ≡ read_file_call form w.old file.now }
{
    if w.len() != layout::SIZE {
        return Err(Refusal::WrongLength);
    }
    match form {
        Form::First => take_first(w, file),
        Form::Second => take_second(w, file),
    }
}

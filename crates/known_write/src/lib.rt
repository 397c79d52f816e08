// The day file of words that are known to be a ledger, in either form: refusals 1, 2, 14 and 15 are judged above, once, and 16 here, before a byte is written.
#![tactic(auto)]

ghost use Rattle.std.specs.Prelude.{◌≡◌, ◌≤◌, length};
ghost use Rattle.terms.specs.declared.form.Form.TheVariants.{First, Second};
ghost use Rattle.terms.specs.Answers.{handover};
ghost use Rattle.rules.specs.Sound.{Ledger};
ghost use Rattle.day_file.specs.Bytes.{day_file};
ghost use Rattle.day_file.specs.Calls.{laid, write_file_call};

use terms::answer::{Answer, Refusal};
use terms::form::Form;

// The three sections of the first form, each in what remains of the buffer behind the one before it.
fn put_day(w: &[u16], out: &mut [u8])
    requires { Ledger w.now × (length (day_file w.now) ≤ length out.old) }
    ensures { out.new ≡ laid (day_file w.now) out.old }
{
    let second = day_sections::put_setting(w, out);
    let third = second + day_sections::put_bookings(w, &mut out[second..]);
    day_sections::put_polls(w, &mut out[third..]);
}

pub fn write_first(w: &[u16], out: &mut [u8]) -> Answer
    requires { Ledger w.now }
    ensures { handover result w.now out.new ≡ write_file_call First w.now out.old }
{
    let length = day_sections::file_length(w);
    if out.len() < length {
        return Err(Refusal::ShortBuffer);
    }
    put_day(w, out);
    Ok(length as i64)
}

// The marks stand behind the first form.
pub fn write_second(w: &[u16], out: &mut [u8]) -> Answer
    requires { Ledger w.now }
    ensures { handover result w.now out.new ≡ write_file_call Second w.now out.old }
{
    let day = day_sections::file_length(w);
    let length = day + (2 + 2 * day_sections::mark_count(w));
    if out.len() < length {
        return Err(Refusal::ShortBuffer);
    }
    put_day(w, out);
    day_sections::put_marks(w, &mut out[day..]);
    Ok(length as i64)
}

// Each form has its own function, so a match and no table.
pub fn write(w: &[u16], form: Form, out: &mut [u8]) -> Answer
    requires { Ledger w.now }
    ensures { handover result w.now out.new ≡ write_file_call form w.now out.old }
{
    match form {
        Form::First => write_first(w, out),
        Form::Second => write_second(w, out),
    }
}

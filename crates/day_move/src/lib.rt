// A day file moved to the other form, between two lent buffers. The input is judged before a byte of the output is touched, and read into words of the move's own:
// what is written is the file of the ledger that it tells of, in the other form.
#![tactic(auto)]

ghost use Rattle.std.specs.Prelude.{◌≡◌};
ghost use Rattle.terms.specs.declared.form.Form.TheVariants.{First, Second};
ghost use Rattle.terms.specs.Answers.{outcome};
ghost use Rattle.day_file.specs.Calls.{move_file_call};

use rules::layout;
use terms::answer::{Answer, Refusal};
use terms::form::Form;

// The marks that its reading gives stand behind it. Refusals 17, 16.
fn move_first(file: &[u8], out: &mut [u8]) -> Answer
    ensures { outcome result out.new ≡ move_file_call First file.now out.old }
{
    if !day_judge::is_good(file) {
        return Err(Refusal::BadFile);
    }
    let mut w = [0u16; layout::SIZE];
    day_replay::replay(&mut w, file);
    known_write::write_second(&w, out)
}

// Its marks are dropped, where reading it as a first form gives them again. Refusals 17, 19, 16.
fn move_second(file: &[u8], out: &mut [u8]) -> Answer
    ensures { outcome result out.new ≡ move_file_call Second file.now out.old }
{
    let Some(end) = day_marks::judge(file) else {
        return Err(Refusal::BadFile);
    };
    let mut w = [0u16; layout::SIZE];
    day_replay::replay(&mut w, &file[..end]);
    if !day_remark::has_same(&w, &file[end..]) {
        return Err(Refusal::OtherMarks);
    }
    known_write::write_first(&w, out)
}

// Each form has its own function, so a match and no table.
// The form is that of the file that is read. Refusals 17, 19, 16.
pub fn move_file(form: Form, file: &[u8], out: &mut [u8]) -> Answer
    ensures { outcome result out.new ≡ move_file_call form file.now out.old }
{
    match form {
        Form::First => move_first(file, out),
        Form::Second => move_second(file, out),
    }
}

// What the text program prints, written into a lent buffer from an offset on; the answer is the offset after it.
// The caller sees to the room: specs/Print.antt has what each prints and how long it can be.
#![tactic(auto)]

pub mod columns;

ghost use Rattle.std.specs.Prelude.{◌+◌, ◌≤◌, length};
ghost use Rattle.put.specs.Put.{Put, Room};
ghost use Rattle.text_print.specs.Print.{
  answer_most,
  bad_line,
  call_prints,
  reading_prints,
  refusal_prints,
  too_long,
};

use terms::answer::{Answer, Refusal};
use text_put::{put_number, put_signed, put_text};

// A line that is no command.
pub fn put_bad_line(out: &mut [u8], at: usize) -> usize
    requires { Room out.old at bad_line }
    ensures { Put out.old at bad_line result out.new }
{
    put_text(out, at, b"bad line\n")
}

// An input that is longer than what is read.
pub fn put_too_long(out: &mut [u8], at: usize) -> usize
    requires { Room out.old at too_long }
    ensures { Put out.old at too_long result out.new }
{
    put_text(out, at, b"input too long\n")
}

// A refusal and its number.
fn put_refusal(out: &mut [u8], at: usize, refusal: Refusal) -> usize
    requires { at + answer_most ≤ length out.old }
    ensures { Put out.old at (refusal_prints refusal) result out.new }
{
    let number = put_text(out, at, b"refused ");
    let after = put_number(out, number, refusal.number() as u64);
    out[after] = b'\n';
    after + 1
}

// What a reading's answer prints: its value, or its refusal.
pub fn put_reading(out: &mut [u8], at: usize, answer: Answer) -> usize
    requires { at + answer_most ≤ length out.old }
    ensures { Put out.old at (reading_prints answer) result out.new }
{
    match answer {
        Ok(value) => {
            let end = put_signed(out, at, value);
            out[end] = b'\n';
            end + 1
        }
        Err(refusal) => put_refusal(out, at, refusal),
    }
}

// What any other call's answer prints: nothing, or its refusal.
pub fn put_call(out: &mut [u8], at: usize, answer: Answer) -> usize
    requires { at + answer_most ≤ length out.old }
    ensures { Put out.old at (call_prints answer) result out.new }
{
    match answer {
        Ok(_) => at,
        Err(r) => put_refusal(out, at, r),
    }
}

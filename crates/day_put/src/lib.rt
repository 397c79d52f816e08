// Numbers and names into a lent buffer, high byte first: from an offset on, and the offset after them. Every other byte stays.
#![tactic(auto)]

ghost use Rattle.std.specs.Prelude.{◌+◌, ◌*◌, ◌≤◌, length};
ghost use Rattle.put.specs.Put.{Put};
ghost use Rattle.day_file.specs.Bytes.{number_bytes, name_bytes, joined};

// A number in two bytes.
pub fn put_number(out: &mut [u8], at: usize, v: u16) -> usize
    requires { at + 2 ≤ length out.old }
    ensures { Put out.old at (number_bytes v) result out.new }
{
    let end = at + 2;
    out[at..end].copy_from_slice(&v.to_be_bytes());
    end
}

// A name in eight bytes.
pub fn put_name(out: &mut [u8], at: usize, name: u64) -> usize
    requires { at + 8 ≤ length out.old }
    ensures { Put out.old at (name_bytes name) result out.new }
{
    let end = at + 8;
    out[at..end].copy_from_slice(&name.to_be_bytes());
    end
}

// Several numbers, one after the other.
pub fn put_numbers(out: &mut [u8], at: usize, numbers: &[u16]) -> usize
    requires { at + 2 * length numbers.now ≤ length out.old }
    ensures { Put out.old at (joined number_bytes numbers.now) result out.new }
{
    let mut next = at;
    for number in numbers {
        next = put_number(out, next, *number);
    }
    next
}

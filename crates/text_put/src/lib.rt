// Writers into a lent buffer: bytes from an offset on, and the offset after them. Every other byte stays.
// A buffer and an offset go from writer to writer, as the public contracts have it; there is no heap, and so no String.
#![tactic(auto)]

ghost use Rattle.put.specs.Put.{Put, Room};
ghost use Rattle.text_put.specs.Decimal.{decimal, signed};

// A text.
pub fn put_text(out: &mut [u8], at: usize, text: &[u8]) -> usize
    requires { Room out.old at text.now }
    ensures { Put out.old at text.now result out.new }
{
    out[at..at + text.len()].copy_from_slice(text);
    at + text.len()
}

// A number in decimal: the digits of its tenth, and then the last one. By hand, for bytes at an offset: `Display` wants a writer.
pub fn put_number(out: &mut [u8], at: usize, v: u64) -> usize
    requires { Room out.old at (decimal v) }
    ensures { Put out.old at (decimal v) result out.new }
{
    if v < 10 {
        out[at] = 48 + v as u8;
        return at + 1;
    }
    let next = put_number(out, at, v / 10);
    out[next] = 48 + (v % 10) as u8;
    next + 1
}

// A minus sign where the number is below zero, and then its size.
pub fn put_signed(out: &mut [u8], at: usize, v: i64) -> usize
    requires { Room out.old at (signed v) }
    ensures { Put out.old at (signed v) result out.new }
{
    let size = v.unsigned_abs();
    if v < 0 {
        out[at] = b'-';
        return put_number(out, at + 1, size);
    }
    put_number(out, at, size)
}

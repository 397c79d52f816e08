// The listing's first line and its rows, written into a lent buffer from an offset on; the answer is the offset after it.
// The caller sees to the room: specs/Columns.antt has what each prints and how long it can be.
ghost use Rattle.std.specs.Prelude.{◌≡◌, ◌+◌, ◌*◌, ◌≤◌, length};
ghost use Rattle.put.specs.Put.{Put, Room};
ghost use Rattle.text_print.specs.Columns.{
  end_of,
  field_prints,
  field_most,
  list_header,
  row_prints,
};

use text_put::{put_number, put_text};

// The first line of the listing.
pub fn put_list_header(out: &mut [u8], at: usize) -> usize
    requires { Room out.old at list_header }
    ensures { Put out.old at list_header result out.new }
{
    put_text(
        out,
        at,
        b"number slot state confidence preferred accepted\n",
    )
}

// What follows a field, by the fields after it.
fn end_of(rest: &[u64]) -> u8
    ensures { result ≡ end_of rest.now }
{
    if rest.is_empty() { b'\n' } else { b' ' }
}

// A number and the byte after it.
fn put_field(out: &mut [u8], at: usize, v: u64, after: u8) -> usize
    requires { at + field_most ≤ length out.old }
    ensures { Put out.old at (field_prints v after) result out.new }
{
    let end = put_number(out, at, v);
    out[end] = after;
    end + 1
}

// A row of the listing: its fields, with one space between.
pub fn put_row(out: &mut [u8], at: usize, fields: &[u64]) -> usize
    requires { at + field_most * length fields.now ≤ length out.old }
    ensures { Put out.old at (row_prints fields.now) result out.new }
{
    let mut next = at;
    let mut fields = fields;
    while let Some((field, rest)) = fields.split_first() {
        next = put_field(out, next, *field, end_of(rest));
        fields = rest;
    }
    next
}

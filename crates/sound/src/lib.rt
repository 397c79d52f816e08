// Is a workspace sound, and if not, where: its header, its records, and then a pass over its slot entries.
#![tactic(auto)]

mod entries;
mod held;

ghost use Rattle.std.specs.Prelude.{◌≡◌, length};
ghost use Rattle.rules.specs.Layout.{size};
ghost use Rattle.rules.specs.Calls.{damage_of};

use rules::layout;
use terms::answer::Refusal;

// The first damage of a workspace of the right length: in the header, or the lowest record row, or the lowest slot, that breaks a rule.
pub fn damage(w: &[u16]) -> Result<(), Refusal>
    requires { length w.now ≡ size }
    ensures { result ≡ damage_of w.now }
{
    if !sound_rows::header::header_good(w) {
        return Err(Refusal::DamagedHeader);
    }
    let n = words::wide(words::header(w, layout::BOOKINGS));
    let limit = sound_records::chits(w, n);
    if let Some(row) = sound_records::bad_row(w, n, limit) {
        return Err(Refusal::DamagedRecord(row as u16));
    }
    if let Some(slot) = entries::bad_slot(w, n, limit) {
        return Err(Refusal::DamagedSlot(slot as u16));
    }
    Ok(())
}

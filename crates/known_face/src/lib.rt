// Lookups on words that are known to be a ledger, under C names: for the benchmark, which measures what they cost without the test of soundness in front. They
// ask for a ledger, so they are no calls for hosts, and the static library that hosts link does not have them.
#![tactic(auto)]

ghost use Rattle.std.specs.Prelude.{◌≡◌, length};
ghost use Rattle.terms.specs.Answers.{number, value as value_of};
ghost use Rattle.rules.specs.Calls.{confidence_call};
ghost use Rattle.rules.specs.Sound.{Ledger};
ghost use Rattle.name_index.specs.Index.{cells};
ghost use Rattle.name_index.specs.Calls.{index_find_call};

use terms::answer;
use terms::answer::Reading;

// By an index.
#[unsafe(no_mangle)]
pub extern "C" fn filz_known_find(ws: &[u16], index: &[u16], name: u64, value: &mut i64) -> u32
    requires { Ledger ws.now × (length index.now ≡ cells) }
    ensures { (result ≡ number (index_find_call ws.now index.now name)) × (value.new ≡ value_of (index_find_call ws.now index.now name)) }
{
    let told = known_index::find(ws, index, name);
    *value = answer::value(told);
    answer::number(told)
}

// By the plain search, for one word of the booking.
#[unsafe(no_mangle)]
pub extern "C" fn filz_known_confidence(ws: &[u16], name: u64, value: &mut i64) -> u32
    requires { Ledger ws.now }
    ensures { (result ≡ number (confidence_call ws.now name)) × (value.new ≡ value_of (confidence_call ws.now name)) }
{
    let told = known_read::ask(ws, name, Reading::Confidence);
    *value = answer::value(told);
    answer::number(told)
}

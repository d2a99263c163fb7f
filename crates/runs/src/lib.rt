// A whole run of calls, with what the ledger showed before each and what each was answered.

#![tactic(auto)]

ghost use Rattle.std.specs.Prelude.{◌≡◌, min, length};
ghost use Rattle.rules.specs.Year.{blank_year};
ghost use Rattle.registry.specs.Model.{year_in};
ghost use Rattle.runs.specs.Runs.{history, Ran};

use ledger::Ledger;
use registry::Book;
use rules::{Call, RegistryFault, Reply};

// The posts left that the ledger showed before a call, and the call's answer.
#[derive(Clone, Copy, PartialEq, Eq, Debug)]
pub struct Outcome {
    pub shown: u16,
    pub answer: Result<Reply, RegistryFault>,
}

// Makes the calls in turn, as far as there are places for their outcomes, and gives their number. The host
// lends these places, since nothing is allocated: so calls and outcomes are two slices. The
// book and its ledger are two: a host may ask its ledger between runs. From a new book on, over any ledger
// in any state, the law holds after every call, and what the book and the ledger then hold is what this
// history says.
pub fn run<L: Ledger>(
    book: &mut Book<'_>,
    ledger: &mut L,
    calls: &[Call],
    outcomes: &mut [Outcome],
) -> usize
    ensures bound { result ≡ min (length calls.now) (length outcomes.old) }
    ensures law { year_in book.old ≡ blank_year → Ran (L.Ledger.holding ledger.old) (history result calls.now outcomes.new) (year_in book.new) (L.Ledger.holding ledger.new) (L.Ledger.posts ledger.new) }
{
    let count = calls.len().min(outcomes.len());
    // By index: after `calls.iter().zip(outcomes.iter_mut())`, which was tried, a proof knows no outcome.
    for (i, call) in calls[..count].iter().enumerate() {
        let shown = ledger.left();
        let answer = book.call(ledger, *call);
        outcomes[i] = Outcome { shown, answer };
    }
    count
}

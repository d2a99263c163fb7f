// Loading steps into the series of an account.
ghost use Rattle.std.specs.Prelude.{◌≡◌, ◌+◌, ◌≤◌, ◌∷◌, ◌==◌, IfOk, if◌then◌else◌, Ok, Err, unsigned_abs};
ghost use Rattle.ledger.specs.Rules.{known};
ghost use Rattle.curves.specs.Ranges.{within, judged};
ghost use Rattle.curves.specs.Obligations.{sort_at, readings_fine, most_added};
ghost use Rattle.rules.specs.Facts.{longer, grown_by};
ghost use Rattle.rules.specs.Judgement.{steps_loaded};
ghost use Rattle.accounts.specs.Bounds.{Bounded};
ghost use Rattle.accounts.specs.Additions.{addition_of};

use curves::{OutOfRange, Sort, Step, added, judge};
use ledger::is_account;
use rules::{Account, RegistryFault, Series};

// What a step adds, and the sort of the series that it adds it to. Its bound stands in the clauses, not in the type:
// so the contract of `load_in_range` equates its whole answer.
#[derive(Clone, Copy, PartialEq, Eq, Debug)]
pub struct Addition {
    pub sort: Sort,
    pub value: i64,
}

// What a step adds, if every field of its load is in range: the account, the sort, the step's number
// from 1 to n, then the readings.
pub fn load_in_range(n: u16, account: u8, number: u16, step: Step) -> Result<Addition, OutOfRange>
    ensures answer { result ≡ judged 1 (known account ∷ within 1 2 step.sort ∷ within 1 n number ∷ readings_fine (sort_at step.sort) step) (addition_of step) }
    ensures bound { IfOk result (λ addition. unsigned_abs addition.value ≤ most_added) }
{
    judge(1, is_account(account))?;
    let sort = Sort::try_from(step.sort).map_err(|fault| fault.later(1))?;
    judge(3, (1..=n).contains(&number))?;
    let value = added(step).map_err(|fault| fault.later(2))?;
    Ok(Addition { sort, value })
}

// The account with one step more, if it is the next of its sort. The bounds are no part of `Series`: the
// judgement's definitions write such values down, and could not with a proof in them.
pub fn with_step(
    account: Account,
    number: u16,
    addition: Addition,
) -> Result<Account, RegistryFault>
    requires profiled { Bounded 400 account.profiled }
    requires losses { Bounded 400 account.losses }
    requires number { number ≤ 400 }
    requires small { unsigned_abs addition.value ≤ most_added }
    ensures { result ≡ (if number == steps_loaded addition.sort account + 1 then Ok (grown_by addition.sort addition.value account) else Err (RegistryFault.OutOfTurn 3)) }
{
    // Two arms for two fields: a `&mut` picked by a match was tried, and the proof did not close.
    match addition.sort {
        Sort::Profiled => Ok(Account {
            profiled: longer(account.profiled, number, addition.value)?,
            ..account
        }),
        Sort::Losses => Ok(Account {
            losses: longer(account.losses, number, addition.value)?,
            ..account
        }),
    }
}

// The series with one step more, if it is the next.
fn longer(series: Series, number: u16, value: i64) -> Result<Series, RegistryFault>
    requires bounded { Bounded 400 series }
    requires number { number ≤ 400 }
    requires small { unsigned_abs value ≤ most_added }
    ensures { result ≡ (if number == series.loaded + 1 then Ok (longer series value) else Err (RegistryFault.OutOfTurn 3)) }
{
    if number != series.loaded + 1 {
        return Err(RegistryFault::OutOfTurn { field: 3 });
    }
    Ok(Series {
        loaded: number,
        sum: series.sum + value,
    })
}

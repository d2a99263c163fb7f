// The ranges of the fields of the calls. A refusal names the first field that is out of its range.
ghost use Rattle.std.specs.Prelude.{◌≡◌, [], ◌∷◌};
ghost use Rattle.std.specs.Result.{result_map_both};
ghost use Rattle.ledger.specs.Rules.{known, limit};
ghost use Rattle.curves.specs.Ranges.{within, judged};
ghost use Rattle.curves.specs.Levels.{method_at, supply_fine};
ghost use Rattle.rules.specs.Judgement.{number_fine};
ghost use Rattle.registry.specs.Ranges.{prices_judged};

use curves::{Method, OutOfRange, Supply, judge};
use ledger::{LIMIT, is_account};
use settlement::sheet::{HIGHEST_PRICE, Prices};

// An account's number, in the field at `field`.
pub fn account_in_range(account: u8, field: u8) -> Result<(), OutOfRange>
    ensures { result ≡ judged field (known account ∷ []) tt }
{
    judge(field, is_account(account))
}

// The number of an entity or of an offer, which stands first.
pub fn number_in_range(number: u16) -> Result<(), OutOfRange>
    ensures { result ≡ judged 1 (number_fine number ∷ []) tt }
{
    judge(1, 1 <= number)
}

// The method that is asked for, if every field of a certification is in range: it comes as a number,
// since it is judged third.
pub fn certify_in_range(
    entity: u16,
    account: u8,
    method: u8,
    supply: Supply,
) -> Result<Method, OutOfRange>
    ensures { result ≡ judged 1 (number_fine entity ∷ known account ∷ within 1 4 method ∷ supply_fine supply) (method_at method) }
{
    number_in_range(entity)?;
    account_in_range(account, 2)?;
    let method = Method::try_from(method).map_err(|fault| fault.later(2))?;
    supply.in_range().map_err(|fault| fault.later(2))?;
    Ok(method)
}

pub fn rebalance_in_range(entity: u16, supply: Supply) -> Result<(), OutOfRange>
    ensures { result ≡ judged 1 (number_fine entity ∷ supply_fine supply) tt }
{
    number_in_range(entity)?;
    supply.in_range()
}

pub fn offer_in_range(offer: u16, seller: u8, buyer: u8, amount: u32) -> Result<(), OutOfRange>
    ensures { result ≡ judged 1 (number_fine offer ∷ known seller ∷ known buyer ∷ within 1 limit amount ∷ []) tt }
{
    number_in_range(offer)?;
    account_in_range(seller, 2)?;
    account_in_range(buyer, 3)?;
    judge(4, (1..=LIMIT).contains(&amount))
}

// An offer and the account that ends it.
pub fn ending_in_range(offer: u16, account: u8) -> Result<(), OutOfRange>
    ensures { result ≡ judged 1 (number_fine offer ∷ known account ∷ []) tt }
{
    number_in_range(offer)?;
    account_in_range(account, 2)
}

// Not by `Prices::new`, whose refusal is the sheet's.
pub fn prices_in_range(shortage: u32, surplus: u32) -> Result<Prices, OutOfRange>
    ensures { result_map_both (λ prices. (prices.shortage, prices.surplus)) (λ fault. fault) result ≡ prices_judged shortage surplus }
{
    judge(1, shortage <= HIGHEST_PRICE)?;
    judge(2, surplus <= HIGHEST_PRICE)?;
    Ok(Prices { shortage, surplus })
}

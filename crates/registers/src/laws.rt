// The laws of a register. Each function does nothing: its contract is the law.
ghost use Rattle.registers.specs.Laws.{FindsExactlyItsRecords, GainsExactlyTheNewRecord, LosesExactlyTheRemovedRecord, ExchangesExactlyTheReplacedRecord, ChangesOneNumberOnly, AddsUpAfterEachChange, HasOneOrderOnly, HasAPlaceForEachNumber, UsesAFreedPlaceAgain};

use crate::Keyed;

pub fn finds_exactly_its_records<R: Keyed>()
    ensures { FindsExactlyItsRecords R.key }
{}

pub fn gains_exactly_the_new_record<R: Keyed>()
    ensures { GainsExactlyTheNewRecord R.key }
{}

pub fn loses_exactly_the_removed_record<R: Keyed>()
    ensures { LosesExactlyTheRemovedRecord R.key }
{}

pub fn exchanges_exactly_the_replaced_record<R: Keyed>()
    ensures { ExchangesExactlyTheReplacedRecord R.key }
{}

pub fn changes_one_number_only<R: Keyed>()
    ensures { ChangesOneNumberOnly R.key }
{}

pub fn adds_up_after_each_change<R: Keyed>()
    ensures { AddsUpAfterEachChange R.key }
{}

pub fn has_one_order_only<R: Keyed>()
    ensures { HasOneOrderOnly R.key }
{}

pub fn has_a_place_for_each_number<R: Keyed>()
    ensures { HasAPlaceForEachNumber R.key }
{}

pub fn uses_a_freed_place_again<R: Keyed>()
    ensures { UsesAFreedPlaceAgain R.key }
{}

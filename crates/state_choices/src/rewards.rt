//! Rewards: sums of items.
ghost use Rattle.std.specs.Prelude.{◌≡◌, ◌||◌, ◌&&◌, map, is_none, Ok, if◌then◌else◌};
ghost use Rattle.std.specs.List.{list_any};
ghost use Rattle.frac_core.specs.Fraction.{plus};
ghost use Rattle.frac_core.specs.Results.{narrow};
ghost use Rattle.process_core.specs.Choices.{is_false, is_true, number_of};
ghost use Rattle.process_core.specs.Bounds.{summed};
ghost use Rattle.state_choices.specs.Views.{item_of};
ghost use Rattle.state_choices.specs.Trimmed.{computed_sum};
ghost use Rattle.state_choices.specs.Items.{is_wide_item, is_undefined_item, number_in};

use crate::data::Item;
use crate::values::{is_false, is_true, is_wide, number_of};
use frac_core::{Frac, FracFail};
use op_trees::EvalFail;

/// The sum of the items whose guards hold. `Wide` exactly where a guard is wide, the value of an item that holds is, or a
/// partial sum is where all are defined; else `Undef` exactly where a guard, or the value of an item that holds, is
/// undefined.
pub fn sum_of(items: &[Item]) -> Result<Frac, EvalFail>
    ensures { result ≡ computed_sum (summed (map item_of items.now)) }
{
    if has_wide_item(items) {
        return Err(EvalFail::Wide);
    }
    if has_undefined_item(items) {
        return Err(EvalFail::Undef);
    }
    let mut sum = Frac::zero();
    for item in items {
        match added(sum, item) {
            Ok(more) => sum = more,
            Err(_) => return Err(EvalFail::Wide),
        }
    }
    Ok(sum)
}

fn has_wide_item(items: &[Item]) -> bool
    ensures { result ≡ list_any (λ i. is_wide_item (item_of i)) items.now }
{
    items.iter().any(|item| is_wide_item(item))
}

fn has_undefined_item(items: &[Item]) -> bool
    ensures { result ≡ list_any (λ i. is_undefined_item (item_of i)) items.now }
{
    items.iter().any(|item| is_undefined_item(item))
}

/// Whether the guard of an item is wide, or its value where that is needed.
fn is_wide_item(item: &Item) -> bool
    ensures { result ≡ is_wide_item (item_of item.now) }
{
    is_wide(item.guard) || is_true(item.guard) && is_wide(item.value)
}

/// Whether an item adds something undefined.
fn is_undefined_item(item: &Item) -> bool
    ensures { result ≡ is_undefined_item (item_of item.now) }
{
    !is_false(item.guard) && (!is_true(item.guard) || number_of(item.value).is_none())
}

/// A sum with what an item adds to it.
fn added(sum: Frac, item: &Item) -> Result<Frac, FracFail>
    ensures { result ≡ (if is_false (item_of item.now).guard.value then Ok sum else narrow (plus sum (number_in (item_of item.now)))) }
{
    if is_false(item.guard) {
        return Ok(sum);
    }
    sum.add(number_of(item.value).unwrap_or(Frac::zero()))
}

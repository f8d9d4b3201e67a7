//! The parts of a network that are built of a file: what choices are made of, and what states have.
ghost use Rattle.std.specs.Prelude.{◌≡◌, IfOk, List as ListOf, ℕ, map};
ghost use Rattle.expr_store.specs.Alike.{IsMade};
ghost use Rattle.expr_store.specs.Nodes.{IsGrown};
ghost use Rattle.expr_store.specs.Views.{nodes};
ghost use Rattle.gathering.specs.Lists.{list_under};
ghost use Rattle.process_core.specs.Ready.{Sum};
ghost use Rattle.network.specs.Views.{sum_at};
ghost use Rattle.prism_tree.specs.Operators.{prism_meaning};
ghost use Rattle.prism_tree.specs.Syntax.{file_of, module_of, rewards_of};
ghost use Rattle.prism_instance.specs.Built.{AreParts, HasChoices, HasMarks};
ghost use Rattle.prism_instance.specs.Shapes.{acting, bodies, earned_in_states, sum_under};
ghost use Rattle.prism_instance.specs.Sites.{AreEarnings, actions_in, earned_of, linked_at, linked_with, links_among, sorted, sorted_of};
ghost use Rattle.prism_instance.specs.Views.{columns_in, places_in, FindsColumns};

use crate::build::{components, condition, earned, labels, sums};
use crate::data::{ItemOf, Sorted};
use crate::earnings::{Earnings, all_earned, earned_in_states};
use crate::modules::{acting, links, sorted_modules};
use crate::state_names::StateNames;
use crate::vectors::vectors;
use expr_store::{ExprId, ExprStore};
use gathering::NameLists;
use network::{Component, Earned, Item, Valued, Vector};
use prism_tree::{PrismFile, PrismOp};
use std::alloc::{AllocError, Global};

/// What choices are made of: the components, a vector for each action, and what silent choices earn.
#[derive(Drop)]
pub(crate) struct ChoiceParts<'a> {
    pub(crate) components: Vec<Component>,
    pub(crate) vectors: Vec<Vector<'a>>,
    pub(crate) silent: Vec<Earned>,
}

/// What states have: labels, sums of items, and the initial condition.
#[derive(Drop)]
pub(crate) struct StateParts {
    pub(crate) labels: Vec<Valued>,
    pub(crate) sums: Vec<Vec<Item>>,
    pub(crate) condition: Option<ExprId>,
}

/// Both, over one store of expressions.
#[derive(Drop)]
pub(crate) struct Parts<'a> {
    pub(crate) store: ExprStore<PrismOp>,
    pub(crate) choosing: ChoiceParts<'a>,
    pub(crate) marking: StateParts,
}

/// The parts that are built of a file.
pub(crate) fn built<'a>(
    alloc: Global,
    file: &'a PrismFile,
    names: &StateNames,
) -> Result<Parts<'a>, AllocError>
    requires { FindsColumns names.now }
    ensures { IfOk result (AreParts (file_of file.now) (places_in names.now) (columns_in names.now)) }
{
    let mut store = ExprStore::new(alloc);
    let choosing = built_choices(alloc, file, names, &mut store)?;
    let marking = built_marks(alloc, file, names, &mut store)?;
    Ok(Parts {
        store,
        choosing,
        marking,
    })
}

/// What choices are made of.
fn built_choices<'a>(
    alloc: Global,
    file: &'a PrismFile,
    names: &StateNames,
    store: &mut ExprStore<PrismOp>,
) -> Result<ChoiceParts<'a>, AllocError>
    requires { FindsColumns names.now }
    ensures { IfOk result (HasChoices (file_of file.now) (places_in names.now) (columns_in names.now) (nodes store.new)) }
{
    let modules = sorted_modules(alloc, file.modules.as_slice())?;
    let earnings = all_earned(alloc, file.rewards.as_slice())?;
    built_choices_of(alloc, file, modules.as_slice(), &earnings, names, store)
}

/// The same of sorted modules and of the items that choices earn.
fn built_choices_of<'a>(
    alloc: Global,
    file: &'a PrismFile,
    modules: &[Sorted<'a>],
    earnings: &Earnings<'a>,
    names: &StateNames,
    store: &mut ExprStore<PrismOp>,
) -> Result<ChoiceParts<'a>, AllocError>
    requires columns { FindsColumns names.now }
    requires modules { map sorted_of modules.now ≡ map sorted (bodies (map module_of file.now.modules)) }
    requires earned { AreEarnings (map rewards_of file.now.rewards) earnings.now }
    ensures { IfOk result (HasChoices (file_of file.now) (places_in names.now) (columns_in names.now) (nodes store.new)) }
{
    let components = components(alloc, modules, names, store)?;
    let vectors = all_vectors(alloc, file, modules, &earnings.named, names, store)?;
    let silent = earned(alloc, earnings.silent.as_slice(), names, store)?;
    Ok(ChoiceParts {
        components,
        vectors,
        silent,
    })
}

/// A vector for each action of the file.
fn all_vectors<'a>(
    alloc: Global,
    file: &'a PrismFile,
    modules: &[Sorted<'a>],
    items: &NameLists<'a, ItemOf<'a>>,
    names: &StateNames,
    store: &mut ExprStore<PrismOp>,
) -> Result<Vec<Vector<'a>>, AllocError>
    ensures { IfOk result (λ vs. (n : ℕ) (shared : ListOf Sum) → IsMade prism_meaning (places_in names.now) (nodes store.old) (nodes store.new)
        (λ look. map (λ v. linked_at look n shared v) vs.items)
        (λ seen. map (λ a. linked_with seen n (λ x. map earned_of (list_under items.now x)) (λ x. links_among x (map actions_in modules.now)) a)
        (acting (bodies (map module_of file.now.modules))))) }
{
    let actions = acting(alloc, file.modules.as_slice())?;
    let links = links(alloc, modules)?;
    vectors(alloc, actions.as_slice(), &links, items, names, store)
}

/// What states have.
fn built_marks(
    alloc: Global,
    file: &PrismFile,
    names: &StateNames,
    store: &mut ExprStore<PrismOp>,
) -> Result<StateParts, AllocError>
    ensures grown { IfOk result (λ m. IsGrown (nodes store.old) (nodes store.new)) }
    ensures parts { IfOk result (HasMarks (file_of file.now) (places_in names.now) (nodes store.new)) }
{
    let labels = labels(alloc, file.labels.as_slice(), names, store)?;
    let sums = all_sums(alloc, file, names, store)?;
    let condition = condition(&file.init, names, store)?;
    Ok(StateParts {
        labels,
        sums,
        condition,
    })
}

/// The items of each reward structure that states earn.
fn all_sums(
    alloc: Global,
    file: &PrismFile,
    names: &StateNames,
    store: &mut ExprStore<PrismOp>,
) -> Result<Vec<Vec<Item>>, AllocError>
    ensures { IfOk result (λ rs. IsMade prism_meaning (places_in names.now) (nodes store.old) (nodes store.new)
        (λ look. map (λ is. sum_at look is.items) rs.items) (λ seen. map (λ is. sum_under seen is) (earned_in_states (map rewards_of file.now.rewards)))) }
{
    let items = earned_in_states(alloc, file.rewards.as_slice())?;
    sums(alloc, items.as_slice(), names, store)
}

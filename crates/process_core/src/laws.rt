// Laws of processes: functions that do nothing, whose contracts are the laws.

ghost use Rattle.process_core.specs.Laws.{ChoicesFollow, ChoicesProper, CombinationLaws, CountsTell, EqualityLaws, IdleLaws, MergingLaws, OftenLaws, ProductLaws, TotalLaws};

/// Taking one of each of several lists, the last varying fastest, goes with maps and joins, and gives as many results as
/// the product of the lists' lengths.
pub fn product_laws<T, U>()
    ensures { ProductLaws T U }
{}

/// Holding the same members equally often is kept by maps, filters, joins, walks and products, does not ask for an order,
/// and has each test count the same.
pub fn often_laws<T, U, V>()
    ensures { OftenLaws T U V }
{}

/// Products of distributions are distributions, and so are the good choices of combinations.
pub fn distribution_laws()
    ensures totals { TotalLaws }
    ensures choices { ChoicesProper }
{}

/// Combinations that follow others through a map of states and labels have the images of their choices.
pub fn following_law()
    ensures { ChoicesFollow }
{}

/// A participant that does nothing, or only assigns what its combination earns, changes no choice.
pub fn idle_laws()
    ensures { IdleLaws }
{}

/// The same combinations in another order have the same choices equally often; an action that is split into several has
/// the same combinations; modules are combined as elements are.
pub fn combination_laws()
    ensures { CombinationLaws }
{}

/// What is compared as equal is equal, and counts tell whether two lists hold the same choices equally often.
pub fn equality_laws()
    ensures tests { EqualityLaws }
    ensures counts { CountsTell }
{}

/// Merging keeps the sum for each target, and gives each at most one branch.
pub fn merging_laws()
    ensures { MergingLaws }
{}

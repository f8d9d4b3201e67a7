// Functions that do nothing, whose contracts are the laws.

ghost use Rattle.std.specs.Prelude.{ℕ, List};
ghost use Rattle.choice_laws.specs.Laws.{ColumnLaws, RewardLaws, SplitLaws};

/// Of a product of lists one list may be split into parts, and members that give nothing may be left out; members that pass
/// one of some tests each are those that pass each test in turn.
pub fn split_laws<T, U>()
    ensures { SplitLaws T U }
{}

/// Combinations with a false guard may be left out, and rewards that participants assign are as good as rewards that the
/// combination has by itself.
pub fn reward_laws()
    ensures { RewardLaws }
{}

/// What is read of a state whose columns stand in another order, and written to it.
pub fn column_laws()
    ensures { (columns : List ℕ) (n : ℕ) → ColumnLaws columns n }
{}

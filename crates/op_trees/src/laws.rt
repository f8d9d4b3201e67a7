// Laws of every set of operators: functions that do nothing, whose contracts are the laws.

ghost use Rattle.op_trees.specs.Laws.{AnswerHasType, MappingKeepsAnswers, NameSeenAsBody, OneRecursion, RenamingKeepsTypes, RenamingLooksUp, SameSeenAlike, SameTypedAlike, SubstitutionKeepsAnswers, SubstitutionKeepsTypes, SubstitutionLooksUp, TypedWhereNoMisfit, ValueHasType, WritingOutKeepsTypes, WritingOutLooksUp};

use crate::operator::{Names, Operator};

/// What `eval` answers by the list of needed subexpressions is what one recursion sees.
pub fn evaluation_law<O: Operator>()
    ensures { OneRecursion O.meaning }
{}

/// A well-typed expression whose literals are in normal form is undefined or has a value of its
/// type, so `eval` answers `Wide`, `Undef` or a value of its type; and an expression has a type
/// exactly where no node misfits.
pub fn typing_law<O: Operator, N: Names>()
    ensures value { ValueHasType O.meaning }
    ensures answer { (names : N) → AnswerHasType O.meaning (N.types names) (N.values names) }
    ensures misfits { TypedWhereNoMisfit O.meaning }
{}

/// Trees that are the same but for offsets have the same answers and the same type.
pub fn offset_law<O: Operator>()
    ensures answers { SameSeenAlike O.meaning }
    ensures types { SameTypedAlike O.meaning }
{}

/// Substitution keeps every answer, value, `Undef` and `Wide` at once, where the replaced names
/// answer as their bodies; it keeps types likewise.
pub fn substitution_law<O: Operator>()
    ensures bodies { SubstitutionLooksUp O.meaning }
    ensures answers { SubstitutionKeepsAnswers O.meaning }
    ensures types { SubstitutionKeepsTypes O.meaning }
{}

/// The same for formulas within formulas, to any depth, with all names then read through a map; and
/// a formula's name answers as its body where no formula leads back to itself.
pub fn formula_law<O: Operator>()
    ensures answers { WritingOutLooksUp O.meaning }
    ensures types { WritingOutKeepsTypes O.meaning }
    ensures names { NameSeenAsBody O.meaning }
{}

/// Renaming keeps every answer and the type, under names that answer as what they are renamed to.
pub fn renaming_law<O: Operator>()
    ensures answers { RenamingLooksUp O.meaning }
    ensures types { RenamingKeepsTypes O.meaning }
{}

/// A change of operators keeps every answer where each rebuilt node does.
pub fn mapping_law<O: Operator, Q: Operator>()
    ensures { MappingKeepsAnswers O.meaning Q.meaning }
{}

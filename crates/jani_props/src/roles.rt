// The expressions of a property, each with what it stands for.
ghost use Rattle.std.specs.Prelude.{◌≡◌, List, [], ◌∷◌};
ghost use Rattle.std.specs.List.{flat_map};
ghost use Rattle.bridge_io.specs.declared.reason.Fault.{Fault as OneFault};
ghost use Rattle.op_trees.specs.Tree.{tree};
ghost use Rattle.jani_tree.specs.Syntax.{Expression};
ghost use Rattle.name_rules.specs.Least.{soonest};
ghost use Rattle.prop_trees.specs.Trees.{Role as SpecRole, ask_parts, parts, path_parts, state};
ghost use Rattle.prop_trees.specs.Syntax.{jani_path_of, role_of};
ghost use Rattle.jani_props.specs.Syntax.{ask_of, written_of};

use crate::written::{Written, WrittenAsk};
use bridge_io::Fault;
use jani_tree::JaniExpr;
use prop_trees::{JaniPath, Role};

/// A rule that tells which faults an expression of a property has.
pub(crate) trait PartRule {
    ghost part_faults: { Self → SpecRole × Expression → List OneFault };

    /// The least of a fault that was found before and those of an expression.
    fn judge_part(&self, role: Role, e: &JaniExpr, best: Option<Fault>) -> Option<Fault>
        ensures { result ≡ soonest best (part_faults self.now (role_of role, tree e.now)) };
}

#[tactic(auto, using(crate::proofs::Judging::one_part))]
fn judge_ask<R: PartRule>(rule: &R, ask: &WrittenAsk, best: Option<Fault>) -> Option<Fault>
    ensures { result ≡ soonest best (flat_map (R.part_faults rule.now) (ask_parts (ask_of ask.now))) }
{
    match ask {
        WrittenAsk::PBound(_, e) => rule.judge_part(Role::Probability, e, best),
        WrittenAsk::PMax => best,
        WrittenAsk::PMin => best,
        WrittenAsk::RMax(_) => best,
        WrittenAsk::RMin(_) => best,
    }
}

#[tactic(auto, using(crate::proofs::Judging::two_parts))]
fn judge_both<R: PartRule>(
    rule: &R,
    a: &JaniExpr,
    b: &JaniExpr,
    best: Option<Fault>,
) -> Option<Fault>
    ensures { result
        ≡ soonest best (flat_map (R.part_faults rule.now) ((state, tree a.now) ∷ (state, tree b.now) ∷ [])) }
{
    let first = rule.judge_part(Role::State, a, best);
    rule.judge_part(Role::State, b, first)
}

#[tactic(auto, using(crate::proofs::Judging::one_part, crate::proofs::Judging::two_parts, crate::proofs::Judging::more_parts))]
fn judge_path<R: PartRule>(rule: &R, path: &JaniPath, best: Option<Fault>) -> Option<Fault>
    ensures { result ≡ soonest best (flat_map (R.part_faults rule.now) (path_parts (jani_path_of path.now))) }
{
    match path {
        JaniPath::Finally(e) => rule.judge_part(Role::State, e, best),
        JaniPath::Globally(e) => rule.judge_part(Role::State, e, best),
        JaniPath::Until(a, b) => judge_both(rule, a, b, best),
        JaniPath::WeakUntil(a, b) => judge_both(rule, a, b, best),
        JaniPath::FinallyWithin(k, e) => {
            let steps = rule.judge_part(Role::Steps, k, best);
            rule.judge_part(Role::State, e, steps)
        }
        JaniPath::UntilWithin(k, a, b) => {
            let steps = rule.judge_part(Role::Steps, k, best);
            judge_both(rule, a, b, steps)
        }
    }
}

/// The least of a fault that was found before and those of the expressions of a property.
#[tactic(auto, using(name_rules::proofs::Append::soonest_both))]
pub(crate) fn judge_parts<R: PartRule>(rule: &R, p: &Written, best: Option<Fault>) -> Option<Fault>
    ensures { result ≡ soonest best (flat_map (R.part_faults rule.now) (parts (written_of p.now))) }
{
    let asked = judge_ask(rule, &p.ask, best);
    judge_path(rule, &p.path, asked)
}

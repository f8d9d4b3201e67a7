// The faults of the names of properties.
ghost use Rattle.std.specs.Prelude.{◌≡◌, map, IfOk, None};
ghost use Rattle.std.specs.List.{flat_map};
ghost use Rattle.basics.specs.Options.{if_some};
ghost use Rattle.name_rules.specs.Least.{soonest};
ghost use Rattle.name_rules.specs.Names.{named_by};
ghost use Rattle.prop_trees.specs.Trees.{structure_of};
ghost use Rattle.jani_props.specs.Faults.{names_wrong, titles, unknown_structure};
ghost use Rattle.jani_props.specs.Model.{numbers_of, things_of};
ghost use Rattle.jani_props.specs.Syntax.{ask_of, written_of};

use crate::model::ModelNames;
use crate::roles::{PartRule, judge_parts};
use crate::written::{Written, WrittenAsk};
use bridge_io::{Fault, Named, Reason};
use jani_tree::JaniExpr;
use name_rules::{Entry, Judged, Rule, judge_doubled, judge_each, judge_expression, sooner};
use prop_trees::Role;
use std::alloc::{AllocError, Global};

// The names of properties.
fn titles_of(alloc: Global, written: &[Written]) -> Result<Vec<Entry>, AllocError>
    ensures { IfOk result (λ list. map named_by list.items ≡ titles (map written_of written.now)) }
{
    let mut list = Vec::with_capacity(alloc, written.len())?;
    for p in written {
        list.push(Entry {
            name: p.name.name.as_str(),
            at: p.name.at,
        })?;
    }
    Ok(list)
}

fn judge_structure(names: &ModelNames, structure: &Named, best: Option<Fault>) -> Option<Fault>
    ensures { result ≡ soonest best (unknown_structure (numbers_of names.now) structure.now) }
{
    match names.structure(structure.name.as_str()) {
        Some(_) => best,
        None => sooner(best, structure.at, Reason::Unknown),
    }
}

// The reward structure of a query of rewards.
#[tactic(auto, using(crate::proofs::Judging::one_part))]
fn judge_asked(names: &ModelNames, ask: &WrittenAsk, best: Option<Fault>) -> Option<Fault>
    ensures { result
        ≡ soonest best (flat_map (unknown_structure (numbers_of names.now)) (if_some (structure_of (ask_of ask.now)))) }
{
    match ask {
        WrittenAsk::RMax(structure) => judge_structure(names, structure, best),
        WrittenAsk::RMin(structure) => judge_structure(names, structure, best),
        WrittenAsk::PMax => best,
        WrittenAsk::PMin => best,
        WrittenAsk::PBound(_, _) => best,
    }
}

/// Names that are not known.
#[derive(Drop)]
pub(crate) struct UnknownNames<'n, 'a> {
    pub(crate) names: &'n ModelNames<'a>,
}

impl<'n, 'a> PartRule for UnknownNames<'n, 'a> {
    ghost use Rattle.jani_props.specs.Faults.{unknown_in};
    ghost use Rattle.jani_props.specs.Model.{things_of};

    ghost part_faults = { λ r. unknown_in (things_of r.names.now) };

    fn judge_part(&self, _role: Role, e: &JaniExpr, best: Option<Fault>) -> Option<Fault> {
        judge_expression(self.names, e, best)
    }
}

impl<'n, 'a> Rule<Written> for UnknownNames<'n, 'a> {
    ghost use Rattle.jani_props.specs.Faults.{unknown_names};
    ghost use Rattle.jani_props.specs.Model.{numbers_of, things_of};
    ghost use Rattle.jani_props.specs.Syntax.{Written as OneWritten, written_of};

    ghost Seen = { OneWritten };

    ghost view = { written_of };

    ghost faults = { λ r. unknown_names (things_of r.names.now) (numbers_of r.names.now) };

    #[tactic(auto, using(name_rules::proofs::Append::soonest_then))]
    fn judge(&self, _alloc: Global, p: &Written, before: Option<Fault>) -> Judged {
        let asked = judge_asked(self.names, &p.ask, before);
        Ok(judge_parts(self, p, asked))
    }
}

/// The least fault of the names of properties.
pub(crate) fn judge_names(alloc: Global, names: &ModelNames, written: &[Written]) -> Judged
    ensures { IfOk result
        (λ best. best ≡ soonest None (names_wrong (things_of names.now) (numbers_of names.now) (map written_of written.now))) }
{
    let titles = titles_of(alloc, written)?;
    let doubled = judge_doubled(alloc, Reason::TwiceNamed, &titles, None)?;
    let best = judge_each(alloc, &UnknownNames { names }, written, doubled)?;
    Ok(best)
}

// Choices merged by their targets.

ghost use Rattle.std.specs.Prelude.{◌≡◌, ◌↔◌, ◌<◌, ℕ, List, IfOk, length, map, option_copied};
ghost use Rattle.process_core.specs.Seen.{seen_branch};
ghost use Rattle.row_check.specs.Index.{IsIndex};
ghost use Rattle.row_check.specs.Merging.{HoldsRows, NumbersBranches};

use crate::data::Row;
use crate::index::StateIndex;
use bridge_io::{List, Text};
use frac_core::Frac;
use process_core::{Branch, State, copy_label};
use std::alloc::{AllocError, Global};
use std::collections::BTreeMap;

/// A choice merged by its targets: its label, and the sums other than 0, under the numbers of their targets.
#[derive(Drop)]
pub(crate) struct MergedChoice {
    pub(crate) label: Option<Text>,
    pub(crate) sums: BTreeMap<usize, Frac>,
}

impl MergedChoice {
    /// Branches that each have another target, with the numbers of the targets; none where one isn't listed.
    pub(crate) fn of_branches(
        alloc: Global,
        index: &StateIndex,
        label: Option<&Text>,
        branches: &List<Branch>,
    ) -> Result<Option<MergedChoice>, AllocError>
        ensures { IfOk result (λ o. (ss : List State) → IsIndex index.now.numbers ss → NumbersBranches ss (option_copied label.entry) (map seen_branch branches.now) o) }
    {
        let mut sums = BTreeMap::new(alloc);
        for branch in branches.as_slice() {
            match index.find(alloc, &branch.target)? {
                Some(number) => {
                    sums.insert(number, branch.weight)?;
                }
                None => return Ok(None),
            }
        }
        let label = copy_label(alloc, label)?;
        Ok(Some(MergedChoice { label, sums }))
    }

    /// The rows of one choice.
    pub(crate) fn of_rows(alloc: Global, rows: &[Row]) -> Result<MergedChoice, AllocError>
        requires { 0 < length rows.now }
        ensures { IfOk result (HoldsRows rows.now) }
    {
        let mut sums = BTreeMap::new(alloc);
        for row in rows {
            if row.weight != Frac::zero() {
                sums.insert(row.target, row.weight)?;
            }
        }
        let label = copy_label(alloc, rows[0].label.as_ref())?;
        Ok(MergedChoice { label, sums })
    }
}

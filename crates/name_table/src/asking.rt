// The table of a translation to JANI: the names of a file, asked for one after another.

ghost use Rattle.std.specs.Prelude.{◌≡◌, map, IfOk, OnOk};
ghost use Rattle.prism_check.specs.Flat.{flat};
ghost use Rattle.prism_tree.specs.Syntax.{file_of, var_of};
ghost use Rattle.name_table.specs.declared.class.Target.TheVariants.{Jani};
ghost use Rattle.name_table.specs.Asks.{asks, entries, variables, actions};
ghost use Rattle.name_table.specs.Gathered.{told};

use crate::ask::{HasName, ask_each};
use crate::class::{NameClass, Target};
use crate::gather::{actions, name_of, variables};
use crate::table::NameTable;
use bridge_io::Text;
use prism_check::{CheckedPrism, flatten};
use prism_tree::{PrismConst, PrismFile, PrismLabel, PrismModule, PrismRewards, PrismVar};
use std::alloc::{AllocError, Global};

/// The table of the entries of a translation to JANI, by this project's own rule: the names of constants, of variables in
/// column order, of labels, of reward structures, of modules, and of actions of commands in order of first occurrence, all
/// of the file with its formulas and copies of modules written out. `Err` is want of memory, alone.
pub fn jani_names(alloc: Global, checked: &CheckedPrism) -> Result<NameTable, AllocError>
    ensures { IfOk result (λ t. (t.target ≡ Jani) × (t.entries ≡ entries (flat checked.now.file))) }
{
    let flat = flatten(alloc, checked)?;
    found_names(alloc, flat.file())
}

/// The table of a file that is written out.
fn found_names(alloc: Global, file: &PrismFile) -> Result<NameTable, AllocError>
    ensures { IfOk result (λ t. (t.target ≡ Jani) × (t.entries ≡ entries (file_of file.now))) }
{
    let vars = variables(alloc, file)?;
    let acts = actions(alloc, file)?;
    let table = flat_names(alloc, file, vars.as_slice(), acts.as_slice())?;
    Ok(table)
}

/// The table of `jani_names` for a file that is written out, where these are its variables and its actions. `Err` is want of
/// memory, alone.
pub fn flat_names(
    alloc: Global,
    file: &PrismFile,
    vars: &[&PrismVar],
    acts: &[&Text],
) -> Result<NameTable, AllocError>
    requires vars { map (λ x. var_of x.now) vars.now ≡ variables (file_of file.now) }
    requires acts { map (λ x. x.now) acts.now ≡ actions (file_of file.now) }
    ensures { IfOk result (λ t. (t.target ≡ Jani) × (t.entries ≡ entries (file_of file.now))) }
{
    let mut table = NameTable::new(alloc, Target::Jani);
    ask_file(&mut table, file, vars, acts)?;
    Ok(table)
}

/// Asks for the names of all that a file declares that is written out, where these are its variables and its actions, in the order of
/// `jani_names`. `Err` is want of memory, alone, and leaves the table with some of them.
fn ask_file(
    table: &mut NameTable,
    file: &PrismFile,
    vars: &[&PrismVar],
    acts: &[&Text],
) -> Result<(), AllocError>
    requires vars { map (λ x. var_of x.now) vars.now ≡ variables (file_of file.now) }
    requires acts { map (λ x. x.now) acts.now ≡ actions (file_of file.now) }
    ensures { OnOk result (table.new ≡ told table.old (asks (file_of file.now))) }
{
    ask_each(table, NameClass::Constant, file.constants.as_slice())?;
    ask_each(table, NameClass::Variable, vars)?;
    ask_each(table, NameClass::Label, file.labels.as_slice())?;
    ask_each(table, NameClass::Reward, file.rewards.as_slice())?;
    ask_each(table, NameClass::Module, file.modules.as_slice())?;
    ask_each(table, NameClass::Action, acts)?;
    Ok(())
}

impl HasName for PrismConst {
    ghost use Rattle.std.specs.Prelude.{Some};
    ghost use Rattle.prism_tree.specs.Syntax.{const_of};

    ghost called = { λ c. Some (const_of c).name.name };

    fn name(&self) -> Option<&str> {
        Some(self.name.name.as_str())
    }
}

impl<'a> HasName for &'a PrismVar {
    ghost use Rattle.std.specs.Prelude.{Some};
    ghost use Rattle.prism_tree.specs.Syntax.{var_of};

    ghost called = { λ x. Some (var_of x.now).name.name };

    fn name(&self) -> Option<&str> {
        Some(self.name.name.as_str())
    }
}

impl HasName for PrismLabel {
    ghost use Rattle.std.specs.Prelude.{Some};
    ghost use Rattle.prism_tree.specs.Syntax.{label_of};

    ghost called = { λ l. Some (label_of l).name.name };

    fn name(&self) -> Option<&str> {
        Some(self.name.name.as_str())
    }
}

impl HasName for PrismRewards {
    ghost use Rattle.prism_tree.specs.Syntax.{rewards_of};
    ghost use Rattle.name_table.specs.Asks as asks;

    ghost called = { λ r. asks.called (rewards_of r).name };

    fn name(&self) -> Option<&str> {
        match &self.name {
            Some(n) => Some(n.name.as_str()),
            None => None,
        }
    }
}

impl HasName for PrismModule {
    ghost use Rattle.std.specs.Prelude.{Some};
    ghost use Rattle.name_table.specs.Gathered.{body_in};

    ghost called = { λ m. Some (body_in m).name.name };

    fn name(&self) -> Option<&str> {
        Some(name_of(self).name.as_str())
    }
}

impl<'a> HasName for &'a Text {
    ghost use Rattle.std.specs.Prelude.{Some};

    ghost called = { λ x. Some x.now };

    fn name(&self) -> Option<&str> {
        Some(self.as_str())
    }
}

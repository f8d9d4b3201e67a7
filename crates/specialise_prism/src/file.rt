// A file with its parts folded.

ghost use Rattle.std.specs.Prelude.{◌≡◌, IfOk, [], map};
ghost use Rattle.prism_tree.specs.Syntax.{file_of, module_of, plain, command_of, var_of};
ghost use Rattle.prism_rewriter.specs.Rewritten.{rewritten_body};
ghost use Rattle.constant_folding.specs.Tables.{given_in, known_in};
ghost use Rattle.specialise_prism.specs.Specialised.{folding_by, specialised_by, specialised_module};

use crate::numerals::PrismNumerals;
use crate::parts::{all_folded, optional};
use bridge_io::{List, together};
use constant_folding::KnownTable;
use prism_rewriter::named;
use prism_tree::{PlainModule, PrismFile, PrismModule};
use std::alloc::{AllocError, Global};

/// A file without formulas with all its parts folded. `Err` is want of memory.
pub(crate) fn folded_file(
    alloc: Global,
    file: &PrismFile,
    table: &KnownTable<PrismNumerals>,
) -> Result<PrismFile, AllocError>
    requires { file.now.formulas ≡ [] }
    ensures { IfOk result (λ f. file_of f ≡ specialised_by (given_in table.now) (known_in table.now) (file_of file.now)) }
{
    let constants = all_folded(alloc, file.constants.as_slice(), table);
    let globals = all_folded(alloc, file.globals.as_slice(), table);
    let modules = folded_modules(alloc, file.modules.as_slice(), table);
    let labels = all_folded(alloc, file.labels.as_slice(), table);
    let rewards = all_folded(alloc, file.rewards.as_slice(), table);
    let init = optional(alloc, &file.init, table);
    let values = together(constants, globals);
    let marks = together(labels, rewards);
    let outer = together(values, marks);
    let inner = together(modules, init);
    let (((constants, globals), (labels, rewards)), (modules, init)) = together(outer, inner)?;
    Ok(PrismFile {
        constants,
        globals,
        formulas: List::new(alloc),
        modules,
        labels,
        rewards,
        init,
        end: file.end,
    })
}

/// These modules folded, in order.
fn folded_modules(
    alloc: Global,
    modules: &[PrismModule],
    table: &KnownTable<PrismNumerals>,
) -> Result<List<PrismModule>, AllocError>
    ensures { IfOk result (λ list. map module_of list ≡ map (specialised_module (known_in table.now)) (map module_of modules.now)) }
{
    let mut list = List::new(alloc);
    for module in modules {
        list.push(folded_module(alloc, module, table)?)?;
    }
    Ok(list)
}

/// A module folded. A file that is written out has no copies, in whose place nothing would stand.
fn folded_module(
    alloc: Global,
    source: &PrismModule,
    table: &KnownTable<PrismNumerals>,
) -> Result<PrismModule, AllocError>
    ensures { IfOk result (λ m. module_of m ≡ specialised_module (known_in table.now) (module_of source.now)) }
{
    match source {
        PrismModule::Plain(m) => folded_body(alloc, m, table),
        PrismModule::Copied(m) => Ok(PrismModule::Plain(PlainModule {
            name: named(alloc, m.name.name.as_str(), m.name.at)?,
            vars: List::new(alloc),
            commands: List::new(alloc),
        })),
    }
}

/// A module with its own contents folded.
fn folded_body(
    alloc: Global,
    source: &PlainModule,
    table: &KnownTable<PrismNumerals>,
) -> Result<PrismModule, AllocError>
    ensures { IfOk result
        (λ m. module_of m ≡ plain (rewritten_body (folding_by (known_in table.now)) source.now.name (map var_of source.now.vars) (map command_of source.now.commands))) }
{
    let vars = all_folded(alloc, source.vars.as_slice(), table);
    let contents = together(vars, all_folded(alloc, source.commands.as_slice(), table));
    let name = named(alloc, source.name.name.as_str(), source.name.at);
    let (name, (vars, commands)) = together(name, contents)?;
    Ok(PrismModule::Plain(PlainModule {
        name,
        vars,
        commands,
    }))
}

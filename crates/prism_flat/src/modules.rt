// The modules of a file, each with its own contents.

ghost use Rattle.std.specs.Prelude.{◌≡◌, IfOk, map, option_copied};
ghost use Rattle.std.specs.List.{find};
ghost use Rattle.std.specs.Option.{option_map};
ghost use Rattle.prism_tree.specs.Syntax.{command_of, copied, file_of, module_of, plain, var_of};
ghost use Rattle.op_trees.specs.Names.{is_called};
ghost use Rattle.prism_names.specs.Names.{module_name};
ghost use Rattle.prism_rewriter.specs.Rewritten.{rewritten_body, written_as};
ghost use Rattle.prism_rewriter.specs.Tables.{body_in, rewriting};

use crate::parts::all_rewritten;
use bridge_io::{List, Named, together};
use prism_rewriter::{BodyTable, Renaming, Rewriter, named};
use prism_tree::{CopiedModule, PlainModule, PrismFile, PrismModule};
use std::alloc::{AllocError, Global};

/// These modules of a file written out, in order.
pub(crate) fn written_modules<'t>(
    alloc: Global,
    file: &'t PrismFile,
    modules: &'t [PrismModule],
    bodies: &BodyTable<'t>,
) -> Result<List<PrismModule>, AllocError>
    ensures { IfOk result
        (λ list. map module_of list ≡ map (written_as (file_of file.now) (body_in bodies.now)) (map module_of modules.now)) }
{
    let mut list = List::new(alloc);
    for module in modules {
        list.push(written_module(alloc, file, module, bodies)?)?;
    }
    Ok(list)
}

/// A module of a file written out.
pub(crate) fn written_module<'t>(
    alloc: Global,
    file: &'t PrismFile,
    source: &'t PrismModule,
    bodies: &BodyTable<'t>,
) -> Result<PrismModule, AllocError>
    ensures { IfOk result (λ m. module_of m ≡ written_as (file_of file.now) (body_in bodies.now) (module_of source.now)) }
{
    match source {
        PrismModule::Plain(m) => {
            let renaming = Renaming::none(alloc);
            let rewriter = Rewriter {
                bodies,
                renaming: &renaming,
            };
            written_body(alloc, &m.name, m, &rewriter)
        }
        PrismModule::Copied(m) => written_copy(alloc, file, m, bodies),
    }
}

/// A copy has the contents of the first module of the name that it copies, and none where that is a copy itself.
fn written_copy<'t>(
    alloc: Global,
    file: &'t PrismFile,
    m: &'t CopiedModule,
    bodies: &BodyTable<'t>,
) -> Result<PrismModule, AllocError>
    ensures { IfOk result (λ r. module_of r ≡ written_as (file_of file.now) (body_in bodies.now) (copied m.now)) }
{
    match module_called(file.modules.as_slice(), m.from.name.as_str()) {
        Some(PrismModule::Plain(source)) => {
            let renaming = Renaming::of_pairs(alloc, m.pairs.as_slice())?;
            let rewriter = Rewriter {
                bodies,
                renaming: &renaming,
            };
            written_body(alloc, &m.name, source, &rewriter)
        }
        _ => Ok(PrismModule::Plain(PlainModule {
            name: named(alloc, m.name.name.as_str(), m.name.at)?,
            vars: List::new(alloc),
            commands: List::new(alloc),
        })),
    }
}

/// A module of this name with the rewritten contents of another.
fn written_body(
    alloc: Global,
    name: &Named,
    source: &PlainModule,
    rewriter: &Rewriter,
) -> Result<PrismModule, AllocError>
    ensures { IfOk result
        (λ m. module_of m
        ≡ plain (rewritten_body (rewriting rewriter.now) name.now (map var_of source.now.vars) (map command_of source.now.commands))) }
{
    let vars = all_rewritten(alloc, source.vars.as_slice(), rewriter);
    let contents = together(
        vars,
        all_rewritten(alloc, source.commands.as_slice(), rewriter),
    );
    let name = named(alloc, name.name.as_str(), name.at);
    let (name, (vars, commands)) = together(name, contents)?;
    Ok(PrismModule::Plain(PlainModule {
        name,
        vars,
        commands,
    }))
}

/// The first module of this name.
fn module_called<'a>(modules: &'a [PrismModule], name: &str) -> Option<&'a PrismModule>
    ensures { option_map module_of (option_copied result)
        ≡ find (λ m. is_called name.now (module_name m)) (map module_of modules.now) }
{
    for module in modules {
        if name_of(module).name.as_str() == name {
            return Some(module);
        }
    }
    None
}

fn name_of(m: &PrismModule) -> &Named
    ensures { result.now ≡ module_name (module_of m.now) }
{
    match m {
        PrismModule::Plain(m) => &m.name,
        PrismModule::Copied(m) => &m.name,
    }
}

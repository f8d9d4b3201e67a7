// Modules as automata, and the monitor.

ghost use Rattle.std.specs.Prelude.{◌≡◌, [], map, IfOk};
ghost use Rattle.prism_tree.specs.Syntax.{file_of};
ghost use Rattle.jani_tree.specs.Syntax as jani;
ghost use Rattle.name_table.specs.Asks.{actions};
ghost use Rattle.name_table.specs.Gathered.{body_in};
ghost use Rattle.jani_edges.specs.Automata.{zz_monitor, is_some_name, earning_actions, has_monitor, automaton, module_automaton, module_automata, monitor_edges, automata};
ghost use Rattle.jani_edges.specs.Code.{names_in};

use bridge_io::{List, Text};
use gathering::{keep_if, shorter};
use jani_edges::{
    Names, action_edges, add_silent_edge, automaton, earns_silently, edges, item_actions,
    location_values, zz_monitor,
};
use jani_tree::{JaniAutomaton, JaniEdge, JaniWrite};
use name_table::{Entry, commands_of, instead, name_of};
use prism_tree::{PrismFile, PrismModule};
use std::alloc::{AllocError, Global};

// ---- what needs a monitor

/// The actions that have items.
fn earning_actions<'a>(
    alloc: Global,
    file: &PrismFile,
    acts: &[&'a Text],
) -> Result<Vec<&'a Text>, AllocError>
    requires { map (λ x. x.now) acts.now ≡ actions (file_of file.now) }
    ensures { IfOk result (λ r. map (λ x. x.now) r.items ≡ earning_actions (file_of file.now)) }
{
    let items = item_actions(alloc, file.rewards.as_slice())?;
    let mut all = Vec::new(alloc);
    for a in acts {
        keep_if(&mut all, items.has(a.as_str()), *a)?;
    }
    Ok(all)
}

/// Whether there is a monitor.
pub fn has_monitor(alloc: Global, file: &PrismFile, acts: &[&Text]) -> Result<bool, AllocError>
    requires { map (λ x. x.now) acts.now ≡ actions (file_of file.now) }
    ensures { IfOk result (λ r. r ≡ has_monitor (file_of file.now)) }
{
    let earning = earning_actions(alloc, file, acts)?;
    let some = is_some_name(earning.as_slice());
    let silently = earns_silently(file);
    Ok(some || silently)
}

/// Whether there is a name.
fn is_some_name(names: &[&Text]) -> bool
    ensures { result ≡ is_some_name (map (λ x. x.now) names.now) }
{
    names.len() > 0
}

// ---- automata

/// The automaton of a module.
fn module_automaton(
    alloc: Global,
    silently: bool,
    values: List<JaniWrite>,
    m: &PrismModule,
    e: &Entry,
    names: &Names,
) -> Result<JaniAutomaton, AllocError>
    ensures { IfOk result (λ r. jani.automaton_of r ≡ module_automaton (names_in names.now) silently (map jani.write_of values) (body_in m.now) e.now) }
{
    let name = instead(alloc, name_of(m), e.name.as_str())?;
    let edges = edges(alloc, silently, commands_of(m), names)?;
    let all = automaton(alloc, name, values, edges)?;
    Ok(all)
}

/// The automata of modules; the first one's location gives some values.
fn module_automata(
    alloc: Global,
    silently: bool,
    values: List<JaniWrite>,
    file: &PrismFile,
    names: &Names,
) -> Result<List<JaniAutomaton>, AllocError>
    ensures { IfOk result (λ all. map jani.automaton_of all ≡
        module_automata (names_in names.now) silently (map jani.write_of values) (map body_in file.now.modules) names.now.modules.now) }
{
    let modules = file.modules.as_slice();
    let mut all = List::new(alloc);
    let count = shorter(modules.len(), names.modules.len());
    if count == 0 {
        return Ok(all);
    }
    all.push(module_automaton(
        alloc,
        silently,
        values,
        &modules[0],
        &names.modules[0],
        names,
    )?)?;
    for i in 1..count {
        let none = List::new(alloc);
        all.push(module_automaton(alloc, silently, none, &modules[i], &names.modules[i], names)?)?;
    }
    Ok(all)
}

// ---- the monitor

/// One edge for each action that has items, then one for the commands without action.
fn monitor_edges(
    alloc: Global,
    file: &PrismFile,
    acts: &[&Text],
    names: &Names,
) -> Result<List<JaniEdge>, AllocError>
    requires { map (λ x. x.now) acts.now ≡ actions (file_of file.now) }
    ensures { IfOk result (λ all. map jani.edge_of all ≡ monitor_edges (names_in names.now) (file_of file.now)) }
{
    let earning = earning_actions(alloc, file, acts)?;
    let mut all = action_edges(alloc, file, earning.as_slice(), names)?;
    let silently = earns_silently(file);
    add_silent_edge(alloc, &mut all, silently, file, names)?;
    Ok(all)
}

/// The monitor.
fn monitor(
    alloc: Global,
    file: &PrismFile,
    acts: &[&Text],
    names: &Names,
) -> Result<JaniAutomaton, AllocError>
    requires { map (λ x. x.now) acts.now ≡ actions (file_of file.now) }
    ensures { IfOk result (λ r. jani.automaton_of r ≡ automaton (names_in names.now) zz_monitor [] (monitor_edges (names_in names.now) (file_of file.now))) }
{
    let name = zz_monitor(alloc)?;
    let edges = monitor_edges(alloc, file, acts, names)?;
    let all = automaton(alloc, name, List::new(alloc), edges)?;
    Ok(all)
}

/// The automata of the modules in order, then the monitor, if there is one.
pub fn file_automata(
    alloc: Global,
    file: &PrismFile,
    acts: &[&Text],
    names: &Names,
) -> Result<List<JaniAutomaton>, AllocError>
    requires { map (λ x. x.now) acts.now ≡ actions (file_of file.now) }
    ensures { IfOk result (λ all. map jani.automaton_of all ≡ automata (names_in names.now) (file_of file.now)) }
{
    let silently = earns_silently(file);
    let values = location_values(alloc, file, names)?;
    let mut all = module_automata(alloc, silently, values, file, names)?;
    if has_monitor(alloc, file, acts)? {
        all.push(monitor(alloc, file, acts, names)?)?;
    }
    Ok(all)
}

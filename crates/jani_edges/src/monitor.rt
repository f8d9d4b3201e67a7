// The edges of the monitor.

ghost use Rattle.std.specs.Prelude.{◌≡◌, ◌++◌, map, IfOk, OnOk};
ghost use Rattle.process_core.specs.Instance.{only_if};
ghost use Rattle.prism_tree.specs.Syntax.{file_of};
ghost use Rattle.jani_tree.specs.Syntax as jani;
ghost use Rattle.jani_translation.specs.Parts.{made};
ghost use Rattle.jani_translation.specs.Automata.{zz_silent, for_silent, for_action, monitor_edge};
ghost use Rattle.jani_edges.specs.Code.{names_in, AreShares, gain_destinations, gain_edge};

use crate::new_names::{Names, new_action};
use crate::own_names::{loc, zz_silent};
use crate::rewards::{Wanted, add_rewards};
use crate::shares::Shares;
use bridge_io::{List, Named, Text, together};
use gathering::one_of;
use jani_tree::{JaniDestination, JaniEdge, JaniWrite};
use prism_tree::PrismFile;
use std::alloc::{AllocError, Global};

/// The one destination of an edge of the monitor, without probability.
fn gain_destinations(
    alloc: Global,
    writes: List<JaniWrite>,
) -> Result<List<JaniDestination>, AllocError>
    ensures { IfOk result (λ r. map jani.destination_of r ≡ gain_destinations (map jani.write_of writes)) }
{
    let location = loc(alloc)?;
    let destination = JaniDestination {
        location,
        weight: None,
        writes,
    };
    one_of(alloc, Ok(destination))
}

/// An edge of the monitor, without guard.
fn gain_edge(alloc: Global, action: Named, writes: List<JaniWrite>) -> Result<JaniEdge, AllocError>
    ensures { IfOk result (λ r. jani.edge_of r ≡ gain_edge action (map jani.write_of writes)) }
{
    let (location, destinations) = together(loc(alloc), gain_destinations(alloc, writes))?;
    Ok(JaniEdge {
        location,
        action: Some(action),
        guard: None,
        destinations,
        at: 0,
    })
}

/// The edge of the monitor for commands without action: each structure gets its sum.
fn silent_edge(alloc: Global, file: &PrismFile, names: &Names) -> Result<JaniEdge, AllocError>
    ensures { IfOk result (λ r. jani.edge_of r ≡ monitor_edge (names_in names.now) (file_of file.now) zz_silent for_silent) }
{
    let mut writes = List::new(alloc);
    add_rewards(
        alloc,
        &mut writes,
        &Wanted::Silent,
        file.rewards.as_slice(),
        names,
    )?;
    let action = zz_silent(alloc)?;
    let all = gain_edge(alloc, action, writes)?;
    Ok(all)
}

/// The edge of the monitor for an action: each structure gets its sum.
fn action_edge(
    alloc: Global,
    file: &PrismFile,
    shares: &Shares,
    a: &Text,
    names: &Names,
) -> Result<JaniEdge, AllocError>
    requires { AreShares (names_in names.now) shares.now (file_of file.now) }
    ensures { IfOk result (λ r. jani.edge_of r ≡
        monitor_edge (names_in names.now) (file_of file.now) (made ((names_in names.now).action a.now)) (for_action a.now)) }
{
    let writes = shares.sums(alloc, a.as_str(), names)?;
    let action = new_action(alloc, a, names)?;
    let all = gain_edge(alloc, action, writes)?;
    Ok(all)
}

/// The edges of the monitor for these actions. `Err` is want of memory.
pub fn action_edges(
    alloc: Global,
    file: &PrismFile,
    earning: &[&Text],
    names: &Names,
) -> Result<List<JaniEdge>, AllocError>
    ensures { IfOk result (λ all. map jani.edge_of all ≡
        map (λ a. monitor_edge (names_in names.now) (file_of file.now) (made ((names_in names.now).action a)) (for_action a)) (map (λ x. x.now) earning.now)) }
{
    let shares = Shares::of(alloc, file.rewards.as_slice(), names.rewards)?;
    let mut all = List::new(alloc);
    for a in earning {
        all.push(action_edge(alloc, file, &shares, a, names)?)?;
    }
    Ok(all)
}

/// Adds the edge of the monitor for commands without action, where it is wanted. `Err` is want of memory.
pub fn add_silent_edge(
    alloc: Global,
    all: &mut List<JaniEdge>,
    wanted: bool,
    file: &PrismFile,
    names: &Names,
) -> Result<(), AllocError>
    ensures { OnOk result (map jani.edge_of all.new ≡
        map jani.edge_of all.old ++ only_if wanted (monitor_edge (names_in names.now) (file_of file.now) zz_silent for_silent)) }
{
    if wanted {
        all.push(silent_edge(alloc, file, names)?)?;
    }
    Ok(())
}

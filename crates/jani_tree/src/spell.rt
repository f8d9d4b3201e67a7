// The canonical text of a tree, written straight from it.
ghost use Rattle.std.specs.Prelude.{◌≡◌, ◌++◌, List, IfOk, OnOk, Option, Some, codes, map, true};
ghost use Rattle.std.specs.Str.{is_utf8};
ghost use Rattle.std.specs.Option.{option_map};
ghost use Rattle.bridge_io.specs.declared.reason.Named.{Named};
ghost use Rattle.decimal_json.specs.Text.{behind_commas, quoted};
ghost use Rattle.op_trees.specs.Tree.{tree};
ghost use Rattle.jani_table.specs.Node.{Node};
ghost use Rattle.jani_table.specs.Operators.{op_text};
ghost use Rattle.jani_table.specs.Words.{ty_text};
ghost use Rattle.jani_tree.specs.Syntax.{bounded, Automaton, Const, Destination, Edge, Element, Location, Var, Vector, Write, automaton_of, const_of, destination_of, edge_of, element_of, file_of, kind_of, location_of, var_of, vector_of, write_of};
ghost use Rattle.std.specs.List.{AllByRecursion as OfAll};
ghost use Rattle.basics.specs.Options.{IfAny as OfSome};
ghost use Rattle.jani_tree.specs.Canonical.{automaton_node, boxed_node, const_node, destination_node, edge_node, element_node, expr_node, file_node, flag_node, kind_node, list_node, location_node, name_node, part_node, some_list, system_node, var_node, vector_node, word, write_node};
ghost use Rattle.jani_tree.specs.Back.{IsWritable};
ghost use Rattle.jani_tree.specs.Text.{KeptNode, SpellsNode, jani_text, node_text};
ghost use Rattle.jani_tree.specs.Pieces.{if_some, keyed_text, list_text};

use crate::syntax::{
    JaniAutomaton, JaniConst, JaniDestination, JaniEdge, JaniElement, JaniExpr, JaniFile, JaniKind,
    JaniLocation, JaniVar, JaniVector, JaniWrite,
};
use bridge_io::{List, Named, Text};
use decimal_json::{push_number, push_string, push_value};
use jani_table::{JaniOp, ty_text};
use op_trees::{Expr, Ty};
use std::alloc::{AllocError, Global};

// ---- names

/// Writes what stands in front of a name, and the name.
fn push_named(out: &mut Vec<u8>, lead: &[u8], n: &Named) -> Result<(), AllocError>
    ensures text { OnOk result (out.new.items ≡ out.old.items ++ (lead.now ++ quoted n.now.name)) }
    ensures utf8 { OnOk result (is_utf8 n.now.name ≡ true) }
{
    out.extend_from_slice(lead)?;
    push_string(out, n.name.as_str())
}

fn push_some_name(out: &mut Vec<u8>, lead: &[u8], n: &Option<Named>) -> Result<(), AllocError>
    ensures text { OnOk result (out.new.items ≡ out.old.items ++ if_some lead.now (option_map name_node n.now)) }
    ensures kept { OnOk result (OfSome KeptNode (option_map name_node n.now)) }
{
    match n {
        Some(n) => push_named(out, lead, n),
        None => Ok(()),
    }
}

fn push_some_note(out: &mut Vec<u8>, lead: &[u8], note: &Option<Text>) -> Result<(), AllocError>
    ensures text { OnOk result (out.new.items ≡ out.old.items ++ if_some lead.now (option_map word note.now)) }
    ensures kept { OnOk result (OfSome KeptNode (option_map word note.now)) }
{
    match note {
        Some(note) => {
            out.extend_from_slice(lead)?;
            push_string(out, note.as_str())
        }
        None => Ok(()),
    }
}

// ---- expressions

/// Writes the first member of an expression's object.
fn push_operator(out: &mut Vec<u8>, op: &JaniOp) -> Result<(), AllocError>
    ensures text { OnOk result (out.new.items ≡ out.old.items ++ (codes "{\"op\":" ++ quoted (op_text op.now))) }
    ensures utf8 { OnOk result (is_utf8 (op_text op.now) ≡ true) }
{
    out.extend_from_slice(b"{\"op\":")?;
    push_string(out, op.text())
}

/// Writes what stands in front of an expression, and the expression.
fn push_expression(out: &mut Vec<u8>, lead: &[u8], e: &JaniExpr) -> Result<(), AllocError>
    ensures text { OnOk result (out.new.items ≡ out.old.items ++ (lead.now ++ node_text (expr_node (tree e.now)))) }
    ensures kept { OnOk result (KeptNode (expr_node (tree e.now))) }
{
    out.extend_from_slice(lead)?;
    match e {
        Expr::Truth(_, true) => out.extend_from_slice(b"true"),
        Expr::Truth(_, false) => out.extend_from_slice(b"false"),
        Expr::Number(_, d) => push_number(out, *d),
        Expr::Name(_, x) => push_string(out, x.as_str()),
        Expr::One(_, op, a) => {
            push_operator(out, op)?;
            push_expression(out, b",\"exp\":", a)?;
            out.extend_from_slice(b"}")
        }
        Expr::Two(_, op, a, b) => {
            push_operator(out, op)?;
            push_expression(out, b",\"left\":", a)?;
            push_expression(out, b",\"right\":", b)?;
            out.extend_from_slice(b"}")
        }
        Expr::Three(_, op, a, b, c) => {
            push_operator(out, op)?;
            push_expression(out, b",\"if\":", a)?;
            push_expression(out, b",\"then\":", b)?;
            push_expression(out, b",\"else\":", c)?;
            out.extend_from_slice(b"}")
        }
    }
}

fn push_some_expression(
    out: &mut Vec<u8>,
    lead: &[u8],
    e: &Option<JaniExpr>,
) -> Result<(), AllocError>
    ensures text { OnOk result (out.new.items ≡ out.old.items ++ if_some lead.now (option_map expr_node (option_map tree e.now))) }
    ensures kept { OnOk result (OfSome KeptNode (option_map expr_node (option_map tree e.now))) }
{
    match e {
        Some(e) => push_expression(out, lead, e),
        None => Ok(()),
    }
}

fn push_some_boxed(out: &mut Vec<u8>, lead: &[u8], e: &Option<JaniExpr>) -> Result<(), AllocError>
    ensures text { OnOk result (out.new.items ≡ out.old.items ++ if_some lead.now (option_map boxed_node (option_map tree e.now))) }
    ensures kept { OnOk result (OfSome KeptNode (option_map boxed_node (option_map tree e.now))) }
{
    match e {
        Some(e) => {
            out.extend_from_slice(lead)?;
            push_expression(out, b"{\"exp\":", e)?;
            out.extend_from_slice(b"}")
        }
        None => Ok(()),
    }
}

// ---- lists

/// A tree that has a canonical text.
trait Shown: Drop {
    ghost Tree: { Type 0 };

    ghost seen: { Self → Tree };

    ghost shown: { Tree → Node };

    /// Writes the canonical text. `Err` is want of memory.
    fn push(&self, out: &mut Vec<u8>) -> Result<(), AllocError>
        ensures text { OnOk result (out.new.items ≡ out.old.items ++ node_text (shown (seen self.now))) }
        ensures kept { OnOk result (KeptNode (shown (seen self.now))) };
}

/// Writes the items of a list but the first.
fn push_more<T: Shown>(out: &mut Vec<u8>, trees: &[T]) -> Result<(), AllocError>
    ensures text { OnOk result (out.new.items ≡ out.old.items ++ behind_commas (map (λ x. node_text (T.shown (T.seen x))) trees.now)) }
    ensures kept { OnOk result (OfAll (λ x. KeptNode (T.shown (T.seen x))) trees.now) }
{
    'items: for x in trees {
        out.extend_from_slice(b",")?;
        x.push(out)?;
    }
    Ok(())
}

/// Writes what stands in front of a list, and the list.
fn push_list<T: Shown>(out: &mut Vec<u8>, lead: &[u8], trees: &List<T>) -> Result<(), AllocError>
    ensures text { OnOk result (out.new.items ≡ out.old.items ++ (lead.now ++ node_text (list_node T.shown 0 (map T.seen trees.now)))) }
    ensures kept { OnOk result (KeptNode (list_node T.shown 0 (map T.seen trees.now))) }
{
    out.extend_from_slice(lead)?;
    match trees.as_slice().split_first() {
        Some((x, more)) => {
            out.extend_from_slice(b"[")?;
            x.push(out)?;
            push_more(out, more)?;
            out.extend_from_slice(b"]")
        }
        None => out.extend_from_slice(b"[]"),
    }
}

/// A list, if it has items.
fn push_some_list<T: Shown>(
    out: &mut Vec<u8>,
    lead: &[u8],
    trees: &List<T>,
) -> Result<(), AllocError>
    ensures text { OnOk result (out.new.items ≡ out.old.items ++ if_some lead.now (some_list T.shown (map T.seen trees.now))) }
    ensures kept { OnOk result (OfSome KeptNode (some_list T.shown (map T.seen trees.now))) }
{
    if trees.len() == 0 {
        return Ok(());
    }
    push_list(out, lead, trees)
}

/// Writes an object whose one member is a name.
fn push_keyed(out: &mut Vec<u8>, lead: &[u8], n: &Named) -> Result<(), AllocError>
    ensures text { OnOk result (out.new.items ≡ out.old.items ++ keyed_text lead.now n.now) }
    ensures kept { OnOk result (KeptNode (name_node n.now)) }
{
    push_named(out, lead, n)?;
    out.extend_from_slice(b"}")
}

fn push_more_keyed(out: &mut Vec<u8>, lead: &[u8], names: &[Named]) -> Result<(), AllocError>
    ensures text { OnOk result (out.new.items ≡ out.old.items ++ behind_commas (map (keyed_text lead.now) names.now)) }
    ensures kept { OnOk result (OfAll (λ n. KeptNode (name_node n)) names.now) }
{
    'items: for n in names {
        out.extend_from_slice(b",")?;
        push_keyed(out, lead, n)?;
    }
    Ok(())
}

/// Writes objects that have each a name.
fn push_keyed_list(out: &mut Vec<u8>, lead: &[u8], names: &List<Named>) -> Result<(), AllocError>
    ensures text { OnOk result (out.new.items ≡ out.old.items ++ list_text (keyed_text lead.now) names.now) }
    ensures kept { OnOk result (OfAll (λ n. KeptNode (name_node n)) names.now) }
{
    match names.as_slice().split_first() {
        Some((n, more)) => {
            out.extend_from_slice(b"[")?;
            push_keyed(out, lead, n)?;
            push_more_keyed(out, lead, more)?;
            out.extend_from_slice(b"]")
        }
        None => out.extend_from_slice(b"[]"),
    }
}

impl Shown for Named {
    ghost Tree = { Named };

    ghost seen = { λ n. n };

    ghost shown = { name_node };

    fn push(&self, out: &mut Vec<u8>) -> Result<(), AllocError> {
        push_string(out, self.name.as_str())
    }
}

impl Shown for Option<Named> {
    ghost Tree = { Option Named };

    ghost seen = { λ n. n };

    ghost shown = { part_node };

    fn push(&self, out: &mut Vec<u8>) -> Result<(), AllocError> {
        match self {
            Some(n) => push_string(out, n.name.as_str()),
            None => out.extend_from_slice(b"null"),
        }
    }
}

// ---- constants and variables

fn push_ty(out: &mut Vec<u8>, ty: Ty) -> Result<(), AllocError>
    ensures text { OnOk result (out.new.items ≡ out.old.items ++ quoted (ty_text ty)) }
    ensures utf8 { OnOk result (is_utf8 (ty_text ty) ≡ true) }
{
    push_string(out, ty_text(ty))
}

impl Shown for JaniConst {
    ghost Tree = { Const };

    ghost seen = { const_of };

    ghost shown = { const_node };

    fn push(&self, out: &mut Vec<u8>) -> Result<(), AllocError> {
        push_named(out, b"{\"name\":", &self.name)?;
        out.extend_from_slice(b",\"type\":")?;
        push_ty(out, self.ty)?;
        push_some_expression(out, b",\"value\":", &self.value)?;
        push_some_note(out, b",\"comment\":", &self.note)?;
        out.extend_from_slice(b"}")
    }
}

fn push_bounded(out: &mut Vec<u8>, low: &JaniExpr, high: &JaniExpr) -> Result<(), AllocError>
    ensures text { OnOk result (out.new.items ≡ out.old.items ++ node_text (kind_node 0 (bounded (tree low.now) (tree high.now)))) }
    ensures kept { OnOk result (KeptNode (kind_node 0 (bounded (tree low.now) (tree high.now)))) }
{
    let lead = b"{\"kind\":\"bounded\",\"base\":\"int\",\"lower-bound\":";
    push_expression(out, lead, low)?;
    push_expression(out, b",\"upper-bound\":", high)?;
    out.extend_from_slice(b"}")
}

fn push_kind(out: &mut Vec<u8>, kind: &JaniKind) -> Result<(), AllocError>
    ensures text { OnOk result (out.new.items ≡ out.old.items ++ node_text (kind_node 0 (kind_of kind.now))) }
    ensures kept { OnOk result (KeptNode (kind_node 0 (kind_of kind.now))) }
{
    match kind {
        JaniKind::Bool => out.extend_from_slice(b"\"bool\""),
        JaniKind::Int => out.extend_from_slice(b"\"int\""),
        JaniKind::Real => out.extend_from_slice(b"\"real\""),
        JaniKind::RealBounded => {
            out.extend_from_slice(b"{\"kind\":\"bounded\",\"base\":\"real\"}")
        }
        JaniKind::OneSided => out.extend_from_slice(b"{\"kind\":\"bounded\",\"base\":\"int\"}"),
        JaniKind::Bounded(low, high) => push_bounded(out, low, high),
    }
}

fn push_flag(out: &mut Vec<u8>, flag: bool) -> Result<(), AllocError>
    ensures { OnOk result (out.new.items ≡ out.old.items ++ if_some (codes ",\"transient\":") (flag_node flag)) }
{
    match flag {
        true => out.extend_from_slice(b",\"transient\":true"),
        false => Ok(()),
    }
}

impl Shown for JaniVar {
    ghost Tree = { Var };

    ghost seen = { var_of };

    ghost shown = { var_node };

    fn push(&self, out: &mut Vec<u8>) -> Result<(), AllocError> {
        push_named(out, b"{\"name\":", &self.name)?;
        out.extend_from_slice(b",\"type\":")?;
        push_kind(out, &self.kind)?;
        push_flag(out, self.transient)?;
        push_some_expression(out, b",\"initial-value\":", &self.start)?;
        push_some_note(out, b",\"comment\":", &self.note)?;
        out.extend_from_slice(b"}")
    }
}

// ---- automata

impl Shown for JaniWrite {
    ghost Tree = { Write };

    ghost seen = { write_of };

    ghost shown = { write_node };

    fn push(&self, out: &mut Vec<u8>) -> Result<(), AllocError> {
        push_named(out, b"{\"ref\":", &self.target)?;
        push_expression(out, b",\"value\":", &self.value)?;
        out.extend_from_slice(b"}")
    }
}

impl Shown for JaniLocation {
    ghost Tree = { Location };

    ghost seen = { location_of };

    ghost shown = { location_node };

    fn push(&self, out: &mut Vec<u8>) -> Result<(), AllocError> {
        push_named(out, b"{\"name\":", &self.name)?;
        push_some_list(out, b",\"transient-values\":", &self.values)?;
        out.extend_from_slice(b"}")
    }
}

impl Shown for JaniDestination {
    ghost Tree = { Destination };

    ghost seen = { destination_of };

    ghost shown = { destination_node };

    fn push(&self, out: &mut Vec<u8>) -> Result<(), AllocError> {
        push_named(out, b"{\"location\":", &self.location)?;
        push_some_boxed(out, b",\"probability\":", &self.weight)?;
        push_some_list(out, b",\"assignments\":", &self.writes)?;
        out.extend_from_slice(b"}")
    }
}

impl Shown for JaniEdge {
    ghost Tree = { Edge };

    ghost seen = { edge_of };

    ghost shown = { edge_node };

    fn push(&self, out: &mut Vec<u8>) -> Result<(), AllocError> {
        push_named(out, b"{\"location\":", &self.location)?;
        push_some_name(out, b",\"action\":", &self.action)?;
        push_some_boxed(out, b",\"guard\":", &self.guard)?;
        push_list(out, b",\"destinations\":", &self.destinations)?;
        out.extend_from_slice(b"}")
    }
}

impl Shown for JaniAutomaton {
    ghost Tree = { Automaton };

    ghost seen = { automaton_of };

    ghost shown = { automaton_node };

    fn push(&self, out: &mut Vec<u8>) -> Result<(), AllocError> {
        push_named(out, b"{\"name\":", &self.name)?;
        push_some_list(out, b",\"variables\":", &self.variables)?;
        push_list(out, b",\"locations\":", &self.locations)?;
        push_list(out, b",\"initial-locations\":", &self.initial)?;
        push_list(out, b",\"edges\":", &self.edges)?;
        out.extend_from_slice(b"}")
    }
}

// ---- the composition and the file

impl Shown for JaniVector {
    ghost Tree = { Vector };

    ghost seen = { vector_of };

    ghost shown = { vector_node };

    fn push(&self, out: &mut Vec<u8>) -> Result<(), AllocError> {
        push_list(out, b"{\"synchronise\":", &self.parts)?;
        push_some_name(out, b",\"result\":", &self.result)?;
        out.extend_from_slice(b"}")
    }
}

impl Shown for JaniElement {
    ghost Tree = { Element };

    ghost seen = { element_of };

    ghost shown = { element_node };

    fn push(&self, out: &mut Vec<u8>) -> Result<(), AllocError> {
        push_named(out, b"{\"automaton\":", &self.name)?;
        push_some_list(out, b",\"input-enable\":", &self.enable)?;
        out.extend_from_slice(b"}")
    }
}

fn push_system(out: &mut Vec<u8>, file: &JaniFile) -> Result<(), AllocError>
    ensures text { OnOk result (out.new.items ≡ out.old.items ++ node_text (system_node (map element_of file.now.elements) 0 (map vector_of file.now.vectors))) }
    ensures kept { OnOk result (KeptNode (system_node (map element_of file.now.elements) 0 (map vector_of file.now.vectors))) }
{
    push_list(out, b"{\"elements\":", &file.elements)?;
    push_list(out, b",\"syncs\":", &file.vectors)?;
    out.extend_from_slice(b"}")
}

/// The members before the declarations, and the key of the actions.
const HEAD: &[u8] =
    b"{\"jani-version\":1,\"name\":\"model\",\"type\":\"mdp\",\"features\":[\"derived-operators\",\"state-exit-rewards\"],\"actions\":";

fn push_file(out: &mut Vec<u8>, file: &JaniFile) -> Result<(), AllocError>
    ensures text { OnOk result (out.new.items ≡ out.old.items ++ jani_text (file_of file.now)) }
    ensures kept { OnOk result (KeptNode (file_node (file_of file.now))) }
{
    out.extend_from_slice(HEAD)?;
    push_keyed_list(out, b"{\"name\":", &file.actions)?;
    push_list(out, b",\"constants\":", &file.constants)?;
    push_list(out, b",\"variables\":", &file.variables)?;
    push_some_boxed(out, b",\"restrict-initial\":", &file.restrict)?;
    out.extend_from_slice(b",\"properties\":")?;
    push_value(out, &file.properties)?;
    push_list(out, b",\"automata\":", &file.automata)?;
    out.extend_from_slice(b",\"system\":")?;
    push_system(out, file)?;
    out.extend_from_slice(b"}")
}

/// The canonical text of a tree: the members of each object in one order, each list that is empty and may be missing left out, no
/// spaces; strings and numbers as in the canonical text of a JSON value. It is the text of the tree's canonical value, of which
/// nothing is built on the way, and spells such a value where the tree can be written. So many bytes are set aside at first; a longer text
/// is moved as it grows. `Err` is want of memory, alone.
pub fn write_jani(alloc: Global, room: usize, file: &JaniFile) -> Result<List<u8>, AllocError>
    ensures text { IfOk result (λ t. t ≡ jani_text (file_of file.now)) }
    ensures value { IsWritable (file_of file.now) → IfOk result (λ t. SpellsNode t (file_node (file_of file.now))) }
{
    let mut out = Vec::with_capacity(alloc, room)?;
    push_file(&mut out, file)?;
    Ok(List::from_vec(out))
}

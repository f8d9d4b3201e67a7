// The canonical value of a tree.
ghost use Rattle.std.specs.Prelude.{◌≡◌, [], IfOk, OnOk, Option, Some, map};
ghost use Rattle.std.specs.Option.{option_map};
ghost use Rattle.bridge_io.specs.declared.reason.Named.{Named};
ghost use Rattle.op_trees.specs.Tree.{tree};
ghost use Rattle.jani_table.specs.declared.key.Key.TheVariants as K;
ghost use Rattle.jani_table.specs.Node.{Node, fields, no_fields, node, object, text};
ghost use Rattle.jani_table.specs.Operators.{op_text};
ghost use Rattle.jani_table.specs.Words.{ty_text};
ghost use Rattle.jani_tree.specs.Syntax.{bounded, Automaton, Const, Destination, Edge, Element, Location, Var, Vector, Write, automaton_of, const_of, destination_of, edge_of, element_of, file_of, kind_of, location_of, var_of, vector_of, write_of};
ghost use Rattle.jani_tree.specs.Jani.{IsFile};
ghost use Rattle.jani_tree.specs.Back.{IsCleanValue, IsWritable};
ghost use Rattle.jani_tree.specs.Canonical.{FileForm, automaton_node, bounded_word, boxed_node, const_node, destination_node, edge_node, element_node, expr_node, features_node, file_members, file_node, flag_node, head_members, keyed_node, kind_node, list_node, location_node, name_node, part_node, some_list, system_node, var_node, vector_node, version_node, with_entry, with_maybe, with_members, word, write_node};

use crate::copy::copy_json;
use crate::syntax::{
    JaniAutomaton, JaniConst, JaniDestination, JaniEdge, JaniElement, JaniExpr, JaniFile, JaniKind,
    JaniLocation, JaniVar, JaniVector, JaniWrite,
};
use bridge_io::{List, Named, Text};
use decimal_json::{Json, Member};
use frac_core::Decimal;
use jani_table::{Feature, JaniOp, Key, ty_text};
use op_trees::{Expr, Ty};
use std::alloc::{AllocError, Global};

// ---- members

/// Adds a member at the end; its key stands at 0.
fn add(alloc: Global, members: &mut List<Member>, key: Key, value: Json) -> Result<(), AllocError>
    ensures { OnOk result (fields members.new ≡ with_entry (fields members.old) key (node value)) }
{
    let name = Text::copy_of(alloc, key.text())?;
    members.push(Member {
        key: Named { name, at: 0 },
        value,
    })?;
    Ok(())
}

/// The same, if there is a value.
fn add_some(
    alloc: Global,
    members: &mut List<Member>,
    key: Key,
    value: Option<Json>,
) -> Result<(), AllocError>
    ensures { OnOk result (fields members.new ≡ with_maybe (fields members.old) key (option_map node value)) }
{
    match value {
        Some(value) => add(alloc, members, key, value),
        None => Ok(()),
    }
}

fn text_json(alloc: Global, at: usize, s: &str) -> Result<Json, AllocError>
    ensures { IfOk result (λ v. node v ≡ text at s.now) }
{
    Ok(Json::Str(at, Text::copy_of(alloc, s)?))
}

fn name_json(alloc: Global, n: &Named) -> Result<Json, AllocError>
    ensures { IfOk result (λ v. node v ≡ name_node n.now) }
{
    text_json(alloc, n.at, n.name.as_str())
}

/// Adds a name.
fn add_name(
    alloc: Global,
    members: &mut List<Member>,
    key: Key,
    n: &Named,
) -> Result<(), AllocError>
    ensures { OnOk result (fields members.new ≡ with_entry (fields members.old) key (name_node n.now)) }
{
    add(alloc, members, key, name_json(alloc, n)?)
}

/// Adds a name, if there is one.
fn add_some_name(
    alloc: Global,
    members: &mut List<Member>,
    key: Key,
    n: &Option<Named>,
) -> Result<(), AllocError>
    ensures { OnOk result (fields members.new ≡ with_maybe (fields members.old) key (option_map name_node n.now)) }
{
    match n {
        Some(n) => add_name(alloc, members, key, n),
        None => Ok(()),
    }
}

/// Adds a word, which stands at 0.
fn add_word(alloc: Global, members: &mut List<Member>, key: Key, s: &str) -> Result<(), AllocError>
    ensures { OnOk result (fields members.new ≡ with_entry (fields members.old) key (word s.now)) }
{
    add(alloc, members, key, text_json(alloc, 0, s)?)
}

/// Adds a comment, if there is one.
fn add_note(
    alloc: Global,
    members: &mut List<Member>,
    note: &Option<Text>,
) -> Result<(), AllocError>
    ensures { OnOk result (fields members.new ≡ with_maybe (fields members.old) K.Comment (option_map word note.now)) }
{
    match note {
        Some(s) => add_word(alloc, members, Key::Comment, s.as_str()),
        None => Ok(()),
    }
}

fn keyed_json(alloc: Global, key: Key, n: &Named) -> Result<Json, AllocError>
    ensures { IfOk result (λ v. node v ≡ keyed_node key n.now) }
{
    let mut members = List::new(alloc);
    add_name(alloc, &mut members, key, n)?;
    Ok(Json::Object(0, members, 0))
}

// ---- expressions

/// The first member of an operator's object.
fn operator_json(alloc: Global, op: JaniOp) -> Result<List<Member>, AllocError>
    ensures { IfOk result (λ ms. fields ms ≡ with_entry no_fields K.Op (word (op_text op))) }
{
    let mut members = List::new(alloc);
    add_word(alloc, &mut members, Key::Op, op.text())?;
    Ok(members)
}

/// Adds two operands.
#[cycle(expression_json)]
fn add_two(
    alloc: Global,
    members: &mut List<Member>,
    left: &JaniExpr,
    right: &JaniExpr,
) -> Result<(), AllocError>
    ensures { OnOk result (fields members.new ≡ with_entry (with_entry (fields members.old) K.Left (expr_node (tree left.now))) K.Right (expr_node (tree right.now))) }
{
    add_expression(alloc, members, Key::Left, left)?;
    add_expression(alloc, members, Key::Right, right)
}

/// Adds the operands of a choice.
#[cycle(expression_json)]
fn add_three(
    alloc: Global,
    members: &mut List<Member>,
    test: &JaniExpr,
    yes: &JaniExpr,
    no: &JaniExpr,
) -> Result<(), AllocError>
    ensures { OnOk result (fields members.new ≡ with_entry (with_entry (with_entry (fields members.old) K.If (expr_node (tree test.now))) K.Then (expr_node (tree yes.now))) K.Else (expr_node (tree no.now))) }
{
    add_expression(alloc, members, Key::If, test)?;
    add_expression(alloc, members, Key::Then, yes)?;
    add_expression(alloc, members, Key::Else, no)
}

#[cycle(expression_json)]
fn expression_json(alloc: Global, e: &JaniExpr) -> Result<Json, AllocError>
    ensures { IfOk result (λ v. node v ≡ expr_node (tree e.now)) }
{
    match e {
        Expr::Truth(at, b) => Ok(Json::Truth(*at, *b)),
        Expr::Number(at, d) => Ok(Json::Number(*at, *d)),
        Expr::Name(at, x) => text_json(alloc, *at, x.as_str()),
        Expr::One(at, op, a) => {
            let mut members = operator_json(alloc, *op)?;
            add_expression(alloc, &mut members, Key::Exp, a)?;
            Ok(Json::Object(*at, members, 0))
        }
        Expr::Two(at, op, a, b) => {
            let mut members = operator_json(alloc, *op)?;
            add_two(alloc, &mut members, a, b)?;
            Ok(Json::Object(*at, members, 0))
        }
        Expr::Three(at, op, a, b, c) => {
            let mut members = operator_json(alloc, *op)?;
            add_three(alloc, &mut members, a, b, c)?;
            Ok(Json::Object(*at, members, 0))
        }
    }
}

/// Adds an expression.
#[cycle(expression_json)]
fn add_expression(
    alloc: Global,
    members: &mut List<Member>,
    key: Key,
    e: &JaniExpr,
) -> Result<(), AllocError>
    ensures { OnOk result (fields members.new ≡ with_entry (fields members.old) key (expr_node (tree e.now))) }
{
    add(alloc, members, key, expression_json(alloc, e)?)
}

/// Adds an expression, if there is one.
fn add_some_expression(
    alloc: Global,
    members: &mut List<Member>,
    key: Key,
    e: &Option<JaniExpr>,
) -> Result<(), AllocError>
    ensures { OnOk result (fields members.new ≡ with_maybe (fields members.old) key (option_map expr_node (option_map tree e.now))) }
{
    match e {
        Some(e) => add_expression(alloc, members, key, e),
        None => Ok(()),
    }
}

fn boxed_json(alloc: Global, e: &JaniExpr) -> Result<Json, AllocError>
    ensures { IfOk result (λ v. node v ≡ boxed_node (tree e.now)) }
{
    let mut members = List::new(alloc);
    add_expression(alloc, &mut members, Key::Exp, e)?;
    Ok(Json::Object(0, members, 0))
}

/// Adds a guard or a probability, if there is one.
fn add_some_boxed(
    alloc: Global,
    members: &mut List<Member>,
    key: Key,
    e: &Option<JaniExpr>,
) -> Result<(), AllocError>
    ensures { OnOk result (fields members.new ≡ with_maybe (fields members.old) key (option_map boxed_node (option_map tree e.now))) }
{
    match e {
        Some(e) => add(alloc, members, key, boxed_json(alloc, e)?),
        None => Ok(()),
    }
}

// ---- lists

/// A tree that has a canonical value.
trait Written: Drop {
    ghost Tree: { Type 0 };

    ghost seen: { Self → Tree };

    ghost shown: { Tree → Node };

    /// The canonical value. `Err` is want of memory.
    fn json(&self, alloc: Global) -> Result<Json, AllocError>
        ensures { IfOk result (λ v. node v ≡ shown (seen self.now)) };
}

fn list_json<T: Written>(alloc: Global, at: usize, trees: &List<T>) -> Result<Json, AllocError>
    ensures { IfOk result (λ v. node v ≡ list_node T.shown at (map T.seen trees.now)) }
{
    let mut items = List::new(alloc);
    'items: for x in trees.as_slice() {
        let item = x.json(alloc)?;
        items.push(item)?;
    }
    Ok(Json::Array(at, items))
}

/// Adds a list.
fn add_list<T: Written>(
    alloc: Global,
    members: &mut List<Member>,
    key: Key,
    at: usize,
    trees: &List<T>,
) -> Result<(), AllocError>
    ensures { OnOk result (fields members.new ≡ with_entry (fields members.old) key (list_node T.shown at (map T.seen trees.now))) }
{
    add(alloc, members, key, list_json(alloc, at, trees)?)
}

/// Adds a list, if it has items.
fn add_some_list<T: Written>(
    alloc: Global,
    members: &mut List<Member>,
    key: Key,
    trees: &List<T>,
) -> Result<(), AllocError>
    ensures { OnOk result (fields members.new ≡ with_maybe (fields members.old) key (some_list T.shown (map T.seen trees.now))) }
{
    if trees.len() == 0 {
        return Ok(());
    }
    add_list(alloc, members, key, 0, trees)
}

/// Objects that have each a name.
fn keyed_list(alloc: Global, at: usize, key: Key, names: &List<Named>) -> Result<Json, AllocError>
    ensures { IfOk result (λ v. node v ≡ list_node (keyed_node key) at names.now) }
{
    let mut items = List::new(alloc);
    'items: for n in names.as_slice() {
        let item = keyed_json(alloc, key, n)?;
        items.push(item)?;
    }
    Ok(Json::Array(at, items))
}

/// Adds a list of objects that have each a name.
fn add_keyed(
    alloc: Global,
    members: &mut List<Member>,
    key: Key,
    at: usize,
    item_key: Key,
    names: &List<Named>,
) -> Result<(), AllocError>
    ensures { OnOk result (fields members.new ≡ with_entry (fields members.old) key (list_node (keyed_node item_key) at names.now)) }
{
    add(alloc, members, key, keyed_list(alloc, at, item_key, names)?)
}

impl Written for Named {
    ghost Tree = { Named };

    ghost seen = { λ n. n };

    ghost shown = { name_node };

    fn json(&self, alloc: Global) -> Result<Json, AllocError> {
        name_json(alloc, self)
    }
}

impl Written for Option<Named> {
    ghost Tree = { Option Named };

    ghost seen = { λ n. n };

    ghost shown = { part_node };

    fn json(&self, alloc: Global) -> Result<Json, AllocError> {
        match self {
            Some(n) => name_json(alloc, n),
            None => Ok(Json::Null(0)),
        }
    }
}

fn names_json(alloc: Global, names: &List<Named>) -> Result<Json, AllocError>
    ensures { IfOk result (λ v. node v ≡ list_node name_node 0 names.now) }
{
    let list = list_json(alloc, 0, names)?;
    Ok(list)
}

fn parts_json(alloc: Global, at: usize, parts: &List<Option<Named>>) -> Result<Json, AllocError>
    ensures { IfOk result (λ v. node v ≡ list_node part_node at parts.now) }
{
    let list = list_json(alloc, at, parts)?;
    Ok(list)
}

// ---- constants and variables

impl Written for JaniConst {
    ghost Tree = { Const };

    ghost seen = { const_of };

    ghost shown = { const_node };

    fn json(&self, alloc: Global) -> Result<Json, AllocError> {
        let mut members = List::new(alloc);
        add_name(alloc, &mut members, Key::Name, &self.name)?;
        add_word(alloc, &mut members, Key::Type, ty_text(self.ty))?;
        add_some_expression(alloc, &mut members, Key::Value, &self.value)?;
        add_note(alloc, &mut members, &self.note)?;
        Ok(Json::Object(0, members, 0))
    }
}

/// The first members of a bounded type.
fn range_json(alloc: Global, ty: Ty) -> Result<List<Member>, AllocError>
    ensures { IfOk result (λ ms. fields ms ≡ with_entry (with_entry no_fields K.Kind bounded_word) K.Base (word (ty_text ty))) }
{
    let mut members = List::new(alloc);
    add_word(alloc, &mut members, Key::Kind, "bounded")?;
    add_word(alloc, &mut members, Key::Base, ty_text(ty))?;
    Ok(members)
}

fn bounded_json(
    alloc: Global,
    at: usize,
    low: &JaniExpr,
    high: &JaniExpr,
) -> Result<Json, AllocError>
    ensures { IfOk result (λ v. node v ≡ kind_node at (bounded (tree low.now) (tree high.now))) }
{
    let mut members = range_json(alloc, Ty::Int)?;
    add_expression(alloc, &mut members, Key::LowerBound, low)?;
    add_expression(alloc, &mut members, Key::UpperBound, high)?;
    Ok(Json::Object(at, members, 0))
}

fn kind_json(alloc: Global, at: usize, kind: &JaniKind) -> Result<Json, AllocError>
    ensures { IfOk result (λ v. node v ≡ kind_node at (kind_of kind.now)) }
{
    match kind {
        JaniKind::Bool => text_json(alloc, at, ty_text(Ty::Bool)),
        JaniKind::Int => text_json(alloc, at, ty_text(Ty::Int)),
        JaniKind::Real => text_json(alloc, at, ty_text(Ty::Real)),
        JaniKind::RealBounded => Ok(Json::Object(at, range_json(alloc, Ty::Real)?, 0)),
        JaniKind::OneSided => Ok(Json::Object(at, range_json(alloc, Ty::Int)?, 0)),
        JaniKind::Bounded(low, high) => bounded_json(alloc, at, low, high),
    }
}

fn flag_json(flag: bool) -> Option<Json>
    ensures { option_map node result ≡ flag_node flag }
{
    match flag {
        true => Some(Json::Truth(0, true)),
        false => None,
    }
}

/// Adds the members of a variable.
fn add_var(alloc: Global, members: &mut List<Member>, var: &JaniVar) -> Result<(), AllocError>
    ensures { OnOk result (members.old ≡ [] → object 0 (fields members.new) 0 ≡ var_node (var_of var.now)) }
{
    add_name(alloc, members, Key::Name, &var.name)?;
    let kind = kind_json(alloc, var.kind_at, &var.kind)?;
    add(alloc, members, Key::Type, kind)?;
    add_some(alloc, members, Key::Transient, flag_json(var.transient))?;
    add_some_expression(alloc, members, Key::InitialValue, &var.start)?;
    add_note(alloc, members, &var.note)
}

impl Written for JaniVar {
    ghost Tree = { Var };

    ghost seen = { var_of };

    ghost shown = { var_node };

    fn json(&self, alloc: Global) -> Result<Json, AllocError> {
        let mut members = List::new(alloc);
        add_var(alloc, &mut members, self)?;
        Ok(Json::Object(0, members, 0))
    }
}

// ---- automata

impl Written for JaniWrite {
    ghost Tree = { Write };

    ghost seen = { write_of };

    ghost shown = { write_node };

    fn json(&self, alloc: Global) -> Result<Json, AllocError> {
        let mut members = List::new(alloc);
        add_name(alloc, &mut members, Key::Ref, &self.target)?;
        add_expression(alloc, &mut members, Key::Value, &self.value)?;
        Ok(Json::Object(0, members, 0))
    }
}

impl Written for JaniLocation {
    ghost Tree = { Location };

    ghost seen = { location_of };

    ghost shown = { location_node };

    fn json(&self, alloc: Global) -> Result<Json, AllocError> {
        let mut members = List::new(alloc);
        add_name(alloc, &mut members, Key::Name, &self.name)?;
        add_some_list(alloc, &mut members, Key::TransientValues, &self.values)?;
        Ok(Json::Object(0, members, 0))
    }
}

impl Written for JaniDestination {
    ghost Tree = { Destination };

    ghost seen = { destination_of };

    ghost shown = { destination_node };

    fn json(&self, alloc: Global) -> Result<Json, AllocError> {
        let mut members = List::new(alloc);
        add_name(alloc, &mut members, Key::Location, &self.location)?;
        add_some_boxed(alloc, &mut members, Key::Probability, &self.weight)?;
        add_some_list(alloc, &mut members, Key::Assignments, &self.writes)?;
        Ok(Json::Object(0, members, 0))
    }
}

impl Written for JaniEdge {
    ghost Tree = { Edge };

    ghost seen = { edge_of };

    ghost shown = { edge_node };

    fn json(&self, alloc: Global) -> Result<Json, AllocError> {
        let mut members = List::new(alloc);
        add_name(alloc, &mut members, Key::Location, &self.location)?;
        add_some_name(alloc, &mut members, Key::Action, &self.action)?;
        add_some_boxed(alloc, &mut members, Key::Guard, &self.guard)?;
        add_list(
            alloc,
            &mut members,
            Key::Destinations,
            self.at,
            &self.destinations,
        )?;
        Ok(Json::Object(0, members, 0))
    }
}

/// Adds the members of an automaton.
fn add_automaton(
    alloc: Global,
    members: &mut List<Member>,
    automaton: &JaniAutomaton,
) -> Result<(), AllocError>
    ensures { OnOk result (members.old ≡ [] → object 0 (fields members.new) 0 ≡ automaton_node (automaton_of automaton.now)) }
{
    add_name(alloc, members, Key::Name, &automaton.name)?;
    add_some_list(alloc, members, Key::Variables, &automaton.variables)?;
    add_list(alloc, members, Key::Locations, 0, &automaton.locations)?;
    let initial = names_json(alloc, &automaton.initial)?;
    add(alloc, members, Key::InitialLocations, initial)?;
    add_list(alloc, members, Key::Edges, 0, &automaton.edges)
}

impl Written for JaniAutomaton {
    ghost Tree = { Automaton };

    ghost seen = { automaton_of };

    ghost shown = { automaton_node };

    fn json(&self, alloc: Global) -> Result<Json, AllocError> {
        let mut members = List::new(alloc);
        add_automaton(alloc, &mut members, self)?;
        Ok(Json::Object(0, members, 0))
    }
}

// ---- the composition and the file

impl Written for JaniVector {
    ghost Tree = { Vector };

    ghost seen = { vector_of };

    ghost shown = { vector_node };

    fn json(&self, alloc: Global) -> Result<Json, AllocError> {
        let mut members = List::new(alloc);
        add(
            alloc,
            &mut members,
            Key::Synchronise,
            parts_json(alloc, self.at, &self.parts)?,
        )?;
        add_some_name(alloc, &mut members, Key::Result, &self.result)?;
        Ok(Json::Object(0, members, 0))
    }
}

impl Written for JaniElement {
    ghost Tree = { Element };

    ghost seen = { element_of };

    ghost shown = { element_node };

    fn json(&self, alloc: Global) -> Result<Json, AllocError> {
        let mut members = List::new(alloc);
        add_name(alloc, &mut members, Key::Automaton, &self.name)?;
        add_some_list(alloc, &mut members, Key::InputEnable, &self.enable)?;
        Ok(Json::Object(0, members, 0))
    }
}

fn system_json(alloc: Global, file: &JaniFile) -> Result<Json, AllocError>
    ensures { IfOk result (λ v. node v ≡ system_node (map element_of file.now.elements) file.now.elements_at (map vector_of file.now.vectors)) }
{
    let mut members = List::new(alloc);
    add_list(
        alloc,
        &mut members,
        Key::Elements,
        file.elements_at,
        &file.elements,
    )?;
    add_list(alloc, &mut members, Key::Syncs, 0, &file.vectors)?;
    Ok(Json::Object(0, members, 0))
}

fn features_json(alloc: Global) -> Result<Json, AllocError>
    ensures { IfOk result (λ v. node v ≡ features_node) }
{
    let mut items = List::new(alloc);
    items.push(text_json(alloc, 0, Feature::DerivedOperators.text())?)?;
    items.push(text_json(alloc, 0, Feature::StateExitRewards.text())?)?;
    Ok(Json::Array(0, items))
}

fn version_json() -> Json
    ensures { node result ≡ version_node }
{
    Json::Number(
        0,
        Decimal {
            real: false,
            negative: false,
            digits: 1,
            exponent: 0,
        },
    )
}

/// Adds the members before the declarations.
fn add_head(alloc: Global, members: &mut List<Member>) -> Result<(), AllocError>
    ensures { OnOk result (fields members.new ≡ with_members (fields members.old) head_members) }
{
    add(alloc, members, Key::JaniVersion, version_json())?;
    add_word(alloc, members, Key::Name, "model")?;
    add_word(alloc, members, Key::Type, "mdp")?;
    add(alloc, members, Key::Features, features_json(alloc)?)
}

/// Adds the members of a file behind those before the declarations.
fn add_file(alloc: Global, members: &mut List<Member>, file: &JaniFile) -> Result<(), AllocError>
    ensures { OnOk result (fields members.new ≡ with_members (fields members.old) (file_members (file_of file.now))) }
{
    add_keyed(alloc, members, Key::Actions, 0, Key::Name, &file.actions)?;
    add_list(alloc, members, Key::Constants, 0, &file.constants)?;
    add_list(alloc, members, Key::Variables, 0, &file.variables)?;
    add_some_boxed(alloc, members, Key::RestrictInitial, &file.restrict)?;
    let properties = copy_json(alloc, &file.properties)?;
    add(alloc, members, Key::Properties, properties)?;
    add_list(alloc, members, Key::Automata, 0, &file.automata)?;
    add(alloc, members, Key::System, system_json(alloc, file)?)
}

fn file_json(alloc: Global, file: &JaniFile) -> Result<Json, AllocError>
    ensures { IfOk result (λ v. node v ≡ file_node (file_of file.now)) }
{
    let mut members = List::new(alloc);
    add_head(alloc, &mut members)?;
    add_file(alloc, &mut members, file)?;
    Ok(Json::Object(0, members, 0))
}

/// The canonical value of a tree: members in one order; names, expressions and the lists whose offset is kept at their own
/// offsets, all else at 0. It spells the same tree, if each node has its operator's number of operands, and each bounded
/// type is an int with both bounds. If besides the tree has the form of trees, and no object of its properties has a key twice,
/// then the value has no fault of shape but names of more than 255 bytes, each number of it is in normal form, and no object of
/// it has a key twice. `Err` is want of memory.
pub fn to_json(alloc: Global, file: &JaniFile) -> Result<Json, AllocError>
    ensures value { IfOk result (λ v. node v ≡ file_node (file_of file.now)) }
    ensures again { IfOk result (λ v. FileForm (file_of file.now) → IsFile (node v) (file_of file.now)) }
    ensures clean { IfOk result (λ v. IsWritable (file_of file.now) → IsCleanValue v) }
{
    let value = file_json(alloc, file)?;
    Ok(value)
}

// The texts of properties.

ghost use Rattle.std.specs.Prelude.{◌≡◌, ◌++◌, OnOk, codes};
ghost use Rattle.op_trees.specs.Tree.{tree};
ghost use Rattle.jani_images.specs.Image.{image};
ghost use Rattle.prism_print.specs.Text.{enclosed, expression_text};
ghost use Rattle.prop_grammar.specs.Property.{finally_within, until_within};
ghost use Rattle.prop_trees.specs.Trees.{ask_with, path_with};
ghost use Rattle.prop_trees.specs.Syntax.{jani_ask_of, jani_path_of, jani_property_of};
ghost use Rattle.prop_trees.specs.Text.{ask_text, compare_text, is_choice, is_function_name, operand_text, path_text, probability_text, reward_text, steps_text, structure_name};
ghost use Rattle.prop_trees.specs.Names.{quoted};
ghost use Rattle.prop_to_prism.specs.Code.{name_in, names_of, written_property};

use crate::names::PropertyNames;
use jani_images::image;
use jani_tree::JaniExpr;
use module_parts::name_at;
use name_table::Entry;
use op_trees::Expr;
use prism_exprs::function_of;
use prism_print::{is_node, write_expression};
use prism_tree::PrismExpr;
use prop_grammar::Compare;
use prop_trees::{JaniAsk, JaniPath, JaniProperty};
use std::alloc::{AllocError, Global};

/// Writes a property under this new name, of a model whose reward structures have these entries: a line.
pub(crate) fn write_property(
    alloc: Global,
    out: &mut Vec<u8>,
    names: &PropertyNames,
    rewards: &[Entry],
    name: &str,
    property: &JaniProperty,
) -> Result<(), AllocError>
    ensures { OnOk result (out.new.items
        ≡ out.old.items ++ written_property (name_in names.now) (names_of rewards.now) name.now (jani_property_of property.now)) }
{
    write_quoted(out, name)?;
    out.extend_from_slice(b": ")?;
    write_ask(alloc, out, names, rewards, &property.ask)?;
    out.extend_from_slice(b" [ ")?;
    write_path(alloc, out, names, &property.path)?;
    out.extend_from_slice(b" ];\n")
}

// Writes a name between quotes.
fn write_quoted(out: &mut Vec<u8>, name: &str) -> Result<(), AllocError>
    ensures { OnOk result (out.new.items ≡ out.old.items ++ quoted name.now) }
{
    out.extend_from_slice(b"\"")?;
    out.extend_from_slice(name.as_bytes())?;
    out.extend_from_slice(b"\"")
}

// Writes what is asked.
fn write_ask(
    alloc: Global,
    out: &mut Vec<u8>,
    names: &PropertyNames,
    rewards: &[Entry],
    ask: &JaniAsk,
) -> Result<(), AllocError>
    ensures { OnOk result (out.new.items
        ≡ out.old.items ++ ask_text (names_of rewards.now) (ask_with (image (name_in names.now)) (λ i. i) (jani_ask_of ask.now))) }
{
    match ask {
        JaniAsk::PMax => out.extend_from_slice(b"Pmax=?"),
        JaniAsk::PMin => out.extend_from_slice(b"Pmin=?"),
        JaniAsk::PBound(compare, e) => {
            out.extend_from_slice(b"P")?;
            out.extend_from_slice(compare_text(*compare))?;
            write_probability(alloc, out, names, e)
        }
        JaniAsk::RMax(i) => write_reward(out, reward_name(rewards, *i), b"max"),
        JaniAsk::RMin(i) => write_reward(out, reward_name(rewards, *i), b"min"),
    }
}

fn compare_text(compare: Compare) -> &'static [u8]
    ensures { result.now ≡ compare_text compare }
{
    match compare {
        Compare::Less => b"<",
        Compare::AtMost => b"<=",
        Compare::AtLeast => b">=",
        Compare::Greater => b">",
    }
}

// The name of the reward structure of this number, by the entries of all.
fn reward_name(rewards: &[Entry], i: usize) -> &str
    ensures { result.now ≡ structure_name (names_of rewards.now) i }
{
    name_at(rewards, i)
}

// Writes a query of the reward structure of this name.
fn write_reward(out: &mut Vec<u8>, name: &str, which: &[u8]) -> Result<(), AllocError>
    ensures { OnOk result (out.new.items ≡ out.old.items ++ reward_text name.now which.now) }
{
    out.extend_from_slice(b"R{")?;
    write_quoted(out, name)?;
    out.extend_from_slice(b"}")?;
    out.extend_from_slice(which)?;
    out.extend_from_slice(b"=?")
}

// Writes the form of the paths.
fn write_path(
    alloc: Global,
    out: &mut Vec<u8>,
    names: &PropertyNames,
    path: &JaniPath,
) -> Result<(), AllocError>
    ensures { OnOk result (out.new.items ≡ out.old.items ++ path_text (path_with (image (name_in names.now)) (jani_path_of path.now))) }
{
    match path {
        JaniPath::Finally(e) => write_one(alloc, out, names, b"F ", e),
        JaniPath::Globally(e) => write_one(alloc, out, names, b"G ", e),
        JaniPath::Until(a, b) => write_two(alloc, out, names, a, b" U ", b),
        JaniPath::WeakUntil(a, b) => write_two(alloc, out, names, a, b" W ", b),
        JaniPath::FinallyWithin(k, e) => write_finally_within(alloc, out, names, k, e),
        JaniPath::UntilWithin(k, a, b) => write_until_within(alloc, out, names, k, a, b),
    }
}

// Writes the paths that reach an operand within a bound of steps.
fn write_finally_within(
    alloc: Global,
    out: &mut Vec<u8>,
    names: &PropertyNames,
    k: &JaniExpr,
    e: &JaniExpr,
) -> Result<(), AllocError>
    ensures { OnOk result (out.new.items
        ≡ out.old.items ++ path_text (finally_within (image (name_in names.now) (tree k.now)) (image (name_in names.now) (tree e.now)))) }
{
    out.extend_from_slice(b"F<=")?;
    write_within(alloc, out, names, k, e)
}

// Writes the paths along the first operand that reach the second within a bound of steps.
fn write_until_within(
    alloc: Global,
    out: &mut Vec<u8>,
    names: &PropertyNames,
    k: &JaniExpr,
    a: &JaniExpr,
    b: &JaniExpr,
) -> Result<(), AllocError>
    ensures { OnOk result (out.new.items ≡ out.old.items
        ++ path_text (until_within (image (name_in names.now) (tree k.now)) (image (name_in names.now) (tree a.now)) (image (name_in names.now) (tree b.now)))) }
{
    write_operand(alloc, out, names, a)?;
    out.extend_from_slice(b" U<=")?;
    write_within(alloc, out, names, k, b)
}

// Writes a word and an operand.
fn write_one(
    alloc: Global,
    out: &mut Vec<u8>,
    names: &PropertyNames,
    word: &[u8],
    e: &JaniExpr,
) -> Result<(), AllocError>
    ensures { OnOk result (out.new.items ≡ out.old.items ++ (word.now ++ operand_text (image (name_in names.now) (tree e.now)))) }
{
    out.extend_from_slice(word)?;
    write_operand(alloc, out, names, e)
}

// Writes two operands with a word between them.
fn write_two(
    alloc: Global,
    out: &mut Vec<u8>,
    names: &PropertyNames,
    a: &JaniExpr,
    word: &[u8],
    b: &JaniExpr,
) -> Result<(), AllocError>
    ensures { OnOk result (out.new.items
        ≡ out.old.items ++ (operand_text (image (name_in names.now) (tree a.now)) ++ (word.now ++ operand_text (image (name_in names.now) (tree b.now))))) }
{
    write_operand(alloc, out, names, a)?;
    out.extend_from_slice(word)?;
    write_operand(alloc, out, names, b)
}

// Writes a bound of steps and an operand.
fn write_within(
    alloc: Global,
    out: &mut Vec<u8>,
    names: &PropertyNames,
    k: &JaniExpr,
    e: &JaniExpr,
) -> Result<(), AllocError>
    ensures { OnOk result (out.new.items
        ≡ out.old.items ++ (steps_text (image (name_in names.now) (tree k.now)) ++ (codes " " ++ operand_text (image (name_in names.now) (tree e.now))))) }
{
    write_steps(alloc, out, names, k)?;
    out.extend_from_slice(b" ")?;
    write_operand(alloc, out, names, e)
}

// Writes an operand of a path, in parentheses where it is a choice.
fn write_operand(
    alloc: Global,
    out: &mut Vec<u8>,
    names: &PropertyNames,
    e: &JaniExpr,
) -> Result<(), AllocError>
    ensures { OnOk result (out.new.items ≡ out.old.items ++ operand_text (image (name_in names.now) (tree e.now))) }
{
    let e = image(alloc, e, names)?;
    write_enclosed(out, is_choice(&e), &e)
}

// Writes a bound of probability, in parentheses where it is an operator node.
fn write_probability(
    alloc: Global,
    out: &mut Vec<u8>,
    names: &PropertyNames,
    e: &JaniExpr,
) -> Result<(), AllocError>
    ensures { OnOk result (out.new.items ≡ out.old.items ++ probability_text (image (name_in names.now) (tree e.now))) }
{
    let e = image(alloc, e, names)?;
    write_enclosed(out, is_node(&e), &e)
}

// Writes a bound of steps, in parentheses where it is an operator node or the name of a function.
fn write_steps(
    alloc: Global,
    out: &mut Vec<u8>,
    names: &PropertyNames,
    e: &JaniExpr,
) -> Result<(), AllocError>
    ensures { OnOk result (out.new.items ≡ out.old.items ++ steps_text (image (name_in names.now) (tree e.now))) }
{
    let e = image(alloc, e, names)?;
    write_enclosed(out, is_node(&e) || is_function_name(&e), &e)
}

fn write_enclosed(out: &mut Vec<u8>, parentheses: bool, e: &PrismExpr) -> Result<(), AllocError>
    ensures { OnOk result (out.new.items ≡ out.old.items ++ enclosed parentheses (expression_text (tree e.now))) }
{
    if !parentheses {
        return write_expression(out, e);
    }
    out.extend_from_slice(b"(")?;
    write_expression(out, e)?;
    out.extend_from_slice(b")")
}

fn is_choice(e: &PrismExpr) -> bool
    ensures { result ≡ is_choice (tree e.now) }
{
    matches!(e, Expr::Three(_, _, _, _, _))
}

// Whether it is the name of a function.
fn is_function_name(e: &PrismExpr) -> bool
    ensures { result ≡ is_function_name (tree e.now) }
{
    match e {
        Expr::Name(_, name) => function_of(name.as_str()).is_some(),
        _ => false,
    }
}

// The targets of a file.

ghost use Rattle.std.specs.Prelude.{◌≡◌, ◌+◌, ◌++◌, ◌∷◌, [], map, length, vec_len, OnOk};
ghost use Rattle.edge_tables.specs.Code.{split_view};
ghost use Rattle.prism_targets.specs.Code.{target_view};
ghost use Rattle.prism_targets.specs.Made.{made_alone, made_by, made_of, plain_of};

use edge_tables::VectorSplit;
use jani_tree::JaniVector;
use std::alloc::AllocError;

/// The edge that a target is made for: its element, and its number among the edges of that.
#[derive(Clone, Copy)]
pub struct Maker {
    pub element: usize,
    pub edge: usize,
}

/// What an action of the translated file is made for: a vector, if it is made for one, with the number of its reward writer, if
/// there is one; and the edge that it earns the rewards of. A plain one earns nothing.
#[derive(Clone, Copy)]
pub struct Target<'a> {
    pub vector: Option<&'a JaniVector>,
    pub writer: Option<usize>,
    pub maker: Option<Maker>,
}

/// Adds the targets of a vector that are made for edges.
pub(crate) fn add_made<'a>(
    all: &mut Vec<Target<'a>>,
    split: &VectorSplit<'a, '_>,
) -> Result<(), AllocError>
    ensures { OnOk result (map target_view all.new.items ≡ map target_view all.old.items ++ made_of (split_view split.now)) }
{
    for edge in split.makers {
        all.push(made_for(split, *edge))?;
    }
    Ok(())
}

/// That which is made for an edge of the reward writer.
fn made_for<'a>(split: &VectorSplit<'a, '_>, edge: usize) -> Target<'a>
    ensures { target_view result ≡ made_by (split_view split.now) edge }
{
    let maker = match split.writer {
        Some(element) => Some(Maker { element, edge }),
        None => None,
    };
    Target {
        vector: Some(split.vector),
        writer: split.writer,
        maker,
    }
}

/// Adds the plain target of a vector, if it has one.
pub(crate) fn add_plain<'a>(
    all: &mut Vec<Target<'a>>,
    split: &VectorSplit<'a, '_>,
) -> Result<(), AllocError>
    ensures { OnOk result (map target_view all.new.items ≡ map target_view all.old.items ++ plain_of (split_view split.now)) }
{
    if split.plain {
        all.push(Target {
            vector: Some(split.vector),
            writer: split.writer,
            maker: None,
        })?;
    }
    Ok(())
}

/// Adds the targets of the silent edges of an element that assign rewards, where these are their numbers.
pub(crate) fn add_silent<'a>(
    all: &mut Vec<Target<'a>>,
    element: usize,
    edges: &[usize],
) -> Result<(), AllocError>
    ensures targets { OnOk result (map target_view all.new.items ≡ map target_view all.old.items ++ made_alone element edges.now) }
    ensures count { OnOk result (vec_len all.new ≡ vec_len all.old + length edges.now) }
{
    for edge in edges {
        all.push(made_alone(element, *edge))?;
    }
    Ok(())
}

/// That which is made for a silent edge of this element.
fn made_alone<'a>(element: usize, edge: usize) -> Target<'a>
    ensures { target_view result ∷ [] ≡ made_alone element (edge ∷ []) }
{
    Target {
        vector: None,
        writer: None,
        maker: Some(Maker { element, edge }),
    }
}

// Parts of a value that has no fault.
ghost use Rattle.std.specs.Prelude.{◌≡◌, ◌<◌, Some, IfOk, IfSome, IsTrue};
ghost use Rattle.std.specs.Option.{option_copied, option_map};
ghost use Rattle.jani_table.specs.Node.{node, size};
ghost use Rattle.jani_tree.specs.Jani.{IsNamed};
ghost use Rattle.jani_props.specs.declared.table.PropForm.TheVariants as F;
ghost use Rattle.jani_props.specs.Shape.{part};
ghost use Rattle.jani_props.specs.Clean.{IsClean, IsCleanObject, is_known, is_needed, part_form};

use crate::shape::prop_member;
use crate::table::{PropKey, PropKind};
use bridge_io::{Named, Text};
use decimal_json::Json;
use jani_table::{Form, text_of};
use std::alloc::{AllocError, Global};

/// The value of a member; none where the value is no object or has no member with this key.
pub(crate) fn part(key: PropKey, value: &Json) -> Option<&Json>
    ensures { option_map node (option_copied result) ≡ part key (node value.now) }
{
    match value {
        Json::Object(_, members, _) => prop_member(key, members.as_slice()),
        _ => None,
    }
}

/// The value of a member of an object of this kind, which may be missing.
#[tactic(auto, using(crate::proofs::Cleaned::part_clean))]
pub(crate) fn optional(kind: PropKind, key: PropKey, value: &Json) -> Option<&Json>
    requires known { IsTrue (is_known kind key) }
    requires clean { IsCleanObject kind (node value.now) }
    ensures member { option_map node (option_copied result) ≡ part key (node value.now) }
    ensures clean { IfSome result (λ w. IsClean (part_form kind key) (node w.now)) }
{
    part(key, value)
}

/// The value of a required member of an object of this kind.
#[tactic(auto, using(crate::proofs::Cleaned::part_smaller))]
pub(crate) fn required(kind: PropKind, key: PropKey, value: &Json) -> &Json
    requires known { IsTrue (is_known kind key) }
    requires needed { IsTrue (is_needed kind key) }
    requires clean { IsCleanObject kind (node value.now) }
    ensures member { part key (node value.now) ≡ Some (node result.now) }
    ensures clean { IsClean (part_form kind key) (node result.now) }
    ensures smaller { size (node result.now) < size (node value.now) }
{
    match optional(kind, key, value) {
        Some(w) => w,
        None => unreachable!(),
    }
}

/// The name that a value is.
#[tactic(auto, using(crate::proofs::Cleaned::name_clean))]
pub(crate) fn name(alloc: Global, value: &Json) -> Result<Named, AllocError>
    requires { IsClean F.Name (node value.now) }
    ensures { IfOk result (λ n. IsNamed (node value.now) n) }
{
    let (at, s) = text_of(Form::Name, value);
    let name = Text::copy_of(alloc, s)?;
    Ok(Named { name, at })
}

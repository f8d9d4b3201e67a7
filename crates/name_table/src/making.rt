// Names that are made.

ghost use Rattle.std.specs.Prelude.{◌≡◌, IfOk};
ghost use Rattle.name_table.specs.Rule.{begins_zz, made_name};

use crate::class::NameClass;
use bridge_io::Text;
use itoa::Buffer;
use std::alloc::{AllocError, Global};

/// Whether a name is of the form of those that are made.
pub(crate) fn begins_zz(name: &str) -> bool
    ensures { result ≡ begins_zz name.now }
{
    name.as_bytes().starts_with(b"zz_")
}

/// The name that is made for the entry of this number among those of its class.
#[tactic(auto, using(frac_core::proofs::Digits::digits_decimal))]
pub(crate) fn made_name(alloc: Global, class: NameClass, number: usize) -> Result<Text, AllocError>
    ensures { IfOk result (λ name. name ≡ made_name class number) }
{
    let mut name = String::from_str(alloc, class.prefix())?;
    let mut buffer = Buffer::new();
    name.push_str(buffer.format(number))?;
    Text::from_string(name)
}

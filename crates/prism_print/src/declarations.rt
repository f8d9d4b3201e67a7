// The texts of constants, variables, formulas and labels.

ghost use Rattle.std.specs.Prelude.{◌≡◌};
ghost use Rattle.prism_print.specs.Text.{type_text};

use crate::parts::{Canonical, Part, write_parts};
use op_trees::Ty;
use prism_tree::{PrismConst, PrismFormula, PrismLabel, PrismVar};
use std::alloc::AllocError;

fn type_text(ty: Ty) -> &'static [u8]
    ensures { result.now ≡ type_text ty }
{
    match ty {
        Ty::Bool => b"bool",
        Ty::Int => b"int",
        Ty::Real => b"double",
    }
}

impl Canonical for PrismConst {
    ghost use Rattle.prism_tree.specs.Syntax.{const_of};
    ghost use Rattle.prism_print.specs.Text.{const_text};

    ghost text = { λ c. const_text (const_of c) };

    fn write(&self, out: &mut Vec<u8>) -> Result<(), AllocError> {
        write_parts(
            out,
            &[
                Part::Plain(b"const "),
                Part::Plain(type_text(self.ty)),
                Part::Plain(b" "),
                Part::Name(&self.name.name),
                Part::Behind(b" = ", &self.value),
                Part::Plain(b";\n"),
            ],
        )
    }
}

impl Canonical for PrismVar {
    ghost use Rattle.prism_tree.specs.Syntax.{var_of};
    ghost use Rattle.prism_print.specs.Text.{var_text};

    ghost text = { λ v. var_text (var_of v) };

    fn write(&self, out: &mut Vec<u8>) -> Result<(), AllocError> {
        match &self.range {
            Some(range) => write_parts(
                out,
                &[
                    Part::Name(&self.name.name),
                    Part::Plain(b" : ["),
                    Part::Expression(&range.low),
                    Part::Plain(b".."),
                    Part::Expression(&range.high),
                    Part::Plain(b"]"),
                    Part::Behind(b" init ", &self.start),
                    Part::Plain(b";\n"),
                ],
            ),
            None => write_parts(
                out,
                &[
                    Part::Name(&self.name.name),
                    Part::Plain(b" : bool"),
                    Part::Behind(b" init ", &self.start),
                    Part::Plain(b";\n"),
                ],
            ),
        }
    }
}

impl Canonical for PrismFormula {
    ghost use Rattle.prism_tree.specs.Syntax.{formula_of};
    ghost use Rattle.prism_print.specs.Text.{formula_text};

    ghost text = { λ f. formula_text (formula_of f) };

    fn write(&self, out: &mut Vec<u8>) -> Result<(), AllocError> {
        write_parts(
            out,
            &[
                Part::Plain(b"formula "),
                Part::Name(&self.name.name),
                Part::Plain(b" = "),
                Part::Expression(&self.body),
                Part::Plain(b";\n"),
            ],
        )
    }
}

impl Canonical for PrismLabel {
    ghost use Rattle.prism_tree.specs.Syntax.{label_of};
    ghost use Rattle.prism_print.specs.Text.{label_text};

    ghost text = { λ l. label_text (label_of l) };

    fn write(&self, out: &mut Vec<u8>) -> Result<(), AllocError> {
        write_parts(
            out,
            &[
                Part::Plain(b"label \""),
                Part::Name(&self.name.name),
                Part::Plain(b"\" = "),
                Part::Expression(&self.body),
                Part::Plain(b";\n"),
            ],
        )
    }
}

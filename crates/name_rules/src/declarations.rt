// What is declared, and the names that it uses.

ghost use Rattle.std.specs.Prelude.{◌≡◌};
ghost use Rattle.name_rules.specs.Circles.{declared_by};
ghost use Rattle.name_rules.specs.Rounds.{some_use};

use crate::telling::Telling;

/// Something that is declared: its name, where that stands, and the names that it uses.
pub struct Declaration<'a> {
    /// The name.
    pub name: &'a str,
    /// Where it stands.
    pub at: usize,
    /// The names that it uses, as often as it does.
    pub uses: Vec<&'a str>,
}

// Written out, so that it is proved here, and not in each crate that holds one.
impl<'a> Drop for Declaration<'a> {
    fn drop(self) {
        let Declaration {
            name: _,
            at: _,
            uses,
        } = self;
        drop(uses);
    }
}

/// Whether something that a declaration uses is such a one.
pub(crate) fn some_use<T: Telling>(test: &T, declaration: &Declaration) -> bool
    ensures { result ≡ some_use (T.tells test.now) (declared_by declaration.now) }
{
    for name in &declaration.uses {
        if test.tells(*name) {
            return true;
        }
    }
    false
}

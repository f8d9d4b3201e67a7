//! What is wide, undefined or out of range in the parts of a combination.
ghost use Rattle.std.specs.Prelude.{◌≡◌};
ghost use Rattle.state_choices.specs.Flaws.{both, flaws_in};

use crate::data::{Command, Reward, Update, Write};
use crate::values::{is_undefined, is_wide, is_wide_sum, number_of};
use frac_core::Frac;
use op_trees::EvalFail;

/// Whether something is wide, something undefined, and something that is assigned outside its range.
#[derive(Clone, Copy)]
pub(crate) struct Flaws {
    pub wide: bool,
    pub undef: bool,
    pub range: bool,
}

impl Flaws {
    pub fn or(self, other: Flaws) -> Flaws
        ensures { result ≡ both self other }
    {
        Flaws {
            wide: self.wide || other.wide,
            undef: self.undef || other.undef,
            range: self.range || other.range,
        }
    }
}

/// What may have flaws.
pub(crate) trait Flawed {
    ghost use Rattle.state_choices.specs.declared.flaws.Flaws.{Flaws};

    ghost flaws: { Self → Flaws };

    fn flaws(&self) -> Flaws
        ensures { result ≡ flaws self.now };
}

/// The flaws of all items.
pub(crate) fn flaws_in<T: Flawed>(items: &[T]) -> Flaws
    ensures { result ≡ flaws_in T.flaws items.now }
{
    let mut all = Flaws {
        wide: false,
        undef: false,
        range: false,
    };
    for item in items {
        all = all.or(item.flaws());
    }
    all
}

impl Flawed for Result<Frac, EvalFail> {
    ghost use Rattle.state_choices.specs.Flaws.{sum_flaws};

    ghost flaws = { sum_flaws };

    fn flaws(&self) -> Flaws {
        Flaws {
            wide: is_wide_sum(*self),
            undef: self.is_err(),
            range: false,
        }
    }
}

impl Flawed for Write {
    ghost use Rattle.state_choices.specs.Flaws.{write_flaws};

    ghost flaws = { write_flaws };

    fn flaws(&self) -> Flaws {
        let undef = is_undefined(self.value);
        Flaws {
            wide: is_wide(self.value),
            undef,
            range: !undef && !self.fits,
        }
    }
}

impl Flawed for Reward {
    ghost use Rattle.state_choices.specs.Flaws.{reward_flaws};

    ghost flaws = { reward_flaws };

    fn flaws(&self) -> Flaws {
        Flaws {
            wide: is_wide(self.value),
            undef: number_of(self.value).is_none(),
            range: false,
        }
    }
}

impl Flawed for Update {
    ghost use Rattle.state_choices.specs.Flaws.{update_flaws};

    ghost flaws = { update_flaws };

    fn flaws(&self) -> Flaws {
        let weight = Flaws {
            wide: is_wide(self.weight),
            undef: number_of(self.weight).is_none(),
            range: false,
        };
        weight
            .or(flaws_in(self.writes.as_slice()))
            .or(flaws_in(self.rewards.as_slice()))
    }
}

impl Flawed for &Command {
    ghost use Rattle.state_choices.specs.Flaws.{participant_flaws};

    ghost flaws = { participant_flaws };

    fn flaws(&self) -> Flaws {
        flaws_in(self.updates.as_slice())
    }
}

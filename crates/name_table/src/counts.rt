// How many entries there are of each class.

ghost use Rattle.std.specs.Prelude.{◌≡◌, ◌+◌, ◌<◌, ◌^◌, if◌then◌else◌};
ghost use Rattle.name_table.specs.Rule.{same_class};
ghost use Rattle.name_table.specs.State.{count_in};

use crate::class::NameClass;

/// A number for each class.
#[derive(Drop)]
pub(crate) struct Counts {
    by_class: [usize; 8],
}

impl Counts {
    /// Nothing of any class.
    pub(crate) fn new() -> Counts
        ensures { (c : NameClass) → count_in result c ≡ 0 }
    {
        Counts { by_class: [0; 8] }
    }

    /// How many there are of the class.
    pub(crate) fn get(&self, class: NameClass) -> usize
        ensures { result ≡ count_in self.now class }
    {
        self.by_class[class.number()]
    }

    /// One more of the class.
    pub(crate) fn add(&mut self, class: NameClass)
        requires { count_in self.old class + 1 < 2 ^ 64 }
        ensures { (c : NameClass) → count_in self.new c ≡ count_in self.old c + (if same_class class c then 1 else 0) }
    {
        self.by_class[class.number()] += 1;
    }
}

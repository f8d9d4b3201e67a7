// What is named, in which language, and the spaces in which names differ.

ghost use Rattle.std.specs.Prelude.{◌≡◌};
ghost use Rattle.name_table.specs.Rule.{class_number, prefix, space};

/// What a name is given to.
#[derive(Clone, Copy, Debug, PartialEq, Eq)]
pub enum NameClass {
    /// a constant
    Constant,
    /// a variable
    Variable,
    /// a location of an automaton
    Location,
    /// a module or an automaton
    Module,
    /// an action
    Action,
    /// a label
    Label,
    /// a reward structure
    Reward,
    /// a property
    Property,
}

/// The language that is translated to.
#[derive(Clone, Copy, Debug, PartialEq, Eq)]
pub enum Target {
    /// the PRISM language
    Prism,
    /// JANI
    Jani,
}

/// A space of names: no two names of one space are the same.
#[derive(Clone, Copy, Debug, PartialEq, Eq)]
pub(crate) enum Space {
    Values,
    Modules,
    Actions,
    Labels,
    Rewards,
    Properties,
}

impl NameClass {
    /// Its place among the classes, from 0.
    pub(crate) fn number(self) -> usize
        ensures { result ≡ class_number self }
    {
        self as usize
    }

    /// What a name that is made for it begins with.
    pub(crate) fn prefix(self) -> &'static str
        ensures { result.now ≡ prefix self }
    {
        match self {
            NameClass::Constant => "zz_c_",
            NameClass::Variable => "zz_v_",
            NameClass::Location => "zz_loc_",
            NameClass::Module => "zz_m_",
            NameClass::Action => "zz_a_",
            NameClass::Label => "zz_l_",
            NameClass::Reward => "zz_r_",
            NameClass::Property => "zz_p_",
        }
    }

    /// The space of its names.
    pub(crate) fn space_in(self, target: Target) -> Space
        ensures { result ≡ space target self }
    {
        match (target, self) {
            (_, NameClass::Constant | NameClass::Variable | NameClass::Location) => Space::Values,
            (_, NameClass::Module) => Space::Modules,
            (_, NameClass::Action) => Space::Actions,
            (_, NameClass::Property) => Space::Properties,
            (Target::Jani, NameClass::Label | NameClass::Reward) => Space::Values,
            (Target::Prism, NameClass::Label) => Space::Labels,
            (Target::Prism, NameClass::Reward) => Space::Rewards,
        }
    }
}

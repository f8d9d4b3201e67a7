//! Laws of choices: functions that do nothing, whose contracts are the laws.
ghost use Rattle.state_choices.specs.Groups.{GroupLaws};
ghost use Rattle.state_choices.specs.Members.{MemberLaws};
ghost use Rattle.state_choices.specs.Trimmed.{TrimmingLaw, ComputedLaws};

/// An answer by what a program tells of commands or edges, of a wide value only that it is so, and no update of a command
/// whose guard is false, is an answer by the commands or edges themselves.
pub fn trimming_law()
    ensures choices { TrimmingLaw }
    ensures computed { ComputedLaws }
{}

/// The groups of modules and of elements have their combinations, in order.
pub fn group_laws()
    ensures { GroupLaws }
{}

/// The groups of such members are those of the modules or elements, trimmed.
pub fn member_laws()
    ensures { MemberLaws }
{}

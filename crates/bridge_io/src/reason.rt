// Why a file is refused, and where.
ghost use Rattle.std.specs.Prelude.{◌≡◌};
ghost use Rattle.bridge_io.specs.Reason.{number_of, name_of};
ghost use Rattle.bridge_io.specs.declared.reason.Refused.TheVariants.{Memory};

use crate::Text;
use std::alloc::AllocError;
use std::fmt;
use thiserror::Error;

/// Why a file is refused. Each reason has a number and a name of its own, which a refusal line shows.
#[derive(Clone, Copy, PartialEq, Eq)]
pub enum Reason {
    /// A file, a name or a string is longer than the limit.
    TooLong = 1,
    /// No token begins at this byte.
    BadByte = 2,
    /// A number has too many digits or too large an exponent.
    BadNumber = 3,
    /// No file goes on with this token.
    Syntax = 4,
    /// An expression has too many tokens, or brackets are nested too deep.
    TooDeep = 5,
    /// The model is of another kind than a Markov decision process.
    OtherKind = 6,
    /// A form of the language that is left out here.
    LeftOut = 7,
    /// A name is declared twice.
    TwiceNamed = 8,
    /// A name is not declared.
    Unknown = 9,
    /// A constant or a formula depends on itself.
    Cycle = 10,
    /// A module's copy leaves a variable without a new name.
    RenameMissing = 11,
    /// The copied module is a copy itself.
    RenameOfRenamed = 12,
    /// An expression is not of the type that is wanted, or has none.
    WrongType = 13,
    /// An expression that has to be constant names a variable.
    NotConstant = 14,
    /// What is written is not a variable that may be written here.
    ForeignWrite = 15,
    /// A command with an action writes a global variable.
    SyncGlobalWrite = 16,
    /// A variable is written twice in one step.
    WrittenTwice = 17,
    /// The model has no module, or no automaton that takes part.
    Nothing = 18,
    /// The model, or what it would be translated to, is too large.
    TooLarge = 19,
    /// No JSON text goes on with this byte.
    JsonSyntax = 20,
    /// An object has a member twice.
    TwiceMember = 21,
    /// An object lacks a member.
    MissingMember = 22,
    /// An object has a member that is not known.
    UnknownMember = 23,
    /// A value is not of the kind that is wanted here, or is none of those that are known.
    WrongShape = 24,
    /// The model asks for a feature that is not supported.
    OtherFeature = 25,
    /// An integer variable is not bounded on both sides.
    UnboundedVariable = 26,
    /// A variable is real and not transient.
    RealVariable = 27,
    /// An expression reads a transient variable where it may not.
    TransientRead = 28,
    /// A transient variable begins with another value than false or 0.
    TransientInitial = 29,
    /// Locations of two automata give a value to one transient variable.
    TransientTwoAutomata = 30,
    /// An edge assigns a transient variable that is a label.
    LabelOnEdge = 31,
    /// The destinations of one edge assign different rewards.
    BranchReward = 32,
    /// Two automata assign rewards in one step.
    TwoRewardWriters = 33,
    /// A global variable is written by edges of two automata.
    SharedWrite = 34,
    /// A synchronisation vector has another length than the elements, or names no action.
    BadVector = 35,
    /// An edge has no destination.
    NoDestination = 38,
    /// An automaton takes part twice.
    RepeatedAutomaton = 39,
    /// A form of property that is left out here.
    PropertyLeftOut = 40,
    /// A line of a file of states, of rows or of a path is not of its form.
    RowSyntax = 41,
    /// A variable has a first value of its own although the file has an initial condition.
    TwoInits = 43,
}

impl Reason {
    /// Its number, without memory.
    pub fn number(self) -> u8
        ensures { result ≡ number_of self }
    {
        self as u8
    }

    /// Its name, without memory: that of the variant.
    pub fn name(self) -> &'static str
        ensures { result.now ≡ name_of self }
    {
        match self {
            Reason::TooLong => "TooLong",
            Reason::BadByte => "BadByte",
            Reason::BadNumber => "BadNumber",
            Reason::Syntax => "Syntax",
            Reason::TooDeep => "TooDeep",
            Reason::OtherKind => "OtherKind",
            Reason::LeftOut => "LeftOut",
            Reason::TwiceNamed => "TwiceNamed",
            Reason::Unknown => "Unknown",
            Reason::Cycle => "Cycle",
            Reason::RenameMissing => "RenameMissing",
            Reason::RenameOfRenamed => "RenameOfRenamed",
            Reason::WrongType => "WrongType",
            Reason::NotConstant => "NotConstant",
            Reason::ForeignWrite => "ForeignWrite",
            Reason::SyncGlobalWrite => "SyncGlobalWrite",
            Reason::WrittenTwice => "WrittenTwice",
            Reason::Nothing => "Nothing",
            Reason::TooLarge => "TooLarge",
            Reason::JsonSyntax => "JsonSyntax",
            Reason::TwiceMember => "TwiceMember",
            Reason::MissingMember => "MissingMember",
            Reason::UnknownMember => "UnknownMember",
            Reason::WrongShape => "WrongShape",
            Reason::OtherFeature => "OtherFeature",
            Reason::UnboundedVariable => "UnboundedVariable",
            Reason::RealVariable => "RealVariable",
            Reason::TransientRead => "TransientRead",
            Reason::TransientInitial => "TransientInitial",
            Reason::TransientTwoAutomata => "TransientTwoAutomata",
            Reason::LabelOnEdge => "LabelOnEdge",
            Reason::BranchReward => "BranchReward",
            Reason::TwoRewardWriters => "TwoRewardWriters",
            Reason::SharedWrite => "SharedWrite",
            Reason::BadVector => "BadVector",
            Reason::NoDestination => "NoDestination",
            Reason::RepeatedAutomaton => "RepeatedAutomaton",
            Reason::PropertyLeftOut => "PropertyLeftOut",
            Reason::RowSyntax => "RowSyntax",
            Reason::TwoInits => "TwoInits",
        }
    }
}

impl fmt::Debug for Reason {
    fn fmt<W: fmt::Write>(&self, f: &mut fmt::Formatter<W>) -> fmt::Result {
        f.write_str(self.name())
    }
}

/// What a file is refused for, and the byte offset where.
#[derive(Clone, Copy, Debug, PartialEq, Eq)]
pub struct Fault {
    /// The reason.
    pub reason: Reason,
    /// The byte offset, from 0.
    pub at: usize,
}

/// Why there is no answer for a file.
#[derive(Debug, Drop, Error)]
pub enum Refused {
    /// Memory was refused.
    #[error("Memory")]
    Memory(AllocError),
    /// The file has this fault.
    #[error("At")]
    At(Fault),
}

impl From<AllocError> for Refused {
    ghost from_gives = { λ e r. r ≡ Memory e };

    fn from(e: AllocError) -> Refused {
        Refused::Memory(e)
    }
}

/// A name, and the byte offset where it stands.
#[derive(Drop)]
pub struct Named {
    /// The name.
    pub name: Text,
    /// The byte offset of its first byte, from 0.
    pub at: usize,
}

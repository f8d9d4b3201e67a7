// The keys of the members of the format (jani-model specification, version 1).
ghost use Rattle.std.specs.Prelude.{◌≡◌};
ghost use Rattle.jani_table.specs.Table.{spelled};

/// The keys of the members that are known.
#[derive(Clone, Copy)]
pub enum Key {
    /// `jani-version`
    JaniVersion,
    /// `name`
    Name,
    /// `type`
    Type,
    /// `features`
    Features,
    /// `actions`
    Actions,
    /// `constants`
    Constants,
    /// `variables`
    Variables,
    /// `restrict-initial`
    RestrictInitial,
    /// `properties`
    Properties,
    /// `automata`
    Automata,
    /// `system`
    System,
    /// `functions`
    Functions,
    /// `metadata`
    Metadata,
    /// `value`
    Value,
    /// `kind`
    Kind,
    /// `base`
    Base,
    /// `lower-bound`
    LowerBound,
    /// `upper-bound`
    UpperBound,
    /// `transient`
    Transient,
    /// `initial-value`
    InitialValue,
    /// `locations`
    Locations,
    /// `initial-locations`
    InitialLocations,
    /// `edges`
    Edges,
    /// `transient-values`
    TransientValues,
    /// `time-progress`
    TimeProgress,
    /// `ref`
    Ref,
    /// `location`
    Location,
    /// `action`
    Action,
    /// `guard`
    Guard,
    /// `destinations`
    Destinations,
    /// `rate`
    Rate,
    /// `probability`
    Probability,
    /// `assignments`
    Assignments,
    /// `index`
    Index,
    /// `elements`
    Elements,
    /// `syncs`
    Syncs,
    /// `automaton`
    Automaton,
    /// `input-enable`
    InputEnable,
    /// `synchronise`
    Synchronise,
    /// `result`
    Result,
    /// `exp`
    Exp,
    /// `op`
    Op,
    /// `constant`
    Constant,
    /// `left`
    Left,
    /// `right`
    Right,
    /// `if`
    If,
    /// `then`
    Then,
    /// `else`
    Else,
    /// `comment`
    Comment,
}

impl Key {
    /// As it is written.
    pub fn text(self) -> &'static str
        ensures { result.now ≡ spelled self }
    {
        match self {
            Key::JaniVersion => "jani-version",
            Key::Name => "name",
            Key::Type => "type",
            Key::Features => "features",
            Key::Actions => "actions",
            Key::Constants => "constants",
            Key::Variables => "variables",
            Key::RestrictInitial => "restrict-initial",
            Key::Properties => "properties",
            Key::Automata => "automata",
            Key::System => "system",
            Key::Functions => "functions",
            Key::Metadata => "metadata",
            Key::Value => "value",
            Key::Kind => "kind",
            Key::Base => "base",
            Key::LowerBound => "lower-bound",
            Key::UpperBound => "upper-bound",
            Key::Transient => "transient",
            Key::InitialValue => "initial-value",
            Key::Locations => "locations",
            Key::InitialLocations => "initial-locations",
            Key::Edges => "edges",
            Key::TransientValues => "transient-values",
            Key::TimeProgress => "time-progress",
            Key::Ref => "ref",
            Key::Location => "location",
            Key::Action => "action",
            Key::Guard => "guard",
            Key::Destinations => "destinations",
            Key::Rate => "rate",
            Key::Probability => "probability",
            Key::Assignments => "assignments",
            Key::Index => "index",
            Key::Elements => "elements",
            Key::Syncs => "syncs",
            Key::Automaton => "automaton",
            Key::InputEnable => "input-enable",
            Key::Synchronise => "synchronise",
            Key::Result => "result",
            Key::Exp => "exp",
            Key::Op => "op",
            Key::Constant => "constant",
            Key::Left => "left",
            Key::Right => "right",
            Key::If => "if",
            Key::Then => "then",
            Key::Else => "else",
            Key::Comment => "comment",
        }
    }
}

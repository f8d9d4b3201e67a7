// Names, numbers and quoted names.
ghost use Rattle.std.specs.Prelude.{◌≡◌, ◌≤◌, take};
ghost use Rattle.prism_lex.specs.Automaton.{step, accepts, after, longest};

/// How far a name, a number or a quoted name has come.
#[derive(Clone, Copy, PartialEq, Eq)]
pub enum State {
    Start,
    Letters,
    Whole,
    Point,
    Part,
    Mark,
    Sign,
    Power,
    Quote,
    Inside,
    Closed,
    Dead,
}

/// The state that a byte leads to.
#[inline(always)]
pub(crate) fn step(state: State, byte: u8) -> State
    ensures { result ≡ step state byte }
{
    match (state, byte) {
        (State::Start | State::Letters, b'a'..=b'z' | b'A'..=b'Z' | b'_') => State::Letters,
        (State::Letters, b'0'..=b'9') => State::Letters,
        (State::Start | State::Whole, b'0'..=b'9') => State::Whole,
        (State::Start | State::Whole, b'.') => State::Point,
        (State::Point | State::Part, b'0'..=b'9') => State::Part,
        (State::Whole | State::Part, b'e' | b'E') => State::Mark,
        (State::Mark, b'+' | b'-') => State::Sign,
        (State::Mark | State::Sign | State::Power, b'0'..=b'9') => State::Power,
        (State::Start, b'"') => State::Quote,
        (State::Quote | State::Inside, b'a'..=b'z' | b'A'..=b'Z' | b'_') => State::Inside,
        (State::Inside, b'0'..=b'9') => State::Inside,
        (State::Inside, b'"') => State::Closed,
        _ => State::Dead,
    }
}

fn accepts(state: State) -> bool
    ensures { result ≡ accepts state }
{
    matches!(
        state,
        State::Letters | State::Whole | State::Part | State::Power | State::Closed
    )
}

/// The length of the longest name, number or quoted name at the front, 0 where none stands there, and the
/// state that it leads to.
#[tactic(auto, using(crate::proofs::Longest::dead_stop, crate::proofs::Longest::after_more))]
pub(crate) fn scan(bytes: &[u8]) -> (usize, State)
    ensures len { result.0 ≡ longest State.Start bytes.now }
    ensures state { result.1 ≡ after State.Start (take result.0 bytes.now) }
{
    let mut state = State::Start;
    let mut len = 0;
    let mut last = State::Start;
    for (i, byte) in bytes.iter().enumerate() {
        state = step(state, *byte);
        if state == State::Dead {
            return (len, last);
        }
        if accepts(state) {
            len = i + 1;
            last = state;
        }
    }
    (len, last)
}

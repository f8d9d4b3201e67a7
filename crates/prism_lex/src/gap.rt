// What stands between tokens.
ghost use Rattle.std.specs.Prelude.{◌≡◌, ◌≤◌, length};
ghost use Rattle.prism_lex.specs.Gaps.{gap_step, may_end, gap_len};

/// How far a gap has come.
#[derive(Clone, Copy, PartialEq, Eq)]
pub(crate) enum Gap {
    Between,
    FirstSlash,
    Comment,
    Other,
}

fn gap_step(state: Gap, byte: u8) -> Gap
    ensures { result ≡ gap_step state byte }
{
    match (state, byte) {
        (Gap::Between, b' ' | b'\t' | b'\n' | b'\r') => Gap::Between,
        (Gap::Between, b'/') => Gap::FirstSlash,
        (Gap::FirstSlash, b'/') => Gap::Comment,
        (Gap::Comment, b'\n') => Gap::Between,
        (Gap::Comment, _) => Gap::Comment,
        _ => Gap::Other,
    }
}

fn may_end(state: Gap) -> bool
    ensures { result ≡ may_end state }
{
    matches!(state, Gap::Between | Gap::Comment)
}

/// The length of the longest gap at the front.
#[tactic(auto, using(crate::proofs::LongestGap::other_stop, crate::proofs::LongestGap::gap_within))]
pub(crate) fn gap_len(bytes: &[u8]) -> usize
    ensures value { result ≡ gap_len Gap.Between bytes.now }
    ensures within { result ≤ length bytes.now }
{
    let mut state = Gap::Between;
    let mut len = 0;
    for (i, byte) in bytes.iter().enumerate() {
        state = gap_step(state, *byte);
        if state == Gap::Other {
            return len;
        }
        if may_end(state) {
            len = i + 1;
        }
    }
    len
}

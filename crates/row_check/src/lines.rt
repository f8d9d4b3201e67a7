// The lines of a file, and what they hold.

ghost use Rattle.std.specs.Prelude.{◌≡◌, ◌+◌, ◌<◌, ◌≤◌, ◌∷◌, ◌++◌, [], ℕ, List, Some, IfOk, MatchOption, drop, length, nat_eq, not, nat_lt, if◌then◌else◌};
ghost use Rattle.std.specs.List.{prefix_len};
ghost use Rattle.row_check.specs.Forms.{ReadsItems};
ghost use Rattle.row_check.specs.Lines.{AreRead, ReadsText, lines_at};

use bridge_io::{Fault, Reason, Refused};
use std::alloc::{AllocError, Global};

/// Where the line that begins at `at` ends: at its line feed, or at the end of the file.
fn line_end(bytes: &[u8], at: usize) -> usize
    requires { at ≤ length bytes.now }
    ensures end { result ≡ at + prefix_len (λ b. not (nat_eq b 10)) (drop at bytes.now) }
    ensures within { result ≤ length bytes.now }
{
    for (i, byte) in bytes[at..].iter().enumerate() {
        if *byte == b'\n' {
            return at + i;
        }
    }
    bytes.len()
}

/// The line that begins at `at`, and where the next one does; none at the end of the file.
pub(crate) fn line_at(bytes: &[u8], at: usize) -> Option<(&[u8], usize)>
    requires { at ≤ length bytes.now }
    ensures { MatchOption result ((at ≡ length bytes.now) × (lines_at bytes.now at ≡ []))
        (λ l. (lines_at bytes.now at ≡ record { at = at; text = l.0.now } ∷ lines_at bytes.now l.1) × (at < l.1) × (l.1 ≤ length bytes.now)) }
{
    if at == bytes.len() {
        return None;
    }
    let end = line_end(bytes, at);
    Some((&bytes[at..end], after(bytes, end)))
}

/// Where the next line begins: behind a line feed, or at the end.
fn after(bytes: &[u8], end: usize) -> usize
    requires { end ≤ length bytes.now }
    ensures { result ≡ (if nat_lt end (length bytes.now) then end + 1 else end) }
{
    if end < bytes.len() { end + 1 } else { end }
}

/// The line that begins at `at` breaks the form.
pub(crate) fn broken(at: usize) -> Refused
    ensures { result ≡ Refused.At (record { reason = Reason.RowSyntax; at = at }) }
{
    Refused::At(Fault {
        reason: Reason::RowSyntax,
        at,
    })
}

/// A form of lines: what a line holds, among `listed` states and behind what the lines before it held. Of that it may keep
/// something itself.
pub(crate) trait LineForm<T> {
    ghost next: { ℕ → List T → List ℕ → T → Type 0 };

    ghost keeps: { Self → List T → Type 0 };

    /// What the line holds, if it is of the form.
    fn read(
        &mut self,
        alloc: Global,
        listed: usize,
        before: &[T],
        line: &[u8],
    ) -> Result<Option<T>, AllocError>
        requires { keeps self.old before.now }
        ensures line { IfOk result (ReadsText (next listed before.now line.now)) }
        ensures keeps { IfOk result (λ o. (it : T) → o ≡ Some it → keeps self.new (before.now ++ it ∷ [])) };
}

/// What the lines hold that begin at `at` or behind it.
pub(crate) fn read_lines<T: Drop, F: LineForm<T>>(
    alloc: Global,
    form: &mut F,
    listed: usize,
    bytes: &[u8],
    at: usize,
) -> Result<Vec<T>, Refused>
    requires within { at ≤ length bytes.now }
    requires keeps { F.keeps form.old [] }
    ensures { ReadsItems (AreRead (F.next listed) (lines_at bytes.now at)) result }
{
    let mut held = Vec::new(alloc);
    let mut from = at;
    while let Some((line, next)) = line_at(bytes, from) {
        let it = match form.read(alloc, listed, held.as_slice(), line)? {
            Some(it) => it,
            None => return Err(broken(from)),
        };
        match held.push(it) {
            Ok(()) => {}
            Err(e) => return Err(Refused::Memory(AllocError::from(e))),
        }
        from = next;
    }
    Ok(held)
}

// The first line of a path that isn't carried.

ghost use Rattle.std.specs.Prelude.{◌≡◌, suc, length};
ghost use Rattle.path_carry.specs.Carried.{lost_line};
ghost use Rattle.path_carry.specs.Index.{IsIndex};

use crate::index::LabelIndex;
use crate::labels::Direction;
use process_core::Steps;
use row_check::ReadPath;

/// The first line whose state isn't one of the process, or whose label can't be carried.
pub(crate) fn lost_line<S: Steps, D: Direction>(
    s: &S,
    direction: &D,
    index: &LabelIndex,
    path: &ReadPath,
) -> Option<usize>
    requires index { IsIndex index.now }
    requires whole { length path.now.states ≡ suc (length path.now.labels) }
    ensures { result ≡ lost_line (S.process s.now).is_state (D.has index.now.pairs.now) path.now }
{
    let states = path.states.as_slice();
    if !s.valid(&states[0]) {
        return Some(0);
    }
    for (k, label) in path.labels.as_slice().iter().enumerate() {
        if !direction.has(index, label) {
            return Some(k + 1);
        }
        if !s.valid(&states[k + 1]) {
            return Some(k + 1);
        }
    }
    None
}

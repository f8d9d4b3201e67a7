// What the verdict Yes means, and that files are read in one way: functions that do nothing, whose contracts are the laws.

ghost use Rattle.row_check.specs.Laws.{BoundsNotNegative, BoundsReadOnce, PathFileWhole, PathIsYes, PathOnce, PathReadOnce, PathYes, RowFilesOrdered, RowsAreYes, RowsOnce, RowsReadOnce, RowsYes, StatesReadOnce, WeightsNotNegative};

use process_texts::text_laws;

/// Nothing fails of a path or of rows exactly where they are the model's and nothing that is judged passes a bound; and
/// there is one verdict.
pub fn verdict_laws()
    ensures paths { PathYes }
    ensures rows { RowsYes }
    ensures path_is_yes { PathIsYes }
    ensures rows_are_yes { RowsAreYes }
    ensures one_path { PathOnce }
    ensures one_rows { RowsOnce }
{}

/// What is read of files meets the conditions under which it is judged; and a file has one content, or one line that
/// breaks its form first. No number in it has a minus.
pub fn form_laws()
    ensures rows { RowFilesOrdered }
    ensures path { PathFileWhole }
    ensures one_path { PathReadOnce }
    ensures one_states { StatesReadOnce }
    ensures one_rows { RowsReadOnce }
    ensures one_bounds { BoundsReadOnce }
    ensures weights { WeightsNotNegative }
    ensures bounds { BoundsNotNegative }
{
    text_laws();
}

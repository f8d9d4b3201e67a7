// Files judged.

ghost use Rattle.row_check.specs.Checks.{ChecksPath, ChecksRows};

use crate::data::{RowsRefused, Verdict};
use crate::laws::form_laws;
use crate::path::judge_path;
use crate::path_file::read_path;
use crate::row_files::read_rows;
use crate::rows::judge_rows;
use bridge_io::Refused;
use process_core::Steps;
use state_choices::GroupedSteps;
use std::alloc::Global;

/// The first failure of the path that a file holds, or `Yes`. `At` exactly where a line breaks the form of path files, at the
/// first such line.
pub fn check_path<S: GroupedSteps>(alloc: Global, s: &S, path: &[u8]) -> Result<Verdict, Refused>
    ensures { ChecksPath (S.process s.now) path.now result }
{
    form_laws();
    match read_path(alloc, s, path) {
        Err(fail) => Err(fail),
        Ok(path) => match judge_path(alloc, s, &path) {
            Ok(verdict) => Ok(verdict),
            Err(e) => Err(Refused::Memory(e)),
        },
    }
}

/// The first failure of the rows that two files hold, or `Yes`. `States` exactly where a line breaks the form of files of
/// states, and `Rows` exactly where none does and a line of the second breaks that of files of rows, at the first such line.
pub fn check_rows<S: GroupedSteps>(
    alloc: Global,
    s: &S,
    states: &[u8],
    rows: &[u8],
) -> Result<Verdict, RowsRefused>
    ensures { ChecksRows (S.process s.now) states.now rows.now result }
{
    form_laws();
    match read_rows(alloc, s, states, rows) {
        Err(fail) => Err(fail),
        Ok(rows) => match judge_rows(alloc, s, &rows) {
            Ok(verdict) => Ok(verdict),
            Err(e) => Err(RowsRefused::Memory(e)),
        },
    }
}

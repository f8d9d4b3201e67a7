//! Whether a path or rows are a model's own: files of states, rows and paths, their content, and the verdict on it.
//! The verdict is the first failure in a fixed order; what is judged is defined in `specs/` apart from any loop.
#![tactic(auto)]

mod bounds_file;
mod check;
mod counting;
mod data;
mod header;
mod index;
mod laws;
mod lines;
mod merging;
mod path;
mod path_file;
mod row_files;
mod rows;
mod texts;

pub use bounds_file::read_bounds;
pub use check::{check_path, check_rows};
pub use data::{Counts, PathStep, ReadPath, ReadRows, Row, RowsRefused, Verdict, Why};
pub use laws::{form_laws, verdict_laws};
pub use path::judge_path;
pub use path_file::read_path;
pub use row_files::read_rows;
pub use rows::{judge_rows, run_len};

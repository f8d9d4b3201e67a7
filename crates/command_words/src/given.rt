// Words that give values of constants.

ghost use Rattle.command_words.specs.Given.{ReadsAssignment, AreGiven, HasGiven, assignments_of};
ghost use Rattle.command_words.specs.Words.{AnswersWords, texts};

use crate::request::{Assignment, WordsFail};
use bridge_io::List;
use name_rules::NameSet;
use process_texts::{GivenText, read_value};
use std::alloc::Global;

/// The constant and the value that a word gives, split at its last `=`.
fn assignment_in(word: &str) -> Option<Assignment<'_>>
    ensures { ReadsAssignment word.now result }
{
    let Some((name, text)) = word.rsplit_once('=') else {
        return None;
    };
    match read_value(text) {
        GivenText::Good(v) => Some(Assignment {
            name,
            value: GivenText::Good(v),
        }),
        GivenText::Past => Some(Assignment {
            name,
            value: GivenText::Past,
        }),
        GivenText::NoForm => None,
    }
}

/// The constants and values that words give, no two of one name.
pub(crate) fn assignments_in(
    alloc: Global,
    words: &[String],
) -> Result<List<Assignment<'_>>, WordsFail>
    ensures { AnswersWords (λ given. AreGiven (texts words.now) (assignments_of given)) HasGiven (texts words.now) result }
{
    let mut given = List::new(alloc);
    let mut names = NameSet::new(alloc);
    for (i, word) in words.iter().enumerate() {
        let Some(assignment) = assignment_in(word.as_str()) else {
            return Err(WordsFail::At(i + 1));
        };
        if names.has(assignment.name) {
            return Err(WordsFail::At(i + 1));
        }
        names.add(assignment.name)?;
        given.push(assignment)?;
    }
    Ok(given)
}

// Laws of words: a function that does nothing, whose contract is the laws.
ghost use Rattle.command_words.specs.Words.{OneRequest, WordsCount};

use process_texts::text_laws;

/// Words ask for one thing at most, and so many words ask for it. Nothing is done.
pub fn words_law()
    ensures one { OneRequest }
    ensures count { WordsCount }
{
    text_laws();
}

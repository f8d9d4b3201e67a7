// Laws of runs: functions that do nothing, whose contracts are the laws.

ghost use Rattle.model_carrying.specs.Across.{AreJudgedAlike, IsNeverRefused, StartsAlways};
ghost use Rattle.model_command.specs.CarriedTexts.{IsWritten};
ghost use Rattle.model_command.specs.OneEnding.{OneEnding};

use model_carrying::{across_law, one_carry_law};
use model_files::one_reading_law;
use model_process::one_end_law;
use model_specialising::one_specialise_law;
use model_translation::{one_list_of_faults, one_text_law};

/// On the same contents of its files a request ends with one outcome at most, but for want of memory, and one line tells it: so the status
/// and what is written on both sinks are fixed. Nothing is done.
pub fn one_ending()
    ensures { OneEnding }
{
    one_reading_law();
    one_list_of_faults();
    one_text_law();
    one_end_law();
    one_carry_law();
    one_specialise_law();
}

/// What `carry-path` wrote with status 0, `check-path` judges, on the text that `to-jani` or `to-prism` writes of the same model and under the same
/// constants by their new names, as it judges the path on the model: where that text is read again without fault, its model starts, and what was
/// written has the form of its paths; and where neither check passes a bound, the one says yes exactly where the other does. That the text is
/// read so, the headline promises but for the limits of reading, the reasons 1, 3, 5 and 19: it may be too long, or have a number that is, or nest too
/// deep, or its model be too large. Nothing is done.
pub fn carried_law()
    ensures alike { AreJudgedAlike IsWritten }
    ensures not_refused { IsNeverRefused IsWritten }
    ensures starts { StartsAlways IsWritten }
{
    across_law();
}

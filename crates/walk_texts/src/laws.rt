// Laws of jobs: a function that does nothing, whose contract is the laws.

ghost use Rattle.walk_texts.specs.Laws.{OneShown, OneWalkedAlong, OneWalkedBySeed};

use process_texts::text_laws;
use step_sim::walk_laws;

/// By the process and the words a job ends in one way at most. Nothing is done.
pub fn report_laws()
    ensures shown { OneShown }
    ensures along { OneWalkedAlong }
    ensures seed { OneWalkedBySeed }
{
    text_laws();
    walk_laws();
}

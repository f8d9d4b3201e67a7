//! Laws of what files describe: functions that do nothing, whose contracts are the laws.
ghost use Rattle.prism_instance.specs.Described.{DescribedAlike};
ghost use Rattle.prism_instance.specs.OneProcess.{OneProcess};

use prism_check::meaning_law;

/// A file that is another one written out, whatever the places, has the same constants, comes out as the same, and describes
/// the same process.
pub fn described_law()
    ensures { DescribedAlike }
{
    meaning_law();
}

/// Under each valuation the process that a file describes is the one that it means. Nothing is done.
pub fn one_process_law()
    ensures { OneProcess }
{}

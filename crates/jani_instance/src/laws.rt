//! The law of what files describe: a function that does nothing, whose contract is the law.
ghost use Rattle.jani_instance.specs.OneProcess.{OneProcess};

/// Under each valuation the process that a file describes is the one that it means. Nothing is done.
pub fn one_process_law()
    ensures { OneProcess }
{}

//! What is known of every job.
ghost use Rattle.rdm_script.specs.Laws.{FormedAreFair, ReadAreFair, ReadArePlayed};

/// A job of a well formed script is fair. So is a job that comes of a script, and it is played.
pub fn read_jobs()
    ensures formed { FormedAreFair }
    ensures fair { ReadAreFair }
    ensures played { ReadArePlayed }
{}

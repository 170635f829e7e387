//! Laws of the logs that C holds: the results once a whole piece was taken, and at the end of a log.
ghost use Rattle.squitter_c.specs.LogLaws.{AllAnswered, AllAnsweredAtEnd, AllTold, AllToldAtEnd};

/// If a call returns code 0 and writes fewer results than fit, it took the whole piece. Each line with a line feed
/// then has its result. In slow worlds all results are true. At the end the last line has its result too.
pub fn all_answered()
    ensures taken { AllAnswered }
    ensures finished { AllAnsweredAtEnd }
{}

/// The same for the texts of a format, if 512 bytes are free.
pub fn all_told()
    ensures taken { AllTold }
    ensures finished { AllToldAtEnd }
{}

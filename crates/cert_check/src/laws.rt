//! The law of first failures. It is the contract of a function that does nothing.
ghost use Rattle.cert_check.specs.FirstFailure.{HaveOneFailure};

/// A certificate fails first at one place and for one reason, or stands: not both, and never neither.
pub fn one_first_failure()
    ensures { HaveOneFailure }
{}

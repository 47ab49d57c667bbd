//! Which dossiers are drawn. Each law is the contract of a function that does nothing.
ghost use Rattle.picture_command.specs.Complete.{AcceptedAreDrawn, StandingAreDrawn};

/// To the bytes of a dossier whose certificate is accepted, what is answered is a picture, or want of
/// memory.
pub fn accepted_are_drawn()
    ensures { AcceptedAreDrawn }
{}

/// To the bytes of an open dossier that stands, what is answered is a picture, or want of memory.
pub fn standing_are_drawn()
    ensures { StandingAreDrawn }
{}

//! The law of written dossiers. It is the contract of a function that does nothing.
ghost use Rattle.lock_top.specs.Laws.{DossiersAreAccepted};

/// What a run on `solve --dossier` with `Good` wrote, a run on `check` accepts with the cost of its
/// plan, whatever the words, sources and sinks are; or memory was wanting, or the source or the sink
/// of that run counted a fault. The dossier has at most 2^53 bytes.
pub fn written_dossiers_are_accepted()
    ensures { DossiersAreAccepted }
{}

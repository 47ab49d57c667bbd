//! Why a picture may stand for its plan. The law is the contract of a function that does nothing.
ghost use Rattle.picture_laws.specs.Pages.{PicturesShowPlans};

/// The page of a legal plan has one box for each lockage, in its chamber's lane, whose edges are its
/// start and its end by the scale of the axis; one row for each ship, with its arrival and the start
/// and the end of the lockage that serves it; and one deck for each lockage, with each of its ships
/// at its place by the scale of the deck, and no other. Where the dial has the minute that it is, exactly
/// the boxes of lockages that start before it have a second outline, and each lane and each row has a
/// line at its pixel.
pub fn pictures_show_plans()
    ensures { PicturesShowPlans }
{}

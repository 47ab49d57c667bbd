//! Decks and placers. Breaks of placements, and refutations that hold or don't, stand with the rows
//! of whole runs and those of the second checker.
mod berths;
mod cases;
mod fixture;
mod laws;
mod shapes;
mod spots;

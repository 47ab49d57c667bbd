//! The laws of decks that the search and the checker rest on. Each is the contract of a function
//! that does nothing.
ghost use Rattle.lock_model.specs.Deck.{Deck as Measured, IsDeck};
ghost use Rattle.lock_rules.specs.Heredity.{IsHereditary};
ghost use Rattle.lock_model.specs.Normal.{HasNormal};
ghost use Rattle.deck_laws.specs.Laws.{HaveNormalForms};

/// Heredity: a deck that fits still fits without any one of its ships, and in a chamber that is
/// longer or wider.
pub fn heredity()
    ensures { IsHereditary }
{}

/// Normal form: beside every legal placement there is a normal one with the same y, ranks and
/// moorings and no greater x. So a deck that fits has a normal placement.
pub fn normal_form()
    ensures forms { HaveNormalForms }
    ensures normal { (d : Measured) → IsDeck d → HasNormal d }
{}

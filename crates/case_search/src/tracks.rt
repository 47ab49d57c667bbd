//! A case on its way through the decisions.

use refute_rules::Marks;
use std::alloc::AllocError;

/// A case that grows by options and shrinks again.
pub trait Track {
    ghost use Rattle.std.specs.Prelude.{◌≡◌, ◌+◌, ◌<◌, ◌↔◌, IsTrue, List, [], ◌∷◌, ◌++◌, length, OnOk, MatchOption};
    ghost use Rattle.lock_model.specs.Deck.{Deck};
    ghost use Rattle.refute_rules.specs.declared.choices.Choice.{Choice};
    ghost use Rattle.case_search.specs.Rules.{Rules, AreSoundRules, options_at, with_option};

    /// A fault of a case.
    type Fault: Drop;

    /// The deck whose cases these are.
    ghost deck: { Self → Deck };

    /// The options so far.
    ghost case: { Self → List Choice };

    /// What the search goes by.
    ghost rules: { Deck → Rules Self.Fault };

    /// Whether a faulty case takes a turn.
    fn counts_faulty(&self) -> bool
        ensures { result ≡ (rules (deck self.now)).counts_faulty };

    /// A fault of the case, or none where it is good.
    fn judge(&self) -> Option<Self::Fault>
        ensures { MatchOption result ((rules (deck self.now)).IsGood (case self.now)) ((rules (deck self.now)).IsFault (case self.now)) };

    /// Appends the numbers of a fault to a tree.
    fn write_fault(&self, fault: &Self::Fault, marks: &mut Marks) -> Result<(), AllocError>
        ensures { OnOk result (marks.new ≡ marks.old ++ (rules (deck self.now)).numbers_of fault.now) };

    /// Whether all decisions are made.
    fn is_whole(&self) -> bool
        ensures { IsTrue result ↔ (length (case self.now) ≡ length (rules (deck self.now)).decisions) };

    /// How many options the next decision has, 0 where none is left.
    fn count(&self) -> u32
        ensures { result ≡ length (options_at (rules (deck self.now)) (case self.now)) };

    /// Takes an option of the next decision.
    fn enter(&mut self, option: u32)
        requires good { (rules (deck self.old)).IsGood (case self.old) }
        requires option { option < length (options_at (rules (deck self.old)) (case self.old)) }
        ensures deck { deck self.new ≡ deck self.old }
        ensures case { case self.new ≡ with_option (rules (deck self.old)) (case self.old) option };

    /// Takes the last option back.
    fn leave(&mut self)
        requires { 0 < length (case self.old) }
        ensures deck { deck self.new ≡ deck self.old }
        ensures case { (before : List Choice) (last : Choice) → case self.old ≡ before ++ last ∷ [] → case self.new ≡ before };

    ghost lawful: { (d : Deck) → AreSoundRules (rules d) };
}

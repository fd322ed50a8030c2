//! Laws of what ledgers stand for. Boots are a list with the current boot first.

ghost use Rattle.std.specs.Prelude.{ℕ, ◌↔◌, List, [], ◌∷◌};
ghost use Rattle.books_spec.specs.SourceViews.{PlacedReading};
ghost use Rattle.source_ledger.specs.Boots.{BootsState};
ghost use Rattle.source_ledger.specs.Boots as boots;
ghost use Rattle.source_ledger.specs.Numbers.{NumbersState};
ghost use Rattle.source_ledger.specs.Numbers as numbers;
ghost use Rattle.source_ledger.specs.Flows.{FlowState};
ghost use Rattle.source_ledger.specs.Flows as flows;

/// Boots may come in which nothing is entered: a ledger stands for them as it is, so that it needn't be told of
/// a boot before something is entered in it or a view is asked for.
pub fn boots_may_pass()
    ensures marks { (s : BootsState) (marks : List (List ℕ)) →
        boots.StandsFor s marks ↔ boots.StandsFor s ([] ∷ marks) }
    ensures numbers { (s : NumbersState) (samples : List (List PlacedReading)) →
        numbers.StandsFor s samples ↔ numbers.StandsFor s ([] ∷ samples) }
    ensures flows { (s : FlowState) (samples : List (List PlacedReading)) →
        flows.StandsFor s samples ↔ flows.StandsFor s ([] ∷ samples) }
{}

//! Worked rows, computed by the check. Deliveries have the latest first.

ghost use Rattle.std.specs.Prelude.{◌≡◌, [], ◌∷◌};
ghost use Rattle.account_spec.specs.Histories.{IsHistory};
ghost use Rattle.account_spec.specs.Deliveries.{AreSent, entry_of, item};
ghost use Rattle.delivered_items.specs.Accepted.{AreAccepted};
ghost use Rattle.delivered_items.specs.Rows.{both_forms, of_both_forms, of_class, delivery};

/// Flow and counters samples in both forms, of the greatest sources that each form can say.
pub fn both_forms_row()
    ensures history { IsHistory both_forms }
    ensures accepted { AreAccepted both_forms }
    ensures sent { AreSent both_forms of_both_forms }
{}

/// A class of 256, which no set-up of the compact form may have, is sent as the class 0: the bytes don't tell them apart.
pub fn great_class_row()
    ensures history { IsHistory (of_class 256) × AreSent (of_class 256) (delivery 0 256 5 ∷ []) }
    ensures not_accepted { AreAccepted (of_class 256) → ⊥ }
    ensures same_bytes { entry_of (of_class 256) (delivery 0 256 5) ≡ entry_of (of_class 0) (delivery 0 0 5) }
    ensures other_item { item (delivery 0 256 5) ≡ item (delivery 0 0 5) → ⊥ }
{}

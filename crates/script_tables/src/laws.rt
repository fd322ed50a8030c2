// The laws of set-ups. Each is a function with nothing to do, whose contract is the law.
ghost use Rattle.std.specs.Prelude.{◌≡◌, ◌≤◌, List, length, None};
ghost use Rattle.agent_setups.specs.declared.setup.Setup.{Setup};
ghost use Rattle.agent_setups.specs.Lists.{device_fault, form_for};
ghost use Rattle.script_spec.specs.Lines.{Line};
ghost use Rattle.script_laws.specs.Lawful.{AreLawful};
ghost use Rattle.script_spec.specs.Agents.{form_of};
ghost use Rattle.script_tables.specs.Said.{AreSetUp, form_said};

/// The set-ups that lawful lines make break no rule of set-ups, where there is one.
pub fn setups_are_accepted()
    ensures { (lines : List Line) (setups : List Setup) → AreLawful lines → AreSetUp lines setups → 1 ≤ length setups
        → device_fault setups ≡ None }
{}

/// The form of samples that the set-ups of lawful lines ask for is that of the lines.
pub fn one_form()
    ensures { (lines : List Line) (setups : List Setup) → AreLawful lines → AreSetUp lines setups
        → form_said (form_for setups) ≡ form_of lines }
{}

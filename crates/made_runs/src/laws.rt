//! The laws of a run that whoever drives it stands on. Each is a function with nothing to do, whose contract is the law.

ghost use Rattle.std.specs.Prelude.{◌≡◌, ◌<◌, ◌≤◌, ℕ, List, [], ◌∷◌, None};
ghost use Rattle.agent_spec.specs.Samples.{Datagram};
ghost use Rattle.agent_setups.specs.declared.setup.Setup.{Setup};
ghost use Rattle.agent_setups.specs.Lists.{device_fault, form_for};
ghost use Rattle.data_format.specs.declared.heads.Form.TheVariants.{Compact};
ghost use Rattle.trial_spec.specs.Made.{Made, made_until, observed, all_decided, released};
ghost use Rattle.made_runs.specs.Runs.{IsShort, Keeps};
ghost use Rattle.made_runs.specs.Setups.{IsMadeSetup};

/// A run of at most 10,000,000 packets is short enough, after each packet and before what comes behind it.
pub fn made_runs_are_short()
    ensures until { (seed total k : ℕ) → k ≤ 10000000 → IsShort (made_until seed total k) }
    ensures observed { (seed total k : ℕ) → k < 10000000 → IsShort (observed seed (made_until seed total k)) }
{}

/// To decide datagrams, and to let what is held arrive, keeps the packets, the events and the boots.
pub fn decisions_keep_events()
    ensures decided { (boot : ℕ) (datagrams : List Datagram) (m : Made) → Keeps m (all_decided boot datagrams m) }
    ensures released { (m : Made) → Keeps m (released m) }
{}

/// The set-up of a made run breaks no rule of set-ups, and its samples are compact.
pub fn made_setups_are_accepted()
    ensures accepted { (seed : ℕ) (u : Setup) → IsMadeSetup seed u → device_fault (u ∷ []) ≡ None }
    ensures compact { (seed : ℕ) (u : Setup) → IsMadeSetup seed u → form_for (u ∷ []) ≡ Compact }
{}

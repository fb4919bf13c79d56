ghost use Rattle.std.specs.Prelude.{◌≡◌, ℕ, List, Some};
ghost use Rattle.pm_plan.specs.Plans.{Ready};
ghost use Rattle.pm_record.specs.declared.redo.Redo.{Redo};
ghost use Rattle.pm_view.specs.Steps.Step.{Draw};
ghost use Rattle.pm_view.specs.View.{View};
ghost use Rattle.pm_view.specs.Views.{after, after_all, value_in};
ghost use Rattle.pm_redo.specs.Plans.{applies, clears, performs, seals, writes_log};
ghost use Rattle.pm_redo.specs.Stages.{CanApply, CanClear, CanLog, CanSeal, IsApplied, IsCleared, IsLogged, IsPerformed, IsSealed, generation_word, seal_word};

/// A law: a lane whose call is open, and that may enter each of these entries, may write a log of
/// them; they stand in it then, and after them the one that ends the lane's generation. No code
/// runs.
pub fn logs_may_be_written()
    ensures { (v : View) (entries : List Redo) → CanLog v entries
        → Ready v (writes_log entries v) × IsLogged v entries (after_all v (writes_log entries v)) }
{}

/// A law: a lane whose call has its number and its log, and that knows its generation and its seal,
/// may seal it, and the call is decided. No code runs.
pub fn logs_may_be_sealed()
    ensures { (v : View) → CanSeal v → Ready v (seals v) × IsSealed v (after_all v (seals v)) }
{}

/// A law: a lane whose log is sealed may apply its entries, whatever their ORs and ANDs find, and
/// each has its effect. No code runs.
pub fn entries_may_be_applied()
    ensures { (v : View) (found : ℕ → ℕ) → CanApply v
        → Ready v (applies found v) × IsApplied v found (after_all v (applies found v)) }
{}

/// A law: a lane whose entries are applied may clear its seal, and no call is open then. No code
/// runs.
pub fn seals_may_be_cleared()
    ensures { (v : View) → CanClear v → Ready v (clears v) × IsCleared v (after_all v (clears v)) }
{}

/// A law: a lane that may seal its log may perform it: seal it, apply the entries, whatever their
/// ORs and ANDs find, and clear the seal. Each entry has its effect then, and no call is open. No
/// code runs.
pub fn logs_may_be_performed()
    ensures { (v : View) (found : ℕ → ℕ) → CanSeal v
        → Ready v (performs found v) × IsPerformed v found (after_all v (performs found v)) }
{}

/// A law: a lane that knows its generation, and that its seal is 0, may seal a log that it wrote as
/// soon as its call has its number. No code runs.
pub fn numbered_logs_may_be_sealed()
    ensures { (v w : View) (entries : List Redo) (n : ℕ) → CanLog v entries → IsLogged v entries w
        → value_in v (seal_word v) ≡ Some 0 → value_in v (generation_word v) ≡ Some v.log.generation
        → CanSeal (after w (Draw n)) }
{}

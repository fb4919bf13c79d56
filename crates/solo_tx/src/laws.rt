ghost use Rattle.std.specs.Prelude.{◌≡◌, ℕ, List, [], map, take, None};
ghost use Rattle.pm_objects.specs.declared.calls.Operation.TheVariants.{Commit};
ghost use Rattle.pm_record.specs.declared.redo.Redo.{Redo};
ghost use Rattle.solo_undo.specs.Working.{IsWorking};
ghost use Rattle.solo_view.specs.View.{View};
ghost use Rattle.solo_view.specs.Views.{after_all};
ghost use Rattle.solo_world.specs.Lanes.{span_of};
ghost use Rattle.solo_world.specs.Sequences.{Ready};
ghost use Rattle.solo_world.specs.declared.lane.Span.{Span};
ghost use Rattle.solo_tx.specs.Ending.{IsDrawnBy, IsDrawnOrNot, IsOver, IsTakenBack};
ghost use Rattle.solo_tx.specs.Generations.{CanPublish};
ghost use Rattle.solo_tx.specs.Sequences.{commits, takes_back};

/// A law: what a lane at work did in its call may be taken back, and then the call is open still, with nothing recorded and nothing
/// undrained. No code runs.
pub fn a_call_may_be_taken_back()
    ensures { (v : View) → IsWorking v → v.log.entries ≡ []
        → Ready v (takes_back (map span_of v.log.records) v) × IsTakenBack v (after_all v (takes_back (map span_of v.log.records) v)) }
{}

/// A law: a call at work may be committed, with its records and with redo entries that its lane may enter, 63 at most or none, whatever they change: then
/// the call is over, it came to the commit, and its entry is the last. Wherever the lane stops in that, the call drew no number, or it came to the commit
/// and its entry is the last. No code runs.
pub fn a_call_may_be_committed()
    ensures over { (v : View) (spans : List Span) (entries : List Redo) (n : ℕ) → IsWorking v → spans ≡ map span_of v.log.records → CanPublish v entries
        → Ready v (commits spans entries n v) × IsOver v (after_all v (commits spans entries n v)) n }
    ensures last { (v : View) (spans : List Span) (entries : List Redo) (n : ℕ) → IsWorking v → spans ≡ map span_of v.log.records → CanPublish v entries
        → IsDrawnBy v (after_all v (commits spans entries n v)) Commit None n }
    ensures stops { (v : View) (spans : List Span) (entries : List Redo) (n k : ℕ) → IsWorking v → spans ≡ map span_of v.log.records → CanPublish v entries
        → IsDrawnOrNot v (after_all v (take k (commits spans entries n v))) Commit None }
{}

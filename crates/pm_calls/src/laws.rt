ghost use Rattle.std.specs.List.{All, Contains, flat_map};
ghost use Rattle.std.specs.Prelude.{◌≡◌, ◌≤◌, ℕ, List, None, length};
ghost use Rattle.pm_script.specs.Scripts.{AreCalls, of_lane, operations};
ghost use Rattle.pm_script.specs.declared.script.ScriptLine.{ScriptLine};
ghost use Rattle.pm_calls.specs.Calls.{IsWhole, LinesRise, RunsOnLanes, beyond_lanes, calls_of};

/// A law: where lines are transactions, and calls outside of them, each of their calls is whole.
/// The calls of lines have these lines and no other, in order, 1 or more each; and where lines
/// rise, those of each call and of each lane do. No code runs.
pub fn a_lanes_calls_are_whole()
    ensures whole { (lines : List ScriptLine) → AreCalls (operations lines)
        → All IsWhole (calls_of lines) }
    ensures joined { (lines : List ScriptLine)
        → flat_map (λ (call : List ScriptLine). call) (calls_of lines) ≡ lines }
    ensures some { (lines : List ScriptLine)
        → All (λ (call : List ScriptLine). 1 ≤ length call) (calls_of lines) }
    ensures among { (lines : List ScriptLine) → All (All (Contains lines)) (calls_of lines) }
    ensures rising { (lines : List ScriptLine) → LinesRise lines
        → All LinesRise (calls_of lines) }
    ensures lanes { (lane : ℕ) (lines : List ScriptLine) → LinesRise lines
        → LinesRise (of_lane lane lines) }
{}

/// A law: lanes run each line of a script that has no line beyond them. No code runs.
pub fn lanes_run_scripts_with_no_line_beyond()
    ensures { (lines : List ScriptLine) → beyond_lanes lines ≡ None → All RunsOnLanes lines }
{}

ghost use Rattle.std.specs.List.Sorted.{IsStrictlyIncreasing};
ghost use Rattle.std.specs.Prelude.{map, All, ◌≡◌, ◌<◌, ◌≤◌, ℕ, List};
ghost use Rattle.pm_script.specs.Scripts.{AreCalls, IsScript, IsBadLine, NamesBindingLines, NamesEarlierLines, of_lane, operations};
ghost use Rattle.pm_script.specs.Stops.{AreStops};
ghost use Rattle.pm_script.specs.declared.fault.BadLine.{BadLine};
ghost use Rattle.pm_script.specs.declared.script.Script.{Script};
ghost use Rattle.pm_script.specs.declared.script.ScriptLine.{ScriptLine};

/// A law: lines are one script at most, and have one first bad line at most, and not both; a text is one list of stops at most. No code runs.
pub fn one_reading_per_text()
    ensures scripts { (lines : List (List ℕ)) (script other : Script) → IsScript lines script → IsScript lines other → script ≡ other }
    ensures bad_lines { (lines : List (List ℕ)) (bad other : BadLine) → IsBadLine lines bad → IsBadLine lines other → bad ≡ other }
    ensures not_both { (lines : List (List ℕ)) (script : Script) (bad : BadLine) → IsScript lines script → ¬ IsBadLine lines bad }
    ensures stops { (text : List ℕ) (stops other : List (ℕ × ℕ)) → AreStops text stops → AreStops text other → stops ≡ other }
{}

/// A law: the operations of a script stand on lines of rising numbers. No code runs.
pub fn the_lines_of_a_script_rise()
    ensures { (lines : List (List ℕ)) (script : Script) → IsScript lines script → IsStrictlyIncreasing (map (λ (line : ScriptLine). line.line) script.lines) }
{}

/// A law: the operations on a lane's lines are transactions, and calls outside of them, one after another. No code runs.
pub fn a_lanes_lines_are_calls()
    ensures { (lines : List (List ℕ)) (script : Script) → IsScript lines script → (lane : ℕ) → AreCalls (operations (of_lane lane script.lines)) }
{}

/// A law: each line is of a lane that the script counts, and where that is one, of lane 0. No code runs.
pub fn one_lane_has_all_lines()
    ensures below { (lines : List (List ℕ)) (script : Script) → IsScript lines script → All (λ (line : ScriptLine). line.lane < script.lanes) script.lines }
    ensures one { (lines : List (List ℕ)) (script : Script) → IsScript lines script → script.lanes ≡ 1 → All (λ (line : ScriptLine). line.lane ≡ 0) script.lines }
{}

/// A law: a script counts 32 lanes at most. No code runs.
pub fn a_script_names_few_lanes()
    ensures { (lines : List (List ℕ)) (script : Script) → IsScript lines script
        → script.lanes ≤ 32 }
{}

/// A law: each letter of a line stands for what an earlier line of its lane gave, which binds a letter. No code runs.
pub fn letters_are_bound_before()
    ensures before { (lines : List (List ℕ)) (script : Script) → IsScript lines script → All NamesEarlierLines script.lines }
    ensures binds { (lines : List (List ℕ)) (script : Script) → IsScript lines script → All (NamesBindingLines script.lines) script.lines }
{}

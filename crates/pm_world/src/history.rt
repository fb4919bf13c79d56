ghost use Rattle.pm_view.specs.Steps.{Step};
ghost use Rattle.pm_world.specs.Histories.{HistoryBegins, KeepsHistory};

/// A law: in the words before a call, what its lane owned or saw as it took its number is as it
/// was settled to be then, whichever of the calls that are not decided are kept. It holds of a
/// past in which no number is drawn, and every lawful step keeps it, the draw for the new call
/// too. No code runs.
pub fn history_stands()
    ensures begins { HistoryBegins }
    ensures goes_on { (step : Step) → KeepsHistory step }
{}

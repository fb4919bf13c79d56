ghost use Rattle.pm_call.specs.Publishing.{CancelsMayBeTold, PendingWordsAreLookedAt, PublishRefusals, WordsMayBePublished};

/// A law: a lane at work that holds the object of each pending word for writing, and knows that
/// the word is within it, may publish them where their entries have room in a log; they are
/// entries of its call then, and none is pending. No code runs.
pub fn pending_words_may_be_published()
    ensures { WordsMayBePublished }
{}

/// A law: a lane at work may cancel what is pending, by telling it once all that is undrained is
/// persistent; none is pending then. No code runs.
pub fn pending_words_may_be_cancelled()
    ensures { CancelsMayBeTold }
{}

/// A law: the plain model's first refusal of a publish follows from the lane's lists and from
/// the sizes that it knows. No code runs.
pub fn refusals_of_publish_are_the_models()
    ensures { PublishRefusals }
{}

/// A law: a lane at work that knows the size of each object that it holds and of which a word
/// is pending looked at all that a publish asks for. No code runs.
pub fn pending_words_are_looked_at()
    ensures { PendingWordsAreLookedAt }
{}

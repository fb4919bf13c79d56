ghost use Rattle.pm_lanes.specs.Closed.{AnsweredCallsAreKept, ClosedPoolsMeanTheirHistories};
ghost use Rattle.pm_lanes.specs.Closed.{BusyCallsHaveCauses, CallsAreListed};
ghost use Rattle.pm_lanes.specs.Closed.{ClosedPoolsHaveFacts, ClosedPoolsReplay};
ghost use Rattle.pm_lanes.specs.Closed.{HeadersAreKept, KeptImagesSurvive, MissedCallsHaveCauses};
ghost use Rattle.pm_lanes.specs.Closed.{EntriesAreBefore, EntriesAreCalls};
ghost use Rattle.pm_lanes.specs.Closed.{OpenCallsAreJudged, OtherCallsAreKept};
ghost use Rattle.pm_lanes.specs.Closed.{GenerationsAreKept, SeenNumbersAreDrawn};
ghost use Rattle.pm_lanes.specs.Closed.{SeenStopsAreReached, StopsAreReached};
ghost use Rattle.pm_lanes.specs.Turns.{TurnsAreOfWorlds};

/// A law: of a pool that was opened, whose lanes all came back, each with facts for its calls, and
/// whose table closed, every image that a power failure may leave means its history: the pool to
/// which the calls lead that it does not lose, one whole call after another, from the pool that
/// was opened; unless a record is torn that a lane was writing. A lane that came back between two
/// calls has no call that an image loses. What a keep number leaves of the words is such an image.
/// Where records are torn, too, the calls that an image does not lose lead to some pool, and each
/// call of the history has its fact. No code runs.
pub fn closed_pools_mean_their_histories()
    ensures means { ClosedPoolsMeanTheirHistories }
    ensures answered { AnsweredCallsAreKept }
    ensures kept { KeptImagesSurvive }
    ensures replays { ClosedPoolsReplay }
    ensures facts { ClosedPoolsHaveFacts }
{}

/// A law: where the table of a pool closed, whether an image that may survive keeps the call that
/// a lane came back with open is told from the lane's seal and generation: in the image, and in the
/// words as they would be if all that the lane has undrained were lost. Each other call of the
/// lane is kept by every image; and each entry of the lane is a call of the history. No code runs.
pub fn open_calls_are_judged()
    ensures entries { EntriesAreCalls }
    ensures others { OtherCallsAreKept }
    ensures open_call { OpenCallsAreJudged }
{}

/// A law: of the lanes that came back to a table that closed, one that is at its stop made as many
/// counted calls as the stop number that it was given; and where one found the stop word set, one
/// of them did. No code runs.
pub fn stops_are_reached()
    ensures own { StopsAreReached }
    ensures seen { SeenStopsAreReached }
{}

/// A law: every image that a power failure may leave of a pool that was opened, and whose table
/// closed, has the header's page of the image that was opened, but for the root word. No code runs.
pub fn headers_are_kept()
    ensures { HeadersAreKept }
{}

/// A law: of a lane that came back to a table that closed, the commit numbers that it saw drawn are
/// those of calls of the history; and where its call has no number, its generation is so in every
/// image that a power failure may leave. So a lane for which no number was left shows it. No code
/// runs.
pub fn numbers_are_shown()
    ensures drawn { SeenNumbersAreDrawn }
    ensures generation { GenerationsAreKept }
{}

/// A law: of a lane that came back to a table that closed, its counted calls in the run by which
/// the table closed are those that its view lists, the latest first. No code runs.
pub fn calls_are_listed()
    ensures { CallsAreListed }
{}

/// A law: where lanes took turns from words that were opened, each moment is one of a world, since a
/// lawful step leads from a world to a world; and the laws of tables that closed speak of what they
/// left. No code runs.
pub fn turns_are_of_worlds()
    ensures { TurnsAreOfWorlds }
{}

/// A law: of a table that closed, whose lanes all came back, each with facts for its calls, a call
/// whose last operation was recorded as `Busy` has its cause: this operation requests the lock of an
/// object that a call of another lane had at the same time. No code runs.
pub fn busy_calls_have_causes()
    ensures { BusyCallsHaveCauses }
{}

/// A law: of a pool that was opened, whose lanes all came back, each with facts for its calls, and
/// whose table closed, a call whose last operation was recorded as `NoObject` has its cause: this
/// operation names an object of another pool, or one that did not stand after some number, not
/// before that of the lane's last entry and below the call's own; or one that the call itself freed;
/// or the call published what asks something of an object that is to be freed already. The entries
/// of a lane as a call of it took its number are its calls before that one. No code runs.
pub fn missed_calls_have_causes()
    ensures causes { MissedCallsHaveCauses }
    ensures before { EntriesAreBefore }
{}

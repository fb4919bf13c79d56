ghost use Rattle.pm_crash.specs.Laws.{AnsweredAreKept, ImagesMeanReplays};

/// A law: of a world whose calls have their facts, every image that a power failure may leave, with
/// no torn record, means the pool to which the calls lead that it does not lose, one whole call
/// after another from the pool at the opening; and its allocated blocks are exactly its objects'
/// blocks, by place and lines, of which no two overlap. A call that was answered is lost by no
/// image. No code runs.
pub fn images_mean_replays()
    ensures means { ImagesMeanReplays }
    ensures answered { AnsweredAreKept }
{}

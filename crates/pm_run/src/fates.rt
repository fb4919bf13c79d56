ghost use Rattle.std.specs.Prelude.{◌≡◌, ◌<◌, ◌≤◌, [], length, map, vec_capacity};
ghost use Rattle.pm_crash.specs.Fates.{drained_value};
ghost use Rattle.pm_layout.specs.Chunks.{words_of};
ghost use Rattle.pm_memory.specs.Keep.{IsKeptImage};
ghost use Rattle.pm_run.specs.Fates.{AreDrained, AreJudged, AreTold, IsDrained, keeps_open};
ghost use Rattle.pm_run.specs.Jobs.{items_of};

use pm_layout::Shape;
use pm_memory::crash;
use pm_view::Change;

/// A lane's seal and generation, as they would be if all that it has undrained were lost.
#[derive(Clone, Copy)]
pub struct DrainedLog {
    seal: u64,
    generation: u64,
}

/// What a word would be if these changes, the oldest first, were lost.
fn drained_value(words: &[u64], changes: &[Change], word: u64) -> u64
    requires { word < length words.now }
    ensures { result ≡ drained_value words.now changes.now word }
{
    for change in changes {
        if change.word == word {
            return change.old;
        }
    }
    words[word as usize]
}

/// The log of a lane that has these changes undrained.
fn drained_log(words: &[u64], changes: &[Change], shape: Shape, lane: u64) -> DrainedLog
    requires lane { lane < shape.lanes }
    requires size { length words.now ≡ words_of shape }
    ensures { IsDrained shape words.now changes.now lane result }
{
    DrainedLog {
        seal: drained_value(words, changes, shape.word_of_seal(lane)),
        generation: drained_value(words, changes, shape.word_of_generation(lane)),
    }
}

/// The logs of all lanes, into room for them.
fn drained_logs(words: &[u64], undrained: &[Vec<Change>], shape: Shape, logs: &mut Vec<DrainedLog>)
    requires lanes { length undrained.now ≤ shape.lanes }
    requires size { length words.now ≡ words_of shape }
    requires none { logs.old.items ≡ [] }
    requires room { length undrained.now ≤ vec_capacity logs.old }
    ensures { AreDrained shape words.now (map items_of undrained.now) logs.new.items }
{
    for changes in undrained {
        let lane = logs.len() as u64;
        logs.push_reserved(drained_log(words, changes.as_slice(), shape, lane));
    }
}

/// Whether the image keeps the call that a lane of this log has open.
fn keeps_open(image: &[u64], log: DrainedLog, shape: Shape, lane: u64) -> bool
    requires lane { lane < shape.lanes }
    requires size { length image.now ≡ words_of shape }
    ensures { result ≡ keeps_open shape log image.now lane }
{
    log.seal != 0
        || image[shape.word_of_seal(lane) as usize] != 0
        || image[shape.word_of_generation(lane) as usize] != log.generation
}

/// The same of all lanes, into room for a flag each.
fn tell_kept(image: &[u64], logs: &[DrainedLog], shape: Shape, kept: &mut Vec<bool>)
    requires lanes { length logs.now ≤ shape.lanes }
    requires size { length image.now ≡ words_of shape }
    requires none { kept.old.items ≡ [] }
    requires room { length logs.now ≤ vec_capacity kept.old }
    ensures { AreTold shape logs.now image.now kept.new.items }
{
    for log in logs {
        let lane = kept.len() as u64;
        kept.push_reserved(keeps_open(image, *log, shape, lane));
    }
}

/// The image that a keep number leaves of these words, and of each lane whether the image keeps
/// the call that the lane has open. There is room for a log and a flag of each lane.
pub fn crash_judged(
    words: Vec<u64>,
    undrained: &[Vec<Change>],
    shape: Shape,
    keep: u64,
    logs: &mut Vec<DrainedLog>,
    kept: &mut Vec<bool>,
) -> Vec<u64>
    requires lanes { length undrained.now ≤ shape.lanes }
    requires size { length words.items ≡ words_of shape }
    requires none { (logs.old.items ≡ []) × (kept.old.items ≡ []) }
    requires room { (length undrained.now ≤ vec_capacity logs.old)
        × (length undrained.now ≤ vec_capacity kept.old) }
    ensures image { IsKeptImage keep words.items (map items_of undrained.now) result.items }
    ensures kept { AreJudged shape words.items (map items_of undrained.now) result.items
        kept.new.items }
{
    drained_logs(words.as_slice(), undrained, shape, logs);
    let image = crash(words, undrained, keep);
    tell_kept(image.as_slice(), logs.as_slice(), shape, kept);
    image
}

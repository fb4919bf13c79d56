ghost use Rattle.std.specs.Prelude.{◌≡◌, ◌<◌, ◌≤◌, ◌==◌, ◌&&◌, not, ℕ, All, List, IfErr, IfOk, OnOk, length, slice_index};
ghost use Rattle.std.specs.List.Sorted.{IsStrictlyIncreasing};
ghost use Rattle.pm_image.specs.Means.{IsMeaning};
ghost use Rattle.pm_objects.specs.declared.pool.PoolView.{PoolView};
ghost use Rattle.pm_recover.specs.Recovery.{IsRecovered};
ghost use Rattle.solo_script.specs.Scripts.{AreCalls, NamesEarlierLines, operations};
ghost use Rattle.solo_exec.specs.Calls.{numbers_of};
ghost use Rattle.solo_exec.specs.Histories.{closed_history};
ghost use Rattle.solo_exec.specs.Letters.{AreGiven, resolved};
ghost use Rattle.solo_exec.specs.Opening.{IsOpenCause, IsOpened};
ghost use Rattle.solo_exec.specs.Runs.{IsHistoryOf, LeavesReplay, MakesCalls, MakesCallsOf};
ghost use Rattle.solo_exec.specs.Torn.{HasNoTornMatch};

use crate::calls::names_of;
use crate::ending::open_fate;
use crate::opening::open;
use crate::outcome::{OpenFault, Outcome};
use crate::running::{GENERATION_WORD, Halt, SEAL_WORD, open_lane, run_all};
use pm_objects::{Entry, PoolView};
use pm_raw::RawImage;
use solo_script::Script;
use std::alloc::{AllocError, Global};

/// Opens the pool of an image, as recovery leaves it, and runs a script on it: lane 0 makes counted calls up to its stop number, if it has one,
/// and of what is then undrained so much survives as `keep` says. A letter of the script stands for the offset that its line gave. An error is the first of the image's fault, another layout name than was
/// asked for, and more lanes than the one that runs, or want of memory.
pub fn exec(
    alloc: Global,
    image: RawImage,
    script: &Script,
    layout: &str,
    stop: Option<u64>,
    keep: u64,
) -> Result<Outcome, OpenFault>
    requires calls { script.now.lanes ≡ 1 → AreCalls (operations script.now.lines) }
    requires rising { IsStrictlyIncreasing (numbers_of script.now.lines) }
    requires bound { All NamesEarlierLines script.now.lines }
    requires some { 1 ≤ script.now.lanes }
    ensures opened { IfOk result (λ out. IsOpened image layout.now script.now.lanes) }
    ensures cause { IfErr result (IsOpenCause image layout.now script.now.lanes) }
    ensures size { IfOk result (λ out. length out.words.items ≡ length image) }
    ensures given { IfOk result (λ out. AreGiven out.history.items out.end out.given.items) }
    ensures history { IfOk result (λ out. (pool : PoolView) → IsMeaning image pool → IsHistoryOf pool (resolved out.given.items script.now.lines) stop out.history.items out.end) }
    ensures made { IfOk result (λ out. (pool : PoolView) → IsMeaning image pool
        → MakesCallsOf image pool (resolved out.given.items script.now.lines) stop keep out.history.items out.end out.words.items) }

    // Taken for granted: no torn record's sum matches by chance.
    ensures replay { IfOk result (λ out. (pool : PoolView) → IsMeaning image pool
        → ((words : List ℕ) → IsRecovered image words pool.lanes → HasNoTornMatch words pool (resolved out.given.items script.now.lines) stop)
        → LeavesReplay image pool out.history.items out.words.items) }
{
    let mut image = image;
    let pool = open(alloc, &mut image, layout, script.lanes)?;
    let outcome = run(alloc, &image, &pool, script, stop, keep)?;
    Ok(outcome)
}

/// Runs the script on the pool of a recovered image.
fn run(
    alloc: Global,
    image: &RawImage,
    pool: &PoolView,
    script: &Script,
    stop: Option<u64>,
    keep: u64,
) -> Result<Outcome, AllocError>
    requires calls { AreCalls (operations script.now.lines) }
    requires rising { IsStrictlyIncreasing (numbers_of script.now.lines) }
    requires bound { All NamesEarlierLines script.now.lines }
    requires recovered { (before : List ℕ) × (IsMeaning before pool.now × IsRecovered before image.now pool.now.lanes) }
    ensures size { IfOk result (λ out. length out.words.items ≡ length image.now) }
    ensures given { IfOk result (λ out. AreGiven out.history.items out.end out.given.items) }
    ensures history { IfOk result (λ out. IsHistoryOf pool.now (resolved out.given.items script.now.lines) stop out.history.items out.end) }
    ensures made { IfOk result (λ out. MakesCalls image.now pool.now (resolved out.given.items script.now.lines) stop keep out.history.items out.end out.words.items) }
    ensures replay { IfOk result (λ out. (before : List ℕ) → IsMeaning before pool.now → IsRecovered before image.now pool.now.lanes
        → HasNoTornMatch image.now pool.now (resolved out.given.items script.now.lines) stop → LeavesReplay before pool.now out.history.items out.words.items) }
{
    let mut history = Vec::new(alloc);
    let mut given = Vec::new(alloc);
    let mut lane = open_lane(alloc, image, pool, stop)?;
    let lines = script.lines.as_slice();
    let halt = run_all(
        alloc,
        &mut lane,
        names_of(pool),
        &mut given,
        lines,
        &mut history,
    )?;
    let words = lane.memory.survive(alloc, keep)?;
    let end = halt.end;
    let decided = is_decided(words.as_slice(), halt.generation);
    close_history(&mut history, halt, decided)?;
    Ok(Outcome {
        words,
        history,
        given,
        end,
    })
}

/// Whether the words that are left have another generation of lane 0 than this, or a seal: then a call that began with it was decided, and ended
/// it, or a recovery does.
fn is_decided(left: &[u64], generation: u64) -> bool
    requires { 513 < length left.now }
    ensures { result ≡ not (slice_index left.now 513 == 0 && slice_index left.now 512 == generation) }
{
    left[SEAL_WORD as usize] != 0 || left[GENERATION_WORD as usize] != generation
}

/// Adds the call that was not answered, if it drew a number, with its fate, by whether a power failure leaves its deciding store.
fn close_history(history: &mut Vec<Entry>, halt: Halt, decided: bool) -> Result<(), AllocError>
    ensures { OnOk result (history.new.items ≡ closed_history history.old.items halt.is_open decided) }
{
    if let Some(entry) = halt.is_open {
        let fate = open_fate(decided);
        history.push(Entry {
            number: entry.number,
            call: entry.call,
            reply: entry.reply,
            fate,
        })?;
    }
    Ok(())
}

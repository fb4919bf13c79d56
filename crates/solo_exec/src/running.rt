//! The run of a script's calls by lane 0, one after another.

ghost use Rattle.std.specs.Prelude.{◌≡◌, ◌++◌, ◌∷◌, [], List, IfOk, IfSome, IfNone, OnOk};
ghost use Rattle.solo_crash.specs.Alone.{BeginsAlone};
ghost use Rattle.pm_header.specs.declared.header.Header.{Header};
ghost use Rattle.pm_layout.specs.Layout.{IsShape};
ghost use Rattle.solo_model.specs.Actions.{none_pending};
ghost use Rattle.solo_pending.specs.AllPending.{IsPendingAs};
ghost use Rattle.solo_script.specs.Scripts.{AreCalls, operations};
ghost use Rattle.solo_script.specs.declared.script.ScriptLine.{ScriptLine};
ghost use Rattle.solo_view.specs.View.{View};
ghost use Rattle.solo_world.specs.Opening.{Opening};
ghost use Rattle.solo_exec.specs.Calls.{IsCall, call_lines, call_of};
ghost use Rattle.solo_exec.specs.Letters.{AreGivenBy, AreGivenTo, AreInOrder, AreTold, KeepsGiven, Offsets, offsets_of, resolved};
ghost use Rattle.solo_exec.specs.declared.calls.Names.{Names};
ghost use Rattle.solo_exec.specs.Openings.{first_view, opening_of};
ghost use Rattle.solo_exec.specs.Running.{HasClosed, HasComeTo, HasHalted, HasRun, MayRun, MayStart, open_entry};

use crate::calls::{Names, call_of, first_call};
use crate::ending::{CallEnd, run_call, settled_fate};
use crate::letters::give;
use pm_layout::Shape;
use pm_objects::{Call, Entry, Fate, PoolView, Reply};
use pm_raw::RawImage;
use pm_text::LaneEnd;
use solo_action::finish;
use solo_made::CallBlocks;
use solo_memory::SoloMem;
use solo_occupancy::occupancy_of;
use solo_pending::PendingActions;
use solo_script::ScriptLine;
use solo_world::Lane;
use std::alloc::{AllocError, Global};

/// The places of the generation of lane 0, and of its seal, in words.
pub(crate) const GENERATION_WORD: u64 = 512;

pub(crate) const SEAL_WORD: u64 = 513;

/// How a run came to its end, behind the calls that were answered.
#[derive(Drop)]
pub(crate) struct Halt {
    pub(crate) end: LaneEnd,
    /// The call that drew a number and was not answered, as lost.
    pub(crate) is_open: Option<Entry>,
    /// The lane's generation as its last call began: an image that has it still, and no seal, lacks that call's deciding store.
    pub(crate) generation: u64,
}

/// The entry of a call that was not answered, as lost, if it drew a number.
fn open_entry(number: Option<u64>, call: Call, reply: Reply) -> Option<Entry>
    ensures { (names : Names) (lines : List ScriptLine) → call ≡ call_of names lines → result ≡ open_entry names lines number reply }
{
    let number = number?;
    Some(Entry {
        number,
        call,
        reply,
        fate: Fate::Lost,
    })
}

/// Makes the call of these lines; once it is answered it is added to the history. The offsets that its lines gave are added to those that were given.
fn run_next(
    alloc: Global,
    lane: &mut Lane<SoloMem>,
    blocks: &mut CallBlocks,
    pending: &mut PendingActions,
    names: Names,
    given: &mut Vec<(u64, u64)>,
    lines: &[ScriptLine],
    history: &mut Vec<Entry>,
) -> Result<Option<Halt>, AllocError>
    requires call { IsCall (operations lines.now) }
    requires ordered { AreInOrder lines.now }
    requires start { (o : Opening) × ((first : View) × ((calls : List (List ScriptLine)) × HasComeTo o first lane.old blocks.old pending.old names calls history.old.items)) }
    ensures answered { IfOk result (λ halted. IfNone halted ((o : Opening) (first : View) (calls : List (List ScriptLine)) → HasComeTo o first lane.old blocks.old pending.old names calls history.old.items
        → HasComeTo o first lane.new blocks.new pending.new names (calls ++ resolved given.new.items lines.now ∷ []) history.new.items)) }
    ensures halted { IfOk result (λ halted. IfSome halted (λ halt. (o : Opening) (first : View) (calls : List (List ScriptLine)) → HasComeTo o first lane.old blocks.old pending.old names calls history.old.items
        → HasHalted o first lane.new pending.new names calls (resolved given.new.items lines.now) history.new.items halt)) }
    ensures kept { IfOk result (λ halted. IfSome halted (λ halt. history.new.items ≡ history.old.items)) }
    ensures letters { OnOk result (KeepsGiven lines.now given.old.items given.new.items) }
    ensures gave { IfOk result (λ halted. given.old.items ≡ offsets_of history.old.items → AreGivenBy history.new.items halted given.new.items) }
{
    let generation = lane.memory.word(GENERATION_WORD);
    match run_call(alloc, lane, blocks, pending, names, given.as_slice(), lines)? {
        CallEnd::Answered {
            number,
            answer,
            reply,
        } => {
            give(given, reply.values.as_slice())?;
            let call = call_of(alloc, names, given.as_slice(), lines)?;
            let fate = settled_fate(answer);
            history.push(Entry {
                number,
                call,
                reply,
                fate,
            })?;
            Ok(None)
        }
        CallEnd::Halted { number, reply } => {
            give(given, reply.values.as_slice())?;
            let call = call_of(alloc, names, given.as_slice(), lines)?;
            Ok(Some(Halt {
                end: LaneEnd::Stopped(lane.calls()),
                is_open: open_entry(number, call, reply),
                generation,
            }))
        }
        CallEnd::Unbegun { line } => Ok(Some(Halt {
            end: LaneEnd::Spent(line),
            is_open: None,
            generation,
        })),
    }
}

/// Makes the calls of these lines, one after another, up to the one in which the lane comes to its end; those that were answered are added to
/// the history, and the offsets that lines gave to those that were given.
fn run_calls(
    alloc: Global,
    lane: &mut Lane<SoloMem>,
    pending: &mut PendingActions,
    names: Names,
    given: &mut Vec<(u64, u64)>,
    lines: &[ScriptLine],
    history: &mut Vec<Entry>,
) -> Result<Halt, AllocError>
    requires calls { AreCalls (operations lines.now) }
    requires ordered { AreInOrder lines.now }
    requires none { given.old.items ≡ [] }
    requires nothing { IsPendingAs pending.old none_pending }
    requires start { (o : Opening) × ((first : View) × MayRun o first lane.old names history.old.items) }
    ensures made { IfOk result (λ halt. (o : Opening) (first : View) → MayRun o first lane.old names history.old.items
        → HasRun o first lane.new pending.new names (call_lines (resolved given.new.items lines.now)) history.new.items halt) }
    ensures gave { IfOk result (λ halt. AreGivenTo history.new.items halt given.new.items) }
    ensures told { OnOk result (AreTold history.new.items given.new.items) }
{
    let mut blocks = CallBlocks::new(alloc, lane.shape)?;
    let mut rest = lines;
    while !rest.is_empty() {
        let (call, behind) = rest.split_at(first_call(rest));
        if let Some(halt) = run_next(
            alloc,
            lane,
            &mut blocks,
            pending,
            names,
            given,
            call,
            history,
        )? {
            return Ok(halt);
        }
        rest = behind;
    }
    Ok(Halt {
        end: LaneEnd::Ended,
        is_open: None,
        generation: 0,
    })
}

/// Gives up what is pending still, where the lane did not stop before: it may come to its stop there.
fn close_run(lane: &mut Lane<SoloMem>, pending: &mut PendingActions, halt: Halt) -> Halt
    requires run { (o : Opening) × ((first : View) × ((names : Names) × ((calls : List (List ScriptLine)) × ((history : List Entry) × HasRun o first lane.old pending.old names calls history halt)))) }
    ensures closed { (o : Opening) (first : View) (names : Names) (calls : List (List ScriptLine)) (history : List Entry) → HasRun o first lane.old pending.old names calls history halt
        → HasClosed o first lane.new names calls history result }
    ensures gave { (history : List Entry) (given : Offsets) → AreGivenTo history halt given → AreGivenTo history result given }
{
    if let LaneEnd::Stopped(_) = halt.end {
        return halt;
    }
    match finish(lane, pending) {
        Ok(()) => halt,
        Err(_) => Halt {
            end: LaneEnd::Stopped(lane.calls()),
            is_open: halt.is_open,
            generation: halt.generation,
        },
    }
}

/// Makes the calls of these lines, as `run_calls` does, and gives up what is pending behind them.
pub(crate) fn run_all(
    alloc: Global,
    lane: &mut Lane<SoloMem>,
    names: Names,
    given: &mut Vec<(u64, u64)>,
    lines: &[ScriptLine],
    history: &mut Vec<Entry>,
) -> Result<Halt, AllocError>
    requires calls { AreCalls (operations lines.now) }
    requires ordered { AreInOrder lines.now }
    requires none { given.old.items ≡ [] }
    requires start { (o : Opening) × ((first : View) × MayRun o first lane.old names history.old.items) }
    ensures made { IfOk result (λ halt. (o : Opening) (first : View) → MayRun o first lane.old names history.old.items
        → HasClosed o first lane.new names (call_lines (resolved given.new.items lines.now)) history.new.items halt) }
    ensures gave { IfOk result (λ halt. AreGivenTo history.new.items halt given.new.items) }
    ensures told { OnOk result (AreTold history.new.items given.new.items) }
{
    let mut pending = PendingActions::new();
    let halt = run_calls(alloc, lane, &mut pending, names, given, lines, history)?;
    Ok(close_run(lane, &mut pending, halt))
}

/// Lane 0 of the pool, alone over the words of its recovered image.
pub(crate) fn open_lane(
    alloc: Global,
    image: &RawImage,
    pool: &PoolView,
    stop: Option<u64>,
) -> Result<Lane<SoloMem>, AllocError>
    requires shape { IsShape pool.now.lanes pool.now.zones }
    requires begins { (header : Header) × BeginsAlone (opening_of pool.now image.now) header pool.now (first_view pool.now image.now stop) }
    ensures { IfOk result (MayStart (opening_of pool.now image.now) (first_view pool.now image.now stop)) }
{
    let Ok(shape) = Shape::new(pool.lanes, pool.zones) else {
        unreachable!()
    };
    let words = Vec::from_slice(alloc, image.words(0, image.len()))?;
    let occupancy = occupancy_of(alloc, &words, shape)?;
    let memory = SoloMem::new(alloc, words, stop)?;
    let memory = memory.with_occupancy(occupancy.runs, occupancy.zones);
    let lane = Lane::new(memory, pool.id, shape);
    Ok(lane)
}

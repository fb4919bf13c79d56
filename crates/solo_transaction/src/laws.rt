//! Laws of transactions that make and free objects, of a lane that works alone.

ghost use Rattle.std.specs.Prelude.{◌≡◌, ◌==◌, ◌&&◌, ℕ, ◌<◌, All, List, [], ◌∷◌, length, slice_index, Some, take};
ghost use Rattle.pm_header.specs.declared.header.Header.{Header};
ghost use Rattle.pm_image.specs.Logs.{generation_word, seal_word};
ghost use Rattle.pm_image.specs.declared.block.Block.{Block};
ghost use Rattle.solo_memory.specs.Keep.{IsKeptImage};
ghost use Rattle.solo_model.specs.Actions.{Action};
ghost use Rattle.pm_objects.specs.declared.calls.Operation.{Operation};
ghost use Rattle.pm_objects.specs.declared.calls.Want.{Want};
ghost use Rattle.pm_objects.specs.declared.pool.PoolView.{PoolView};
ghost use Rattle.pm_record.specs.declared.redo.Redo.{Redo};
ghost use Rattle.solo_view.specs.Founds.{IsAlone};
ghost use Rattle.solo_view.specs.Log.{no_log};
ghost use Rattle.solo_view.specs.Log.Phase.{Idle};
ghost use Rattle.solo_view.specs.Steps.{Step};
ghost use Rattle.solo_view.specs.View.{View};
ghost use Rattle.solo_view.specs.Views.{after_all};
ghost use Rattle.solo_world.specs.Crash.{loses};
ghost use Rattle.solo_world.specs.Opening.{Opening};
ghost use Rattle.solo_world.specs.Records.{generation_of};
ghost use Rattle.solo_world.specs.Sequences.{Ready};
ghost use Rattle.solo_world.specs.declared.lane.HeldLock.{HeldLock};
ghost use Rattle.solo_world.specs.declared.lane.Lane.{Lane};
ghost use Rattle.solo_world.specs.declared.lane.Span.{Span};
ghost use Rattle.solo_crash.specs.Alone.{Begins, BeginsAgain, MeansCalls, WorksAlone, kept_numbered, standing};
ghost use Rattle.solo_crash.specs.CallBlocks.{reserved_in};
ghost use Rattle.solo_crash.specs.Reserving.{HasReserved};
ghost use Rattle.solo_epoch.specs.Epochs.{HasEnded};
ghost use Rattle.solo_made.specs.Made.{BlockLists};
ghost use Rattle.solo_tx.specs.Ending.{IsAfterCall};
ghost use Rattle.solo_tx.specs.Sequences.{commits};
ghost use Rattle.solo_transaction.specs.Allocating.{MayAllocate};
ghost use Rattle.solo_transaction.specs.AtWork.{AreForPool, IsAtWorkWith, IsNotMaking, LiesInReserved};
ghost use Rattle.solo_transaction.specs.Beginning.{HasBegunWith};
ghost use Rattle.solo_transaction.specs.Committing.{MayPublishBlocks};
ghost use Rattle.solo_transaction.specs.Ending.{HasEndedWith, MayEnd};
ghost use Rattle.solo_transaction.specs.Published.{CommitsAlone, HasDrawn, HasOwnCounts, IsCommittingAlone, IsCommittingIn, LogsCall, logs_call};

use solo_world::LawfulMem;

/// A law: a lane alone that began a transaction where it may begin, and is not in the midst of making an object, works alone there, and is at work with its lists, if
/// these are for its pool, and what it has pending that is reserved stands in its words, in blocks that it reserved. No code runs.
pub fn a_lane_alone_begins_at_work<M: LawfulMem>()
    ensures works { (o : Opening) (header : Header) (pool : PoolView) (v : View) (lane : Lane M) (blocks : BlockLists) (wants : List Want) → Begins o header pool v
        → (begun : HasBegunWith M.at lane blocks v wants) → HasOwnCounts begun.begun.view → WorksAlone o header pool v begun.begun.led.steps begun.begun.view }
    ensures at_work { (o : Opening) (header : Header) (pool : PoolView) (v : View) (lane : Lane M) (blocks : BlockLists) (wants : List Want) → Begins o header pool v
        → AreForPool blocks v → IsNotMaking v → (begun : HasBegunWith M.at lane blocks v wants) → HasOwnCounts begun.begun.view
        → HasReserved begun.begun.view → All (LiesInReserved begun.begun.view) (reserved_in begun.begun.view) → IsAtWorkWith o M.at lane blocks begun.begun.view }
{}

/// A law: a lane that works alone, and is at work in a transaction with its lists, may make an object there. No code runs.
pub fn a_lane_alone_may_allocate<M: LawfulMem>()
    ensures { (o : Opening) (header : Header) (pool : PoolView) (start v : View) (steps : List Step) (lane : Lane M) (blocks : BlockLists)
        → WorksAlone o header pool start steps v → IsAtWorkWith o M.at lane blocks v → MayAllocate o M.at lane blocks v }
{}

/// A law: a transaction of a lane that works alone, at work with its lists of what it made and freed, may be committed with the redo entries of their blocks: the
/// pool has room for each block, the lane may enter each entry, and its log has room for all of them and the one that ends its generation. No code runs.
pub fn a_lane_alone_may_publish_its_blocks<M: LawfulMem>()
    ensures { (o : Opening) (header : Header) (pool : PoolView) (start v : View) (steps : List Step) (lane : Lane M) (blocks : BlockLists)
        → WorksAlone o header pool start steps v → IsAtWorkWith o M.at lane blocks v → MayPublishBlocks v blocks }
{}

/// A law: a commit of such a transaction with the entries of its actions and blocks, some at least, publishes the call from where its number is drawn. At its end the
/// call has ended, the lane holds no zone's lock, and its words have the opening's header page. Wherever the lane stops in its steps, it works alone still, or it has drawn the
/// number and publishes; the generation that it had at the draw is that of the view at which it began to commit. No code runs.
pub fn a_commit_of_a_lane_alone_publishes_its_call<M: LawfulMem>()
    ensures publishes { (o : Opening) (header : Header) (pool : PoolView) (start v : View) (steps : List Step) (lane : Lane M) (blocks : BlockLists) (entries : List Redo) (spans : List Span) (n : ℕ)
        → CommitsAlone o header pool start steps M.at lane blocks v entries → Ready v (commits spans entries n v)
        → HasOwnCounts (after_all v (commits spans entries n v)) → HasDrawn o header pool n (after_all v (commits spans entries n v)) }
    ensures ended { (o : Opening) (header : Header) (pool : PoolView) (start v : View) (steps : List Step) (lane : Lane M) (blocks : BlockLists) (entries : List Redo) (spans : List Span) (n : ℕ)
        → CommitsAlone o header pool start steps M.at lane blocks v entries → Ready v (commits spans entries n v)
        → HasOwnCounts (after_all v (commits spans entries n v)) → HasEnded o header pool (after_all v (commits spans entries n v)) }
    ensures unlocked { (o : Opening) (header : Header) (pool : PoolView) (start v : View) (steps : List Step) (lane : Lane M) (blocks : BlockLists) (entries : List Redo) (spans : List Span) (n : ℕ)
        → CommitsAlone o header pool start steps M.at lane blocks v entries → Ready v (commits spans entries n v) → (after_all v (commits spans entries n v)).zone_locks ≡ [] }
    ensures page { (o : Opening) (header : Header) (pool : PoolView) (start v : View) (steps : List Step) (lane : Lane M) (blocks : BlockLists) (entries : List Redo) (spans : List Span) (n : ℕ)
        → CommitsAlone o header pool start steps M.at lane blocks v entries → Ready v (commits spans entries n v) → HasOwnCounts (after_all v (commits spans entries n v))
        → (i : ℕ) → i < 512 → slice_index (after_all v (commits spans entries n v)).words i ≡ slice_index o.words i }
    ensures stops { (o : Opening) (header : Header) (pool : PoolView) (start v : View) (steps : List Step) (lane : Lane M) (blocks : BlockLists) (entries : List Redo) (spans : List Span) (n made : ℕ)
        → CommitsAlone o header pool start steps M.at lane blocks v entries → Ready v (commits spans entries n v)
        → HasOwnCounts (after_all v (take made (commits spans entries n v))) → IsCommittingAlone o header pool start steps n (after_all v (take made (commits spans entries n v))) }
    ensures stops_in { (o : Opening) (header : Header) (pool : PoolView) (start v : View) (steps : List Step) (lane : Lane M) (blocks : BlockLists) (entries : List Redo) (spans : List Span) (n made : ℕ)
        → CommitsAlone o header pool start steps M.at lane blocks v entries → Ready v (commits spans entries n v)
        → HasOwnCounts (after_all v (take made (commits spans entries n v))) → IsCommittingIn (generation_of v) o header pool start steps n (after_all v (take made (commits spans entries n v))) }
    ensures drawn { (o : Opening) (header : Header) (pool : PoolView) (start v : View) (steps : List Step) (lane : Lane M) (blocks : BlockLists) (entries : List Redo) (spans : List Span) (n made : ℕ)
        → CommitsAlone o header pool start steps M.at lane blocks v entries → Ready v (commits spans entries n v) → HasOwnCounts (after_all v (take made (commits spans entries n v)))
        → length v.entries < length (after_all v (take made (commits spans entries n v))).entries
        → (has : HasDrawn o header pool n (after_all v (take made (commits spans entries n v)))) × (generation_of has.drawn ≡ generation_of v) }
{}

/// A law: a call that is told by an operation without a value and decided by one log, as a publish outside of a transaction is and a commit with entries, publishes from
/// where its number is drawn, if the lane works alone and is committed once it has told the operation. At its end the call has ended, the lane holds no zone's lock, and its
/// words have the opening's header page. Wherever the lane stops in its steps, it works alone still, or it has drawn the number and publishes; the generation that it had at
/// the draw is that of the view at which it began. No code runs.
pub fn a_call_told_by_its_log_is_published()
    ensures publishes { (o : Opening) (header : Header) (pool : PoolView) (start v : View) (steps : List Step) (op : Operation) (actions : List Action) (blocks : BlockLists) (entries : List Redo) (n : ℕ)
        → LogsCall o header pool start steps op actions blocks v entries → Ready v (logs_call op entries n v)
        → HasOwnCounts (after_all v (logs_call op entries n v)) → HasDrawn o header pool n (after_all v (logs_call op entries n v)) }
    ensures ended { (o : Opening) (header : Header) (pool : PoolView) (start v : View) (steps : List Step) (op : Operation) (actions : List Action) (blocks : BlockLists) (entries : List Redo) (n : ℕ)
        → LogsCall o header pool start steps op actions blocks v entries → Ready v (logs_call op entries n v)
        → HasOwnCounts (after_all v (logs_call op entries n v)) → HasEnded o header pool (after_all v (logs_call op entries n v)) }
    ensures unlocked { (o : Opening) (header : Header) (pool : PoolView) (start v : View) (steps : List Step) (op : Operation) (actions : List Action) (blocks : BlockLists) (entries : List Redo) (n : ℕ)
        → LogsCall o header pool start steps op actions blocks v entries → Ready v (logs_call op entries n v) → (after_all v (logs_call op entries n v)).zone_locks ≡ [] }
    ensures page { (o : Opening) (header : Header) (pool : PoolView) (start v : View) (steps : List Step) (op : Operation) (actions : List Action) (blocks : BlockLists) (entries : List Redo) (n : ℕ)
        → LogsCall o header pool start steps op actions blocks v entries → Ready v (logs_call op entries n v) → HasOwnCounts (after_all v (logs_call op entries n v))
        → (i : ℕ) → i < 512 → slice_index (after_all v (logs_call op entries n v)).words i ≡ slice_index o.words i }
    ensures stops { (o : Opening) (header : Header) (pool : PoolView) (start v : View) (steps : List Step) (op : Operation) (actions : List Action) (blocks : BlockLists) (entries : List Redo) (n made : ℕ)
        → LogsCall o header pool start steps op actions blocks v entries → Ready v (logs_call op entries n v)
        → HasOwnCounts (after_all v (take made (logs_call op entries n v))) → IsCommittingAlone o header pool start steps n (after_all v (take made (logs_call op entries n v))) }
    ensures stops_in { (o : Opening) (header : Header) (pool : PoolView) (start v : View) (steps : List Step) (op : Operation) (actions : List Action) (blocks : BlockLists) (entries : List Redo) (n made : ℕ)
        → LogsCall o header pool start steps op actions blocks v entries → Ready v (logs_call op entries n v)
        → HasOwnCounts (after_all v (take made (logs_call op entries n v))) → IsCommittingIn (generation_of v) o header pool start steps n (after_all v (take made (logs_call op entries n v))) }
    ensures drawn { (o : Opening) (header : Header) (pool : PoolView) (start v : View) (steps : List Step) (op : Operation) (actions : List Action) (blocks : BlockLists) (entries : List Redo) (n made : ℕ)
        → LogsCall o header pool start steps op actions blocks v entries → Ready v (logs_call op entries n v) → HasOwnCounts (after_all v (take made (logs_call op entries n v)))
        → length v.entries < length (after_all v (take made (logs_call op entries n v))).entries
        → (has : HasDrawn o header pool n (after_all v (take made (logs_call op entries n v)))) × (generation_of has.drawn ≡ generation_of v) }
{}

/// A law: a call that drew its number and publishes is lost by an image exactly where that has no seal of lane 0, and the generation still that the lane had as the number was
/// drawn. No code runs.
pub fn a_commit_cut_short_is_lost_by_its_words()
    ensures { (o : Opening) (header : Header) (pool : PoolView) (n : ℕ) (w : View) (keep : ℕ) (image : List ℕ) → (has : HasDrawn o header pool n w)
        → IsKeptImage keep w.words (w.changes ∷ []) image → loses image w n ≡ (seal_word image 0 == 0 && generation_word image 0 == generation_of has.drawn) }
{}

/// A law: each image that a power failure leaves of such a call means the pool to which the calls that it does not lose lead, in order; and it has the opening's
/// length and header page. No code runs.
pub fn a_commit_cut_short_leaves_its_whole_calls()
    ensures meaning { (o : Opening) (header : Header) (pool : PoolView) (n : ℕ) (w : View) (keep : ℕ) (image : List ℕ)
        → HasDrawn o header pool n w → IsKeptImage keep w.words (w.changes ∷ []) image → MeansCalls image o.lanes o.zones pool (kept_numbered image w) }
    ensures header_page { (o : Opening) (header : Header) (pool : PoolView) (n : ℕ) (w : View) (keep : ℕ) (image : List ℕ)
        → HasDrawn o header pool n w → IsKeptImage keep w.words (w.changes ∷ []) image → (i : ℕ) → i < 512 → slice_index image i ≡ slice_index o.words i }
    ensures size { (o : Opening) (header : Header) (pool : PoolView) (n : ℕ) (w : View) (keep : ℕ) (image : List ℕ)
        → HasDrawn o header pool n w → IsKeptImage keep w.words (w.changes ∷ []) image → length image ≡ length o.words }
{}

/// A law: a lane alone, behind its call, may end the transaction, and behind that it begins again, over the words as they stand. So it is where the call's
/// log was published, with its blocks among the rest, and holds no zone's lock; and where it works alone still, since its call was given up, or
/// published no block. It is not in the midst of making an object then, whatever blocks it keeps. No code runs.
pub fn a_lane_alone_that_ended_begins_again<M: LawfulMem>()
    ensures may { (o : Opening) (header : Header) (pool : PoolView) (v : View) (lane : Lane M) → HasEnded o header pool v → IsAfterCall M.at lane v → MayEnd M.at lane v }
    ensures begins { (o : Opening) (header : Header) (pool : PoolView) (v : View) (lane : Lane M) (locks : List HeldLock) (kept : List Block) → HasEnded o header pool v → v.zone_locks ≡ []
        → (ended : HasEndedWith M.at lane v locks kept) → BeginsAgain (standing o ended.view) header pool ended.view }
    ensures left { (v : View) (lane : Lane M) (locks : List HeldLock) (kept : List Block) → v.zone_locks ≡ [] → (ended : HasEndedWith M.at lane v locks kept) → IsNotMaking ended.view }
    ensures may_else { (o : Opening) (header : Header) (pool : PoolView) (start v : View) (steps : List Step) (lane : Lane M)
        → WorksAlone o header pool start steps v → IsAlone v → IsNotMaking v → IsAfterCall M.at lane v → MayEnd M.at lane v }
    ensures begins_else { (o : Opening) (header : Header) (pool : PoolView) (start v : View) (steps : List Step) (lane : Lane M) (locks : List HeldLock) (kept : List Block) (number : ℕ)
        → WorksAlone o header pool start steps v → v.log ≡ no_log Idle → v.zone_locks ≡ [] → v.number ≡ Some number
        → (ended : HasEndedWith M.at lane v locks kept) → BeginsAgain (standing o ended.view) header pool ended.view }
{}

//! A law of the steps by which a transaction makes an object, of a lane that works alone.

ghost use Rattle.std.specs.Prelude.{◌≡◌, ℕ, ◌≤◌, List};
ghost use Rattle.std.specs.Option.{ForSome};
ghost use Rattle.pm_header.specs.declared.header.Header.{Header};
ghost use Rattle.pm_image.specs.declared.block.Block.{Block};
ghost use Rattle.pm_layout.specs.Sizes.{class_of};
ghost use Rattle.solo_memory.specs.Solo.{Sees, Solo};
ghost use Rattle.solo_memory.specs.declared.lane_mem.Stopped.{Stopped};
ghost use Rattle.pm_objects.specs.declared.pool.PoolView.{PoolView};
ghost use Rattle.pm_objects.specs.declared.refusal.Refusal.TheVariants as refusal;
ghost use Rattle.solo_view.specs.Steps.{Step};
ghost use Rattle.solo_view.specs.View.{View};
ghost use Rattle.solo_world.specs.Opening.{Opening};
ghost use Rattle.solo_world.specs.declared.lane.Lane.{Lane};
ghost use Rattle.solo_blocks.specs.AnyBlocks.{HasNoRoom};
ghost use Rattle.solo_blocks.specs.declared.making.NoBlock.TheVariants as no_block;
ghost use Rattle.solo_alloc.specs.NewObjects.{GivesNoObject, HasNewObject};
ghost use Rattle.solo_crash.specs.Alone.{WorksAlone};
ghost use Rattle.solo_made.specs.Made.{BlockLists};
ghost use Rattle.solo_transaction.specs.Allocating.{MayAllocate};
ghost use Rattle.solo_transaction.specs.MakingSteps.{FindsNoRoom, MakesByFew, StopsMaking};

use solo_world::LawfulMem;

/// A law: a lane that works alone makes an object by few stores, eight for each line of its block and two for a run, none of them of its generation; it is at
/// the same call, and no word changed of what that found. Where it finds no room it made no counted call, and has all that it had. Where it comes to its
/// stop in the midst, the first of those steps led there. No code runs.
pub fn an_object_is_made_by_few_stores<M: LawfulMem>()
    ensures made { (o : Opening) (header : Header) (pool : PoolView) (start v w : View) (steps : List Step) (lane : Lane M) (blocks : BlockLists) (size kind : ℕ) (block : Block)
        → WorksAlone o header pool start steps v → MayAllocate o M.at lane blocks v → HasNewObject (λ u. u ≡ w) v size kind block → ForSome w.stop (λ stop. w.calls ≤ stop) → MakesByFew v w size }
    ensures refused { (o : Opening) (header : Header) (pool : PoolView) (start v w : View) (steps : List Step) (lane : Lane M) (blocks : BlockLists) (size : ℕ)
        → WorksAlone o header pool start steps v → MayAllocate o M.at lane blocks v → HasNoRoom (λ u. u ≡ w) v (class_of size) (no_block.Refused refusal.NoSpace) → FindsNoRoom v w }
    ensures stopped { (o : Opening) (header : Header) (pool : PoolView) (start v : View) (steps : List Step) (lane : Lane M) (blocks : BlockLists) (memory : Solo) (size kind : ℕ) (stop : Stopped)
        → WorksAlone o header pool start steps v → MayAllocate o M.at lane blocks v → GivesNoObject (Sees memory) v size kind (no_block.Stopped stop) → StopsMaking memory v size kind }
{}

ghost use Rattle.std.specs.Prelude.{◌≡◌, ◌≢◌, ◌↔◌, ℕ, Bool, true, not, List, [], ◌∷◌, ◌++◌, filter};
ghost use Rattle.pm_objects.specs.Pool.{IsPool};
ghost use Rattle.pm_objects.specs.declared.history.TxErr.TheVariants as error;
ghost use Rattle.pm_objects.specs.declared.pool.PoolView.{PoolView};
ghost use Rattle.pm_model.specs.Items.{plain_pool};
ghost use Rattle.pm_model.specs.Places.{can_begin, CanBegin};
ghost use Rattle.pm_model.specs.CallStep.{CallRun, CallStep, Runs, State, TransactionStep};
ghost use Rattle.pm_model.specs.Inside.{Ran, Replies, after};
ghost use Rattle.pm_model.specs.Transaction.{Transaction, is_working};
ghost use Rattle.pm_model.specs.Framed.{IsUnwritten, MayBeLeftOut};
ghost use Rattle.pm_model.specs.Names.{Apart, ApartFromAll, IsFramedCall, Name, Replays, content, touches, writes};
ghost use Rattle.pm_model.specs.Shown.{error_of};
ghost use Rattle.pm_model.specs.Sound.{IsSound, IsSoundState};

/// A law: each call changes only what it writes, and goes alike from each state that has the same
/// where it touches it. No code runs.
pub fn calls_have_parts()
    ensures { (run : CallRun) → IsFramedCall run }
{}

/// A law: two neighbours that are apart may change places, with all replies kept. No code runs.
pub fn apart_calls_change_places()
    ensures { (a b : CallRun) (s t u : State) → Apart a b → CallStep s a t → CallStep t b u
        → (m : State) × CallStep s b m × CallStep m a u }
{}

/// A law: a call that is apart from all later ones may come last. No code runs.
pub fn apart_calls_come_last()
    ensures { (a : CallRun) (calls : List CallRun) (s t u : State) → ApartFromAll a calls
        → CallStep s a t → Replays t calls u
        → (m : State) × Replays s calls m × CallStep m a u }
{}

/// A law: a call that came last stands as well before all those from which it is apart. No code
/// runs.
pub fn late_calls_stand_earlier()
    ensures { (a : CallRun) (calls : List CallRun) (s m u : State) → ApartFromAll a calls
        → Replays s calls m → CallStep m a u
        → (t : State) × CallStep s a t × Replays t calls u }
{}

/// A law: calls that are apart from all later ones may be left out. What they don't write ends as
/// before. No code runs.
pub fn apart_calls_may_be_left_out()
    ensures { (left_out : CallRun → Bool) (calls : List CallRun) (s u : State)
        → MayBeLeftOut writes touches left_out calls → Replays s calls u
        → (m : State) × Replays s (filter (λ a. not (left_out a)) calls) m
        × ((n : Name) → IsUnwritten writes left_out calls n → content m n ≡ content u n) }
{}

/// A law: a state is known by what it has under each name. No code runs.
pub fn states_are_known_by_names()
    ensures { (s t : State) → ((n : Name) → content s n ≡ content t n) → s ≡ t }
{}

/// A law: a pool is known by its plain pool. No code runs.
pub fn pools_are_known_by_their_items()
    ensures { (v w : PoolView) → IsPool v → IsPool w → plain_pool v ≡ plain_pool w → v ≡ w }
{}

/// A law: a call's replies fix the next state. No code runs.
pub fn replies_fix_the_next_state()
    ensures { (run : CallRun) (s t u : State) → CallStep s run t → CallStep s run u → t ≡ u }
{}

/// A law: a transaction ends with the error that its operations show, and a call that shows an
/// error changed no pool. No code runs.
pub fn aborted_calls_change_nothing()
    ensures error { (run : CallRun) (s t : State) → (step : TransactionStep s run t)
        → step.last.error ≡ error_of run.operations }
    ensures unchanged { (run : CallRun) (s t : State) → CallStep s run t
        → error_of run.operations ≢ error.None → t.pool ≡ s.pool }
{}

/// A law: a block can begin before an offset exactly where whole chunks or a block of a run can.
/// No code runs.
pub fn blocks_begin_at_chunks_and_in_runs()
    ensures { (lanes zones off : ℕ)
        → (can_begin lanes zones off ≡ true) ↔ CanBegin lanes zones off }
{}

/// A law: a transaction at work goes on with one more operation. What it replied before stands,
/// also where that is a cancel. No code runs.
pub fn transactions_grow_at_their_end()
    ensures { (operations : List Ran) (ran : Ran) (tx mid : Transaction) → Runs tx operations mid
        → is_working mid.stage ≡ true → Replies mid ran true
        → Runs tx (operations ++ ran ∷ []) (after ran mid) }
{}

/// A law: a call leaves a sound pool sound: sizes, blocks that don't overlap, lists and their
/// members, the root. No code runs.
pub fn calls_keep_pools_sound()
    ensures { (run : CallRun) (s t : State) → CallStep s run t → IsSoundState s → IsSoundState t }
{}

/// A law: a pool that an image means is sound. No code runs.
pub fn pools_are_sound()
    ensures { (v : PoolView) → IsPool v → IsSound (plain_pool v).items (plain_pool v).root }
{}

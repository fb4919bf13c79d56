ghost use Rattle.std.specs.Prelude.{IfOk};
ghost use Rattle.pm_world.specs.Bare.{AreBare, BareOpens};
ghost use Rattle.pm_world.specs.Opens.{Opens, RecoveredOpens};

use pm_layout::{Shape, WORD_BYTES};
use std::alloc::{AllocError, Global};

/// Makes the generation of each lane 1.
fn begin_lanes(words: &mut Vec<u64>, shape: Shape)
    requires { AreBare shape 0 words.old.items }
    ensures { AreBare shape shape.lanes words.new.items }
{
    for lane in 0..shape.lanes {
        words[shape.word_of_generation(lane) as usize] = 1;
    }
}

/// The words of a pool of this shape without objects: 0 but for the lanes' generations, which are
/// 1. They have no header, so they are no image: engines are tested on them.
///
/// # Errors
///
/// `AllocError`: there is no memory for the words.
pub fn bare_words(alloc: Global, shape: Shape) -> Result<Vec<u64>, AllocError>
    ensures { IfOk result (λ words. AreBare shape shape.lanes words.items) }
{
    let mut words = vec![in alloc; 0; (shape.size() / WORD_BYTES) as usize]?;
    begin_lanes(&mut words, shape);
    Ok(words)
}

/// A law: recovered words of which nothing of the heap is wrong open a world, with no lane asked
/// anything, where each lane's log is retired, no lock is held, no number is drawn, and the
/// occupancy words are what the pool's words take. Its history is empty, and each object fits its
/// block. No code runs.
pub fn recovered_words_open_a_world()
    ensures { Opens }
{}

/// A law: what recovery leaves of an image that means a pool opens a world of however many of the
/// pool's lanes, where no lock is held, no number is drawn, and the occupancy words are what the
/// pool's words take. No code runs.
pub fn recovery_opens_a_world()
    ensures { RecoveredOpens }
{}

/// A law: the words of a pool without objects open a world of however many of its lanes, each at
/// generation 1. No code runs.
pub fn bare_words_open_a_world()
    ensures { BareOpens }
{}

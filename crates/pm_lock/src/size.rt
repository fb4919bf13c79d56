ghost use Rattle.pm_view.specs.View.{View};
ghost use Rattle.pm_lock.specs.Sizes.{CanSize, Sized};

use pm_layout::{LINE_WORDS, SIZE_AT, Shape};
use pm_world::LawfulMem;

/// Looks at the size in bytes of an object that the lane found under the lock of this line.
pub fn size_of<M: LawfulMem>(mem: &mut M, shape: Shape, line: u64) -> u64
    requires { (v : View) × M.at mem.old v × CanSize v shape line }
    ensures { Sized M.at shape line mem.old mem.new result }
{
    mem.see(LINE_WORDS * line + SIZE_AT)
}

ghost use Rattle.std.specs.Prelude.{ℕ, Some, length};
ghost use Rattle.pm_objects.specs.declared.calls.Operation.TheVariants.{Begin, Read, Write};
ghost use Rattle.pm_objects.specs.declared.history.Value.TheVariants.{Bytes};
ghost use Rattle.std.specs.Option.{option_copied};
ghost use Rattle.solo_memory.specs.Runs.{Made};
ghost use Rattle.solo_view.specs.Steps.{Step};
ghost use Rattle.solo_view.specs.Steps.Step.{Tell};
ghost use Rattle.solo_view.specs.View.{View};
ghost use Rattle.solo_world.specs.Lawful.{Allowed};
ghost use Rattle.solo_world.specs.Tellings.{reply_of};

use pm_objects::{Oid, Operation, Refusal, Value, Want};
use solo_memory::LaneSync;

/// A lane's memory that asks no more of a step than that it is lawful.
pub trait LawfulMem: LaneSync {
    /// Adds an operation, with the value that it replied or none, to the lane's open call: for the proof alone, nothing else is done.
    fn tell(&mut self, operation: &Operation, reply: Option<&Value>)
        requires { Self.can self.old (Tell operation.now (option_copied reply)) }
        ensures { Made (Self.at self.old) (Self.at self.new) (Tell operation.now (option_copied reply.entry)) };

    /// Tells the begin of a level, or why it was refused, its wants being lent: an operation has wants of its own, and a lane takes
    /// no memory.
    fn tell_begin(&mut self, wants: &[Want], refusal: Option<Refusal>)
        requires { Self.can self.old (Tell (Begin wants.now) (reply_of refusal)) }
        ensures { Made (Self.at self.old) (Self.at self.new) (Tell (Begin wants.now) (reply_of refusal)) };

    /// Tells a write, or why it was refused, its bytes being lent likewise.
    fn tell_write(&mut self, id: Oid, off: u64, bytes: &[u8], refusal: Option<Refusal>)
        requires { Self.can self.old (Tell (Write id off bytes.now) (reply_of refusal)) }
        ensures { Made (Self.at self.old) (Self.at self.new) (Tell (Write id off bytes.now) (reply_of refusal)) };

    /// Tells a read that was done, with the bytes that it replied, likewise.
    fn tell_read(&mut self, id: Oid, off: u64, bytes: &[u8])
        requires { Self.can self.old (Tell (Read id off (length bytes.now)) (Some (Bytes bytes.now))) }
        ensures { Made (Self.at self.old) (Self.at self.new) (Tell (Read id off (length bytes.now)) (Some (Bytes bytes.now))) };

    /// A step that a lane's view allows is one that the memory takes.
    ghost meets: { (m : Self) (v : View) (s : Step) → Self.at m v → Allowed v s → Self.can m s };
}

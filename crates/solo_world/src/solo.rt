use crate::LawfulMem;
use pm_objects::{Oid, Operation, Refusal, Value, Want};
use solo_memory::SoloMem;

/// One lane alone: what its view allows is in the ranges of its memory.
impl LawfulMem for SoloMem {
    ghost use Rattle.solo_world.specs.Solo.{meets_solo};

    fn tell(&mut self, _operation: &Operation, _reply: Option<&Value>) {}

    fn tell_begin(&mut self, _wants: &[Want], _refusal: Option<Refusal>) {}

    fn tell_write(&mut self, _id: Oid, _off: u64, _bytes: &[u8], _refusal: Option<Refusal>) {}

    fn tell_read(&mut self, _id: Oid, _off: u64, _bytes: &[u8]) {}

    ghost meets = { meets_solo };
}

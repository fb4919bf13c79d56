ghost use Rattle.std.specs.Prelude.{◌≡◌, ◌⊎◌, ℕ, ◌≤◌, List, Some, length, IfOk, IfErr};
ghost use Rattle.pm_image.specs.declared.fault.ImageFault.{ImageFault};
ghost use Rattle.pm_objects.specs.declared.pool.PoolView.{PoolView};
ghost use Rattle.pm_options.specs.Words.{Check, Create, Exec, IsCheck, IsCreate, IsDump, IsExec, IsInfo, IsNoCommand, IsRecover, Recover, texts};
ghost use Rattle.pm_shelf.specs.Outside.{Held, Rose, IsThere, MayAddPart};
ghost use Rattle.pm_commands.specs.Answers.{CameTo, Did, DidChange, DidFail, Does, IsCauseOf, IsCutShort, IsNotPrinted, MayChange, Printed};
ghost use Rattle.pm_commands.specs.Checked.{HasFaultLeft, IsChecked, IsRepair, MayAddMended};
ghost use Rattle.pm_commands.specs.Created.{HasGoodValues, IsCreated, pool_bytes};
ghost use Rattle.pm_commands.specs.Executed.{CanRun, IsExecuted, MayAddRun};
ghost use Rattle.pm_commands.specs.Lines.{failure_line, failure_status, fault_line, no_memory_line};
ghost use Rattle.pm_commands.specs.PoolFiles.{AreFactsIn, BytesMean, IsDumpOf};
ghost use Rattle.pm_commands.specs.Recovered.{CanRecover, IsPoolRecovered, MayAddRecovery};
ghost use Rattle.pm_commands.specs.Saying.{IsAnswered, Said};

use crate::check_command::run_check;
use crate::create_command::run_create;
use crate::exec_command::run_exec;
use crate::failure::{Failure, failure_line, failure_status};
use crate::recover_command::run_recover;
use crate::show_commands::{run_dump, run_info};
use crate::status::Status;
use pm_options::{Command, OptionsFault, command_of};
use pm_shelf::{Gate, Shelf, Sink, SinkFault};
use pm_text::put_lines;
use std::alloc::{AllocError, Global};
use std::sync::Wait;
use std::thread::Threads;

/// The line that is printed where there is no memory for another.
const NO_MEMORY_LINE: &[u8] = b"no memory\n";

/// Does what the words of the command line say, the first of which is the program's name: docs/COMMANDS.md. A lane of a script passes the
/// gate before each of its lines.
pub fn top<R: Threads + Wait + Sync, S: Shelf, K: Sink, G: Gate + Sync>(
    rt: &R,
    alloc: Global,
    words: &[String],
    shelf: &mut S,
    out: &mut K,
    gate: &G,
) -> Status
    // Each status comes only where the words came to it, and the sink has got exactly the text of what they came to. Of two causes the one
    // that is earlier in the command's order is told.
    ensures done { result ≡ Status.Done → Printed (K.told out.old) (K.told out.new)
        (CameTo (texts words.now) (S.content shelf.old) (S.content shelf.new) (S.faults shelf.old) (S.faults shelf.new) Status.Done) }
    ensures refused { result ≡ Status.Refused → Printed (K.told out.old) (K.told out.new)
        (CameTo (texts words.now) (S.content shelf.old) (S.content shelf.new) (S.faults shelf.old) (S.faults shelf.new) Status.Refused) }
    ensures usage { result ≡ Status.Usage → Printed (K.told out.old) (K.told out.new)
        (CameTo (texts words.now) (S.content shelf.old) (S.content shelf.new) (S.faults shelf.old) (S.faults shelf.new) Status.Usage) }
    ensures read_fault { result ≡ Status.ReadFault → Printed (K.told out.old) (K.told out.new)
        (CameTo (texts words.now) (S.content shelf.old) (S.content shelf.new) (S.faults shelf.old) (S.faults shelf.new) Status.ReadFault) }
    ensures write_fault { result ≡ Status.WriteFault → Printed (K.told out.old) (K.told out.new)
        (CameTo (texts words.now) (S.content shelf.old) (S.content shelf.new) (S.faults shelf.old) (S.faults shelf.new) Status.WriteFault)
        ⊎ IsNotPrinted (texts words.now) (S.content shelf.old) (S.content shelf.new) (S.faults shelf.old) (S.faults shelf.new) (K.faults out.old) (K.faults out.new)
        (K.told out.old) (K.told out.new) }
    ensures no_memory { result ≡ Status.NoMemory → Printed (K.told out.old) (K.told out.new)
        (CameTo (texts words.now) (S.content shelf.old) (S.content shelf.new) (S.faults shelf.old) (S.faults shelf.new) Status.NoMemory)
        ⊎ IsCutShort (texts words.now) (S.content shelf.old) (S.content shelf.new) (S.faults shelf.old) (S.faults shelf.new) (K.told out.old) (K.told out.new) }
    ensures bad_script { result ≡ Status.BadScript → Printed (K.told out.old) (K.told out.new)
        (CameTo (texts words.now) (S.content shelf.old) (S.content shelf.new) (S.faults shelf.old) (S.faults shelf.new) Status.BadScript) }

    // Status 0, command by command. Of the pool that a run leaves this is the theorem that the program is built for. A check ends with 0 only
    // where the pool is consistent, or was mended, and with 1 only where neither is so.
    ensures create_done { (c : Create) → IsCreate (texts words.now) c → result ≡ Status.Done
        → Printed (K.told out.old) (K.told out.new) (IsCreated c (S.content shelf.old) (S.content shelf.new)) }
    ensures exec_done { (e : Exec) → IsExec (texts words.now) e → result ≡ Status.Done
        → Printed (K.told out.old) (K.told out.new) (IsExecuted e (S.content shelf.old) (S.content shelf.new)) }
    ensures recover_done { (r : Recover) → IsRecover (texts words.now) r → result ≡ Status.Done
        → Printed (K.told out.old) (K.told out.new) (IsPoolRecovered r (S.content shelf.old) (S.content shelf.new)) }
    ensures info_done { (name : List ℕ) → IsInfo (texts words.now) name → result ≡ Status.Done
        → Printed (K.told out.old) (K.told out.new) (AreFactsIn (S.content shelf.old) name) }
    ensures dump_done { (name : List ℕ) → IsDump (texts words.now) name → result ≡ Status.Done
        → Printed (K.told out.old) (K.told out.new) (IsDumpOf (S.content shelf.old) name) }
    ensures check_done { (c : Check) → IsCheck (texts words.now) c → result ≡ Status.Done
        → Printed (K.told out.old) (K.told out.new) (IsChecked c (S.content shelf.old) (S.content shelf.new)) }
    ensures check_refused { (c : Check) → IsCheck (texts words.now) c → result ≡ Status.Refused → (S.content shelf.new ≡ S.content shelf.old)
        × Printed (K.told out.old) (K.told out.new) (λ text. (found : ImageFault) × HasFaultLeft c (S.content shelf.old) found × (text ≡ fault_line found)) }

    // Whatever the status: no name but the new pool's changes, and that is as it was, or new with a front of the pool; a run's with a front
    // of what the run leaves, and so a recovery's; a check's only where the pool was mended, with a front of the mended one.
    ensures one_name { (c : Create) → IsCreate (texts words.now) c → MayAddPart (S.content shelf.old) (S.content shelf.new) c.pool (pool_bytes c) }
    ensures exec_name { (e : Exec) → IsExec (texts words.now) e → MayAddRun e (S.content shelf.old) (S.content shelf.new) }
    ensures recover_name { (r : Recover) → IsRecover (texts words.now) r → MayAddRecovery r (S.content shelf.old) (S.content shelf.new) }
    ensures check_name { (c : Check) → IsCheck (texts words.now) c → MayAddMended c (S.content shelf.old) (S.content shelf.new) }
    ensures info_writes_none { (name : List ℕ) → IsInfo (texts words.now) name → S.content shelf.new ≡ S.content shelf.old }
    ensures dump_writes_none { (name : List ℕ) → IsDump (texts words.now) name → S.content shelf.new ≡ S.content shelf.old }
    ensures no_name { IsNoCommand (texts words.now) → S.content shelf.new ≡ S.content shelf.old }

    // Values in range, a new name and no fault: done, or want of memory.
    ensures complete { (c : Create) → IsCreate (texts words.now) c → HasGoodValues c.wanted → ¬ IsThere (S.content shelf.old) c.pool
        → ¬ Rose (S.faults shelf.old) (S.faults shelf.new) → ¬ Rose (K.faults out.old) (K.faults out.new)
        → (result ≡ Status.Done) ⊎ (result ≡ Status.NoMemory) }

    // A pool of the layout and a script that runs on it under their names, a new name and no fault: done, or want of memory.
    ensures exec_complete { (e : Exec) (held : Held) → IsExec (texts words.now) e → S.content shelf.old ≡ Some held → CanRun held e
        → ¬ Rose (S.faults shelf.old) (S.faults shelf.new) → ¬ Rose (K.faults out.old) (K.faults out.new)
        → (result ≡ Status.Done) ⊎ (result ≡ Status.NoMemory) }

    // A pool under the name, a new name and no fault: done, or want of memory.
    ensures recover_complete { (r : Recover) (held : Held) → IsRecover (texts words.now) r → S.content shelf.old ≡ Some held → CanRecover held r
        → ¬ Rose (S.faults shelf.old) (S.faults shelf.new) → ¬ Rose (K.faults out.old) (K.faults out.new)
        → (result ≡ Status.Done) ⊎ (result ≡ Status.NoMemory) }

    // A pool under the name and no fault: done, or want of memory.
    ensures check_complete { (c : Check) (bytes : List ℕ) (pool : PoolView) (held : Held) → IsCheck (texts words.now) c → S.content shelf.old ≡ Some held
        → held c.pool ≡ Some bytes → BytesMean bytes pool
        → ¬ Rose (S.faults shelf.old) (S.faults shelf.new) → ¬ Rose (K.faults out.old) (K.faults out.new)
        → (result ≡ Status.Done) ⊎ (result ≡ Status.NoMemory) }
    ensures info_complete { (name bytes : List ℕ) (pool : PoolView) (held : Held) → IsInfo (texts words.now) name → S.content shelf.old ≡ Some held
        → held name ≡ Some bytes → BytesMean bytes pool
        → ¬ Rose (S.faults shelf.old) (S.faults shelf.new) → ¬ Rose (K.faults out.old) (K.faults out.new)
        → (result ≡ Status.Done) ⊎ (result ≡ Status.NoMemory) }
    ensures dump_complete { (name bytes : List ℕ) (pool : PoolView) (held : Held) → IsDump (texts words.now) name → S.content shelf.old ≡ Some held
        → held name ≡ Some bytes → BytesMean bytes pool
        → ¬ Rose (S.faults shelf.old) (S.faults shelf.new) → ¬ Rose (K.faults out.old) (K.faults out.new)
        → (result ≡ Status.Done) ⊎ (result ≡ Status.NoMemory) }

    // A pool that can be mended, as is asked for, a new name and no fault: done, or want of memory. A fault that is not mended: refused.
    ensures mend_complete { (c : Check) (found : ImageFault) (name mended : List ℕ) (held : Held) → IsCheck (texts words.now) c → S.content shelf.old ≡ Some held
        → IsRepair c (Some held) found name mended → ¬ IsThere (Some held) name
        → ¬ Rose (S.faults shelf.old) (S.faults shelf.new) → ¬ Rose (K.faults out.old) (K.faults out.new)
        → (result ≡ Status.Done) ⊎ (result ≡ Status.NoMemory) }
    ensures fault_complete { (c : Check) (found : ImageFault) (held : Held) → IsCheck (texts words.now) c → S.content shelf.old ≡ Some held
        → HasFaultLeft c (Some held) found
        → ¬ Rose (S.faults shelf.old) (S.faults shelf.new) → ¬ Rose (K.faults out.old) (K.faults out.new)
        → (result ≡ Status.Refused) ⊎ (result ≡ Status.NoMemory) }
{
    answer(rt, alloc, words, shelf, out, gate)
}

/// Does what the words say, and prints what that came to.
fn answer<R: Threads + Wait + Sync, S: Shelf, K: Sink, G: Gate + Sync>(
    rt: &R,
    alloc: Global,
    words: &[String],
    shelf: &mut S,
    out: &mut K,
    gate: &G,
) -> Status
    ensures answered { IsAnswered (texts words.now) (S.content shelf.old) (S.content shelf.new) (S.faults shelf.old) (S.faults shelf.new)
        (K.faults out.old) (K.faults out.new) (K.told out.old) (K.told out.new) result }
    ensures changed { DidChange (texts words.now) (S.content shelf.old) (S.content shelf.new) }
{
    match run(rt, alloc, words, shelf, gate) {
        Ok(text) => say(out, &text, Status::Done),
        Err(failure) => say_failure(alloc, &failure, out),
    }
}

/// Does what the words say; the answer is the text to print.
fn run<'a, R: Threads + Wait + Sync, S: Shelf, G: Gate + Sync>(
    rt: &R,
    alloc: Global,
    words: &'a [String],
    shelf: &mut S,
    gate: &G,
) -> Result<Vec<u8>, Failure<'a>>
    ensures did { IfOk result (λ text. Did (texts words.now) (S.content shelf.old) (S.content shelf.new) text.items) }
    ensures failed { IfErr result (DidFail (texts words.now) (S.content shelf.old) (S.content shelf.new) (S.faults shelf.old) (S.faults shelf.new)) }
    ensures changed { DidChange (texts words.now) (S.content shelf.old) (S.content shelf.new) }
{
    match command_of(alloc, words) {
        Ok(command) => run_command(rt, alloc, command, shelf, gate),
        Err(OptionsFault::Usage(text)) => Err(Failure::Usage(text)),
        Err(OptionsFault::Memory) => Err(Failure::NoMemory),
    }
}

/// Does what is asked for; the answer is the text to print.
fn run_command<'a, R: Threads + Wait + Sync, S: Shelf, G: Gate + Sync>(
    rt: &R,
    alloc: Global,
    command: Command<'a>,
    shelf: &mut S,
    gate: &G,
) -> Result<Vec<u8>, Failure<'a>>
    ensures did { IfOk result (λ text. Does command.entry (S.content shelf.old) (S.content shelf.new) text.items) }
    ensures failed { IfErr result (IsCauseOf command.entry (S.content shelf.old) (S.content shelf.new) (S.faults shelf.old) (S.faults shelf.new)) }
    ensures changed { MayChange command.entry (S.content shelf.old) (S.content shelf.new) }
{
    match command {
        Command::Create(create) => match run_create(alloc, &create, shelf) {
            Ok(line) => Ok(line.into_bytes()),
            Err(failure) => Err(failure),
        },
        Command::Exec(exec) => run_exec(rt, alloc, &exec, shelf, gate),
        Command::Recover(recover) => run_recover(alloc, &recover, shelf),
        Command::Check(check) => run_check(alloc, &check, shelf),
        Command::Info(pool) => run_info(alloc, pool, shelf),
        Command::Dump(pool) => run_dump(alloc, pool, shelf),
        Command::Help(text) => Ok(text.into_bytes()),
    }
}

/// Prints the line of a failure, or the one for want of memory.
pub fn say_failure<K: Sink>(alloc: Global, failure: &Failure<'_>, out: &mut K) -> Status
    ensures { Said (K.told out.old) (K.told out.new) (K.faults out.old) (K.faults out.new) (failure_line failure.now) (failure_status failure.now) result
        ⊎ Said (K.told out.old) (K.told out.new) (K.faults out.old) (K.faults out.new) no_memory_line Status.NoMemory result }
{
    match failure_line(alloc, failure) {
        Ok(line) => say(out, &line, failure_status(failure)),
        Err(AllocError) => say(out, NO_MEMORY_LINE, Status::NoMemory),
    }
}

/// Prints a text line by line; the status stands unless the sink refuses a line.
fn say<K: Sink>(out: &mut K, text: &[u8], status: Status) -> Status
    ensures { Said (K.told out.old) (K.told out.new) (K.faults out.old) (K.faults out.new) text.now status result }
{
    match put_lines(text, out) {
        Ok(()) => status,
        Err(SinkFault::Failed) => Status::WriteFault,
        Err(SinkFault::Memory) => Status::NoMemory,
    }
}

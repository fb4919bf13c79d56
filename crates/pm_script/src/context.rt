ghost use Rattle.std.specs.Prelude.{◌≡◌, ◌<◌, ℕ, [], map, None, Some, IfOk, IfErr, IfSome, IfNone, OnOk};
ghost use Rattle.std.specs.List.{find};
ghost use Rattle.pm_script.specs.Contexts.{binds, bound_line, start};
ghost use Rattle.pm_script.specs.Grammar.{place_said};
ghost use Rattle.pm_script.specs.Reading.{place_why};
ghost use Rattle.pm_script.specs.Scripts.{IsFirstOpen, begun_behind, bound_behind, closed, context_behind, opened, rebound, replaced, transaction_of};
ghost use Rattle.pm_script.specs.declared.statement.Statement.TheVariants as says;

use crate::fault::Why;
use crate::script::{Place, ScriptOp};
use std::alloc::{AllocError, Global};
use std::marker::Model;

/// A transaction that is open.
#[derive(Clone, Copy, Debug, PartialEq, Eq)]
pub struct OpenTransaction {
    pub lane: u64,
    /// The line of its outermost begin.
    pub line: u64,
    /// How many further levels are open in it.
    pub inner: u64,
}

/// A letter that stands on its lane for what a line gave.
#[derive(Clone, Copy, Debug, PartialEq, Eq)]
pub struct Binding {
    pub lane: u64,
    /// 0 for `a` to 25 for `z`.
    pub letter: u8,
    pub line: u64,
}

/// What the lines so far leave to the next one.
#[derive(Drop)]
pub struct Context {
    lane: Option<u64>,
    lanes: u64,
    begun: Vec<OpenTransaction>,
    /// The last of each lane's letter, so 32 times 26 at most.
    bound: Vec<Binding>,
}

impl Model for Context {
    ghost use Rattle.pm_script.specs.Contexts as contexts;

    ghost Value = { contexts.Context };

    ghost view = { λ c. record { lane = c.lane; lanes = c.lanes; begun = c.begun.items; bound = c.bound.items } };
}

impl Context {
    /// Nothing was read.
    pub fn new(alloc: Global) -> Context
        ensures { result ≡ start }
    {
        Context {
            lane: None,
            lanes: 1,
            begun: Vec::new(alloc),
            bound: Vec::new(alloc),
        }
    }

    /// One more than the greatest lane that was named; at least 1.
    pub fn lanes(&self) -> u64
        ensures { result ≡ self.now.lanes }
    {
        self.lanes
    }

    /// The line of the first begin whose transaction is open.
    pub fn first_open(&self) -> Option<u64>
        ensures some { IfSome result (IsFirstOpen self.now.begun) }
        ensures none { IfNone result (self.now.begun ≡ []) }
    {
        self.begun.iter().map(|transaction| transaction.line).min()
    }

    /// The last line of the present lane that binds the letter.
    pub fn bound_line(&self, letter: u8) -> Option<u64>
        ensures { result ≡ bound_line self.now letter }
    {
        let binding = self.binding_of(self.lane?, letter)?;
        Some(binding.line)
    }

    /// The lane's binding of the letter.
    fn binding_of(&self, lane: u64, letter: u8) -> Option<Binding>
        ensures { result ≡ find (binds lane letter) self.now.bound }
    {
        self.bound
            .iter()
            .copied()
            .find(|binding| binding.lane == lane && binding.letter == letter)
    }

    /// The lane whose operation this is, or why it may not stand here.
    pub fn lane_of(&self, operation: &ScriptOp) -> Result<u64, Why>
        ensures ok { IfOk result (λ lane. (self.now.lane ≡ Some lane) × (place_why self.now (place_said (says.Operation operation.now)) ≡ None)) }
        ensures bad { IfErr result (λ why. place_why self.now (place_said (says.Operation operation.now)) ≡ Some why) }
    {
        let lane = self.lane.ok_or(Why::NoLane)?;
        match (operation.place(), self.transaction_of(lane)) {
            (Place::Inside, None) => Err(Why::Outside),
            (Place::Outside, Some(_)) => Err(Why::Inside),
            _ => Ok(lane),
        }
    }

    /// The lane's transaction, if one is open.
    fn transaction_of(&self, lane: u64) -> Option<OpenTransaction>
        ensures { result ≡ transaction_of lane self.now.begun }
    {
        self.begun
            .iter()
            .copied()
            .find(|transaction| transaction.lane == lane)
    }

    /// The lines from here on are this lane's.
    pub fn enter(&mut self, lane: u64)
        requires { lane < 32 }
        ensures { (line : ℕ) → self.new ≡ context_behind self.old line (Some (says.Lane lane)) }
    {
        self.lane = Some(lane);
        self.lanes = self.lanes.max(lane + 1);
    }

    /// Follows the lane's operation on this line.
    pub fn follow(&mut self, lane: u64, line: u64, operation: &ScriptOp) -> Result<(), AllocError>
        requires { self.old.lane ≡ Some lane }
        ensures { OnOk result (self.new ≡ context_behind self.old line (Some (says.Operation operation.now))) }
    {
        self.follow_level(lane, line, operation)?;
        self.follow_letter(lane, line, operation)?;
        Ok(())
    }

    /// Opens or closes the level that the operation does.
    fn follow_level(&mut self, lane: u64, line: u64, operation: &ScriptOp) -> Result<(), AllocError>
        ensures { OnOk result (self.new ≡ record self.old { begun = begun_behind lane line operation.now self.old.begun }) }
    {
        if operation.opens() {
            self.open(lane, line)
        } else if operation.closes() {
            self.close(lane)
        } else {
            Ok(())
        }
    }

    /// Binds the letter that the operation does.
    fn follow_letter(
        &mut self,
        lane: u64,
        line: u64,
        operation: &ScriptOp,
    ) -> Result<(), AllocError>
        ensures { OnOk result (self.new ≡ record self.old { bound = bound_behind lane line operation.now self.old.bound }) }
    {
        match operation.letter() {
            Some(letter) => self.bind(Binding { lane, letter, line }),
            None => Ok(()),
        }
    }

    /// Opens a transaction of the lane on this line, or one more level of the one that is open.
    fn open(&mut self, lane: u64, line: u64) -> Result<(), AllocError>
        ensures { OnOk result (self.new ≡ record self.old { begun = replaced lane (Some (opened lane line (transaction_of lane self.old.begun))) self.old.begun }) }
    {
        let transaction = opened(lane, line, self.transaction_of(lane))?;
        self.replace(lane, Some(transaction))
    }

    /// Closes the innermost level of the lane's transaction.
    fn close(&mut self, lane: u64) -> Result<(), AllocError>
        ensures { OnOk result (self.new ≡ record self.old { begun = replaced lane (closed lane (transaction_of lane self.old.begun)) self.old.begun }) }
    {
        self.replace(lane, closed(lane, self.transaction_of(lane)))
    }

    /// Puts this in place of the lane's transaction.
    fn replace(&mut self, lane: u64, transaction: Option<OpenTransaction>) -> Result<(), AllocError>
        ensures { OnOk result (self.new ≡ record self.old { begun = replaced lane transaction self.old.begun }) }
    {
        self.begun.retain(|other| other.lane != lane);
        match transaction {
            Some(transaction) => Ok(self.begun.push(transaction)?),
            None => Ok(()),
        }
    }

    /// Adds a binding in place of the last one of its lane and letter.
    fn bind(&mut self, new: Binding) -> Result<(), AllocError>
        ensures { OnOk result (self.new ≡ record self.old { bound = rebound new self.old.bound }) }
    {
        self.bound
            .retain(|old| !(old.lane == new.lane && old.letter == new.letter));
        self.bound.push(new)?;
        Ok(())
    }
}

/// What a begin of the lane on this line makes of its transaction.
fn opened(
    lane: u64,
    line: u64,
    transaction: Option<OpenTransaction>,
) -> Result<OpenTransaction, AllocError>
    ensures { IfOk result (λ found. found ≡ opened lane line transaction) }
{
    match transaction {
        Some(outer) => Ok(OpenTransaction {
            lane,
            line: outer.line,
            // a text of 2^64 lines fits in no memory
            inner: outer.inner.checked_add(1).ok_or(AllocError)?,
        }),
        None => Ok(OpenTransaction {
            lane,
            line,
            inner: 0,
        }),
    }
}

/// What a commit or an abort of the lane makes of its transaction.
fn closed(lane: u64, transaction: Option<OpenTransaction>) -> Option<OpenTransaction>
    ensures { result ≡ closed lane transaction }
{
    let OpenTransaction { line, inner, .. } = transaction?;
    if inner > 0 {
        Some(OpenTransaction {
            lane,
            line,
            inner: inner - 1,
        })
    } else {
        None
    }
}

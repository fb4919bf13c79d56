ghost use Rattle.std.specs.Prelude.{◌≡◌, ◌<◌, ℕ, [], map, None, Some, IfOk, IfErr, IfSome, IfNone, OnOk};
ghost use Rattle.std.specs.List.{find};
ghost use Rattle.solo_script.specs.Contexts.{binds, bound_line, start};
ghost use Rattle.solo_script.specs.Scripts.{context_behind, is_of_lane, rebound, IsFirstOpen};
ghost use Rattle.solo_script.specs.Reading.{keyword_said, place_why};
ghost use Rattle.solo_script.specs.declared.statement.Statement.TheVariants as says;

use crate::fault::Why;
use crate::script::ScriptOp;
use std::alloc::{AllocError, Global};
use std::marker::Model;

/// A transaction that is open.
#[derive(Clone, Copy, Debug, PartialEq, Eq)]
pub struct OpenTransaction {
    pub lane: u64,
    /// The line of its begin.
    pub line: u64,
}

/// A letter that stands on its lane for what a line gave.
#[derive(Clone, Copy, Debug, PartialEq, Eq)]
pub struct Binding {
    pub lane: u64,
    /// 0 for `a` to 25 for `z`.
    pub letter: u8,
    pub line: u64,
}

/// What the lines so far leave to the next one.
#[derive(Drop)]
pub struct Context {
    lane: Option<u64>,
    lanes: u64,
    begun: Vec<OpenTransaction>,
    /// The last of each lane's letter, so 32 times 26 at most.
    bound: Vec<Binding>,
}

impl Model for Context {
    ghost use Rattle.solo_script.specs.Contexts as contexts;

    ghost Value = { contexts.Context };

    ghost view = { λ c. record { lane = c.lane; lanes = c.lanes; begun = c.begun.items; bound = c.bound.items } };
}

impl Context {
    /// Nothing was read.
    pub fn new(alloc: Global) -> Context
        ensures { result ≡ start }
    {
        Context {
            lane: None,
            lanes: 1,
            begun: Vec::new(alloc),
            bound: Vec::new(alloc),
        }
    }

    /// One more than the greatest lane that was named; at least 1.
    pub fn lanes(&self) -> u64
        ensures { result ≡ self.now.lanes }
    {
        self.lanes
    }

    /// The line of the first begin whose transaction is open.
    pub fn first_open(&self) -> Option<u64>
        ensures some { IfSome result (IsFirstOpen self.now.begun) }
        ensures none { IfNone result (self.now.begun ≡ []) }
    {
        self.begun.iter().map(|transaction| transaction.line).min()
    }

    /// The last line of the present lane that binds the letter.
    pub fn bound_line(&self, letter: u8) -> Option<u64>
        ensures { result ≡ bound_line self.now letter }
    {
        let binding = self.binding_of(self.lane?, letter)?;
        Some(binding.line)
    }

    /// The lane's binding of the letter.
    fn binding_of(&self, lane: u64, letter: u8) -> Option<Binding>
        ensures { result ≡ find (binds lane letter) self.now.bound }
    {
        self.bound
            .iter()
            .copied()
            .find(|binding| binding.lane == lane && binding.letter == letter)
    }

    /// The lane whose operation this is, or why it may not stand here.
    pub fn lane_of(&self, operation: &ScriptOp) -> Result<u64, Why>
        ensures ok { IfOk result (λ lane. (self.now.lane ≡ Some lane) × (place_why self.now (keyword_said (says.Operation operation.now)) ≡ None)) }
        ensures bad { IfErr result (λ why. place_why self.now (keyword_said (says.Operation operation.now)) ≡ Some why) }
    {
        let lane = self.lane.ok_or(Why::NoLane)?;
        match self.transaction_of(lane) {
            Some(_) => match operation {
                ScriptOp::Begin { .. } => Err(Why::Inside),
                _ => Ok(lane),
            },
            None => match operation {
                ScriptOp::Begin { .. } => Ok(lane),
                ScriptOp::Reserve { .. }
                | ScriptOp::WriteReserved { .. }
                | ScriptOp::DeferFree { .. }
                | ScriptOp::Set { .. }
                | ScriptOp::Publish
                | ScriptOp::Cancel => Ok(lane),
                _ => Err(Why::Outside),
            },
        }
    }

    /// The lane's transaction, if one is open.
    fn transaction_of(&self, lane: u64) -> Option<OpenTransaction>
        ensures { result ≡ find (is_of_lane lane) self.now.begun }
    {
        self.begun
            .iter()
            .copied()
            .find(|transaction| transaction.lane == lane)
    }

    /// The lines from here on are this lane's.
    pub fn enter(&mut self, lane: u64)
        requires { lane < 32 }
        ensures { (line : ℕ) → self.new ≡ context_behind self.old line (Some (says.Lane lane)) }
    {
        self.lane = Some(lane);
        self.lanes = self.lanes.max(lane + 1);
    }

    /// Follows the lane's operation on this line.
    pub fn follow(&mut self, lane: u64, line: u64, operation: &ScriptOp) -> Result<(), AllocError>
        requires { self.old.lane ≡ Some lane }
        ensures { OnOk result (self.new ≡ context_behind self.old line (Some (says.Operation operation.now))) }
    {
        match operation {
            ScriptOp::Begin { .. } => self.begun.push(OpenTransaction { lane, line })?,
            ScriptOp::Alloc { letter, .. } | ScriptOp::Reserve { letter, .. } => {
                self.bind(Binding {
                    lane,
                    letter: *letter,
                    line,
                })?
            }
            ScriptOp::Commit => self.begun.retain(|transaction| transaction.lane != lane),
            _ => {}
        }
        Ok(())
    }

    /// Adds a binding in place of the last one of its lane and letter.
    fn bind(&mut self, new: Binding) -> Result<(), AllocError>
        ensures { OnOk result (self.new ≡ record self.old { bound = rebound new self.old.bound }) }
    {
        self.bound
            .retain(|old| !(old.lane == new.lane && old.letter == new.letter));
        self.bound.push(new)?;
        Ok(())
    }
}

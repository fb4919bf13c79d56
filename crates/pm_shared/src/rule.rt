ghost use Rattle.pm_shared.specs.Openings.{first_known};
ghost use Rattle.pm_shared.specs.TableRule.{Ruled};

use atomic_table::TableRule;
use pm_layout::Shape;
use pm_objects::Stops;
use std::marker::Model;

/// What a seat of the table knows, as a type. No value of it carries anything when a program runs.
#[derive(Drop)]
pub struct Knows;

impl Model for Knows {
    ghost use Rattle.pm_shared.specs.Rule.{Knowledge, Spent};

    ghost Value = { Knowledge };

    ghost view = { λ _. Spent };
}

/// What lanes begin on: a pool's recovered words, with the occupancy words that they take, one a
/// page of 512 words and one a zone; how many lanes run, and after how many counted calls each
/// stops.
#[derive(Drop)]
pub struct Beginning {
    /// The pool's shape and id.
    pub shape: Shape,
    pub pool: u64,
    /// How many lanes run, 1 to the shape's.
    pub lanes: u64,
    pub stops: Stops,
    pub words: Vec<u64>,
    pub runs: Vec<u64>,
    pub zones: Vec<u64>,
}

/// The rule of the table: its words are the memory of a world, to which lawful steps of its lanes
/// led.
pub struct WorldRule;

impl TableRule<u8, Knows, Beginning> for WorldRule {
    ghost holds = { Ruled };

    ghost first = { first_known };
}

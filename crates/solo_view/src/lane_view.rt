use std::marker::Model;

/// A lane's view as a type, for whoever keeps one beside a lane. No value of it carries anything at run time.
#[derive(Drop)]
pub struct LaneView;

impl Model for LaneView {
    ghost use Rattle.solo_view.specs.View.{View, blank};

    ghost Value = { View };

    ghost view = { λ _. blank };
}

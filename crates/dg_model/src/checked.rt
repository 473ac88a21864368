ghost use Rattle.std.specs.Prelude.{◌≡◌, ◌<◌, ◌≤◌, ◌-◌, ℕ, [], length, slice_index_or};
ghost use Rattle.dg_model.specs.Attributes.{attributes_of};
ghost use Rattle.dg_model.specs.Checked.{IsChecked, IsPropagated, CheckedDiagram};
ghost use Rattle.dg_model.specs.Loop.{IsOrder};
ghost use Rattle.dg_model.specs.Widths.{widths_of};

use crate::diagram::Diagram;
use crate::propagated::Propagated;
use fx_type::FxType;
use std::marker::Model;

/// A diagram that is well formed and keeps the rules of dimensions, types, rates and loops, with what
/// propagation gives its blocks (own). Contracts see the diagram and an order of its blocks.
#[derive(Drop)]
pub struct Checked {
    diagram: Diagram,
    values: Propagated,
}

impl Model for Checked {
    ghost use Rattle.dg_model.specs.Checked.{IsChecked, IsPropagated, CheckedDiagram};

    ghost Value = { CheckedDiagram };

    ghost view = { λ checked. record { diagram = checked.diagram; order = checked.values.order } };

    ghost invariant = { λ checked. IsChecked checked.diagram
        × IsPropagated checked.diagram checked.values };
}

impl Checked {
    /// A diagram with what propagation gives its blocks.
    pub fn new(diagram: Diagram, values: Propagated) -> Checked
        requires checked { IsChecked diagram }
        requires propagated { IsPropagated diagram values }
        ensures { result ≡ record { diagram = diagram; order = values.order } }
    {
        Checked { diagram, values }
    }

    /// It is well formed and keeps the rules, and its order is one along its instant edges.
    pub fn keeps_rules(&self)
        ensures checked { IsChecked self.now.diagram }
        ensures ordered { IsOrder self.now.diagram (attributes_of self.now.diagram) self.now.order }
    {
        let _diagram = &self.diagram;
    }

    /// The diagram.
    pub fn diagram(&self) -> &Diagram
        ensures { result.now ≡ self.now.diagram }
    {
        &self.diagram
    }

    /// The width of the signal at an output port, from 1, of a block, in elements. A block without an
    /// output port has its own width at port 1.
    pub fn width(&self, block: u32, port: u32) -> u32
        requires port { 1 ≤ port }
        requires there { port - 1 < length (slice_index_or (widths_of self.now.diagram) block []) }
        ensures { result ≡ (attributes_of self.now.diagram).width_at block port }
    {
        self.values.widths.at(block, port)
    }

    /// The type of the outputs of a block.
    pub fn result(&self, block: u32) -> FxType
        requires { block < length self.now.diagram.blocks }
        ensures { (port : ℕ) → result ≡ (attributes_of self.now.diagram).type_at block port }
    {
        self.values.types.as_slice()[block as usize]
    }

    /// The type of the coefficients of a Gain; Logical at another block.
    pub fn param(&self, block: u32) -> FxType
        requires { block < length self.now.diagram.blocks }
        ensures { result ≡ (attributes_of self.now.diagram).param_at block }
    {
        self.values.params.as_slice()[block as usize]
    }

    /// The period of a block in base samples; none where its value never changes.
    pub fn period(&self, block: u32) -> Option<u32>
        requires { block < length self.now.diagram.blocks }
        ensures { result ≡ (attributes_of self.now.diagram).period_at block }
    {
        self.values.periods.as_slice()[block as usize]
    }

    /// Every block once, each after those from which an instant edge leads to it.
    pub fn order(&self) -> &[u32]
        ensures { result.now ≡ self.now.order }
    {
        self.values.order.as_slice()
    }

    /// Frees the diagram with its values, so that crates above needn't prove how.
    pub fn discard(self) {
        drop(self);
    }

    /// The diagram alone.
    pub fn into_diagram(self) -> Diagram
        ensures { result ≡ self.diagram }
    {
        let Checked { diagram, values: _ } = self;
        diagram
    }
}

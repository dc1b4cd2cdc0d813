ghost use Rattle.std.specs.Prelude.{◌≡◌, IfOk};

use crate::text::{EdgeList, PlanText, Shape, Spans};
use std::alloc::{AllocError, Global};

// By hand, since the contract of a derived `clone` does not say that the copy is the same.

impl Shape {
    fn copy(&self, alloc: Global) -> Result<Shape, AllocError>
        ensures { IfOk result (λ copy. copy ≡ self.now) }
    {
        match self {
            Shape::Line(nodes) => Ok(Shape::Line(*nodes)),
            Shape::Ring(nodes) => Ok(Shape::Ring(*nodes)),
            Shape::Grid(rows, cols) => Ok(Shape::Grid(*rows, *cols)),
            Shape::Edges(nodes, edges) => {
                let edges = Vec::from_slice(alloc, edges.as_slice())?;
                Ok(Shape::Edges(*nodes, EdgeList::from_vec(edges)))
            }
        }
    }
}

impl PlanText {
    /// The same text once more.
    pub fn copy(&self, alloc: Global) -> Result<PlanText, AllocError>
        ensures { IfOk result (λ copy. copy ≡ self.now) }
    {
        let spans = Vec::from_slice(alloc, self.spans.as_slice())?;
        Ok(PlanText {
            version: self.version,
            cluster: self.cluster,
            shape: self.shape.copy(alloc)?,
            lo: self.lo,
            hi: self.hi,
            mu: self.mu,
            tick: self.tick,
            delay_min: self.delay_min,
            delay_max: self.delay_max,
            every: self.every,
            losses: self.losses,
            age: self.age,
            kappa: self.kappa,
            levels: self.levels,
            port: self.port,
            spans: Spans::from_vec(spans),
        })
    }
}

use crate::finding::Finding;
use fx_io::Sequence;

/// Findings, in the order of their plans.
pub type FindingRows = Sequence<Finding>;

/// What is found of the plans of a range (own).
#[derive(Drop)]
pub struct Findings {
    /// What is found of each plan, in order.
    pub rows: FindingRows,
    /// The number of the least good plan; none where no plan is good.
    pub least: Option<u32>,
}

impl Findings {
    /// Frees the findings, so that crates above needn't prove how.
    pub fn discard(self) {
        drop(self);
    }
}

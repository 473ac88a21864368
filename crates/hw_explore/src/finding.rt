use dg_model::{Rule, Shown};

/// What a plan is worth (own).
#[derive(Drop)]
pub enum Judged {
    /// It keeps the rules: the module has `owed` multiplications, and `latency` clocks are the
    /// greatest latency that it declares of an output.
    Good { owed: u64, latency: u64 },
    /// It breaks this rule first.
    Bad { rule: Rule, shown: Shown },
}

/// A plan of so many clocks and multipliers without pipelines, and what it is worth (own).
#[derive(Drop)]
pub struct Finding {
    /// Clocks in one base sample.
    pub cycles: u32,
    /// Multipliers that the operations of one kind share.
    pub multipliers: u32,
    /// What the plan is worth.
    pub verdict: Judged,
}

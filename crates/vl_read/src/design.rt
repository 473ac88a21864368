use vl_ast::{Instances, Modules};

/// Modules, of which the last is the top, and the instances of the others in it (IEEE 1364-2005, 12.1).
#[derive(Drop)]
pub struct Design {
    pub modules: Modules,
    pub instances: Instances,
}

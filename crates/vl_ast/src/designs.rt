use crate::modules::Module;
use fx_io::{Sequence, Text};

/// Instances in the order of the text.
pub type Instances = Sequence<Instance>;
/// Links in the order of the text.
pub type Links = Sequence<Link>;
/// Modules in the order of the text.
pub type Modules = Sequence<Module>;

/// A module that stands in another (IEEE 1364-2005, 12.1.2): which, by what name, and what it is linked
/// to.
#[derive(Drop)]
pub struct Instance {
    /// The name of the module.
    pub of: Text,
    pub name: Text,
    pub links: Links,
}

/// A port of an instance, and the net without that it is linked to (IEEE 1364-2005, 12.3.6).
#[derive(Drop)]
pub struct Link {
    pub port: Text,
    pub net: Text,
}

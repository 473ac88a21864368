use fx_io::Text;

/// A file in memory (own).
#[derive(Drop)]
pub struct HeldFile {
    /// The name under which it is fetched.
    pub name: Text,
    /// Its bytes.
    pub bytes: Text,
}

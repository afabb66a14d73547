use lf_base::Name;

/// What a session serves: the node of this database, and the figures that it tells.
#[derive(Drop)]
pub struct About<G> {
    pub name: Name,
    pub gauge: G,
}

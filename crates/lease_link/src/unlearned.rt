/// Why nothing is told of an asking of a service.
#[derive(Clone, Copy, Debug, PartialEq, Eq)]
pub enum Unlearned {
    /// No turn was left.
    Turns,
    NoMemory,
}

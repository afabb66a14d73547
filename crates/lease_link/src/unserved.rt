/// Why a call is not served.
#[derive(Clone, Copy, Debug, PartialEq, Eq)]
pub enum Unserved {
    /// It is another call.
    OtherCall,
    /// Its body has more than 65,536 bytes.
    TooLong,
    /// Its body is no JSON.
    Syntax,
    /// Its body is JSON of another shape.
    Shape,
    NoMemory,
}

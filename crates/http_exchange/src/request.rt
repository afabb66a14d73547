use lf_base::Text;
use stream_wire::Call;

/// A request, and whether its reply must say its length.
///
/// The body stands in two parts, one behind the other, which are written from where they stand.
#[derive(Clone, Copy)]
pub struct Request<'a> {
    pub call: &'a Call,
    pub host: &'a Text,
    pub front: &'a [u8],
    pub back: &'a [u8],
    pub sized: bool,
}

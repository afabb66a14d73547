//! Laws of the definitions, each proved as the contract of a function that does nothing.

ghost use Rattle.std.specs.Prelude.{◌≡◌, ℕ, List, [], Err};
ghost use Rattle.fuse_msgs.specs.declared.request.Request.{Request};
ghost use Rattle.fuse_msgs.specs.declared.fault.BadMessage.TheVariants as bad;
ghost use Rattle.fuse_msgs.specs.Message.{IsMessage};
ghost use Rattle.fuse_msgs.specs.Encoding.{Fits, request_bytes};
ghost use Rattle.fuse_msgs.specs.Feed.{broken, beginning_of, fed_on, feed_answer, bytes_taken, messages_of, left_of, Splits};
ghost use Rattle.fuse_msgs.specs.FeedLoop.{joined, FeedsAll};

/// The bytes that a plain client writes for a request are a message of that request and of no other, so no two requests
/// share their bytes.
pub fn request_encodings()
    ensures read { (request : Request) → Fits request → IsMessage (request_bytes request) request }
    ensures once { (bytes : List ℕ) (a b : Request) → IsMessage bytes a → IsMessage bytes b → a ≡ b }
    ensures apart { (a b : Request) → Fits a → Fits b → request_bytes a ≡ request_bytes b → a ≡ b }
{}

/// However a stream is cut into pieces, feeding them gives its messages in order and leaves its rest,
/// and a stream has no other messages and no other rest.
pub fn any_pieces()
    ensures split { (pieces : List (List ℕ))
        → Splits (bytes_taken [] pieces) (messages_of [] pieces) (left_of [] pieces) }
    ensures once { (stream : List ℕ) (a b : List (List ℕ)) (r s : List ℕ)
        → Splits stream a r → Splits stream b s → (a ≡ b) × (r ≡ s) }
{}

/// A loop that feeds the rest of a piece again, where a message ended in it, comes to an end. Its messages one after
/// another, and its rest, are the stream; no other pieces of that stream give other messages or another rest.
pub fn rests_fed_again()
    ensures ends { (pieces : List (List ℕ)) → (messages : List (List ℕ)) × (rest : List ℕ) × FeedsAll pieces messages rest }
    ensures split { (pieces messages : List (List ℕ)) (rest : List ℕ)
        → FeedsAll pieces messages rest → Splits (joined pieces) messages rest }
    ensures once { (a b : List (List ℕ)) (ms ns : List (List ℕ)) (r s : List ℕ)
        → joined a ≡ joined b → FeedsAll a ms r → FeedsAll b ns s → (ms ≡ ns) × (r ≡ s) }
{}

/// A length field that no message has is held once it is refused, and refused at each later call.
pub fn refused_for_good()
    ensures held { (held piece : List ℕ) (len : ℕ) → feed_answer held piece ≡ Err (bad.Length len)
        → beginning_of (fed_on held piece) ≡ broken len }
    ensures again { (held piece : List ℕ) (len : ℕ) → beginning_of held ≡ broken len
        → feed_answer held piece ≡ Err (bad.Length len) }
{}

//! Laws of the definitions, each proved as the contract of a function that does nothing.

ghost use Rattle.std.specs.Prelude.{◌≡◌, ◌++◌, ◌<◌, ◌≤◌, ◌^◌, ◌⊎◌, ℕ, List, Option, None, Result, IfSome, length};
ghost use Rattle.http.specs.StatusCode.{IsStatusCode};
ghost use Rattle.httparse.specs.Grammar.{AllPass, is_value_byte};
ghost use Rattle.stream_wire.specs.declared.call.Call.{Call};
ghost use Rattle.stream_wire.specs.declared.call.Call.TheVariants as call;
ghost use Rattle.stream_wire.specs.declared.frame.Frame.{Frame};
ghost use Rattle.stream_wire.specs.declared.last_file.LastFile.{LastFile};
ghost use Rattle.stream_wire.specs.declared.request.Heard.{Heard};
ghost use Rattle.stream_wire.specs.declared.request.Heard.TheVariants as heard;
ghost use Rattle.stream_wire.specs.declared.response.Told.{Told};
ghost use Rattle.stream_wire.specs.declared.response.Told.TheVariants as told;
ghost use Rattle.stream_wire.specs.declared.wire_fault.WireFault.{WireFault};
ghost use Rattle.stream_wire.specs.declared.wire_fault.WireFault.TheVariants as wire_fault;
ghost use Rattle.stream_wire.specs.Call.{IsNamed};
ghost use Rattle.stream_wire.specs.Frame.{frame_text, FitsFrame};
ghost use Rattle.stream_wire.specs.Front.{broken, whole, BeginsWith};
ghost use Rattle.stream_wire.specs.Head.{HearsRequest, HearsResponse};
ghost use Rattle.stream_wire.specs.LastFile.{FitsLastFile, TellsLastFile};
ghost use Rattle.stream_wire.specs.Writing.{reply_head, request_head, stream_head};

/// No two frames have the same bytes.
pub fn one_reading()
    ensures { (a b : Frame) → FitsFrame a → FitsFrame b → frame_text a ≡ frame_text b → a ≡ b }
{}

/// What bytes begin with stays, whatever bytes follow: a whole frame, and the first fault. So it does not
/// matter how a stream was cut into pieces.
pub fn fronts_stay()
    ensures frame { (limit len : ℕ) (bytes more : List ℕ)
        → BeginsWith limit bytes (whole len) → BeginsWith limit (bytes ++ more) (whole len) }
    ensures fault { (limit : ℕ) (bytes more : List ℕ) (fault : WireFault)
        → BeginsWith limit bytes (broken fault) → BeginsWith limit (bytes ++ more) (broken fault) }
{}

/// What is written is read back. Of a reply's head the reader answers its length, its status and the length
/// of its body, whatever follows. Of a request's, where the host has no control character and the head is
/// within the limit, it answers the head's length, the call and the length of the body, or memory runs out.
pub fn written_heads_are_read()
    ensures reply { (status : ℕ) (len : Option ℕ) (more : List ℕ) (answer : Result Told WireFault)
        → IsStatusCode status → IfSome len (λ n. n < 2 ^ 64)
        → HearsResponse (reply_head status len ++ more) answer
        → answer ≡ Ok (told.Whole (length (reply_head status len)) status len) }
    ensures request { (call : Call) (host : List ℕ) (len : ℕ) (more : List ℕ) (answer : Result Heard WireFault)
        → IsNamed call → AllPass is_value_byte host → len < 2 ^ 64 → length (request_head call host len) ≤ 8192
        → HearsRequest (request_head call host len ++ more) answer
        → (answer ≡ Ok (heard.Whole (length (request_head call host len)) call len)) ⊎ (answer ≡ Err wire_fault.NoMemory) }
{}

/// The head of a request for a stream is read as that call, with its length and the length of the body, and
/// the last file that it says is read back, whatever follows. Without one it is the head of any call, and of
/// such a head no last file is read.
pub fn stream_heads_are_read()
    ensures head { (host : List ℕ) (len : ℕ) (last : Option LastFile) (more : List ℕ) (answer : Result Heard WireFault)
        → AllPass is_value_byte host → len < 2 ^ 64 → length (stream_head host len last) ≤ 8192
        → HearsRequest (stream_head host len last ++ more) answer
        → (answer ≡ Ok (heard.Whole (length (stream_head host len last)) call.Stream len)) ⊎ (answer ≡ Err wire_fault.NoMemory) }
    ensures last { (host : List ℕ) (len : ℕ) (last : Option LastFile) (more : List ℕ) (said : Option LastFile)
        → AllPass is_value_byte host → len < 2 ^ 64 → IfSome last FitsLastFile → IfSome said FitsLastFile
        → TellsLastFile (stream_head host len last ++ more) said → said ≡ last }
    ensures plain { (host : List ℕ) (len : ℕ) → stream_head host len None ≡ request_head call.Stream host len }
    ensures unsaid { (call : Call) (host : List ℕ) (len : ℕ) (more : List ℕ) (said : Option LastFile)
        → IsNamed call → AllPass is_value_byte host → len < 2 ^ 64
        → TellsLastFile (request_head call host len ++ more) said → said ≡ None }
{}

//! Words compared.
ghost use Rattle.std.specs.Prelude.{◌≡◌, ◌↔◌, ◌==◌, IsTrue, map};
ghost use Rattle.std.specs.Char.{to_ascii_lowercase};
ghost use Rattle.std.specs.List.{position};
ghost use Rattle.stream_wire.specs.Head.{is_called};

pub(crate) fn is_same(bytes: &[u8], word: &[u8]) -> bool
    ensures { IsTrue result ↔ (bytes.now ≡ word.now) }
{
    bytes == word
}

/// Whether a field's name is this word, which is in lower case. Upper and lower case are one.
pub(crate) fn is_called(word: &[u8], name: &[u8]) -> bool
    requires { map to_ascii_lowercase word.now ≡ word.now }
    ensures { result ≡ is_called word.now name.now }
{
    name.eq_ignore_ascii_case(word)
}

/// Where the byte stands first.
pub(crate) fn find(bytes: &[u8], byte: u8) -> Option<usize>
    ensures { result ≡ position (λ b. b == byte) bytes.now }
{
    bytes.iter().position(|b| *b == byte)
}

//! The parts of addresses.

ghost use Rattle.std.specs.Prelude.{◌≡◌, ◌≢◌, ◌++◌, ◌∷◌, ◌↔◌, All, IsTrue, IfSome, IfNone, codes};
ghost use Rattle.node_settings.specs.Address.{is_host_byte, is_ipv6_byte, IsIpv6End, IsBracketed, IsHost, IsPort, IsAddress, IsTarget, IsUrl};

/// Whether the text is `host:port`.
pub(crate) fn is_address(text: &str) -> bool
    ensures { IsTrue result ↔ IsAddress text.now }
{
    match host_and_port(text.as_bytes()) {
        Some((host, port)) => is_host(host) && is_port(port),
        None => false,
    }
}

/// Whether the text is `host:port`, and the host is not empty.
pub(crate) fn is_target(text: &str) -> bool
    ensures { IsTrue result ↔ IsTarget text.now }
{
    is_address(text) && !text.starts_with(':')
}

/// What stands behind `http://`, where a host that is not empty and a port follow it.
pub(crate) fn address_in(url: &str) -> Option<&str>
    ensures found { IfSome result (λ address. (url.now ≡ codes "http://" ++ address.now) × IsUrl url.now) }
    ensures none { IfNone result (IsUrl url.now → ⊥) }
{
    let address = url.strip_prefix("http://")?;
    if is_address(address) && !address.starts_with(':') {
        Some(address)
    } else {
        None
    }
}

/// What stands before the last colon, and what behind it.
fn host_and_port(text: &[u8]) -> Option<(&[u8], &[u8])>
    ensures parts { IfSome result (λ p. text.now ≡ p.0.now ++ codes ":" ++ p.1.now) }
    ensures last { IfSome result (λ p. All (λ b. b ≢ 58) p.1.now) }
    ensures none { IfNone result (All (λ b. b ≢ 58) text.now) }
{
    let at = text.iter().rposition(|byte| *byte == b':')?;
    Some((&text[..at], &text[at + 1..]))
}

fn is_host(text: &[u8]) -> bool
    ensures { IsTrue result ↔ IsHost text.now }
{
    text.iter().all(|byte| is_host_byte(*byte)) || is_bracketed(text)
}

fn is_bracketed(text: &[u8]) -> bool
    ensures { IsTrue result ↔ IsBracketed text.now }
{
    match text.split_first() {
        Some((b'[', rest)) => is_ipv6_end(rest),
        _ => false,
    }
}

/// Whether an IPv6 address is there, and the bracket behind it.
fn is_ipv6_end(text: &[u8]) -> bool
    ensures { IsTrue result ↔ IsIpv6End text.now }
{
    match text.split_last() {
        Some((b']', inside)) => !inside.is_empty() && inside.iter().all(|byte| is_ipv6_byte(*byte)),
        _ => false,
    }
}

fn is_host_byte(byte: u8) -> bool
    ensures { result ≡ is_host_byte byte }
{
    byte.is_ascii_alphanumeric() || matches!(byte, b'.' | b'-' | b'_')
}

fn is_ipv6_byte(byte: u8) -> bool
    ensures { result ≡ is_ipv6_byte byte }
{
    byte.is_ascii_hexdigit() || matches!(byte, b':' | b'.')
}

fn is_port(text: &[u8]) -> bool
    ensures { IsTrue result ↔ IsPort text.now }
{
    match str::from_utf8(text) {
        Ok(text) => !text.starts_with('+') && text.parse::<u16>().is_ok(),
        Err(_) => false,
    }
}

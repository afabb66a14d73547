//! Numbers as 16 hexadecimal digits in lower case.
ghost use Rattle.std.specs.Prelude.{◌≡◌, ◌<◌, ◌^◌, ◌↔◌, IsTrue, IfSome, IfNone, ℕ};
ghost use Rattle.lf_base.specs.Hex.{hex_digit, hex_digits, digit_value as value_of, number_after};

/// The 16 digits of a number.
pub fn hex16(mut number: u64) -> [u8; 16]
    ensures { result ≡ hex_digits 16 number }
{
    let mut text = [b'0'; 16];
    for place in 0..16usize {
        text[15 - place] = digit((number % 16) as u8);
        number /= 16;
    }
    text
}

/// The number whose 16 digits the bytes are. Upper case is refused, and any other length.
pub fn read_hex16(bytes: &[u8]) -> Option<u64>
    ensures found { IfSome result (λ number. bytes.now ≡ hex_digits 16 number) }
    ensures none { IfNone result ((n : ℕ) → n < 2 ^ 64 → bytes.now ≡ hex_digits 16 n → ⊥) }
{
    if bytes.len() != 16 {
        return None;
    }
    let number = number_of(bytes);
    if is_same(&hex16(number), bytes) {
        Some(number)
    } else {
        None
    }
}

pub fn is_same(text: &[u8], bytes: &[u8]) -> bool
    ensures { IsTrue result ↔ (text.now ≡ bytes.now) }
{
    text == bytes
}

#[tactic(auto, unfolding(crate::specs::Hex::hex_digit))]
fn digit(value: u8) -> u8
    requires { value < 16 }
    ensures { result ≡ hex_digit value }
{
    if value < 10 {
        b'0' + value
    } else {
        b'a' - 10 + value
    }
}

/// The number that the bytes say as digits, whatever they are.
fn number_of(bytes: &[u8]) -> u64
    ensures { result ≡ number_after 0 bytes.now }
{
    let mut number = 0;
    for byte in bytes {
        number = number % (1 << 60) * 16 + digit_value(*byte);
    }
    number
}

#[tactic(auto, unfolding(crate::specs::Hex::digit_value))]
fn digit_value(byte: u8) -> u64
    ensures value { result ≡ value_of byte }
    ensures digit { result < 16 }
{
    let value = if byte < 58 {
        byte.saturating_sub(48)
    } else {
        byte - 87u8.min(byte)
    };
    u64::from(value % 16)
}

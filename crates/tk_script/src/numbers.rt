ghost use Rattle.std.specs.Prelude.{◌≡◌, ◌<◌, ◌^◌, ℕ, decimal, Some, IfSome};
ghost use Rattle.tk_script.specs.Reading.{number_spelled};

/// The number of 64 bits whose plain decimal a text is: digits alone, and no zero in front of
/// others.
pub fn plain_number(text: &[u8]) -> Option<u64>
    ensures found { IfSome result (λ n. text.now ≡ decimal n) }
    ensures only { (n : ℕ) → n < 2 ^ 64 → text.now ≡ decimal n → result ≡ Some n }
{
    if text.is_empty() {
        return None;
    }
    if text[0] == b'0' && text.len() > 1 {
        return None;
    }
    let mut number = 0u64;
    for byte in text {
        if *byte < b'0' || *byte > b'9' {
            return None;
        }
        let digit = u64::from(*byte - b'0');
        if number > (u64::MAX - digit) / 10 {
            return None;
        }
        number = number * 10 + digit;
    }
    Some(number)
}

/// The number of 32 bits whose plain decimal a text is.
pub(crate) fn number_of(text: &[u8]) -> Option<u32>
    ensures found { IfSome result (λ n. text.now ≡ decimal n) }
    ensures only { (n : ℕ) → n < 2 ^ 32 → text.now ≡ decimal n → result ≡ Some n }
    ensures spelled { result ≡ number_spelled text.now }
{
    match plain_number(text) {
        Some(number) if number <= 4294967295 => Some(number as u32),
        _ => None,
    }
}

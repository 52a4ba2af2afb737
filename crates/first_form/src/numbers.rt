//! Numbers as they are written.
ghost use Rattle.std.specs.Prelude.{◌≡◌, ◌^◌, ◌≤◌, IfSome};
ghost use Rattle.first_form.specs.Numbers.{number_of, has_leading_zero};

use qml_base::NUMBER_LIMIT;

/// The greatest number that a document or a script may have.
const LIMIT: u64 = NUMBER_LIMIT;

fn leads_with_zero(digits: &[u8]) -> bool
    ensures { result ≡ has_leading_zero digits.now }
{
    match digits {
        [first, _, ..] => *first == b'0',
        _ => false,
    }
}

/// A decimal number within the limit, without leading zeros. ECMA-262, 12.8.3 Numeric Literals (DecimalIntegerLiteral).
#[tactic(auto, unfolding(crate::specs::Numbers::number_of))]
pub fn number(digits: &[u8]) -> Option<u64>
    ensures exact { result ≡ number_of digits.now }
    ensures small { IfSome result (λ n. n ≤ 2 ^ 53) }
{
    if digits.is_empty() || leads_with_zero(digits) {
        return None;
    }
    let mut n = 0;
    for d in digits {
        if !d.is_ascii_digit() {
            return None;
        }
        n = n * 10 + u64::from(*d - b'0');
        if n > LIMIT {
            return None;
        }
    }
    Some(n)
}

//! Numbers as 32 bits (ECMA-262, 7.1.6 ToInt32, 7.1.7 ToUint32).

ghost use Rattle.std.specs.Prelude.{◌≡◌, ◌*◌, ◌/◌, ◌%◌, ◌^◌, bit_and, bit_or, bit_xor};
ghost use Rattle.js_meaning.specs.Operate.{low_bits, with_sign, shifted_left, shifted_right, shifted_right_unsigned};

/// The 32 low bits of a number in two's complement (ECMA-262, 7.1.7 ToUint32).
pub fn low_bits(n: i64) -> u32
    ensures { result ≡ low_bits n }
{
    let size = n.unsigned_abs();
    if n >= 0 {
        (size % 4_294_967_296) as u32
    } else {
        (4_294_967_295 - (size - 1) % 4_294_967_296) as u32
    }
}

/// The number that 32 bits are with a sign (ECMA-262, 7.1.6 ToInt32).
pub(crate) fn with_sign(bits: u32) -> i64
    ensures { result ≡ with_sign bits }
{
    if bits < 2_147_483_648 {
        i64::from(bits)
    } else {
        -((4_294_967_296 - u64::from(bits)) as i64)
    }
}

/// `<<`, the count modulo 32 (ECMA-262, 6.1.6.1.9 Number::leftShift).
pub(crate) fn shifted_left(bits: u32, count: u32) -> i64
    ensures { result ≡ shifted_left bits count }
{
    with_sign(bits.wrapping_shl(count))
}

/// `>>>`, the count modulo 32 (ECMA-262, 6.1.6.1.11 Number::unsignedRightShift).
pub(crate) fn shifted_right_unsigned(bits: u32, count: u32) -> i64
    ensures { result ≡ shifted_right_unsigned bits count }
{
    i64::from(bits.wrapping_shr(count))
}

/// `>>`, the count modulo 32 (ECMA-262, 6.1.6.1.10 Number::signedRightShift).
pub(crate) fn shifted_right(bits: u32, count: u32) -> i64
    ensures { result ≡ shifted_right bits count }
{
    if bits < 2_147_483_648 {
        i64::from(bits.wrapping_shr(count))
    } else {
        -(i64::from((4_294_967_295 - bits).wrapping_shr(count)) + 1)
    }
}

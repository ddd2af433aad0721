//! The arithmetic of the instructions on registers of 64 bits, and on their lower 32 bits. A function
//! has the mnemonic of its instruction; what it gives is the definition that its clause names.
ghost use Rattle.std.specs.Prelude.{◌≡◌, ◌%◌, ◌^◌, int_div};
ghost use Rattle.std.specs.Int.{IsNonZero, w32};
ghost use Rattle.rv_cpu.specs.Words as word;

/// The lower 32 bits.
pub fn low(a: u64) -> u32
    ensures { result ≡ word.low_word a }
{
    (a % 0x1_0000_0000) as u32
}

/// A word, its sign bit repeated above.
pub fn extend(n: u32) -> u64
    ensures { result ≡ word.sign_extended n }
{
    i64::from(n.cast_signed()).cast_unsigned()
}

/// An immediate as a register has it.
pub fn of_immediate(imm: i32) -> u64
    ensures { result ≡ word.wrapped imm }
{
    i64::from(imm).cast_unsigned()
}

pub fn sub(a: u64, b: u64) -> u64
    ensures { result ≡ word.difference a b }
{
    a.wrapping_sub(b)
}

pub fn add(a: u64, b: u64) -> u64
    ensures { result ≡ word.sum a b }
{
    a.wrapping_add(b)
}

pub fn xor(a: u64, b: u64) -> u64
    ensures { result ≡ word.exactly_one a b }
{
    a ^ b
}

pub fn or(a: u64, b: u64) -> u64
    ensures { result ≡ word.either a b }
{
    a | b
}

pub fn and(a: u64, b: u64) -> u64
    ensures { result ≡ word.both a b }
{
    a & b
}

pub fn is_less(a: u64, b: u64) -> bool
    ensures { result ≡ word.is_less a b }
{
    a.cast_signed() < b.cast_signed()
}

pub fn sll(a: u64, amount: u64) -> u64
    ensures { result ≡ word.shifted_left a amount }
{
    a << (amount % 64)
}

pub fn srl(a: u64, amount: u64) -> u64
    ensures { result ≡ word.shifted_right a amount }
{
    a >> (amount % 64)
}

pub fn sra(a: u64, amount: u64) -> u64
    ensures { result ≡ word.shifted_right_signed a amount }
{
    (a.cast_signed() >> (amount % 64)).cast_unsigned()
}

pub fn mul(a: u64, b: u64) -> u64
    ensures { result ≡ word.product a b }
{
    a.wrapping_mul(b)
}

fn high_half(x: i64, y: i64) -> i64
    ensures { result ≡ word.high_half x y }
{
    ((i128::from(x) * i128::from(y)) >> 64u32) as i64
}

pub fn mulh(a: u64, b: u64) -> u64
    ensures { result ≡ word.high_product a b }
{
    high_half(a.cast_signed(), b.cast_signed()).cast_unsigned()
}

pub fn mulhsu(a: u64, b: u64) -> u64
    ensures { result ≡ word.high_product_mixed a b }
{
    (((i128::from(a.cast_signed()) * i128::from(b)) >> 64u32) as i64).cast_unsigned()
}

pub fn mulhu(a: u64, b: u64) -> u64
    ensures { result ≡ word.high_product_unsigned a b }
{
    ((u128::from(a) * u128::from(b)) >> 64u32) as u64
}

pub fn div(a: u64, b: u64) -> u64
    ensures { result ≡ word.quotient a b }
{
    if b == 0 {
        u64::MAX
    } else {
        a.cast_signed()
            .wrapping_div(b.cast_signed())
            .cast_unsigned()
    }
}

pub fn divu(a: u64, b: u64) -> u64
    ensures { result ≡ word.quotient_unsigned a b }
{
    if b == 0 { u64::MAX } else { a / b }
}

pub fn rem(a: u64, b: u64) -> u64
    ensures { result ≡ word.remainder a b }
{
    if b == 0 {
        a
    } else {
        a.cast_signed()
            .wrapping_rem(b.cast_signed())
            .cast_unsigned()
    }
}

pub fn remu(a: u64, b: u64) -> u64
    ensures { result ≡ word.remainder_unsigned a b }
{
    if b == 0 { a } else { a % b }
}

pub fn addw(a: u64, b: u64) -> u64
    ensures { result ≡ word.word_sum a b }
{
    extend(low(a.wrapping_add(b)))
}

pub fn subw(a: u64, b: u64) -> u64
    ensures { result ≡ word.word_difference a b }
{
    extend(low(a.wrapping_sub(b)))
}

pub fn sllw(a: u64, amount: u64) -> u64
    ensures { result ≡ word.word_shifted_left a amount }
{
    extend(low(a) << (amount % 32))
}

pub fn srlw(a: u64, amount: u64) -> u64
    ensures { result ≡ word.word_shifted_right a amount }
{
    extend(low(a) >> (amount % 32))
}

pub fn sraw(a: u64, amount: u64) -> u64
    ensures { result ≡ word.word_shifted_right_signed a amount }
{
    i64::from(low(a).cast_signed() >> (amount % 32)).cast_unsigned()
}

pub fn mulw(a: u64, b: u64) -> u64
    ensures { result ≡ word.word_product a b }
{
    extend(low(a.wrapping_mul(b)))
}

fn low_quotient(x: i32, y: i32) -> u32
    requires { IsNonZero w32 y }
    ensures { result ≡ word.wrapped_word (int_div x y) }
{
    x.wrapping_div(y).cast_unsigned()
}

pub fn divw(a: u64, b: u64) -> u64
    ensures { result ≡ word.word_quotient a b }
{
    if low(b) == 0 {
        u64::MAX
    } else {
        extend(low_quotient(low(a).cast_signed(), low(b).cast_signed()))
    }
}

pub fn divuw(a: u64, b: u64) -> u64
    ensures { result ≡ word.word_quotient_unsigned a b }
{
    if low(b) == 0 {
        u64::MAX
    } else {
        extend(low(a) / low(b))
    }
}

pub fn remw(a: u64, b: u64) -> u64
    ensures { result ≡ word.word_remainder a b }
{
    if low(b) == 0 {
        extend(low(a))
    } else {
        i64::from(low(a).cast_signed().wrapping_rem(low(b).cast_signed())).cast_unsigned()
    }
}

pub fn remuw(a: u64, b: u64) -> u64
    ensures { result ≡ word.word_remainder_unsigned a b }
{
    if low(b) == 0 {
        extend(low(a))
    } else {
        extend(low(a) % low(b))
    }
}

/// 1 where a number is less than another, both read as signed, and else 0.
pub fn slt(a: u64, b: u64) -> u64
    ensures { result ≡ word.flag (word.is_less a b) }
{
    u64::from(a.cast_signed() < b.cast_signed())
}

/// 1 where a number is less than another, and else 0.
pub fn sltu(a: u64, b: u64) -> u64
    ensures { result ≡ word.flag (word.is_less_unsigned a b) }
{
    u64::from(a < b)
}

/// The lesser of two numbers, both read as signed.
pub fn min(a: u64, b: u64) -> u64
    ensures { result ≡ word.least a b }
{
    if is_less(a, b) { a } else { b }
}

/// The greater of two numbers, both read as signed.
pub fn max(a: u64, b: u64) -> u64
    ensures { result ≡ word.greatest a b }
{
    if is_less(a, b) { b } else { a }
}

/// The lesser of two numbers.
pub fn minu(a: u64, b: u64) -> u64
    ensures { result ≡ word.least_unsigned a b }
{
    if a < b { a } else { b }
}

/// The greater of two numbers.
pub fn maxu(a: u64, b: u64) -> u64
    ensures { result ≡ word.greatest_unsigned a b }
{
    if a < b { b } else { a }
}

pub fn minw(a: u64, b: u64) -> u64
    ensures { result ≡ word.word_least a b }
{
    min(extend(low(a)), extend(low(b)))
}

pub fn maxw(a: u64, b: u64) -> u64
    ensures { result ≡ word.word_greatest a b }
{
    max(extend(low(a)), extend(low(b)))
}

pub fn minuw(a: u64, b: u64) -> u64
    ensures { result ≡ word.word_least_unsigned a b }
{
    minu(u64::from(low(a)), u64::from(low(b)))
}

pub fn maxuw(a: u64, b: u64) -> u64
    ensures { result ≡ word.word_greatest_unsigned a b }
{
    maxu(u64::from(low(a)), u64::from(low(b)))
}

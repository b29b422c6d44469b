// Terms of numbers in decimal digits.
ghost use Rattle.std.specs.Prelude.{◌≡◌, ◌<◌, ◌≤◌, ◌+◌, ◌-◌, ◌*◌, ◌^◌, ◌++◌, ◌∷◌, [], ◌&&◌, nat_lt, replicate, IfOk};
ghost use Rattle.rx_term.specs.declared.terms.Term.{Empty};
ghost use Rattle.rx_term.specs.Term.{cat as cat_of, alt as alt_of};
ghost use Rattle.rx_rows.specs.Sets.{set_where};
ghost use Rattle.text_base.specs.Alphabets.{is_digit};
ghost use Rattle.rx_rows.specs.Rows.{byte};
ghost use Rattle.rx_term.specs.Pattern.{row};
ghost use Rattle.rx_build.specs.Numbers.{digit, digit_between, digits_to as digits_to_term, places_of, digits_below_term, IsModulus, least_of, plain_number as plain_number_term, number_term, natural as natural_of, one_less as one_less_of, range_term, DigitsToLaw, DigitsBelowLaw, FractionLaw, RangeLaw};

use rx_rows::{alt, below, cat, digits, less, only, star};
use rx_term::{ByteSet, OutOfMemory, Term};
use std::alloc::Global;

/// The row of as many digits and one more term.
#[tactic(auto, using(crate::proofs::DigitRows::replicate_row))]
fn digits_then(alloc: Global, count: u32, last: Term) -> Result<Term, OutOfMemory>
    ensures { IfOk result (λ t. t ≡ row (replicate count digit ++ last ∷ [])) }
{
    let mut term = last;
    for place in 0..count {
        term = cat(alloc, Term::One(digits()), term)?;
    }
    Ok(term)
}

/// The row of as many digits, at least one.
#[tactic(auto, using(crate::proofs::DigitRows::replicate_last))]
fn digits_row(alloc: Global, count: u32) -> Result<Term, OutOfMemory>
    requires { 0 < count }
    ensures { IfOk result (λ t. t ≡ row (replicate count digit)) }
{
    digits_then(alloc, count - 1, Term::One(digits()))
}

/// The digit of a number, and more behind it.
fn starting(alloc: Global, first: u64, more: Term) -> Result<Term, OutOfMemory>
    requires { first < 10 }
    ensures { IfOk result (λ t. t ≡ cat_of (byte (48 + first)) more) }
{
    cat(alloc, Term::One(only(48 + first as u8)), more)
}

/// The digits between those of two numbers, and more behind them.
fn between(alloc: Global, low: u64, high: u64, more: Term) -> Result<Term, OutOfMemory>
    requires order { low < high }
    requires digit { high < 10 }
    ensures { IfOk result (λ t. t ≡ cat_of (digit_between low high) more) }
{
    let set = less(below(48 + high as u8), below(49 + low as u8));
    cat(alloc, Term::One(set), more)
}

/// A power of ten, from the next one.
fn power_before(count: u32, power: u64) -> u64
    requires some { 0 < count }
    requires power { power ≡ 10 ^ count }
    ensures before { result ≡ 10 ^ (count - 1) }
    ensures times { result * 10 ≡ power }
    ensures positive { 0 < result }
{
    power / 10
}

/// The texts of as many digits whose number is from `low` to `high`. `power` is the power of ten that all such
/// numbers are below.
#[tactic(auto, using(crate::proofs::DigitRows::digit_steps))]
fn digits_to(
    alloc: Global,
    count: u32,
    power: u64,
    low: u64,
    high: u64,
) -> Result<Term, OutOfMemory>
    requires power { power ≡ 10 ^ count }
    requires bounded { high < power }
    ensures { IfOk result (λ t. t ≡ digits_to_term count low high) }
{
    if high < low {
        return Ok(Term::Nothing);
    }
    if count == 0 {
        return Ok(Term::Empty);
    }
    if low == 0 && high == power - 1 {
        return digits_row(alloc, count);
    }
    let shorter = power_before(count, power);
    let (first, last) = (low / shorter, high / shorter);
    if first == last {
        let more = digits_to(alloc, count - 1, shorter, low % shorter, high % shorter)?;
        return starting(alloc, first, more);
    }
    let bottom = digits_to(alloc, count - 1, shorter, low % shorter, shorter - 1)?;
    let bottom = starting(alloc, first, bottom)?;
    let middle = digits_to(alloc, count - 1, shorter, 0, shorter - 1)?;
    let middle = between(alloc, first, last, middle)?;
    let top = digits_to(alloc, count - 1, shorter, 0, high % shorter)?;
    let top = starting(alloc, last, top)?;
    let upper = alt(alloc, middle, top)?;
    alt(alloc, bottom, upper)
}

/// How many digits the numbers below the modulus have.
fn places(of: u32) -> u32
    requires { IsModulus of }
    ensures value { result ≡ places_of of }
    ensures power { of ≡ 10 ^ result }
    ensures few { result ≤ 6 }
{
    if of == 100 {
        2
    } else if of == 10_000 {
        4
    } else {
        6
    }
}

/// Six digits whose number modulo `of` is below the greater of `below` and 1.
pub fn digits_below(alloc: Global, of: u32, below: u32) -> Result<Term, OutOfMemory>
    requires { IsModulus of }
    ensures { IfOk result (λ t. t ≡ digits_below_term of below) }
{
    let places = places(of);
    let bound = below.max(1).min(of);
    let last = digits_to(alloc, places, u64::from(of), 0, u64::from(bound - 1))?;
    digits_then(alloc, 6 - places, last)
}

/// The least number of as many digits with no `0` in front.
fn least(count: u32, power: u64) -> u64
    requires some { 0 < count }
    requires power { power ≡ 10 ^ count }
    ensures { result ≡ least_of count }
{
    if count == 1 {
        0
    } else {
        power_before(count, power)
    }
}

/// The texts of as many digits with no `0` in front, of numbers from `low` on and below `top`.
fn plain_number(
    alloc: Global,
    count: u32,
    power: u64,
    low: u64,
    top: u64,
) -> Result<Term, OutOfMemory>
    requires some { 0 < count }
    requires power { power ≡ 10 ^ count }
    ensures { IfOk result (λ t. t ≡ plain_number_term count low top) }
{
    let low = low.max(least(count, power));
    if low < top {
        digits_to(alloc, count, power, low, (top - 1).min(power - 1))
    } else {
        Ok(Term::Nothing)
    }
}

/// Digits, with any `0` in front, whose number is from `low` on and below `top`.
fn number(alloc: Global, low: u64, top: u64) -> Result<Term, OutOfMemory>
    ensures { IfOk result (λ t. t ≡ number_term low top) }
{
    let mut count = 19;
    let mut power = 10_000_000_000_000_000_000;
    let mut term = plain_number(alloc, count, power, low, top)?;
    while count > 1 {
        power = power_before(count, power);
        count -= 1;
        let shorter = plain_number(alloc, count, power, low, top)?;
        term = alt(alloc, shorter, term)?;
    }
    let zeros = star(alloc, Term::One(only(b'0')))?;
    cat(alloc, zeros, term)
}

/// The number, or 0 for a negative one.
fn natural(number: i64) -> u64
    ensures { result ≡ natural_of number }
{
    if number < 0 { 0 } else { number.unsigned_abs() }
}

/// 1 less the number, or 0 where that is negative.
fn one_less(number: i64) -> u64
    ensures { result ≡ one_less_of number }
{
    if number > 0 {
        0
    } else {
        number.unsigned_abs() + 1
    }
}

/// A `+` or no sign, and digits, whose number is from `low` on and below `top`.
fn unsigned(alloc: Global, low: u64, top: u64) -> Result<Term, OutOfMemory>
    ensures { IfOk result (λ t. t ≡ cat_of (alt_of Empty (byte 43)) (number_term low top)) }
{
    let number = number(alloc, low, top)?;
    let sign = alt(alloc, Term::Empty, Term::One(only(b'+')))?;
    cat(alloc, sign, number)
}

/// A `-`, and digits, whose number is from `low` on and below `top`.
fn negative(alloc: Global, low: u64, top: u64) -> Result<Term, OutOfMemory>
    ensures { IfOk result (λ t. t ≡ cat_of (byte 45) (number_term low top)) }
{
    let number = number(alloc, low, top)?;
    cat(alloc, Term::One(only(b'-')), number)
}

/// An optional sign and digits, whose number is from `start` on and below `end`.
pub fn range(alloc: Global, start: i64, end: i64) -> Result<Term, OutOfMemory>
    ensures { IfOk result (λ t. t ≡ range_term start end) }
{
    let plain = unsigned(alloc, natural(start), natural(end))?;
    let negative = negative(alloc, one_less(end), one_less(start))?;
    alt(alloc, plain, negative)
}

/// Which texts the terms of numbers have.
pub fn number_laws()
    ensures bounds { DigitsToLaw }
    ensures below { DigitsBelowLaw }
    ensures fraction { FractionLaw }
    ensures range { RangeLaw }
{}

// The forms of a value's bytes: numbers of several widths, and a delay's word.
ghost use Rattle.std.specs.Prelude.{◌≡◌, ◌&&◌, eqb, length};
ghost use Rattle.rules.specs.Bytes.{leading_zero, number_up_to, signed_number};
ghost use Rattle.rules.specs.Text.{number64, byte, flag, delay_word};

use rules::limits::NO_DELAY;

// Whether a zero stands before other digits.
fn leading_zero(digits: &[u8]) -> bool
    ensures { result ≡ leading_zero digits.now }
{
    matches!(digits, [b'0', _, ..])
}

// A number from 0 to the largest. The value only grows with more digits, so a part that is too large already is refused at
// once. No `parse`: it asks for a str, and takes +1 and leading zeros too.
#[tactic(auto, using(crate::proofs::NumberSteps::number_empty, crate::proofs::NumberSteps::number_leads, crate::proofs::NumberSteps::number_starts, crate::proofs::NumberSteps::stops_other, crate::proofs::NumberSteps::stops_large, crate::proofs::NumberSteps::goes_on, crate::proofs::NumberSteps::ends))]
pub fn number_up_to(digits: &[u8], most: u64) -> Option<u64>
    ensures { result ≡ number_up_to most digits.now }
{
    if digits.is_empty() || leading_zero(digits) {
        return None;
    }
    let mut value: u64 = 0;
    for &byte in digits {
        if !byte.is_ascii_digit() {
            return None;
        }
        let digit = u64::from(byte - b'0');
        value = value.checked_mul(10)?.checked_add(digit)?;
        if most < value {
            return None;
        }
    }
    Some(value)
}

// A count or an id.
pub fn number64(digits: &[u8]) -> Option<u64>
    ensures { result ≡ number64 digits.now }
{
    number_up_to(digits, u64::MAX)
}

// A number of a byte, from 0 to the largest.
#[tactic(auto, using(crate::proofs::NumberSteps::number_fits))]
fn small(digits: &[u8], most: u8) -> Option<u8>
    ensures { result ≡ number_up_to most digits.now }
{
    let value = number_up_to(digits, u64::from(most))?;
    u8::try_from(value).ok()
}

// A kind or a transfer.
pub fn byte(digits: &[u8]) -> Option<u8>
    ensures { result ≡ byte digits.now }
{
    small(digits, u8::MAX)
}

// Whether a repeater is locked: 0 or 1.
pub fn flag(digits: &[u8]) -> Option<u8>
    ensures { result ≡ flag digits.now }
{
    small(digits, 1)
}

// A number of signed 32 bits. `-0` is none. The casts lose nothing: number_up_to keeps what is larger out.
#[tactic(auto, using(crate::proofs::NumberSteps::number_fits, crate::proofs::NumberSteps::signed_minus, crate::proofs::NumberSteps::signed_plain, crate::proofs::NumberSteps::negative_is, crate::proofs::NumberSteps::negative_zero, crate::proofs::SignedSteps::pos_fits, crate::proofs::SignedSteps::negated_is, crate::proofs::SignedSteps::plain_is))]
pub fn signed_number(digits: &[u8]) -> Option<i32>
    ensures { result ≡ signed_number digits.now }
{
    if let Some(size) = digits.strip_prefix(b"-") {
        let less = number_up_to(size, 2147483648)?.checked_sub(1)?;
        return Some(-1 - less as i32);
    }
    let size = number_up_to(digits, 2147483647)?;
    Some(size as i32)
}

// A delay's word; `none` has its own.
#[tactic(auto, using(crate::proofs::NumberSteps::delay_none, crate::proofs::NumberSteps::delay_number))]
pub fn delay_word(digits: &[u8]) -> Option<u16>
    ensures { result ≡ delay_word digits.now }
{
    if digits == b"none".as_slice() {
        return Some(NO_DELAY);
    }
    byte(digits).map(u16::from)
}

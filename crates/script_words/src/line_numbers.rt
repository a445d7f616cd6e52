// A number at the front of a line, in one pass: each digit is tested as it is added to the value, which has 64 bits.
ghost use Rattle.std.specs.Prelude.{◌≡◌, ◌<◌, ◌≤◌, ◌^◌, IfSome, true, length, take, drop, Some, pos, neg_ℤ};
ghost use Rattle.std.specs.List.{list_all, position_or_len};
ghost use Rattle.script_spec.specs.ScriptWords.{is_blank, is_digit, digits_value, natural_of, number_of_text};

use crate::numbers::is_digit;
use crate::words::begins_blank;

/// The value of so many digits has room in 64 bits, with a sign too.
const MOST_DIGITS: usize = 18;

/// The value of the digits at the front, and how many they are.
pub(crate) fn front_digits(line: &[u8]) -> (u64, usize)
    ensures value { result.0 ≡ digits_value (take result.1 line.now) }
    ensures bound { result.0 < 10 ^ 18 }
    ensures digits { list_all is_digit (take result.1 line.now) ≡ true }
    ensures few { result.1 ≤ 18 }
    ensures within { result.1 ≤ length line.now }
{
    let most = line.len().min(MOST_DIGITS);
    let mut value = 0;
    let mut len = 0;
    while len < most && is_digit(line[len]) {
        value = 10 * value + u64::from(line[len] - b'0');
        len += 1;
    }
    (value, len)
}

/// The number of the first word, which has few digits and no sign, and what follows it.
#[tactic(auto, using(crate::proofs::FrontLaws::digits_end, crate::proofs::FrontLaws::digits_say))]
fn short_natural(line: &[u8]) -> Option<(u64, &[u8])>
    ensures value { IfSome result (λ n. natural_of (take (position_or_len is_blank line.now) line.now) ≡ Some n.0) }
    ensures bound { IfSome result (λ n. n.0 < 10 ^ 18) }
    ensures rest { IfSome result (λ n. n.1.now ≡ drop (position_or_len is_blank line.now) line.now) }
{
    let (value, len) = front_digits(line);
    let rest = line.split_at(len).1;
    if len > 0 && begins_blank(rest) {
        Some((value, rest))
    } else {
        None
    }
}

fn negative(value: u64) -> i64
    requires { value < 10 ^ 18 }
    ensures { result ≡ neg_ℤ (pos value) }
{
    -(value as i64)
}

/// The number of the first word, which has few digits, and what follows it.
#[tactic(auto, using(crate::proofs::FrontLaws::signed_says))]
pub(crate) fn short_number(line: &[u8]) -> Option<(i64, &[u8])>
    ensures value { IfSome result (λ n. number_of_text (take (position_or_len is_blank line.now) line.now) ≡ Some n.0) }
    ensures rest { IfSome result (λ n. n.1.now ≡ drop (position_or_len is_blank line.now) line.now) }
{
    let (sign, digits) = line.split_first()?;
    if *sign == b'-' {
        let (value, rest) = short_natural(digits)?;
        Some((negative(value), rest))
    } else {
        let (value, rest) = short_natural(line)?;
        Some((value as i64, rest))
    }
}

//! Numbers at the beginning of a line, each read in one pass over its bytes.

ghost use Rattle.std.specs.Prelude.{◌≡◌, ◌<◌, ◌≤◌, ◌^◌, ◌∷◌, length, nat_abs, IfSome};
ghost use Rattle.spec_text.specs.{Inputs.{words_of, is_blank}, Numbers.{is_digit}};
ghost use Rattle.mal_text.specs.Numbers.{BeginsWith, BeginsWithDigits, begins_number};

/// With a digit after it, a number up to this one is below 2^62.
const MOST: u64 = 400_000_000_000_000_000;

/// The number that a line begins with, where no blank stands before it and it is not too large, and the line after its
/// word. None says nothing of the line.
pub fn number_in_front(line: &[u8]) -> Option<(i64, &[u8])>
    ensures number { IfSome result (λ cut. BeginsWith line.now cut.0 (words_of cut.1.now)) }
    ensures bound { IfSome result (λ cut. nat_abs cut.0 ≤ 2 ^ 62) }
    ensures shorter { IfSome result (λ cut. length cut.1.now < length line.now) }
{
    let Some((first, behind)) = line.split_first() else {
        return None;
    };
    if *first == b'-' {
        return negative_in_front(behind);
    }
    match digits_in_front(line) {
        Some((value, rest)) => Some((value as i64, rest)),
        None => None,
    }
}

/// The same of a line after a minus sign.
fn negative_in_front(line: &[u8]) -> Option<(i64, &[u8])>
    ensures number { IfSome result (λ cut. BeginsWith (45 ∷ line.now) cut.0 (words_of cut.1.now)) }
    ensures bound { IfSome result (λ cut. nat_abs cut.0 ≤ 2 ^ 62) }
    ensures shorter { IfSome result (λ cut. length cut.1.now < length line.now) }
{
    match digits_in_front(line) {
        Some((value, rest)) if value > 0 => Some((-(value as i64), rest)),
        _ => None,
    }
}

/// Whether the first byte of a line is a digit or a minus sign.
pub fn begins_number(line: &[u8]) -> bool
    ensures { result ≡ begins_number line.now }
{
    match line {
        [byte, ..] => *byte == b'-' || is_digit(*byte),
        _ => false,
    }
}

/// The number of the digits that a line begins with, where a blank or nothing is after them and it is not too large,
/// and the line after the blank. None says nothing of the line.
fn digits_in_front(line: &[u8]) -> Option<(u64, &[u8])>
    ensures number { IfSome result (λ cut. BeginsWithDigits line.now cut.0 cut.1.now) }
    ensures bound { IfSome result (λ cut. cut.0 ≤ 2 ^ 62) }
    ensures shorter { IfSome result (λ cut. length cut.1.now < length line.now) }
{
    let mut value: u64 = 0;
    for (index, byte) in line.iter().enumerate() {
        if !is_digit(*byte) {
            if index == 0 || !is_blank(*byte) {
                return None;
            }
            return Some((value, &line[index + 1..]));
        }
        if value > MOST {
            return None;
        }
        value = value * 10 + (*byte - b'0') as u64;
    }
    if line.is_empty() {
        return None;
    }
    Some((value, &[]))
}

/// Whether a byte is a decimal digit.
fn is_digit(byte: u8) -> bool
    ensures { result ≡ is_digit byte }
{
    b'0' <= byte && byte <= b'9'
}

/// Whether a byte is a space, a tab or a carriage return.
fn is_blank(byte: u8) -> bool
    ensures { result ≡ is_blank byte }
{
    byte == b' ' || byte == b'\t' || byte == b'\r'
}

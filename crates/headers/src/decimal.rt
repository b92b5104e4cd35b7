// Decimal numbers.
ghost use Rattle.std.specs.Prelude.{◌≡◌, ◌++◌, ◌≤◌, length, drop};
ghost use Rattle.headers.specs.Numbers.{amount, digits, shortest};
ghost use Rattle.headers.specs.Answers.{left_in, read_says, decimal_answer, written_says};

use crate::octets::TooShort;

// The number that s says in decimal, leading zeros allowed, if it is digits alone, at least one, and at most limit.
pub fn read_decimal(s: &[u8], limit: u32) -> Option<u32>
    ensures { read_says result ≡ amount limit s.now }
{
    if s.len() == 0 {
        return None;
    }
    let most = u64::from(limit);
    let mut sum: u64 = 0;
    for x in s {
        if !x.is_ascii_digit() {
            return None;
        }
        sum = sum * 10 + u64::from(*x - 48);
        if most < sum {
            return None;
        }
    }
    Some(sum as u32)
}

// How many octets the shortest decimal of n has.
pub fn decimal_length(n: u64) -> usize
    ensures { result ≡ length (shortest n) }
{
    n.checked_ilog10().map_or(1, |k| k as usize + 1)
}

// The last k decimal digits of n at the front of d.
fn put_digits(d: &mut [u8], n: u64, k: usize)
    requires { k ≤ length d.old }
    ensures { d.new ≡ digits k n ++ drop k d.old }
{
    let mut m = n;
    for i in (0..k).rev() {
        d[i] = 48 + ((m % 10) as u8);
        m = m / 10;
    }
}

// The shortest decimal of n at the front of d; its length.
pub fn write_decimal(d: &mut [u8], n: u64) -> Result<usize, TooShort>
    ensures { (written_says result ≡ decimal_answer (length d.old) n)
        × (d.new ≡ left_in (decimal_answer (length d.old) n) (shortest n) d.old) }
{
    let k = decimal_length(n);
    if d.len() < k {
        return Err(TooShort);
    }
    put_digits(d, n, k);
    Ok(k)
}

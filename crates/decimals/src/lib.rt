#![tactic(auto)]

ghost use Rattle.std.specs.Prelude.{◌≡◌, ◌+◌, ◌≤◌, ◌<◌, ◌^◌, length};
ghost use Rattle.std.proofs.lemmas.List.Edits.{sets};
ghost use Rattle.decimals.specs.Decimals.{digit, is_digit, decimal};

pub fn is_digit(b: u8) -> bool
    ensures { result ≡ is_digit b }
{
    b'0' <= b && b <= b'9'
}

// The byte of a digit.
fn digit_byte(d: usize) -> u8
    requires { d < 10 }
    ensures { result ≡ digit d }
{
    (48 + d) as u8
}

// How many digits a number has.
pub fn decimal_length(n: usize) -> usize
    requires { n < 2 ^ 32 }
    ensures { result ≡ length (decimal n) }
{
    let mut left = n;
    let mut digits: usize = 1;
    // As many turns as a number has digits, which only the turns tell.
    while 10 <= left {
        left = left / 10;
        digits += 1;
    }
    digits
}

// Writes a number at `at`, its last digit first; says where it ends.
pub fn put_decimal(text: &mut [u8], at: usize, n: usize) -> usize
    requires { (n < 2 ^ 32) × (at + length (decimal n) ≤ length text.old) }
    ensures value { result ≡ at + length (decimal n) }
    ensures text_is { text.new ≡ sets text.old at (decimal n) }
{
    let whole = at + decimal_length(n);
    let mut left = n;
    let mut end = whole;
    // The last digit first, as a number gives its digits.
    while 10 <= left {
        end -= 1;
        text[end] = digit_byte(left % 10);
        left = left / 10;
    }
    text[at] = digit_byte(left);
    whole
}

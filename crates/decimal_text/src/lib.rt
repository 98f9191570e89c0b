// A number's digits, written into a lent buffer.
#![tactic(auto)]

ghost use Rattle.std.specs.Prelude.{◌≡◌, ◌∷◌, [], ◌+◌, ◌<◌, ◌≤◌, length};
ghost use Rattle.laws.specs.Decimal.{decimal};
ghost use Rattle.laws.specs.Splice.{splice};

// How many digits n has.
pub fn decimal_len(n: u64) -> usize
    ensures { result ≡ length (decimal n) }
{
    if n < 10 {
        return 1;
    }
    decimal_len(n / 10) + 1
}

// Stores a byte, and answers the next place: a place beside the buffer, since that is what the callers' contracts are about.
pub fn put(buf: &mut [u8], at: usize, byte: u8) -> usize
    requires { at < length buf.old }
    ensures { (result ≡ at + 1) × (buf.new ≡ splice buf.old at (byte ∷ [])) }
{
    buf[at] = byte;
    at + 1
}

// Stores the digits of n, and answers the next place. By hand: the library's digits have to be copied, for which the archive for C would ask for
// `memcpy` from outside.
pub fn put_decimal(buf: &mut [u8], at: usize, n: u64) -> usize
    requires { at + length (decimal n) ≤ length buf.old }
    ensures { (result ≡ at + length (decimal n)) × (buf.new ≡ splice buf.old at (decimal n)) }
{
    if n < 10 {
        return put(buf, at, (48 + n) as u8);
    }
    let next = put_decimal(buf, at, n / 10);
    put(buf, next, (48 + n % 10) as u8)
}

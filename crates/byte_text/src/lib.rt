// An amount of bytes as text, written into a lent buffer.
#![tactic(auto)]

ghost use Rattle.std.specs.Prelude.{◌≡◌, ◌∷◌, [], ◌+◌, ◌^◌, ◌<◌, ◌≤◌, length};
ghost use Rattle.laws.specs.Nearest.{nearest};
ghost use Rattle.laws.specs.Splice.{splice};
ghost use Rattle.refusals.specs.Refusals.{reply};
ghost use Rattle.byte_text.specs.ByteText.{place, spelt, suffix, shown_of, shown, hundredths, places, text_of, fmt_bytes_into};
ghost use Rattle.byte_text.specs.ByteTextLaws.{Bounded};

use decimal_text;
use refusals::Refusal;

// The units, each 1024 of the one before.
#[derive(Clone, Copy, Debug, PartialEq, Eq)]
pub enum Unit {
    B,
    KB,
    MB,
    GB,
    TB,
}

// What is shown: amount / over, in a unit.
#[derive(Clone, Copy)]
pub struct Shown {
    pub amount: u64,
    pub over: u64,
    pub unit: Unit,
}

// What is shown, to two places.
#[derive(Clone, Copy)]
struct Text {
    hundredths: u64,
    unit: Unit,
}

// n / d rounded, a tie to the even number.
#[tactic(auto, unfolding(laws::specs::Nearest::nearest))]
fn round(n: u64, d: u64) -> u64
    requires { (0 < d) × (n < 2 ^ 63) × (d < 2 ^ 63) }
    ensures { result ≡ nearest n d }
{
    let whole = n / d;
    let twice = 2 * (n % d);
    if twice < d {
        return whole;
    }
    if d < twice {
        return whole + 1;
    }
    whole + whole % 2
}

// Stores the two places behind the point, between "." and " ". By hand: a formatter's `{:02}` needs a writer, and these are four stores.
fn put_places(buf: &mut [u8], at: usize, h: u64) -> usize
    requires { at + 4 ≤ length buf.old }
    ensures { (result ≡ at + 4) × (buf.new ≡ splice buf.old at (places h)) }
{
    buf[at] = b'.';
    buf[at + 1] = (48 + h / 10 % 10) as u8;
    buf[at + 2] = (48 + h % 10) as u8;
    buf[at + 3] = b' ';
    at + 4
}

impl Unit {
    // The letter of its name before "B", if it has one.
    #[tactic(auto, unfolding(crate::specs::ByteText::suffix))]
    fn letter(self) -> Option<u8>
        ensures { suffix (place self) ≡ spelt result }
    {
        match self {
            Unit::B => None,
            Unit::KB => Some(b'K'),
            Unit::MB => Some(b'M'),
            Unit::GB => Some(b'G'),
            Unit::TB => Some(b'T'),
        }
    }

    // How many letters its name has.
    fn name_len(self) -> usize
        ensures { result ≡ length (suffix (place self)) }
    {
        if self.letter().is_some() { 2 } else { 1 }
    }

    // Stores its name.
    fn put_name(self, buf: &mut [u8], at: usize)
        requires { at + length (suffix (place self)) ≤ length buf.old }
        ensures { buf.new ≡ splice buf.old at (suffix (place self)) }
    {
        let Some(letter) = self.letter() else {
            decimal_text::put(buf, at, b'B');
            return;
        };
        let next = decimal_text::put(buf, at, letter);
        decimal_text::put(buf, next, b'B');
    }
}

impl Shown {
    // The last division is left undone, so that its rest can be rounded.
    fn of(amount: u64) -> Shown
        ensures { shown_of result ≡ shown amount }
    {
        if amount < 1024 {
            return Shown {
                amount,
                over: 1,
                unit: Unit::B,
            };
        }
        let mut left = amount;
        for unit in [Unit::KB, Unit::MB, Unit::GB] {
            if left / 1024 < 1024 {
                return Shown {
                    amount: left,
                    over: 1024,
                    unit,
                };
            }
            left /= 1024;
        }
        Shown {
            amount: left,
            over: 1024,
            unit: Unit::TB,
        }
    }

    #[tactic(auto, unfolding(crate::specs::ByteText::hundredths))]
    fn to_places(self) -> Text
        requires { Bounded (shown_of self) }
        ensures hundredths { result.hundredths ≡ hundredths (shown_of self) }
        ensures unit { result.unit ≡ self.unit }
    {
        Text {
            hundredths: round(100 * self.amount, self.over),
            unit: self.unit,
        }
    }
}

impl Text {
    // How many bytes it has: the point, two places and the blank are four.
    fn len(self) -> usize
        ensures { result ≡ length (text_of self.hundredths (place self.unit)) }
    {
        decimal_text::decimal_len(self.hundredths / 100) + 4 + self.unit.name_len()
    }

    // Stores it at the front.
    fn put(self, buf: &mut [u8])
        requires { length (text_of self.hundredths (place self.unit)) ≤ length buf.old }
        ensures { buf.new ≡ splice buf.old 0 (text_of self.hundredths (place self.unit)) }
    {
        let point = decimal_text::put_decimal(buf, 0, self.hundredths / 100);
        let name = put_places(buf, point, self.hundredths);
        self.unit.put_name(buf, name);
    }
}

// The text is measured before the first store, so a refusal leaves the buffer as it was.
pub fn fmt_bytes(amount: u64, buf: &mut [u8]) -> Result<usize, Refusal>
    ensures { (reply result, buf.new) ≡ fmt_bytes_into amount buf.old }
{
    if 1 << 50 <= amount {
        return Err(Refusal::Amount);
    }
    let text = Shown::of(amount).to_places();
    let needed = text.len();
    if buf.len() < needed {
        return Err(Refusal::ShortBuffer);
    }
    text.put(buf);
    Ok(needed)
}

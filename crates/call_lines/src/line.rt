// What was read of a line, a byte at a time, and what the line asks for where it ends.
ghost use Rattle.std.specs.Prelude.{◌≡◌};
ghost use Rattle.std.specs.Option.{unwrap_or};
ghost use Rattle.call_lines.specs.Asked.{asked_of};
ghost use Rattle.call_lines.specs.Reading.{fresh, unreadable, takes_digit, takes_space, with_digit, with_space, with_letter, fed, asked, is_begun};

use crate::asked::Call;
use sub_allocator::request::Request;

// What came last.
#[derive(Clone, Copy, Debug, Default, PartialEq, Eq)]
enum Stage {
    #[default]
    Nothing,
    Letter,
    Digit,
    Space,
    Unreadable,
}

impl Stage {
    // A number goes on, or begins.
    fn takes_digit(self) -> bool
        ensures { result ≡ takes_digit self }
    {
        matches!(self, Stage::Digit | Stage::Space)
    }

    // The letter stands alone, or a number is whole.
    fn takes_space(self) -> bool
        ensures { result ≡ takes_space self }
    {
        matches!(self, Stage::Letter | Stage::Digit)
    }
}

// What a line begins with.
#[derive(Clone, Copy, Debug, PartialEq, Eq)]
enum Letter {
    New,
    Allocate,
    Free,
}

impl TryFrom<u8> for Letter {
    ghost use Rattle.std.specs.Prelude.{◌≡◌};
    ghost use Rattle.std.specs.Result.{result_ok};
    ghost use Rattle.call_lines.specs.Reading.{letter_of};

    type Error = ();

    ghost try_from_gives = { λ byte answer. result_ok answer ≡ letter_of byte };

    #[tactic(auto, unfolding(crate::specs::Reading::letter_of))]
    fn try_from(byte: u8) -> Result<Letter, ()> {
        match byte {
            b'n' => Ok(Letter::New),
            b'a' => Ok(Letter::Allocate),
            b'f' => Ok(Letter::Free),
            _ => Err(()),
        }
    }
}

#[derive(Clone, Copy, Debug, Default, PartialEq, Eq)]
pub struct Line {
    stage: Stage,
    letter: Option<Letter>,
    // How many numbers were begun.
    count: u64,
    // The four numbers before the present one, the latest last, and its value so far.
    before: [u64; 4],
    value: u64,
}

impl Line {
    // No byte read.
    pub fn new() -> Line
        ensures { result ≡ fresh }
    {
        Line::default()
    }

    // What no further byte makes readable.
    fn unreadable() -> Line
        ensures { result ≡ unreadable }
    {
        Line {
            stage: Stage::Unreadable,
            ..Line::default()
        }
    }

    // One byte more, which is not a line feed.
    #[tactic(auto, unfolding(crate::specs::Reading::fed, laws::specs::Every::every))]
    pub fn fed(self, byte: u8) -> Line
        ensures { result ≡ fed self byte }
    {
        let next = match byte {
            b'0'..=b'9' => self.with_digit(byte - b'0'),
            b' ' => self.with_space(),
            _ => self.with_letter(byte),
        };
        next.unwrap_or_else(Line::unreadable)
    }

    // The number at hand goes on, while it fits a word.
    #[tactic(auto, unfolding(crate::specs::Reading::with_digit, laws::specs::Every::every))]
    fn with_digit(self, digit: u8) -> Option<Line>
        ensures { unwrap_or result unreadable ≡ with_digit self digit }
    {
        if !self.stage.takes_digit() {
            return None;
        }
        let value = self.value.checked_mul(10)?.checked_add(u64::from(digit))?;
        Some(Line {
            stage: Stage::Digit,
            value,
            ..self
        })
    }

    // The number at hand is whole, and the next begins.
    #[tactic(auto, unfolding(crate::specs::Reading::with_space, laws::specs::Every::every))]
    fn with_space(self) -> Option<Line>
        ensures { unwrap_or result unreadable ≡ with_space self }
    {
        if !self.stage.takes_space() || 5 <= self.count {
            return None;
        }
        let [_, b, c, d] = self.before;
        Some(Line {
            stage: Stage::Space,
            count: self.count + 1,
            before: [b, c, d, self.value],
            value: 0,
            ..self
        })
    }

    // A letter is the first byte.
    #[tactic(auto, unfolding(crate::specs::Reading::with_letter, crate::specs::Reading::is_begun, crate::specs::Reading::is_letter, crate::specs::Reading::letter_of, laws::specs::Every::every))]
    fn with_letter(self, byte: u8) -> Option<Line>
        ensures { unwrap_or result unreadable ≡ with_letter self byte }
    {
        if self.is_begun() {
            return None;
        }
        let letter = Letter::try_from(byte).ok()?;
        Some(Line {
            stage: Stage::Letter,
            letter: Some(letter),
            ..Line::default()
        })
    }

    // The line ends here: what it asks for, unless it is unreadable.
    #[tactic(auto, unfolding(crate::specs::Reading::asked, crate::specs::Reading::is_asking, laws::specs::Every::every))]
    pub fn asked(self) -> Option<Call>
        ensures { asked_of result ≡ asked self }
    {
        if self.stage != Stage::Digit {
            return None;
        }
        let [a, b, c, d] = self.before;
        match (self.letter?, self.count) {
            (Letter::New, 2) => Some(Call::New {
                size: d,
                slots: self.value,
            }),
            (Letter::Allocate, 5) => Some(Call::Allocate(Request {
                size: a,
                alignment: b,
                kind: c,
                granularity: d,
                label: self.value,
            })),
            (Letter::Free, 1) => Some(Call::Free(self.value)),
            _ => None,
        }
    }

    // Whether the line has a byte.
    #[tactic(auto, unfolding(crate::specs::Reading::is_begun))]
    pub fn is_begun(self) -> bool
        ensures { result ≡ is_begun self }
    {
        self.stage != Stage::Nothing
    }
}

//! Times in UTC, to the millisecond, and their texts.

ghost use Rattle.std.specs.Prelude.{◌≡◌, ◌+◌, ◌<◌, ◌≤◌, length, true, false, MatchOption};
ghost use Rattle.std.specs.Str.{bytes_eq};
ghost use Rattle.he_record.specs.MomentParts.{parts_in, two_at, value_of};
ghost use Rattle.he_record.specs.Moments.{days_of, digit, is_date, is_leap, is_moment, is_time, moment_text};

/// A time in UTC, to the millisecond. The fields may have any values; `is_moment` checks them.
#[derive(Clone, Copy, Debug, PartialEq, Eq)]
pub struct Moment {
    pub year: u16,
    pub month: u8,
    pub day: u8,
    pub hour: u8,
    pub minute: u8,
    pub second: u8,
    pub millisecond: u16,
}

/// The length of a moment's text, in bytes.
pub const MOMENT_LEN: usize = 24;

impl Moment {
    /// Whether there is this date, in the years 0 to 9999, and this time of day. Each minute has 60 seconds: there
    /// are no leap seconds.
    pub fn is_moment(self) -> bool
        ensures { result ≡ is_moment self }
    {
        self.is_date() && self.is_time()
    }

    fn is_date(self) -> bool
        ensures { result ≡ is_date self }
    {
        self.year <= 9999
            && 1 <= self.month
            && self.month <= 12
            && 1 <= self.day
            && self.day <= days_of(self.year, self.month)
    }

    fn is_time(self) -> bool
        ensures { result ≡ is_time self }
    {
        self.hour <= 23 && self.minute <= 59 && self.second <= 59 && self.millisecond <= 999
    }

    /// The text in RFC 3339 format: `2026-11-28T10:54:05.261Z`.
    pub fn text(self) -> [u8; MOMENT_LEN]
        ensures { result ≡ moment_text self }
    {
        [
            digit(self.year / 1000),
            digit(self.year / 100),
            digit(self.year / 10),
            digit(self.year),
            b'-',
            digit(u16::from(self.month / 10)),
            digit(u16::from(self.month)),
            b'-',
            digit(u16::from(self.day / 10)),
            digit(u16::from(self.day)),
            b'T',
            digit(u16::from(self.hour / 10)),
            digit(u16::from(self.hour)),
            b':',
            digit(u16::from(self.minute / 10)),
            digit(u16::from(self.minute)),
            b':',
            digit(u16::from(self.second / 10)),
            digit(u16::from(self.second)),
            b'.',
            digit(self.millisecond / 100),
            digit(self.millisecond / 10),
            digit(self.millisecond),
            b'Z',
        ]
    }
}

fn days_of(year: u16, month: u8) -> u8
    ensures { result ≡ days_of year month }
{
    match month {
        2 if is_leap(year) => 29,
        2 => 28,
        4 | 6 | 9 | 11 => 30,
        _ => 31,
    }
}

fn is_leap(year: u16) -> bool
    ensures { result ≡ is_leap year }
{
    year % 4 == 0 && (year % 100 != 0 || year % 400 == 0)
}

fn digit(number: u16) -> u8
    ensures { result ≡ digit number }
{
    b'0' + (number % 10) as u8
}

// The fields of a text that has the format of a moment, whether there is that moment or not.
pub(crate) fn read_parts(text: &[u8]) -> Option<Moment>
    ensures { MatchOption result (bytes_eq text.now (moment_text (parts_in text.now)) ≡ false)
        (λ parts. (bytes_eq text.now (moment_text (parts_in text.now)) ≡ true) × (parts ≡ parts_in text.now)) }
{
    if text.len() != MOMENT_LEN {
        return None;
    }
    let parts = parts_in(text);
    if parts.text().as_slice() == text {
        Some(parts)
    } else {
        None
    }
}

// The fields at their places in the text.
fn parts_in(text: &[u8]) -> Moment
    requires { length text.now ≡ MOMENT_LEN }
    ensures { result ≡ parts_in text.now }
{
    Moment {
        year: two_at(text, 0) as u16 * 100 + two_at(text, 2) as u16,
        month: two_at(text, 5),
        day: two_at(text, 8),
        hour: two_at(text, 11),
        minute: two_at(text, 14),
        second: two_at(text, 17),
        millisecond: value_of(text[20]) as u16 * 100 + two_at(text, 21) as u16,
    }
}

fn two_at(text: &[u8], at: usize) -> u8
    requires { at + 1 < length text.now }
    ensures value { result ≡ two_at text.now at }
    ensures few { result ≤ 165 }
{
    value_of(text[at]) * 10 + value_of(text[at + 1])
}

// The value of a digit; of another byte, some number below 16.
fn value_of(byte: u8) -> u8
    ensures value { result ≡ value_of byte }
    ensures few { result ≤ 15 }
{
    byte % 16
}

//! The date and the time of day.

use libc::types::timespec;
use std::fmt;
use std::fmt::{Display, Formatter};

/// A moment, shown as RFC 3339 has it, in UTC and with milliseconds: `2026-12-01T09:05:41.123Z`.
#[derive(Clone, Copy)]
pub struct Moment {
    // Since the beginning of 1970.
    seconds: u64,
    milliseconds: u64,
}

impl Moment {
    /// Returns the present moment by the system's clock, or the beginning of 1970 if the clock can't be read.
    pub fn now() -> Moment {
        let mut time = timespec {
            tv_sec: 0,
            tv_nsec: 0,
        };
        if libc::clock_gettime(libc::CLOCK_REALTIME, &mut time) != 0 {
            return Moment {
                seconds: 0,
                milliseconds: 0,
            };
        }
        Moment {
            seconds: u64::try_from(time.tv_sec).unwrap_or(0),
            milliseconds: u64::try_from(time.tv_nsec).unwrap_or(0) / 1_000_000,
        }
    }
}

// A day of the Gregorian calendar.
#[derive(Clone, Copy)]
struct Day {
    year: u64,
    month: u64,
    day: u64,
}

impl Day {
    // Returns the day that is `days` days after 1 January 1970. Years are counted from March, so that a leap
    // day comes last.
    fn after(days: u64) -> Day {
        let days = days.saturating_add(719_468);
        let (era, of_era) = (days / 146_097, days % 146_097);
        let year_of_era = of_era
            .saturating_sub(of_era / 1_460)
            .saturating_add(of_era / 36_524)
            .saturating_sub(of_era / 146_096)
            / 365;
        let before = year_of_era
            .saturating_mul(365)
            .saturating_add(year_of_era / 4)
            .saturating_sub(year_of_era / 100);
        let of_year = of_era.saturating_sub(before);
        let march_month = of_year.saturating_mul(5).saturating_add(2) / 153;
        let month_begin = march_month.saturating_mul(153).saturating_add(2) / 5;
        let is_late = march_month >= 10;
        let month = if is_late {
            march_month.saturating_sub(9)
        } else {
            march_month.saturating_add(3)
        };
        let march_year = era.saturating_mul(400).saturating_add(year_of_era);
        Day {
            year: march_year.saturating_add(u64::from(is_late)),
            month,
            day: of_year.saturating_sub(month_begin).saturating_add(1),
        }
    }
}

impl Display for Moment {
    fn fmt<W: fmt::Write>(&self, f: &mut Formatter<W>) -> fmt::Result {
        let Day { year, month, day } = Day::after(self.seconds / 86_400);
        let of_day = self.seconds % 86_400;
        let (hour, minute, second) = (of_day / 3_600, of_day / 60 % 60, of_day % 60);
        let milliseconds = self.milliseconds;
        write!(
            f,
            "{year:04}-{month:02}-{day:02}T{hour:02}:{minute:02}:{second:02}.{milliseconds:03}Z"
        )
    }
}

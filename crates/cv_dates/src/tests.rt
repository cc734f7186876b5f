use super::*;
use eac_base::FailPlan;
use std::process::Abort;
use std::test::Fail;

/// What a reader gave: the day's number, or the refusal's.
fn outcome(read: Result<Day, DateRefusal>) -> Result<u32, u8> {
    match read {
        Ok(day) => Ok(day.number()),
        Err(refusal) => Err(refusal.number()),
    }
}

#[test]
fn dates_are_read_or_refused_by_the_first_broken_test(rt: HostRuntime) {
    let leap_day = [2, 4, 0, 2, 2, 9];
    let no_leap_year = [2, 3, 0, 2, 2, 9];
    let no_digit = [2, 10, 0, 1, 0, 1];
    let first_day = [0, 0, 0, 1, 0, 1];
    let last_day = [9, 9, 1, 2, 3, 1];
    assert_eq!(rt; outcome(read_date(&leap_day)), Ok(8825));
    assert_eq!(rt; outcome(read_date(&no_leap_year)), Err(3));
    assert_eq!(rt; outcome(read_date(&no_digit)), Err(2));
    assert_eq!(rt; outcome(read_date(&no_digit[..5])), Err(1));
    assert_eq!(rt; outcome(read_date(&first_day)), Ok(0));
    assert_eq!(rt; outcome(read_date(&last_day)), Ok(36_524));
}

#[test]
fn texts_are_read_or_refused_by_the_first_broken_test(rt: HostRuntime) {
    assert_eq!(rt; outcome(day_from_text(b"240229")), Ok(8825));
    assert_eq!(rt; outcome(day_from_text(b"230229")), Err(3));
    assert_eq!(rt; outcome(day_from_text(b"2a0101")), Err(2));
    assert_eq!(rt; outcome(day_from_text(b"23010")), Err(1));
    assert_eq!(rt; outcome(day_from_text(&[2, 4, 0, 2, 2, 9])), Err(2));
}

#[test]
fn three_years_from_2024_end_on_the_first_of_2027(rt: HostRuntime) -> Result<(), Fail> {
    let founded = day_from_text(b"240101")?;
    let end = plus_days(founded, 1_096).ok_or("within the century")?;
    assert_eq!(rt; day_text(end), *b"270101");
    assert!(rt; founded.is_before(&end));
    assert!(rt; !end.is_before(&founded));
    Ok(())
}

/// Each month with its days; February has one more in every fourth year.
const MONTHS: [(u8, u8); 12] = [
    (1, 31),
    (2, 28),
    (3, 31),
    (4, 30),
    (5, 31),
    (6, 30),
    (7, 31),
    (8, 31),
    (9, 30),
    (10, 31),
    (11, 30),
    (12, 31),
];

fn digits_of(year: u8, month: u8, day: u8) -> [u8; 6] {
    [
        year / 10,
        year % 10,
        month / 10,
        month % 10,
        day / 10,
        day % 10,
    ]
}

/// The day of this number has these digits in both forms, and each form is read as it.
fn goes_round(rt: &impl Abort, number: u32, digits: [u8; 6]) -> Result<(), Fail> {
    let day = Day::from_number(number).ok_or("within the century")?;
    let text = digits.map(|digit| b'0' | digit);
    assert_eq!(rt; day.number(), number);
    assert_eq!(rt; put_date(day), digits);
    assert_eq!(rt; read_date(&digits)?, day);
    assert_eq!(rt; day_text(day), text);
    assert_eq!(rt; day_from_text(&text)?, day);
    Ok(())
}

#[test]
fn each_day_of_the_century_goes_round_and_no_other_is_read(rt: HostRuntime) -> Result<(), Fail> {
    let mut numbers = 0..36_525;
    for year in 0..100 {
        for (month, days) in MONTHS {
            let length = if month == 2 && year % 4 == 0 {
                29
            } else {
                days
            };
            for day in 0..100 {
                let digits = digits_of(year, month, day);
                if 1 <= day && day <= length {
                    let number = numbers.next().ok_or("too many days")?;
                    goes_round(&rt, number, digits)?;
                } else {
                    assert_eq!(rt; outcome(read_date(&digits)), Err(3));
                }
            }
        }
    }
    assert_eq!(rt; numbers.next(), None);
    assert!(rt; Day::from_number(36_525).is_none());
    Ok(())
}

fn asked<C: DayClock>(clock: &mut C) -> Option<u32> {
    match clock.today() {
        Ok(day) => Some(day.number()),
        Err(_) => None,
    }
}

#[test]
fn a_clock_gives_its_day_and_fails_by_its_plan(rt: HostRuntime) -> Result<(), Fail> {
    let mut plan = FailPlan::new(rt.alloc());
    plan.push(2)?;
    let day = Day::from_number(8825).unwrap_or(Day::numbered(0));
    let mut clock = MemoryClock::new(day, plan);
    assert!(rt; asked(&mut clock) == Some(8825));
    assert!(rt; asked(&mut clock) == None);
    assert!(rt; asked(&mut clock) == Some(8825));
    drop(clock);
    Ok(())
}

#[test]
fn the_systems_day_is_utc_and_of_these_years(rt: HostRuntime) {
    assert!(rt; utc_day(946_684_799).is_none());
    assert_eq!(rt; utc_day(946_684_800), Day::from_number(0));
    // 2024-02-29 23:59:59 and 2099-12-31 23:59:59, by `date -u +%s`.
    assert_eq!(rt; utc_day(1_709_251_199), Day::from_number(8825));
    assert_eq!(rt; utc_day(4_102_444_799), Day::from_number(36_524));
    assert!(rt; utc_day(4_102_444_800).is_none());
    let mut clock = StdClock::new(rt);
    assert!(rt; asked(&mut clock).is_some());
}

use self::As::{Number, Time};
use cf_values::{Bad, flags, number, time};
use mail_base::{NoMemory, Text};
use std::alloc::Global;

/// What a text is read as: a time, with the letter of the unit of a number without one; or a
/// number, with the most that it may be.
#[derive(Clone, Copy)]
enum As {
    Time(u8),
    Number(u64),
}

/// A text, what it is read as, and what it is.
type Row = (&'static [u8], As, Result<u64, Bad>);

static ROWS: [Row; 59] = [
    (b"2w", Time(b's'), Ok(1_209_600)),
    (b"5d", Time(b's'), Ok(432_000)),
    (b"4h", Time(b's'), Ok(14_400)),
    (b"30m", Time(b's'), Ok(1_800)),
    (b"45s", Time(b'd'), Ok(45)),
    (b"1h30m", Time(b'd'), Ok(5_400)),
    (b"1s2m3h4d5w", Time(b'd'), Ok(3_380_521)),
    (b"30m1h30m", Time(b'd'), Ok(7_200)),
    (b"007d", Time(b's'), Ok(604_800)),
    (b"0", Time(b'm'), Ok(0)),
    (b"3", Time(b'w'), Ok(1_814_400)),
    (b"5", Time(b'd'), Ok(432_000)),
    (b"4", Time(b'h'), Ok(14_400)),
    (b"5d6", Time(b'm'), Ok(432_360)),
    (b"7", Time(b's'), Ok(7)),
    (b"1h30", Time(b'h'), Ok(111_600)),
    (b"1", Time(b'w'), Ok(604_800)),
    (b"1", Time(b'd'), Ok(86_400)),
    (b"1", Time(b'h'), Ok(3_600)),
    (b"1", Time(b'm'), Ok(60)),
    (b"1", Time(b's'), Ok(1)),
    // Refused at the first byte out of form.
    (b"", Time(b'd'), Err(Bad { place: 0 })),
    (b"d", Time(b'd'), Err(Bad { place: 0 })),
    (b"x", Time(b'd'), Err(Bad { place: 0 })),
    (b" 5d", Time(b'd'), Err(Bad { place: 0 })),
    (b"-5d", Time(b'd'), Err(Bad { place: 0 })),
    (b"5x", Time(b'd'), Err(Bad { place: 1 })),
    (b"5D", Time(b'd'), Err(Bad { place: 1 })),
    (b"5W", Time(b'd'), Err(Bad { place: 1 })),
    (b"1x2y", Time(b'd'), Err(Bad { place: 1 })),
    (b"5dd", Time(b'd'), Err(Bad { place: 2 })),
    (b"1h 30m", Time(b'd'), Err(Bad { place: 2 })),
    (b"1h30m\n", Time(b'd'), Err(Bad { place: 5 })),
    (
        b"99999999999999999999999999999999x",
        Time(b'd'),
        Err(Bad { place: 32 }),
    ),
    // More than 2 to the 60 seconds are refused at their end.
    (b"1152921504606846976s", Time(b'd'), Ok(1 << 60)),
    (b"1152921504606846977s", Time(b'd'), Err(Bad { place: 20 })),
    (b"1152921504606846976", Time(b's'), Ok(1 << 60)),
    (b"1152921504606846977", Time(b's'), Err(Bad { place: 19 })),
    (b"1906285556558w", Time(b'd'), Ok(1_152_921_504_606_278_400)),
    (b"1906285556559w", Time(b'd'), Err(Bad { place: 14 })),
    (
        b"1152921504606846970s6",
        Time(b's'),
        Ok(1_152_921_504_606_846_976),
    ),
    (b"1152921504606846970s7", Time(b's'), Err(Bad { place: 21 })),
    (
        b"999999999999999999999999999999w1s",
        Time(b'd'),
        Err(Bad { place: 33 }),
    ),
    (
        b"999999999999999999999999999999",
        Time(b's'),
        Err(Bad { place: 30 }),
    ),
    (b"0", Number(999_999_999), Ok(0)),
    (b"25", Number(999_999_999), Ok(25)),
    (b"999999999", Number(999_999_999), Ok(999_999_999)),
    (b"1000000000", Number(999_999_999), Err(Bad { place: 10 })),
    (
        b"000000000000000000000000000025",
        Number(999_999_999),
        Ok(25),
    ),
    (
        b"999999999999999999999999999999",
        Number(999_999_999),
        Err(Bad { place: 30 }),
    ),
    (b"18446744073709551615", Number(u64::MAX), Ok(u64::MAX)),
    (
        b"18446744073709551616",
        Number(u64::MAX),
        Err(Bad { place: 20 }),
    ),
    (b"1", Number(0), Err(Bad { place: 1 })),
    (b"", Number(999_999_999), Err(Bad { place: 0 })),
    (b"x1", Number(999_999_999), Err(Bad { place: 0 })),
    (b"-1", Number(999_999_999), Err(Bad { place: 0 })),
    (b"1 2", Number(999_999_999), Err(Bad { place: 1 })),
    (b"12x", Number(999_999_999), Err(Bad { place: 2 })),
    (b"1000000000x", Number(999_999_999), Err(Bad { place: 10 })),
];

// The time of a text, by one of the five letters.
fn in_unit(text: &Text, unit: u8) -> Result<u64, Bad> {
    match unit {
        b'w' => time(text, b'w'),
        b'd' => time(text, b'd'),
        b'h' => time(text, b'h'),
        b'm' => time(text, b'm'),
        _ => time(text, b's'),
    }
}

fn is_read(alloc: Global, row: &Row) -> Result<bool, NoMemory> {
    let text = Text::of(alloc, row.0)?;
    match row.1 {
        Time(unit) => Ok(in_unit(&text, unit) == row.2),
        Number(most) => Ok(number(&text, most) == row.2),
    }
}

#[test]
fn times_add_up_and_numbers_up_to_the_most_are_read(rt: HostRuntime) -> Result<(), NoMemory> {
    for (at, row) in ROWS.iter().enumerate() {
        assert!(rt; is_read(rt.alloc(), row)?, "row {at}");
    }
    Ok(())
}

/// A text, and what is kept of it.
static FLAGS: [(&[u8], &[u8]); 4] = [
    (b"", b""),
    (b" \t\r\n\x00\x1f\x7f", b""),
    (b" l s\tDFMP m\n", b"lsDFMPm"),
    (b"5\xff!a5", b"5\xff!a5"),
];

fn are_kept(alloc: Global, bytes: &[u8], kept: &[u8]) -> Result<bool, NoMemory> {
    let text = Text::of(alloc, bytes)?;
    Ok(flags(alloc, &text)?.bytes() == kept)
}

#[test]
fn flags_lose_their_white_space(rt: HostRuntime) -> Result<(), NoMemory> {
    for (at, row) in FLAGS.iter().enumerate() {
        assert!(rt; are_kept(rt.alloc(), row.0, row.1)?, "row {at}");
    }
    Ok(())
}

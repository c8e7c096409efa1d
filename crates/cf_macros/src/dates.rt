ghost use Rattle.std.specs.Prelude.{◌≡◌, ◌++◌, ◌+◌, ◌*◌, ◌<◌, ◌≤◌, take, drop, length, OnOk, IfOk};
ghost use Rattle.cf_macros.specs.declared.form.Form.TheVariants.{Mail, Unix, Short};
ghost use Rattle.cf_macros.specs.Dates.{two, four, padded, weekday_name, month_name, clock, shown, IsMoment, IsDateText};

use crate::form::{Civil, Form};
use jiff::Timestamp;
use jiff::tz::Offset;
use mail_base::{NoMemory, Text};
use std::alloc::Global;

/// The beginning of the year 3000.
const LAST_MOMENT: u64 = 32_503_680_000;

fn push_two(text: &mut Text, number: u8) -> Result<(), NoMemory>
    requires { number < 100 }
    ensures { OnOk result (text.new ≡ text.old ++ two number) }
{
    text.extend(&[b'0' + number / 10, b'0' + number % 10])?;
    Ok(())
}

#[tactic(auto, using(crate::proofs::DateLemmas::grouped))]
fn push_four(text: &mut Text, number: u16) -> Result<(), NoMemory>
    ensures { OnOk result (text.new ≡ text.old ++ four number) }
{
    push_two(text, (number / 100 % 100) as u8)?;
    push_two(text, (number % 100) as u8)?;
    Ok(())
}

fn push_padded(text: &mut Text, pad: &[u8], number: u8) -> Result<(), NoMemory>
    requires { number < 100 }
    ensures { OnOk result (text.new ≡ text.old ++ padded pad.now number) }
{
    if number < 10 {
        text.extend(pad)?;
        text.push(b'0' + number)?;
        return Ok(());
    }
    push_two(text, number)
}

// One of names of three letters, from 0.
fn name_at(names: &[u8], number: usize) -> &[u8]
    requires { 3 * number + 3 ≤ length names.now }
    ensures { result.now ≡ take 3 (drop (3 * number) names.now) }
{
    let rest = &names[3 * number..];
    &rest[..3]
}

fn push_weekday(text: &mut Text, weekday: u8) -> Result<(), NoMemory>
    requires { weekday ≤ 6 }
    ensures { OnOk result (text.new ≡ text.old ++ weekday_name weekday) }
{
    let names = b"MonTueWedThuFriSatSun".as_slice();
    text.extend(name_at(names, weekday as usize))
}

fn push_month(text: &mut Text, month: u8) -> Result<(), NoMemory>
    requires from { 1 ≤ month }
    requires within { month ≤ 12 }
    ensures { OnOk result (text.new ≡ text.old ++ month_name month) }
{
    let names = b"JanFebMarAprMayJunJulAugSepOctNovDec".as_slice();
    text.extend(name_at(names, month as usize - 1))
}

#[tactic(auto, using(crate::proofs::DateLemmas::grouped))]
fn push_clock(text: &mut Text, civil: Civil) -> Result<(), NoMemory>
    ensures { OnOk result (text.new ≡ text.old ++ clock civil) }
{
    push_two(text, civil.hour)?;
    text.push(b':')?;
    push_two(text, civil.minute)?;
    text.push(b':')?;
    push_two(text, civil.second)?;
    Ok(())
}

#[tactic(auto, using(crate::proofs::DateLemmas::grouped))]
fn push_mail(text: &mut Text, civil: Civil) -> Result<(), NoMemory>
    ensures { OnOk result (text.new ≡ text.old ++ shown Mail civil) }
{
    push_weekday(text, civil.weekday)?;
    text.extend(b", ")?;
    push_padded(text, b"", civil.day)?;
    text.push(b' ')?;
    push_month(text, civil.month)?;
    text.push(b' ')?;
    push_four(text, civil.year)?;
    text.push(b' ')?;
    push_clock(text, civil)?;
    text.extend(b" +0000")?;
    Ok(())
}

#[tactic(auto, using(crate::proofs::DateLemmas::grouped))]
fn push_unix(text: &mut Text, civil: Civil) -> Result<(), NoMemory>
    ensures { OnOk result (text.new ≡ text.old ++ shown Unix civil) }
{
    push_weekday(text, civil.weekday)?;
    text.push(b' ')?;
    push_month(text, civil.month)?;
    text.push(b' ')?;
    push_padded(text, b" ", civil.day)?;
    text.push(b' ')?;
    push_clock(text, civil)?;
    text.push(b' ')?;
    push_four(text, civil.year)?;
    Ok(())
}

#[tactic(auto, using(crate::proofs::DateLemmas::grouped))]
fn push_short(text: &mut Text, civil: Civil) -> Result<(), NoMemory>
    ensures { OnOk result (text.new ≡ text.old ++ shown Short civil) }
{
    push_four(text, civil.year)?;
    push_two(text, civil.month)?;
    push_two(text, civil.day)?;
    push_two(text, civil.hour)?;
    push_two(text, civil.minute)?;
    Ok(())
}

fn push_date(text: &mut Text, civil: Civil, form: Form) -> Result<(), NoMemory>
    ensures { OnOk result (text.new ≡ text.old ++ shown form civil) }
{
    match form {
        Form::Mail => push_mail(text, civil),
        Form::Unix => push_unix(text, civil),
        Form::Short => push_short(text, civil),
    }
}

// The date and the clock in UTC, so many seconds behind the beginning of 1970.
fn civil_of(seconds: u64) -> Civil
    requires { seconds ≤ 32_503_680_000 }
    ensures { IsMoment seconds result }
{
    let Ok(moment) = Timestamp::from_second(seconds as i64) else {
        unreachable!()
    };
    let time = Offset::UTC.to_datetime(moment);
    Civil {
        year: time.year().unsigned_abs(),
        month: time.month().unsigned_abs(),
        day: time.day().unsigned_abs(),
        weekday: time.weekday().to_monday_zero_offset().unsigned_abs(),
        hour: time.hour().unsigned_abs(),
        minute: time.minute().unsigned_abs(),
        second: time.second().unsigned_abs(),
    }
}

/// The date of a moment in UTC, a count of seconds from the beginning of 1970, as the macro b, d or
/// t has it. A moment above 32,503,680,000, the beginning of the year 3000, counts as that (RFC
/// 5322, section 3.3; Sendmail Installation and Operation Guide, macros).
pub fn date(alloc: Global, moment: u64, form: Form) -> Result<Text, NoMemory>
    ensures { IfOk result (IsDateText form moment) }
{
    let civil = civil_of(moment.min(LAST_MOMENT));
    let mut text = Text::new(alloc);
    push_date(&mut text, civil, form)?;
    Ok(text)
}

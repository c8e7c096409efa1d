ghost use Rattle.std.specs.Prelude.{◌≤◌, ◌<◌};

/// The form of a date, each that of one macro.
#[derive(Clone, Copy)]
pub enum Form {
    /// Of the macro b: `Thu, 1 Jan 2026 00:00:00 +0000`.
    Mail,
    /// Of the macro d: `Thu Jan  1 00:00:00 2026`.
    Unix,
    /// Of the macro t: `202601010000`.
    Short,
}

/// The parts of a date and a clock.
#[derive(Clone, Copy)]
pub(crate) struct Civil {
    pub(crate) year: u16,
    pub(crate) month: u8,
    pub(crate) day: u8,
    /// From 0 for Monday.
    pub(crate) weekday: u8,
    pub(crate) hour: u8,
    pub(crate) minute: u8,
    pub(crate) second: u8,
    ghost month_in: { month ≤ 12 },
    ghost month_from: { 1 ≤ month },
    ghost day_in: { day < 100 },
    ghost weekday_in: { weekday ≤ 6 },
    ghost hour_in: { hour < 100 },
    ghost minute_in: { minute < 100 },
    ghost second_in: { second < 100 },
}

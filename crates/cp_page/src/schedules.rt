//! Which schedules are told, as a type.

/// Schedules of some length.
pub trait Schedules {
    ghost use Rattle.std.specs.Prelude.{Bool};

    ghost IS_SILENT: { Bool };

    /// Whether what a step displays is taken away after it, so that there is room for ever.
    const IS_SILENT: bool;
}

/// Those of up to K choices.
#[derive(Drop)]
pub struct LimitedSchedules {}

impl Schedules for LimitedSchedules {
    ghost use Rattle.std.specs.Prelude.{false};

    ghost IS_SILENT = { false };

    const IS_SILENT: bool = false;
}

/// Those of any length.
#[derive(Drop)]
pub struct EndlessSchedules {}

impl Schedules for EndlessSchedules {
    ghost use Rattle.std.specs.Prelude.{true};

    ghost IS_SILENT = { true };

    const IS_SILENT: bool = true;
}

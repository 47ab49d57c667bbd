//! The minutes from tick to tick.
ghost use Rattle.std.specs.Prelude.{◌≡◌};
ghost use Rattle.picture_page.specs.Steps.{steps, first_step, round_down, round_up};

/// The least distance of two ticks, in pixels.
const TICK: u64 = 54;

/// The steps from tick to tick, in minutes.
const STEPS: [u64; 37] = [
    1,
    2,
    5,
    10,
    15,
    20,
    30,
    60,
    120,
    180,
    240,
    360,
    720,
    1440,
    2880,
    7200,
    14_400,
    28_800,
    72_000,
    144_000,
    288_000,
    720_000,
    1_440_000,
    2_880_000,
    7_200_000,
    14_400_000,
    28_800_000,
    72_000_000,
    144_000_000,
    288_000_000,
    720_000_000,
    1_440_000_000,
    2_880_000_000,
    7_200_000_000,
    14_400_000_000,
    28_800_000_000,
    72_000_000_000,
];

/// The first of these steps at which ticks are far enough from each other, where so many minutes
/// have so many pixels; else all minutes.
fn first_step(steps: &[u64], total: u64, room: u64) -> u64
    ensures { result ≡ first_step steps.now total room }
{
    match steps {
        [] => total.max(1),
        [step, rest @ ..] => {
            if TICK.saturating_mul(total) <= step.saturating_mul(room) {
                *step
            } else {
                first_step(rest, total, room)
            }
        }
    }
}

/// The step where so many minutes have so many pixels.
pub(crate) fn step_for(total: u64, room: u64) -> u64
    ensures { result ≡ first_step steps total room }
{
    first_step(&STEPS, total, room)
}

/// A minute rounded down to a multiple of the step, counted from so many minutes before minute 0.
pub(crate) fn round_down(offset: u64, step: u64, minute: u64) -> u64
    ensures { result ≡ round_down offset step minute }
{
    let time = minute.saturating_add(offset);
    (time - time % step.max(1)).saturating_sub(offset)
}

/// A minute rounded up to a multiple of the step, counted from so many minutes before minute 0.
pub(crate) fn round_up(offset: u64, step: u64, minute: u64) -> u64
    ensures { result ≡ round_up offset step minute }
{
    let step = step.max(1);
    let time = minute.saturating_add(offset);
    time.saturating_add((step - time % step) % step)
        .saturating_sub(offset)
}

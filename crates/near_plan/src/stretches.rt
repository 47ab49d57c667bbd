//! Stretches of a draft, taken out and put in again.
ghost use Rattle.std.specs.Prelude.{◌≡◌, ◌≤◌, ◌<◌, length, All};
ghost use Rattle.near_plan.specs.Rows.{IsDraft};

use crate::draft::Draft;
use crate::fitting::Fitting;
use crate::putting::{Trial, put};
use lock_model::{Instance, Line};
use master_branch::arrival_order;
use no_memory::NoMemory;
use std::alloc::Global;

// How many ships a stretch of the order of arrival has, and by how many the next one begins later.
const STRETCH: usize = 6;

const STRIDE: usize = 3;

/// What is used again and again: trials, and the lines of all chambers as they were.
#[derive(Drop)]
pub(crate) struct Spare {
    pub(crate) trials: Vec<Trial>,
    lines: Vec<Line>,
}

impl Spare {
    /// Nothing is kept.
    pub(crate) fn new(alloc: Global) -> Spare {
        Spare {
            trials: Vec::new(alloc),
            lines: Vec::new(alloc),
        }
    }
}

// Keeps the lines of all chambers.
fn keep_lines(instance: &Instance, draft: &Draft, lines: &mut Vec<Line>) -> Result<(), NoMemory> {
    lines.clear();
    for chamber in 0..instance.chambers.as_slice().len() as u8 {
        if lines.push(draft.row(chamber).line().copy()).is_err() {
            return Err(NoMemory);
        }
    }
    Ok(())
}

// Puts the lines back that were kept, that of the last chamber first.
fn put_back(instance: &Instance, draft: &mut Draft, lines: &mut Vec<Line>)
    requires { IsDraft instance.now draft.old }
    ensures { IsDraft instance.now draft.new }
{
    for chamber in (0..instance.chambers.as_slice().len() as u8).rev() {
        if let Some(line) = lines.pop() {
            draft.set_line(instance, chamber, line);
        }
    }
}

// Takes ships out.
fn take_out_all(instance: &Instance, draft: &mut Draft, ships: &[u8])
    requires { IsDraft instance.now draft.old }
    ensures { IsDraft instance.now draft.new }
{
    for &ship in ships {
        if let Some(at) = draft.find(instance, ship) {
            draft.take_out(instance, ship, at);
        }
    }
}

// Puts ships in, the last one first, as long as the flow times stay below so many minutes; whether all were put.
fn put_all<F: Fitting>(
    instance: &Instance,
    draft: &mut Draft,
    ships: &[u8],
    below: u64,
    trials: &mut Vec<Trial>,
    fitting: &mut F,
) -> Result<bool, NoMemory>
    requires ships_in { All (λ s. s < length instance.now.ships) ships.now }
    requires draft { IsDraft instance.now draft.old }
    requires same { F.instance fitting.old ≡ instance.now }
    ensures draft { IsDraft instance.now draft.new }
    ensures same { F.instance fitting.new ≡ instance.now }
{
    for place in (0..ships.len()).rev() {
        if !put(instance, draft, ships[place], below, trials, fitting)? {
            return Ok(false);
        }
    }
    Ok(true)
}

// Takes ships out and puts them in again, where that gains; else the draft is as it was.
fn better_for<F: Fitting>(
    instance: &Instance,
    draft: &mut Draft,
    ships: &[u8],
    spare: &mut Spare,
    fitting: &mut F,
) -> Result<bool, NoMemory>
    requires ships_in { All (λ s. s < length instance.now.ships) ships.now }
    requires draft { IsDraft instance.now draft.old }
    requires same { F.instance fitting.old ≡ instance.now }
    ensures draft { IsDraft instance.now draft.new }
    ensures same { F.instance fitting.new ≡ instance.now }
{
    let now = draft.flow();
    keep_lines(instance, draft, &mut spare.lines)?;
    take_out_all(instance, draft, ships);
    let gained = put_all(instance, draft, ships, now, &mut spare.trials, fitting)?;
    if !gained {
        put_back(instance, draft, &mut spare.lines);
    }
    Ok(gained)
}

/// Takes each stretch of the order of arrival out and puts its ships in again, the last one first, where that
/// gains; whether one gained. So ships change places that can't one by one.
#[inline(never)]
pub(crate) fn better_stretches<F: Fitting>(
    instance: &Instance,
    draft: &mut Draft,
    spare: &mut Spare,
    fitting: &mut F,
) -> Result<bool, NoMemory>
    requires draft { IsDraft instance.now draft.old }
    requires same { F.instance fitting.old ≡ instance.now }
    ensures draft { IsDraft instance.now draft.new }
    ensures same { F.instance fitting.new ≡ instance.now }
{
    let order = arrival_order(instance);
    let ships = order.as_slice();
    let mut gained = false;
    for from in 0..ships.len() {
        if from % STRIDE == 0 {
            let to = ships.len().min(from + STRETCH);
            gained |= better_for(instance, draft, &ships[from..to], spare, fitting)?;
        }
    }
    Ok(gained)
}

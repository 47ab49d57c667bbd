//! The first line of a report: what was shown of the plan.
ghost use Rattle.std.specs.Prelude.{◌≡◌, ◌<◌, [], ◌∷◌, ◌++◌, length, All, OnOk, decimal, codes};
ghost use Rattle.std.specs.List.{flat_map};
ghost use Rattle.lock_model.specs.Fleet.{chamber_at, ship_at};
ghost use Rattle.lock_model.specs.declared.verdict.Verdict.TheVariants.{OpenTurns};
ghost use Rattle.lock_rules.specs.Plan.{IsLegal};
ghost use Rattle.plan_print.specs.Report.{IsOfInstance, verdict_text, verdict_line};

use crate::text::{put_named, put_word};
use chamber_times::cost;
use lock_model::{Instance, Plan, Ships, Verdict};
use no_memory::NoMemory;
use plain_text::put;

/// Appends the names of ships, each after a space.
fn put_names(out: &mut Vec<u8>, instance: &Instance, ships: &Ships) -> Result<(), NoMemory>
    requires { All (λ s. s < length instance.now.ships) ships.now }
    ensures { OnOk result (out.new.items ≡ out.old.items ++ flat_map (λ s. 32 ∷ (ship_at instance.now s).name) ships.now) }
{
    for &ship in ships.as_slice() {
        put_word(
            out,
            instance.ships.as_slice()[ship as usize].name.as_slice(),
        )?;
    }
    Ok(())
}

/// Appends how many turns were spent, and in which chamber.
fn put_turns(
    out: &mut Vec<u8>,
    instance: &Instance,
    chamber: u8,
    turns: u32,
) -> Result<(), NoMemory>
    requires { chamber < length instance.now.chambers }
    ensures { OnOk result (out.new.items ≡ out.old.items ++ (codes "open turns " ++ decimal turns ++ codes " chamber " ++ (chamber_at instance.now chamber).name)) }
{
    put_named(out, b"open turns ", turns as u64)?;
    put(out, b" chamber ")?;
    put(
        out,
        instance.chambers.as_slice()[chamber as usize]
            .name
            .as_slice(),
    )
}

/// Appends that the turns of the placers were spent on these ships in this chamber.
fn put_open_turns(
    out: &mut Vec<u8>,
    instance: &Instance,
    chamber: u8,
    ships: &Ships,
    turns: u32,
    low: u64,
) -> Result<(), NoMemory>
    requires chamber_in { chamber < length instance.now.chambers }
    requires ships_in { All (λ s. s < length instance.now.ships) ships.now }
    ensures { OnOk result (out.new.items ≡ out.old.items ++ verdict_text instance.now (OpenTurns chamber ships.now turns low)) }
{
    put_turns(out, instance, chamber, turns)?;
    put(out, b" ships")?;
    put_names(out, instance, ships)?;
    put_named(out, b" low ", low)
}

/// Appends that the budget of nodes was spent.
fn put_open_nodes(out: &mut Vec<u8>, used: u32, low: u64) -> Result<(), NoMemory>
    ensures { OnOk result (out.new.items ≡ out.old.items ++ (codes "open nodes " ++ decimal used ++ codes " low " ++ decimal low)) }
{
    put_named(out, b"open nodes ", used as u64)?;
    put_named(out, b" low ", low)
}

/// Appends what was shown of the plan, without its cost.
fn put_verdict(out: &mut Vec<u8>, instance: &Instance, verdict: &Verdict) -> Result<(), NoMemory>
    requires { IsOfInstance instance.now verdict.now }
    ensures { OnOk result (out.new.items ≡ out.old.items ++ verdict_text instance.now verdict.now) }
{
    match verdict {
        Verdict::Optimal => put(out, b"optimal"),
        Verdict::OpenNodes { used, low } => put_open_nodes(out, *used, *low),
        Verdict::OpenTurns {
            chamber,
            ships,
            turns,
            low,
        } => put_open_turns(out, instance, *chamber, ships, *turns, *low),
    }
}

/// Appends the first line of a report.
#[tactic(auto, unfolding(crate::specs::Report::verdict_line), using(lock_rules::proofs::LegalLemmas::of_legal_plans))]
pub(crate) fn put_verdict_line(
    out: &mut Vec<u8>,
    instance: &Instance,
    plan: &Plan,
    verdict: &Verdict,
) -> Result<(), NoMemory>
    requires legal { IsLegal instance.now plan.now }
    requires known { IsOfInstance instance.now verdict.now }
    ensures { OnOk result (out.new.items ≡ out.old.items ++ verdict_line instance.now plan.now verdict.now) }
{
    put_verdict(out, instance, verdict)?;
    put_named(out, b" cost ", cost(instance, plan))?;
    put(out, b"\n")
}

//! The options of each command.
ghost use Rattle.std.specs.Prelude.{◌≡◌, IfSome};
ghost use Rattle.command_words.specs.Given.{Given};
ghost use Rattle.command_words.specs.Meaning.{GivesSolve, GivesLot, GivesTrial, GivesRest, GivesReplan};
ghost use Rattle.command_words.specs.Parser.{Finds};
ghost use Rattle.command_words.specs.declared.commands.SolveOptions.{SolveOptions as AnySolve};
ghost use Rattle.command_words.specs.declared.commands.LotOptions.{LotOptions as AnyLot};
ghost use Rattle.command_words.specs.declared.commands.TrialOptions.{TrialOptions as AnyTrial};
ghost use Rattle.command_words.specs.declared.commands.DayRest.{DayRest as AnyRest};
ghost use Rattle.command_words.specs.declared.commands.ReplanOptions.{ReplanOptions as AnyReplan};

use crate::arguments::Argument;
use crate::commands::{DayRest, LotOptions, ReplanOptions, SolveOptions, TrialOptions};
use crate::numbers::{number_of, small_number_of};
use crate::parser::{has_flag, text_of};
use clap::ArgMatches;

/// The options of `solve` and `resume`, if their numbers are in their ranges.
pub fn solve_options(matches: &ArgMatches<'_>) -> Option<SolveOptions>
    ensures some { (given : Given) → Finds matches.now given → IfSome result (λ o. GivesSolve o given) }
    ensures each { (given : Given) (o : AnySolve) → Finds matches.now given → GivesSolve o given
        → result ≡ Some o }
{
    let nodes = number_of(matches, Argument::Nodes)?;
    let turns = number_of(matches, Argument::Turns)?;
    let workers = small_number_of(matches, Argument::Workers)?;
    Some(SolveOptions {
        nodes,
        turns,
        workers,
        dossier: has_flag(matches, Argument::Dossier),
        keep: has_flag(matches, Argument::Keep),
    })
}

/// The options of `lot`, if their numbers are in their ranges.
pub fn lot_options(matches: &ArgMatches<'_>) -> Option<LotOptions>
    ensures some { (given : Given) → Finds matches.now given → IfSome result (λ o. GivesLot o given) }
    ensures each { (given : Given) (o : AnyLot) → Finds matches.now given → GivesLot o given → result ≡ Some o }
{
    let number = number_of(matches, Argument::Number)?;
    let ships = small_number_of(matches, Argument::Ships)?;
    let chambers = small_number_of(matches, Argument::Chambers)?;
    Some(LotOptions {
        number,
        ships,
        chambers,
    })
}

/// The options of `trial`, if their numbers are in their ranges.
pub fn trial_options(matches: &ArgMatches<'_>) -> Option<TrialOptions>
    ensures some { (given : Given) → Finds matches.now given → IfSome result (λ o. GivesTrial o given) }
    ensures each { (given : Given) (o : AnyTrial) → Finds matches.now given → GivesTrial o given
        → result ≡ Some o }
{
    let lot = lot_options(matches)?;
    let nodes = number_of(matches, Argument::Nodes)?;
    let turns = number_of(matches, Argument::Turns)?;
    Some(TrialOptions { lot, nodes, turns })
}

// The rest that is planned anew, if its minute is in its range.
fn day_rest(matches: &ArgMatches<'_>) -> Option<DayRest>
    ensures some { (given : Given) → Finds matches.now given → IfSome result (λ r. GivesRest r given) }
    ensures each { (given : Given) (r : AnyRest) → Finds matches.now given → GivesRest r given → result ≡ Some r }
{
    match text_of(matches, Argument::Now) {
        Some(_) => Some(DayRest::Lived(number_of(matches, Argument::Now)?)),
        None => Some(DayRest::Known(number_of(matches, Argument::From)?)),
    }
}

/// The options of `replan`, if their numbers are in their ranges.
pub fn replan_options(matches: &ArgMatches<'_>) -> Option<ReplanOptions>
    ensures some { (given : Given) → Finds matches.now given → IfSome result (λ o. GivesReplan o given) }
    ensures each { (given : Given) (o : AnyReplan) → Finds matches.now given → GivesReplan o given
        → result ≡ Some o }
{
    let rest = day_rest(matches)?;
    let nodes = number_of(matches, Argument::Nodes)?;
    let turns = number_of(matches, Argument::Turns)?;
    let workers = small_number_of(matches, Argument::Workers)?;
    Some(ReplanOptions {
        rest,
        nodes,
        turns,
        workers,
        dossier: has_flag(matches, Argument::Dossier),
    })
}

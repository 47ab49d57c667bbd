//! Marks as numbers.
ghost use Rattle.std.specs.Prelude.{◌≡◌, ◌≤◌, ◌++◌, ◌∷◌, [], None, map, OnOk};
ghost use Rattle.certificate_rules.specs.WellFormed.{IsFormedGround, IsFormedMark, numbering_of, probed_ships};
ghost use Rattle.serde_json.specs.View.{view};
ghost use Rattle.cert_text.specs.Fields.{number_data};
ghost use Rattle.cert_text.specs.Marks.{first_cut_mark, first_number, has_mark, is_in_form, ground_numbers, mark_numbers, open_leaf, naming_mark, mark_of};
ghost use Rattle.cert_text.specs.Marks.{begins, begun_by, naming_prices, second_in, mark_in, is_later};

use crate::heading::{Form, Version};
use crate::value::{number_below, push_number};
use certificate_parts::{Ground, Mark};
use certificate_rules::Numbering;
use lock_model::{FEW_SHIPS, Instance, SHIPS};
use serde_json::Value;
use std::alloc::AllocError;

/// A mark that names prices. It is two numbers, of which the second is that of the prices.
#[derive(Clone, Copy)]
pub enum PriceMark {
    /// The node reaches the cost by the prices; from the third version on.
    Reached,
    /// The cost is swept, which goes well by the prices; from the fourth version on.
    Swept,
    /// An open leaf: the prices show what a plan under its node costs at the least; in open
    /// certificates from the fourth version on.
    Shown,
}

/// What a number of a tree says.
#[derive(Clone, Copy)]
pub enum Told {
    /// It is the last of this mark.
    Ended(Mark),
    /// It is the first of such a mark.
    Begun(PriceMark),
}

/// How the marks of an instance's trees are numbered.
#[tactic(auto, unfolding(certificate_rules::specs::WellFormed::numbering_of))]
pub fn numbering_of(instance: &Instance) -> Numbering
    ensures { result ≡ numbering_of instance.now.ships }
{
    if instance.is_large() {
        Numbering::Many
    } else {
        Numbering::Few
    }
}

/// The ships that a mark may name, from the first on.
fn probed_ships(numbering: Numbering) -> u64
    ensures value { result ≡ probed_ships numbering }
    ensures fits { result ≤ SHIPS }
{
    match numbering {
        Numbering::Few => FEW_SHIPS as u64,
        Numbering::Many => SHIPS as u64,
    }
}

/// The number of the first cut, above those of all probes.
fn first_cut_mark(numbering: Numbering) -> u64
    ensures value { result ≡ first_cut_mark numbering }
    ensures fits { result ≤ 1000 }
{
    match numbering {
        Numbering::Few => 100,
        Numbering::Many => 1000,
    }
}

/// The first of the two numbers of a mark that names prices.
fn first_number(kind: PriceMark) -> u64
    ensures { result ≡ first_number kind }
{
    match kind {
        PriceMark::Reached => 4,
        PriceMark::Swept => 5,
        PriceMark::Shown => 6,
    }
}

/// Whether a version has marks of this kind.
fn has_mark(version: Version, kind: PriceMark) -> bool
    ensures { result ≡ has_mark version kind }
{
    match (version, kind) {
        (Version::First | Version::Second, _) => false,
        (Version::Third, PriceMark::Reached) => true,
        (Version::Third, PriceMark::Swept | PriceMark::Shown) => false,
        (Version::Fourth, _) => true,
    }
}

/// Whether marks of this kind are in certificates of this form.
fn is_in_form(kind: PriceMark, form: Form) -> bool
    ensures { result ≡ is_in_form kind form }
{
    match (kind, form) {
        (PriceMark::Reached | PriceMark::Swept, _) => true,
        (PriceMark::Shown, Form::Whole) => false,
        (PriceMark::Shown, Form::Open) => true,
    }
}

/// Appends the two numbers of a mark that names prices.
fn push_pair(list: &mut Vec<Value>, kind: PriceMark, number: u64) -> Result<(), AllocError>
    ensures { OnOk result (map view list.new.items ≡ map view list.old.items ++ map number_data (first_number kind ∷ number ∷ [])) }
{
    push_number(list, first_number(kind))?;
    push_number(list, number)
}

/// Appends the number of a ground, or its two numbers.
fn push_ground(list: &mut Vec<Value>, numbering: Numbering, why: Ground) -> Result<(), AllocError>
    requires { IsFormedGround numbering why }
    ensures { OnOk result (map view list.new.items ≡ map view list.old.items ++ map number_data (ground_numbers numbering why)) }
{
    match why {
        Ground::Bound => push_number(list, 1),
        Ground::Throughput => push_number(list, 2),
        Ground::Probe(ship) => push_number(list, 10 + u64::from(ship)),
        Ground::Cut(number) => push_number(list, first_cut_mark(numbering) + number),
        Ground::Price(number) => push_pair(list, PriceMark::Reached, number),
        Ground::Swept(number) => push_pair(list, PriceMark::Swept, number),
    }
}

/// An open leaf that names no prices, where an open certificate has it.
fn open_leaf(form: Form) -> Option<Mark>
    ensures { result ≡ open_leaf form }
{
    match form {
        Form::Whole => None,
        Form::Open => Some(Mark::Open),
    }
}

/// The mark of a probe or a cut.
#[tactic(auto, unfolding(crate::specs::Marks::naming_mark))]
fn naming_mark(numbering: Numbering, number: u64) -> Option<Mark>
    ensures { result ≡ naming_mark numbering number }
{
    let probed = probed_ships(numbering);
    let cut = first_cut_mark(numbering);
    if 10 <= number && number <= 9 + probed {
        Some(Mark::Leaf(Ground::Probe((number - 10) as u8)))
    } else if cut <= number && number <= 9_223_372_036_854_775_807 + cut {
        Some(Mark::Leaf(Ground::Cut(number - cut)))
    } else {
        None
    }
}

/// The mark that is one number, in a certificate of this form.
#[tactic(auto, unfolding(crate::specs::Marks::mark_of))]
fn mark_of(form: Form, numbering: Numbering, number: u64) -> Option<Mark>
    ensures { result ≡ mark_of form numbering number }
{
    match number {
        0 => Some(Mark::Split),
        1 => Some(Mark::Leaf(Ground::Bound)),
        2 => Some(Mark::Leaf(Ground::Throughput)),
        3 => open_leaf(form),
        _ => naming_mark(numbering, number),
    }
}

/// Whether a number begins a mark of this kind in certificates of this form and version.
fn begins(form: Form, version: Version, kind: PriceMark, number: u64) -> bool
    ensures { result ≡ begins form version kind number }
{
    number == first_number(kind) && (has_mark(version, kind) && is_in_form(kind, form))
}

/// Which mark of two numbers a number begins in certificates of this form and version.
fn begun_by(form: Form, version: Version, number: u64) -> Option<PriceMark>
    ensures { result ≡ begun_by form version number }
{
    if begins(form, version, PriceMark::Reached, number) {
        Some(PriceMark::Reached)
    } else if begins(form, version, PriceMark::Swept, number) {
        Some(PriceMark::Swept)
    } else if begins(form, version, PriceMark::Shown, number) {
        Some(PriceMark::Shown)
    } else {
        None
    }
}

/// The mark of such a kind that names the prices of a number.
fn naming_prices(kind: PriceMark, number: u64) -> Mark
    ensures { result ≡ naming_prices kind number }
{
    match kind {
        PriceMark::Reached => Mark::Leaf(Ground::Price(number)),
        PriceMark::Swept => Mark::Leaf(Ground::Swept(number)),
        PriceMark::Shown => Mark::OpenPriced(number),
    }
}

/// The mark of the second number of two.
fn second_in(kind: PriceMark, value: &Value) -> Option<Mark>
    ensures { result ≡ second_in kind (view value.now) }
{
    let number = number_below(value, 9_223_372_036_854_775_808)?;
    Some(naming_prices(kind, number))
}

/// What a number says that isn't the second of two.
#[tactic(auto, unfolding(crate::specs::Marks::mark_in))]
fn first_in(form: Form, numbering: Numbering, version: Version, value: &Value) -> Option<Told>
    ensures { result ≡ mark_in form numbering version None (view value.now) }
{
    let number = value.as_u64()?;
    match begun_by(form, version, number) {
        Some(kind) => Some(Told::Begun(kind)),
        None => Some(Told::Ended(mark_of(form, numbering, number)?)),
    }
}

/// What a number of a tree says in a form and a version: the mark that it ends, or the one of two numbers
/// that it begins. `begun` says which stands before it. None where it says nothing. Takes no memory.
#[tactic(auto, unfolding(crate::specs::Marks::mark_in))]
pub fn mark_in(
    form: Form,
    numbering: Numbering,
    version: Version,
    begun: Option<PriceMark>,
    value: &Value,
) -> Option<Told>
    ensures { result ≡ mark_in form numbering version begun (view value.now) }
{
    match begun {
        Some(kind) => Some(Told::Ended(second_in(kind, value)?)),
        None => first_in(form, numbering, version, value),
    }
}

/// Appends the number of a mark, or its two numbers.
#[tactic(auto, unfolding(crate::specs::Marks::mark_numbers))]
pub fn push_mark(list: &mut Vec<Value>, numbering: Numbering, mark: Mark) -> Result<(), AllocError>
    requires { IsFormedMark numbering mark }
    ensures { OnOk result (map view list.new.items ≡ map view list.old.items ++ map number_data (mark_numbers numbering mark)) }
{
    match mark {
        Mark::Split => push_number(list, 0),
        Mark::Leaf(why) => push_ground(list, numbering, why),
        Mark::Open => push_number(list, 3),
        Mark::OpenPriced(number) => push_pair(list, PriceMark::Shown, number),
    }
}

/// Whether a mark is one that a version doesn't have, but a later one.
#[tactic(auto, unfolding(crate::specs::Marks::is_later))]
pub fn is_later(version: Version, mark: Mark) -> bool
    ensures { result ≡ is_later version mark }
{
    match mark {
        Mark::Leaf(Ground::Price(_)) => !has_mark(version, PriceMark::Reached),
        Mark::Leaf(Ground::Swept(_)) => !has_mark(version, PriceMark::Swept),
        Mark::OpenPriced(_) => !has_mark(version, PriceMark::Shown),
        _ => false,
    }
}

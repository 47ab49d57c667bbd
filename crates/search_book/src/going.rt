//! Nodes that were worked out ahead are handed to a book, as many as it comes to.
ghost use Rattle.std.specs.Prelude.{◌≡◌, ◌↔◌, ◌+◌, ◌<◌, ◌≤◌, length, IsTrue, IfOk, IfErr, IfSome, IfNone};
ghost use Rattle.std.specs.Bool.{OnTrue};
ghost use Rattle.book_core.specs.declared.reply.Grant.TheVariants as grant;
ghost use Rattle.book_rules.specs.Book.{slot_at};
ghost use Rattle.book_core.specs.Replies.{Grants, IsInHand};
ghost use Rattle.search_book.specs.Events.{IsAllowed};
ghost use Rattle.search_book.specs.Going.{GoesAhead, IsStop, Passes, ending_of, gone_count};
ghost use Rattle.search_book.specs.Granting.{IsAstray, IsFirstAt, IsHeldAt, granted, passed};

use crate::ahead::{Ahead, Ending, Stretch};
use crate::applying::apply;
use crate::event::Event;
use crate::gone::Gone;
use crate::kept::Kept;
use crate::next::Next;
use crate::replies::is_accepting;
use book_core::{Book, Grant};
use lock_model::WORKERS;
use master_branch::Node;
use std::sync::ledger::{Ledger, Share};

// The event by which a slot ends.
fn ending_of(id: u32, ending: Ending) -> Event
    ensures value { result ≡ ending_of id ending }
    ensures allowed { IsAllowed result }
{
    match ending {
        Ending::Split => Event::Split(id),
        Ending::Close(why) => Event::Close(id, why),
    }
}

// Makes `Take` as `apply` does, but that the node of a slot that is given stays in the book.
fn take_slot<L: Ledger>(kept: &mut Kept<L>, share: &mut Share<L>, worker: u8) -> Grant
    requires part { 0 < share.old.parts }
    requires worker { worker ≤ WORKERS }
    ensures step { Grants kept.old.book.value worker result kept.new.book.value }
    ensures held { IsInHand kept.new.book.value result }
    ensures case { kept.new.book.value.case ≡ kept.old.book.value.case }
    ensures total { kept.new.tally.total ≡ kept.old.tally.total + granted result }
    ensures amount { share.new.amount ≡ share.old.amount + granted result }
    ensures parts { share.new.parts ≡ share.old.parts }
{
    let grant = kept.book.take_slot(worker);
    if let Grant::Slot(_) = grant {
        kept.tally.add(share, 1);
    }
    grant
}

// Whether a worker holds this slot, and it has this node.
fn is_at(book: &Book, id: u32, node: &Node) -> bool
    ensures { IsTrue result ↔ IsHeldAt book.now id node.now }
{
    match book.node_in_hand(id) {
        Some(own) => own.equals(node),
        None => false,
    }
}

// The slot that was given, where it has the node that is next ahead.
fn on_the_way(book: &Book, taken: Grant, rest: &[Ahead<'_>]) -> Option<u32>
    ensures some { IfSome result (λ id. (taken ≡ grant.Slot id) × IsFirstAt book.now id rest.now) }
    ensures none { IfNone result (IsAstray book.now taken rest.now) }
{
    match taken {
        Grant::Slot(id) => match rest {
            [next, ..] if is_at(book, id, &next.foreseen.node) => Some(id),
            _ => None,
        },
        _ => None,
    }
}

// The slot in the worker's hand ends by an event, and the worker takes the next one: that one, where
// it has the node that is next ahead, else what came of both.
fn pass<L: Ledger>(
    kept: &mut Kept<L>,
    share: &mut Share<L>,
    worker: u8,
    ending: Event,
    rest: &[Ahead<'_>],
) -> Result<u32, Next>
    requires part { 0 < share.old.parts }
    requires worker { worker ≤ WORKERS }
    requires allowed { IsAllowed ending }
    ensures on { IfOk result (λ taken. Passes kept.old.book.value ending worker rest.now taken kept.new.book.value) }
    ensures node { IfOk result (λ taken. IsFirstAt kept.new.book.value taken rest.now) }
    ensures off { IfErr result (λ next. IsStop kept.old.book.value ending worker rest.now next kept.new.book.value) }
    ensures case { kept.new.book.value.case ≡ kept.old.book.value.case }
    ensures total { kept.new.tally.total ≡ kept.old.tally.total + passed result }
    ensures amount { share.new.amount ≡ share.old.amount + passed result }
    ensures parts { share.new.parts ≡ share.old.parts }
{
    let reply = apply(kept, share, ending);
    if !is_accepting(&reply) {
        return Err(Next::Refused(reply));
    }
    let grant = take_slot(kept, share, worker);
    match on_the_way(&*kept.book, grant, rest) {
        Some(id) => Ok(id),
        None => Err(Next::Taken(kept.book.grant_reply(grant))),
    }
}

// Whether the bounds that were worked out ahead are of the book's instance, and the first of them of
// the children of this slot's node.
fn may_lay(book: &Book, id: u32, stretch: &Stretch<'_>) -> bool
    ensures instance { OnTrue result (stretch.now.instance.now ≡ book.now.case.instance) }
    ensures node { OnTrue result (IsFirstAt book.now id stretch.now.nodes.items) }
{
    match stretch.nodes.as_slice() {
        [first, ..] => is_at(book, id, &first.foreseen.node) && book.is_of(stretch.instance),
        [] => false,
    }
}

// Lays the bounds of a node's children into the hand that holds the slot.
fn lay(book: &mut Book, id: u32, one: &Ahead<'_>, may: bool)
    requires instance { OnTrue may (one.now.foreseen.instance.now ≡ book.old.case.instance) }
    requires node { OnTrue may (one.now.foreseen.node ≡ (slot_at book.old id).node) }
    ensures { book.new ≡ book.old }
{
    if may {
        book.lay(id, &one.foreseen);
    }
}

/// Ends the slot that the worker holds as the first of the nodes says, takes the next slot, and goes
/// on so with the next of the nodes as long as the slot that was taken has that node; each event is
/// made as `apply` does. It stops at the first refusal, at a slot of another node, or after the last
/// node. The bounds spare the book that work where the stretch is of its instance.
pub fn go_ahead<L: Ledger>(
    kept: &mut Kept<L>,
    share: &mut Share<L>,
    worker: u8,
    id: u32,
    stretch: &Stretch<'_>,
) -> Gone
    requires part { 0 < share.old.parts }
    requires worker { worker ≤ WORKERS }
    requires some { 0 < length stretch.now.nodes.items }
    ensures steps { GoesAhead worker kept.old.book.value id stretch.now.nodes.items result.place result kept.new.book.value }
    ensures total { kept.new.tally.total ≡ kept.old.tally.total + gone_count result }
    ensures amount { share.new.amount ≡ share.old.amount + gone_count result }
    ensures parts { share.new.parts ≡ share.old.parts }
{
    let may = may_lay(&*kept.book, id, stretch);
    let mut held = id;
    let mut place = 0;
    let mut ahead = stretch.nodes.as_slice();
    while let [one, rest @ ..] = ahead {
        lay(&mut *kept.book, held, one, may);
        let ending = ending_of(held, one.ending);
        match pass(kept, share, worker, ending, rest) {
            Ok(taken) => held = taken,
            Err(next) => {
                return Gone {
                    place,
                    id: held,
                    next,
                };
            }
        }
        place += 1;
        ahead = rest;
    }
    unreachable!()
}

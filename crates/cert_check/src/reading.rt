//! The marks of a certificate, read once along its tree.
ghost use Rattle.std.specs.Prelude.{◌≡◌, ◌<◌, ◌↔◌, [], ◌∷◌, length, IsTrue, IfOk, IfErr, IfNone, IfSome};
ghost use Rattle.master_branch.specs.Node.{IsNodeOf, children};
ghost use Rattle.cert_check.specs.Splitting.{IsSplit};
ghost use Rattle.cert_check.specs.Reading.{IsStuck, IsChildStuck, AreStuck, IsReadLow, IsChildReadLow, AreAllReadLow};

use crate::claim::Claim;
use crate::closing::{ends, reason_against};
use crate::lowering::lowered;
use crate::splitting::{SplitNode, child_of, child_reaches, count_children, split};
use crate::workspace::Workspace;
use certificate_parts::{Ground, Mark};
use certificate_rules::Reason;
use lock_model::Instance;
use master_branch::Node;
use no_memory::NoMemory;

// What was read: the marks behind it, and the greatest number that all open leaves show so far, of those
// up to the number that reading began with.
#[derive(Drop)]
pub(crate) struct Read<'m> {
    pub(crate) marks: &'m [Mark],
    pub(crate) low: u64,
}

// Where reading ends before its time: the marks that are left there, and why.
#[derive(Drop)]
pub(crate) struct Stuck<'m> {
    pub(crate) marks: &'m [Mark],
    pub(crate) reason: Reason,
}

// What was read, or where reading ended before its time.
pub(crate) type Reading<'m> = Result<Read<'m>, Stuck<'m>>;

// The first mark and those behind it.
fn first_mark(marks: &[Mark]) -> Option<(Mark, &[Mark])>
    ensures none { IfNone result (marks.now ≡ []) }
    ensures some { IfSome result (λ first. marks.now ≡ first.0 ∷ first.1.now) }
{
    match marks {
        [mark, rest @ ..] => Some((*mark, rest)),
        [] => None,
    }
}

// The marks behind a bound mark, where the first one is a bound mark.
fn behind_bound(marks: &[Mark]) -> Option<&[Mark]>
    ensures { IfSome result (λ rest. marks.now ≡ Mark.Leaf Ground.Bound ∷ rest.now) }
{
    match first_mark(marks) {
        Some((Mark::Leaf(Ground::Bound), rest)) => Some(rest),
        _ => None,
    }
}

// Whether a mark splits the node: a split mark, where the node lacks a ship.
fn splits(instance: &Instance, node: &Node, mark: Mark) -> bool
    ensures { IsTrue result ↔ (mark ≡ Mark.Split) × (node.now.depth < length instance.now.ships) }
{
    mark == Mark::Split && (node.depth() as usize) < instance.ships.as_slice().len()
}

// Reads a tree of child `i` of a split node, which is made for it.
#[cycle(tree)]
fn read_made_child<'m>(
    claim: &Claim,
    parent: &SplitNode<'_>,
    i: u32,
    low: u64,
    marks: &'m [Mark],
    space: &mut Workspace,
) -> Result<Reading<'m>, NoMemory>
    requires split { IsSplit claim.now parent.now }
    requires within { i < length (children claim.now.instance.now parent.now.node.now) }
    ensures read { IfOk result (λ reading. IfOk reading (λ read. IsChildReadLow claim.now parent.now.node.now i low marks.now read.marks.now read.low)) }
    ensures stuck { IfOk result (λ reading. IfErr reading (λ stuck. IsChildStuck claim.now parent.now.node.now i marks.now stuck.marks.now stuck.reason)) }
{
    read_tree(claim, &child_of(claim, parent, i), low, marks, space)
}

// Reads a tree of child `i` of a split node. The child isn't made where its bound closes it, and no
// room for it is taken then.
#[cycle(tree)]
fn read_child<'m>(
    claim: &Claim,
    parent: &SplitNode<'_>,
    i: u32,
    low: u64,
    marks: &'m [Mark],
    space: &mut Workspace,
) -> Result<Reading<'m>, NoMemory>
    requires split { IsSplit claim.now parent.now }
    requires within { i < length (children claim.now.instance.now parent.now.node.now) }
    ensures read { IfOk result (λ reading. IfOk reading (λ read. IsChildReadLow claim.now parent.now.node.now i low marks.now read.marks.now read.low)) }
    ensures stuck { IfOk result (λ reading. IfErr reading (λ stuck. IsChildStuck claim.now parent.now.node.now i marks.now stuck.marks.now stuck.reason)) }
{
    if let Some(rest) = behind_bound(marks) {
        if child_reaches(claim, parent, i) {
            return Ok(Ok(Read { marks: rest, low }));
        }
        return Ok(Err(Stuck {
            marks,
            reason: Reason::BoundLow,
        }));
    }
    read_made_child(claim, parent, i, low, marks, space)
}

// Reads trees of all children of a node.
#[cycle(tree)]
fn read_children<'m>(
    claim: &Claim,
    node: &Node,
    low: u64,
    marks: &'m [Mark],
    space: &mut Workspace,
) -> Result<Reading<'m>, NoMemory>
    requires node { IsNodeOf claim.now.instance.now node.now }
    requires lacks { node.now.depth < length claim.now.instance.now.ships }
    ensures read { IfOk result (λ reading. IfOk reading (λ read. AreAllReadLow claim.now node.now low marks.now read.marks.now read.low)) }
    ensures stuck { IfOk result (λ reading. IfErr reading (λ stuck. AreStuck claim.now node.now marks.now stuck.marks.now stuck.reason)) }
{
    let parent = split(claim, node, &mut space.walks);
    let mut rest = marks;
    let mut least = low;
    for i in 0..count_children(claim, &parent) {
        match read_child(claim, &parent, i, least, rest, space)? {
            Ok(read) => {
                rest = read.marks;
                least = read.low;
            }
            Err(stuck) => return Ok(Err(stuck)),
        }
    }
    Ok(Ok(Read {
        marks: rest,
        low: least,
    }))
}

// Reads a tree of a node. It calls itself no deeper than the instance has ships.
#[cycle(tree)]
pub(crate) fn read_tree<'m>(
    claim: &Claim,
    node: &Node,
    low: u64,
    marks: &'m [Mark],
    space: &mut Workspace,
) -> Result<Reading<'m>, NoMemory>
    requires { IsNodeOf claim.now.instance.now node.now }
    ensures read { IfOk result (λ reading. IfOk reading (λ read. IsReadLow claim.now node.now low marks.now read.marks.now read.low)) }
    ensures stuck { IfOk result (λ reading. IfErr reading (λ stuck. IsStuck claim.now node.now marks.now stuck.marks.now stuck.reason)) }
{
    let Some((mark, rest)) = first_mark(marks) else {
        return Ok(Err(Stuck {
            marks,
            reason: Reason::TreeShort,
        }));
    };
    if splits(claim.instance, node, mark) {
        return read_children(claim, node, low, rest, space);
    }
    if ends(claim, node, mark, space)? {
        let least = lowered(claim, node, mark, low, space)?;
        return Ok(Ok(Read {
            marks: rest,
            low: least,
        }));
    }
    Ok(Err(Stuck {
        marks,
        reason: reason_against(mark),
    }))
}

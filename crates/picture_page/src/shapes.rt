//! Small shapes: arrows, marks of cargo, and passages.
ghost use Rattle.std.specs.Prelude.{◌≡◌, ◌++◌, ◌+◌, ◌<◌, ◌≤◌, ◌^◌, OnOk};
ghost use Rattle.picture_page.specs.Shapes.{arrow, arrow_at, cargo_mark, passage_box, frame};

use crate::form::put_form;
use lock_model::Way;
use no_memory::NoMemory;
use plain_text::put;

/// Appends an arrow that says a way, as a picture of its own.
#[tactic(auto, unfolding(crate::specs::Shapes::arrow))]
pub(crate) fn put_arrow(out: &mut Vec<u8>, way: Way) -> Result<(), NoMemory>
    ensures { OnOk result (out.new.items ≡ out.old.items ++ arrow way) }
{
    match way {
        Way::Up => put(
            out,
            b"<svg class=\"a\" width=\"9\" height=\"11\" aria-hidden=\"true\"><use href=\"#u\"/></svg>",
        ),
        Way::Down => put(
            out,
            b"<svg class=\"a\" width=\"9\" height=\"11\" aria-hidden=\"true\"><use href=\"#d\"/></svg>",
        ),
    }
}

/// Appends an arrow that says a way, at a point of a picture.
#[tactic(auto, unfolding(crate::specs::Shapes::arrow_at))]
pub(crate) fn put_arrow_at(out: &mut Vec<u8>, way: Way, x: u64, y: u64) -> Result<(), NoMemory>
    ensures { OnOk result (out.new.items ≡ out.old.items ++ arrow_at way x y) }
{
    match way {
        Way::Up => put_form(out, b"<use href=\"#u\" x=\"%\" y=\"%\"/>", &[x, y]),
        Way::Down => put_form(out, b"<use href=\"#d\" x=\"%\" y=\"%\"/>", &[x, y]),
    }
}

/// Appends the mark of a cargo class, as a picture of its own; of class 0 there is none.
#[tactic(auto, unfolding(crate::specs::Shapes::cargo_mark))]
pub(crate) fn put_cargo(out: &mut Vec<u8>, cargo: u8) -> Result<(), NoMemory>
    ensures { OnOk result (out.new.items ≡ out.old.items ++ cargo_mark cargo) }
{
    if cargo == 0 {
        return Ok(());
    }
    put_form(
        out,
        b"<svg class=\"k\" width=\"15\" height=\"15\"><title>cargo class %</title><use href=\"#k\"/><text x=\"7\" y=\"11\">%</text></svg>",
        &[cargo as u64, cargo as u64],
    )
}

/// Appends the box of a passage with the water in it, rising or falling. It begins at `x`, is so
/// wide, and lies between two heights.
#[tactic(auto, unfolding(crate::specs::Shapes::passage_box))]
pub(crate) fn put_passage_box(
    out: &mut Vec<u8>,
    way: Way,
    x: u64,
    width: u64,
    top: u64,
    bottom: u64,
) -> Result<(), NoMemory>
    requires fits { x + width < 2 ^ 64 }
    requires high { top ≤ bottom }
    ensures { OnOk result (out.new.items ≡ out.old.items ++ passage_box way x width top bottom) }
{
    let end = x + width;
    let height = bottom - top;
    match way {
        Way::Up => put_form(
            out,
            b"<rect class=\"b0\" x=\"%\" y=\"%\" width=\"%\" height=\"%\"/><path class=\"w0\" d=\"M% %H%L% %Z\"/><rect class=\"e0\" x=\"%\" y=\"%\" width=\"%\" height=\"%\"/>",
            &[
                x, top, width, height, x, bottom, end, end, top, x, top, width, height,
            ],
        ),
        Way::Down => put_form(
            out,
            b"<rect class=\"b1\" x=\"%\" y=\"%\" width=\"%\" height=\"%\"/><path class=\"w1\" d=\"M% %H%L% %Z\"/><rect class=\"e1\" x=\"%\" y=\"%\" width=\"%\" height=\"%\"/>",
            &[
                x, top, width, height, x, bottom, end, x, top, x, top, width, height,
            ],
        ),
    }
}

/// Appends a second outline, 3 pixels inside a box that begins at `x`, is so wide, and lies between two
/// heights. A box of 6 pixels or fewer shows none.
#[tactic(auto, unfolding(crate::specs::Shapes::frame))]
pub(crate) fn put_frame(
    out: &mut Vec<u8>,
    x: u64,
    width: u64,
    top: u64,
    bottom: u64,
) -> Result<(), NoMemory>
    requires left { x < 2 ^ 32 }
    requires high { top < 2 ^ 32 }
    ensures { OnOk result (out.new.items ≡ out.old.items ++ frame x width top bottom) }
{
    put_form(
        out,
        b"<rect class=\"f0\" x=\"%\" y=\"%\" width=\"%\" height=\"%\"/>",
        &[
            x + 3,
            top + 3,
            width.saturating_sub(6),
            bottom.saturating_sub(top + 6),
        ],
    )
}

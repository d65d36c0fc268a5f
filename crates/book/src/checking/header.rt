//! The check of the header: counts, steps, and where the sections lie.

ghost use Rattle.std.specs.Prelude.{◌≡◌, IfOk};
ghost use Rattle.book.specs.Numbers.{outside};
ghost use Rattle.book.specs.Layout.{layout_of};
ghost use Rattle.book.specs.Verdict.{Tells, Framed, header_tests, overlap};

use crate::faults::{Cause, Fault};
use crate::sections::Layout;

// A function of its own: with the three ranges in its body the proof of `check_header` doesn't close.
fn is_outside(low: u32, high: u32, number: u32) -> bool
    ensures { result ≡ outside low high number }
{
    !(low..=high).contains(&number)
}

fn sections_overlap(layout: Layout) -> bool
    ensures { result ≡ overlap layout }
{
    layout.tasks.count != 0
        && layout.instructions.count != 0
        && (layout.tasks.offset as u32) < layout.instructions.end()
        && (layout.instructions.offset as u32) < layout.tasks.end()
}

// The fields in the order of their bytes, so that the first fault found has the lowest place.
pub(super) fn check_header(bytes: &[u8]) -> Result<Layout, Fault>
    ensures told { Tells (header_tests bytes.now (layout_of bytes.now)) result }
    ensures layout { IfOk result (λ l. l ≡ layout_of bytes.now) }
    ensures framed { IfOk result (λ l. Framed bytes.now l) }
{
    let layout = Layout::read(bytes);
    if is_outside(1, 127, layout.tasks.count as u32) {
        return Err(Cause::Range.at(0));
    }
    if layout.tasks.is_astray(bytes) {
        return Err(Cause::Sections.at(2));
    }
    if is_outside(0, 4096, layout.instructions.count as u32) {
        return Err(Cause::Range.at(4));
    }
    if layout.instructions.is_astray(bytes) || sections_overlap(layout) {
        return Err(Cause::Sections.at(6));
    }
    if is_outside(0, 1_000_000, layout.steps) {
        return Err(Cause::Range.at(8));
    }
    Ok(layout)
}

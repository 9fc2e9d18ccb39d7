ghost use Rattle.std.specs.Prelude.{◌≡◌, ◌++◌, length, IfOk, OnOk};
ghost use Rattle.fm_script_lines.specs.Ordering.{AreStarts, in_order, is_by, lines_at};
ghost use Rattle.fm_script_lines.specs.Report.{lines_by};

use fm_script_text::{Line, Who};
use std::alloc::{AllocError, Global};

/// The lines of a script in the order of printing.
#[derive(Drop)]
pub struct LinesInOrder<'a> {
    /// The first lines, those of worker 1 and so on, the last ones.
    pub lines: Vec<&'a Line>,
    /// For each worker the place of its first line.
    pub starts: Vec<usize>,
}

/// The order of a script's lines, where it has so many workers.
pub fn in_order<'a>(
    alloc: Global,
    lines: &'a [Line],
    workers: u32,
) -> Result<LinesInOrder<'a>, AllocError>
    ensures lines { IfOk result (λ order. lines_at order.lines.items ≡ in_order workers lines.now) }
    ensures starts { IfOk result (λ order. AreStarts lines.now workers order.starts.items) }
{
    let mut order = Vec::new(alloc);
    let mut starts = Vec::new(alloc);
    add_lines(&mut order, lines, Who::First)?;
    for worker in 0..workers {
        starts.push(order.len())?;
        add_lines(&mut order, lines, Who::Worker(worker + 1))?;
    }
    add_lines(&mut order, lines, Who::Last)?;
    Ok(LinesInOrder {
        lines: order,
        starts,
    })
}

/// How many of the lines are these.
pub fn count_lines(lines: &[Line], who: Who) -> usize
    ensures { result ≡ length (lines_by (is_by who) lines.now) }
{
    let mut count = 0;
    for line in lines {
        if is_by(who, line.who) {
            count += 1;
        }
    }
    count
}

/// Puts those of the lines that are these behind the others.
fn add_lines<'a>(order: &mut Vec<&'a Line>, lines: &'a [Line], who: Who) -> Result<(), AllocError>
    ensures { OnOk result (lines_at order.new.items
        ≡ lines_at order.old.items ++ lines_by (is_by who) lines.now) }
{
    for line in lines {
        if is_by(who, line.who) {
            order.push(line)?;
        }
    }
    Ok(())
}

/// Whether a line of the second is one of the first.
pub(crate) fn is_by(who: Who, other: Who) -> bool
    ensures { result ≡ is_by who other }
{
    match (who, other) {
        (Who::First, Who::First) | (Who::Last, Who::Last) => true,
        (Who::Worker(number), Who::Worker(other)) => other == number,
        _ => false,
    }
}

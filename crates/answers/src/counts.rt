// What check says of a model or a row system that is in order.
ghost use Rattle.std.specs.Prelude.{◌≡◌, IfOk, string_bytes};
ghost use Rattle.answers.specs.Counted.{counts_line, counts_said, in_order_said};
ghost use Rattle.answers.specs.Said.{Says};

use crate::{Answer, Style, printed};
use std::alloc::{AllocError, Global};

// What check counts of a model, in this crate's own struct: it stands below check.
#[derive(Clone, Copy, Debug, PartialEq, Eq)]
pub struct Counts {
    pub variables: usize,
    pub constraints: usize,
    pub auxiliaries: usize,
    pub rows: usize,
    pub words: usize,
}

// The counts of a model that is in order, on a line.
fn counts_line(alloc: Global, counts: Counts, style: Style) -> Result<String, AllocError>
    ensures { IfOk result (λ s. string_bytes s ≡ counts_line style counts) }
{
    let Counts {
        variables,
        constraints,
        auxiliaries,
        rows,
        words,
    } = counts;
    match style {
        Style::Text => format!(in alloc;
            "variables {variables}, constraints {constraints}, auxiliaries {auxiliaries}, rows {rows}, words {words}\n"
        ),
        Style::Json => format!(in alloc;
            "{{\"answer\":\"accepted\",\"variables\":{variables},\"constraints\":{constraints},\"auxiliaries\":{auxiliaries},\"rows\":{rows},\"words\":{words}}}\n"
        ),
    }
}

// The answer of a model with these counts.
pub fn told_counts(alloc: Global, counts: Counts, style: Style) -> Result<Answer, AllocError>
    ensures { IfOk result (Says (counts_said style counts)) }
{
    let line = counts_line(alloc, counts, style)?;
    Ok(printed(alloc, line.into_bytes(), 0))
}

// The answer of a row system that is in order.
pub fn told_in_order(alloc: Global, style: Style) -> Result<Answer, AllocError>
    ensures { IfOk result (Says (in_order_said style)) }
{
    let line = match style {
        Style::Text => Vec::from_slice(alloc, b"the row system is in order\n")?,
        Style::Json => Vec::from_slice(alloc, b"{\"answer\":\"accepted\"}\n")?,
    };
    Ok(printed(alloc, line, 0))
}

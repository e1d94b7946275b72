// Refusals 1 to 4: the table's frame. After them the header is the table's and its sections fill the bytes.
ghost use Rattle.std.specs.Prelude.{◌≡◌, ◌&&◌, ◌≤◌, leb, eqb};
ghost use Rattle.base.specs.Choice as Choice;
ghost use Rattle.table.specs.Bytes.{variables_from, expressions_from, statements_from, end};
ghost use Rattle.table.specs.Records.{most_variables, most_expressions, most_statements};

use crate::Header;
use base::within;

// How many records a section has at most.
pub const MOST_VARIABLES: u32 = 256;

pub const MOST_EXPRESSIONS: u32 = 2048;

pub const MOST_STATEMENTS: u32 = 1024;

// Whether the format is 1 and the address width is 1 to 64.
pub(crate) fn format_ok(h: Header) -> bool
    ensures { result ≡ (eqb h.format 1 && Choice.within 1 64 h.width) }
{
    (h.format == 1) & within(1, 64, h.width)
}

// Whether each count is within its limits.
pub(crate) fn counts_ok(h: Header) -> bool
    ensures { result ≡ (leb h.variables most_variables
        && (leb h.expressions most_expressions && Choice.within 1 most_statements h.statements)) }
{
    (h.variables <= MOST_VARIABLES)
        & ((h.expressions <= MOST_EXPRESSIONS) & within(1, MOST_STATEMENTS, h.statements))
}

// Whether the sections stand in their order without gaps, and fill a table of so many bytes.
pub(crate) fn sections_ok(h: Header, bytes: usize) -> bool
    requires variables_le_most_variables { h.variables ≤ most_variables }
    requires expressions_le_most_expressions { h.expressions ≤ most_expressions }
    requires statements_le_most_statements { h.statements ≤ most_statements }
    ensures { result ≡ (eqb h.variablesAt variables_from && (eqb h.expressionsAt (expressions_from h)
        && (eqb h.statementsAt (statements_from h) && (eqb h.total (end h) && eqb bytes (end h))))) }
{
    let expressions = 32 + 8 * h.variables;
    let statements = expressions + 16 * h.expressions;
    let end = statements + 16 * h.statements;
    (h.variablesAt == 32)
        & ((h.expressionsAt == expressions)
            & ((h.statementsAt == statements) & ((h.total == end) & (bytes == end as usize))))
}

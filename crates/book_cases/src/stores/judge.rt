//! Changes of the tables by statements, and whether they are still taken.

use crate::stores::compare::same;
use crate::stores::queue::full_tables;
use crate::stores::tables::{Judgement, Tables};
use std::alloc::{AllocError, Global};
use std::test::Fail;

/// A value of a row, and what stands in its place, one after another.
#[derive(Clone, Copy)]
struct Values<'a> {
    table: &'a str,
    /// The condition of the row.
    row: &'a str,
    column: &'a str,
    value: &'a str,
    /// With `; ` between them.
    others: &'a str,
}

/// The values of a line, `TABLE | ROW | COLUMN | VALUE | OTHERS`.
fn values_of(line: &str) -> Option<Values<'_>> {
    let (table, line) = line.split_once(" | ")?;
    let (row, line) = line.split_once(" | ")?;
    let (column, line) = line.split_once(" | ")?;
    let (value, others) = line.split_once(" | ")?;
    Some(Values {
        table,
        row,
        column,
        value,
        others,
    })
}

impl Values<'_> {
    /// The statement that gives the column another value.
    fn update(self, alloc: Global, other: &str) -> Result<String, AllocError> {
        let (table, row, column) = (self.table, self.row, self.column);
        format!(in alloc; "UPDATE {table} SET {column} = {other} WHERE {row}")
    }
}

/// What is in tables before they are changed, and what becomes of them then.
#[derive(Clone, Copy)]
pub(super) struct Changes<'a> {
    pub(super) whole: &'a [u8],
    pub(super) wanted: Judgement,
}

impl Changes<'_> {
    /// Changed tables are taken as they are to be, and stay as they are. Then the change is taken back.
    fn change(self, tables: &mut Tables, statements: &str, mend: &str) -> Result<(), Fail> {
        tables.run(statements)?;
        tables.judge(self.wanted, statements)?;
        tables.run(mend)?;
        tables.has_content(self.whole, mend)
    }

    /// The changes of lines, `STATEMENTS => STATEMENTS`, of which the second take the first back.
    pub(super) fn change_each(self, tables: &mut Tables, lines: &str) -> Result<(), Fail> {
        for line in lines.lines() {
            let (statements, mend) = line.split_once(" => ").ok_or("no change")?;
            self.change(tables, statements, mend)?;
        }
        Ok(())
    }

    fn change_value(
        self,
        tables: &mut Tables,
        values: Values<'_>,
        other: &str,
    ) -> Result<(), Fail> {
        let statement = values.update(tables.alloc, other)?;
        let mend = values.update(tables.alloc, values.value)?;
        self.change(tables, statement.as_str(), mend.as_str())
    }

    fn change_row(self, tables: &mut Tables, values: Values<'_>) -> Result<(), Fail> {
        for other in values.others.split("; ") {
            self.change_value(tables, values, other)?;
        }
        Ok(())
    }

    /// The changes of values, by their lines.
    fn change_values(self, tables: &mut Tables, lines: &str) -> Result<(), Fail> {
        for line in lines.lines() {
            let values = values_of(line).ok_or("no values")?;
            self.change_row(tables, values)?;
        }
        Ok(())
    }
}

fn judge_each(
    tables: &mut Tables,
    wanted: Judgement,
    values: &str,
    statements: &str,
) -> Result<(), Fail> {
    let whole = tables.content()?;
    same(&(whole.len() > 131_073), &true, "long document")?;
    let changes = Changes {
        whole: whole.as_slice(),
        wanted,
    };
    changes.change_values(tables, values)?;
    changes.change_each(tables, statements)?;
    tables.judge(Ok(()), "mended tables")
}

/// The queue's tables with each change by itself, of values and by statements, are taken as they are to be.
pub(super) fn judge_changes(
    alloc: Global,
    wanted: Judgement,
    values: &str,
    statements: &str,
) -> Result<(), Fail> {
    judge_each(&mut full_tables(alloc)?, wanted, values, statements)
}

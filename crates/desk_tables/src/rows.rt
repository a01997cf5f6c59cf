//! Tables of which each line is read by itself: hosts, networks, passwd and group.
//!
//! A line gives a row, or nothing if it is skipped; the first faulty line ends the reading.

ghost use Rattle.std.specs.Prelude.{◌≡◌, ℕ, List, Option, Result};
ghost use Rattle.desk_text.specs.Lines.{IsReadable};
ghost use Rattle.desk_text.specs.Reading.{Reads};
ghost use Rattle.desk_tables.specs.PrivateRows.{PushesRow, ReadsEachLine};
ghost use Rattle.desk_tables.specs.Rows.{text_table};
ghost use Rattle.desk_tables.specs.declared.rules.TableRule.{TableRule};

use crate::rules::{TableFault, TableRule};
use desk_text::{ReadError, Sequence};
use std::alloc::Global;

/// Reads the rows of the lines of a text, each line by itself, or the first faulty line with the first rule that it breaks.
pub fn read_rows<Row: Drop, F: Fn(Global, &str) -> Result<Option<Row>, ReadError<TableRule>>>(
    alloc: Global,
    text: &str,
    read: F,
) -> Result<Sequence<Row>, ReadError<TableFault>>
    requires callable { F.IsAlwaysCallable read }
    requires counted { IsReadable text.now }
    ensures { (answer : List ℕ → Result (Option Row) TableRule) → ReadsEachLine (F.post read) answer
        → Reads result (text_table answer text.now) }
{
    let mut rows = Sequence::new(alloc);
    let mut number = 0;
    for line in text.lines() {
        number += 1;
        push_row(&mut rows, number, read(alloc, line))?;
    }
    Ok(rows)
}

/// Adds the row of the line with this number, if it has one.
fn push_row<Row: Drop>(
    rows: &mut Sequence<Row>,
    number: u32,
    answer: Result<Option<Row>, ReadError<TableRule>>,
) -> Result<(), ReadError<TableFault>>
    ensures { (spelled : Result (Option Row) TableRule) → Reads answer spelled
        → PushesRow result rows.old rows.new (record { number = number; answer = spelled }) }
{
    match answer {
        Ok(Some(row)) => {
            rows.push(row)?;
            Ok(())
        }
        Ok(None) => Ok(()),
        Err(error) => Err(error.at_line(number)),
    }
}

//! Rows as a table.

ghost use Rattle.std.specs.Prelude.{◌≡◌, ◌++◌, ◌∷◌, [], max, replicate, IfOk, OnOk, string_bytes};
ghost use Rattle.def_see.specs.Table.{messages_text, padded, root_lines, row_line, table, width, widths};
ghost use Rattle.ev_see_rows.specs.Wide.{wider};

use crate::rows::{roots, rows};
use def_see::{Line, Row, Widths};
use ev_base::{Memory, Str};
use ev_see_lives::Lives;
use std::alloc::Global;
use unicode_width::UnicodeWidthStr;

/// The columns of a terminal that a text takes.
#[tactic(auto, unfolding(def_see::specs::Table::width))]
fn width(text: &str) -> usize
    ensures { result ≡ width text.now }
{
    text.width()
}

/// Widths that serve one row more.
#[tactic(auto, unfolding(crate::specs::Wide::wider))]
fn wider(row: &Row, widths: Widths) -> Widths
    ensures { result ≡ wider row.now widths }
{
    Widths {
        message: width(row.message.as_str()).max(widths.message),
        what: width(row.what.as_str()).max(widths.what),
        sent: width(row.sent.as_str()).max(widths.sent),
        carried: width(row.carried.as_str()).max(widths.carried),
        fate: width(row.fate.as_str()).max(widths.fate),
    }
}

/// The widths of the columns of rows. The rows are gone over from the last.
fn widths(rows: &[Row]) -> Widths
    ensures { result ≡ widths rows.now }
{
    let mut found = Widths {
        message: 0,
        what: 0,
        sent: 0,
        carried: 0,
        fate: 0,
    };
    for behind in 0..rows.len() {
        found = wider(&rows[rows.len() - 1 - behind], found);
    }
    found
}

/// Appends so many spaces.
fn push_spaces(out: &mut String, count: usize) -> Result<(), Memory>
    ensures { OnOk result (string_bytes out.new ≡ string_bytes out.old ++ replicate count 32) }
{
    for _space in 0..count {
        out.push(' ')?;
    }
    Ok(())
}

/// Appends a cell of a column that is so wide.
#[tactic(auto, unfolding(def_see::specs::Table::padded))]
fn push_padded(out: &mut String, wide: usize, cell: &str) -> Result<(), Memory>
    ensures { OnOk result (string_bytes out.new ≡ string_bytes out.old ++ padded wide cell.now) }
{
    out.push_str(cell)?;
    push_spaces(out, wide.saturating_sub(width(cell)))?;
    out.push_str("  ")?;
    Ok(())
}

/// Appends what a row says of the send: the message, what it says, and the step.
fn push_sending(out: &mut String, widths: Widths, row: &Row) -> Result<(), Memory>
    ensures { OnOk result (string_bytes out.new ≡ string_bytes out.old ++ (padded widths.message row.now.message ++ padded widths.what row.now.what ++ padded widths.sent row.now.sent)) }
{
    push_padded(out, widths.message, row.message.as_str())?;
    push_padded(out, widths.what, row.what.as_str())?;
    push_padded(out, widths.sent, row.sent.as_str())
}

/// Appends what a row says of the way of the message: where it is carried, and its fate.
fn push_way(out: &mut String, widths: Widths, row: &Row) -> Result<(), Memory>
    ensures { OnOk result (string_bytes out.new ≡ string_bytes out.old ++ (padded widths.carried row.now.carried ++ padded widths.fate row.now.fate)) }
{
    push_padded(out, widths.carried, row.carried.as_str())?;
    push_padded(out, widths.fate, row.fate.as_str())
}

/// Appends a row.
#[tactic(auto, unfolding(def_see::specs::Table::row_line))]
fn push_row(out: &mut String, widths: Widths, row: &Row) -> Result<(), Memory>
    ensures { OnOk result (string_bytes out.new ≡ string_bytes out.old ++ row_line widths row.now) }
{
    push_sending(out, widths, row)?;
    push_way(out, widths, row)?;
    out.push_str(row.answer.as_str())?;
    out.push_str("\n")?;
    Ok(())
}

/// Appends rows with their columns lined up.
fn push_table(out: &mut String, rows: &[Row]) -> Result<(), Memory>
    ensures { OnOk result (string_bytes out.new ≡ string_bytes out.old ++ table rows.now) }
{
    let widths = widths(rows);
    for row in rows {
        push_row(out, widths, row)?;
    }
    Ok(())
}

/// Appends texts, each as a line.
fn push_lines(out: &mut String, texts: &[Str]) -> Result<(), Memory>
    ensures { OnOk result (string_bytes out.new ≡ string_bytes out.old ++ root_lines texts.now) }
{
    for text in texts {
        out.push_str(text.as_str())?;
        out.push_str("\n")?;
    }
    Ok(())
}

/// What is told of the messages of a history: a row for each line that sends one, in order, with the columns lined up, and
/// then a row for each root. Time grows with the lines, and with what is written.
#[tactic(auto, unfolding(def_see::specs::Table::messages_text))]
pub fn messages_text(alloc: Global, lines: &[Line]) -> Result<String, Memory>
    ensures { IfOk result (λ text. string_bytes text ≡ messages_text lines.now) }
{
    let lives = Lives::of(alloc, lines)?;
    let rows = rows(alloc, lines, &lives)?;
    let roots = roots(alloc, lines, &lives)?;
    let mut text = String::new(alloc);
    push_table(&mut text, rows.as_slice())?;
    push_lines(&mut text, roots.as_slice())?;
    Ok(text)
}

//! What is written: the picture alone, or a page with the picture and the answers of all commands.

use crate::drawing::write_picture;
use crate::pen::Pen;
use crate::rows::{Row, rows_of};
use crate::runs::Run;
use crate::words::Form;
use std::alloc::Global;
use std::io;
use std::io::Write;

/// What stands before the picture.
const HEAD: &str =
    "<!DOCTYPE html>\n<html lang=\"en\">\n<head><meta charset=\"utf-8\"><title>A run of rcuo</title></head>\n<body>\n";

/// Writes the answers of all commands, as a list.
fn write_answers<W: Write>(run: &Run, pen: &mut Pen<W>) {
    pen.plain("<ol>\n");
    for step in &run.steps {
        pen.item(step.text.as_str());
    }
    pen.plain("</ol>\n");
}

/// Writes a run with these rows in this form.
fn write_form<W: Write>(run: &Run, rows: &[Row], form: Form, pen: &mut Pen<W>) {
    match form {
        Form::Svg => write_picture(run, rows, pen),
        Form::Html => {
            pen.plain(HEAD);
            write_picture(run, rows, pen);
            write_answers(run, pen);
            pen.plain("</body>\n</html>\n");
        }
    }
}

/// Writes the picture of a run in this form.
///
/// # Errors
///
/// That of a failed write; want of memory.
pub fn write_page<W: Write>(
    alloc: Global,
    run: &Run,
    form: Form,
    writer: &mut W,
) -> io::Result<()> {
    let rows = rows_of(alloc, run)?;
    let mut pen = Pen::new(writer);
    write_form(run, rows.as_slice(), form, &mut pen);
    pen.finish()
}

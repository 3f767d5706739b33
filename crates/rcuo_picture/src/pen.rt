//! The elements of a picture, as SVG writes them, and those of the page around it.

use std::fmt::Display;
use std::io;
use std::io::Write;

/// Writes elements, one after the other. It keeps the first failure, and writes nothing more after it.
#[derive(Drop)]
pub struct Pen<'a, W> {
    writer: &'a mut W,
    failed: Option<io::Error>,
}

impl<'a, W: Write> Pen<'a, W> {
    /// A pen that writes here.
    pub fn new(writer: &'a mut W) -> Pen<'a, W> {
        Pen {
            writer,
            failed: None,
        }
    }

    /// Whether all was written.
    ///
    /// # Errors
    ///
    /// That of the first write that failed.
    pub fn finish(self) -> io::Result<()> {
        match self.failed {
            Some(error) => Err(error),
            None => Ok(()),
        }
    }

    /// Keeps the failure of a write.
    fn keep(&mut self, written: io::Result<()>) {
        if let Err(error) = written {
            self.failed = Some(error);
        }
    }

    /// Writes a text, if all was written before.
    fn write<T: Display + Drop>(&mut self, text: T) {
        if self.failed.is_none() {
            let written = write!(self.writer, "{text}");
            self.keep(written);
        }
    }

    /// Writes this text as it stands.
    pub fn plain(&mut self, text: &str) {
        if self.failed.is_none() {
            let written = self.writer.write_all(text.as_bytes());
            self.keep(written);
        }
    }

    /// Begins a picture of this size.
    pub fn begin(&mut self, width: u64, height: u64) {
        self.write(format_args!(
            "<svg xmlns=\"http://www.w3.org/2000/svg\" width=\"{width}\" height=\"{height}\">\n"
        ));
    }

    /// Writes how many commands are drawn, of more.
    pub fn first(&mut self, drawn: usize) {
        self.write(format_args!("The first {drawn} of "));
    }

    /// Writes how many commands there are, on how many processors; `more` is what makes their name one of many.
    pub fn commands(&mut self, commands: usize, processors: usize, more: &str) {
        self.write(format_args!("{commands} commands on {processors} processor{more}"));
    }

    /// Writes a rectangle, whose upper left corner is at `x` and `y`.
    pub fn rect(&mut self, class: &str, (x, y): (u64, u64), (width, height): (u64, u64)) {
        self.write(format_args!(
            "<rect class=\"{class}\" x=\"{x}\" y=\"{y}\" width=\"{width}\" height=\"{height}\"/>\n"
        ));
    }

    /// Writes a text.
    pub fn text<T: Display + Copy>(&mut self, class: &str, x: u64, y: u64, text: T) {
        self.write(format_args!("<text class=\"{class}\" x=\"{x}\" y=\"{y}\">{text}</text>\n"));
    }

    /// Writes a shape around a point.
    pub fn shape(&mut self, x: u64, y: u64, shape: &str) {
        self.write(format_args!("<g transform=\"translate({x} {y})\">{shape}</g>\n"));
    }

    /// Writes the end of a callback that ran, by its path around a point.
    pub fn ran(&mut self, x: u64, y: u64, path: &str) {
        self.write(format_args!(
            "<path class=\"ran\" transform=\"translate({x} {y})\" d=\"{path}\"/>\n"
        ));
    }

    /// Writes the end of a callback that ran, as a circle around a point.
    pub fn circle(&mut self, x: u64, y: u64) {
        self.write(format_args!("<circle class=\"ran\" cx=\"{x}\" cy=\"{y}\" r=\"5\"/>\n"));
    }

    /// Writes a line from a point to the right, or down; `to` says which, and how far.
    pub fn line(&mut self, class: &str, (x, y): (u64, u64), direction: char, to: u64) {
        self.write(format_args!("<path class=\"{class}\" d=\"M{x} {y}{direction}{to}\"/>\n"));
    }

    /// Writes the text of a command, aslant.
    pub fn aslant(&mut self, x: u64, y: u64, text: &str) {
        self.write(format_args!(
            "<text class=\"step\" transform=\"translate({x} {y}) rotate(55)\">{text}</text>\n"
        ));
    }

    /// Writes a text that is shown where the pointer is in this rectangle.
    pub fn hint(&mut self, (x, y): (u64, u64), (width, height): (u64, u64), text: &str) {
        self.write(format_args!(
            "<rect class=\"at\" x=\"{x}\" y=\"{y}\" width=\"{width}\" height=\"{height}\"><title>{text}</title></rect>\n"
        ));
    }

    /// Writes an item of a page's list.
    pub fn item(&mut self, text: &str) {
        self.write(format_args!("<li><code>{text}</code></li>\n"));
    }
}

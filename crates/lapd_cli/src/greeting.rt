use std::io::{self, Read, Write};

/// A reader of typed lines that prints a greeting before its first read. Failed writes to the error
/// writer are ignored.
#[derive(Drop)]
pub struct Greeting<R, E> {
    reader: R,
    errors: E,
    is_printed: bool,
}

impl<R: Read, E: Write> Greeting<R, E> {
    /// Nothing is printed yet.
    pub fn new(reader: R, errors: E) -> Greeting<R, E> {
        Greeting {
            reader,
            errors,
            is_printed: false,
        }
    }
}

impl<R: Read, E: Write> Read for Greeting<R, E> {
    fn read(&mut self, octets: &mut [u8]) -> io::Result<usize> {
        if !self.is_printed {
            self.is_printed = true;
            let greeting = b"type a line; help lists the lines, quit ends the script\n";
            let _ = self.errors.write_all(greeting);
        }
        self.reader.read(octets)
    }
}

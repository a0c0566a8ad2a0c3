//! One buffered output for a run that also reads: what is known is handed on before a read that may block.
use std::cell::RefCell;
use std::io;
use std::io::{BufWriter, ErrorKind, Read, Write};

/// The output, and whether it could not be handed on before a read. Then it takes nothing more.
#[derive(Drop)]
pub(crate) struct Output<W: Write + Drop> {
    pub writer: BufWriter<W>,
    pub has_failed: bool,
}

/// A reader that hands on what the output holds back before each of its reads, so that whoever writes the input can wait
/// for what was answered so far.
#[derive(Drop)]
pub(crate) struct Prompting<'a, R: Read, W: Write + Drop> {
    pub reader: R,
    pub out: &'a RefCell<Output<W>>,
}

impl<R: Read, W: Write + Drop> Read for Prompting<'_, R, W> {
    // What the reader tells: handing on the output takes no byte of it.
    ghost remaining = { λ p. R.remaining p.reader };

    fn read(&mut self, buf: &mut [u8]) -> io::Result<usize> {
        if let Ok(mut out) = self.out.try_borrow_mut() {
            if out.writer.flush().is_err() {
                out.has_failed = true;
            }
        }
        self.reader.read(buf)
    }
}

/// A writer into the output.
#[derive(Drop)]
pub(crate) struct LentOutput<'a, W: Write + Drop> {
    pub out: &'a RefCell<Output<W>>,
}

impl<W: Write + Drop> Write for LentOutput<'_, W> {
    fn write(&mut self, buf: &[u8]) -> io::Result<usize> {
        match self.out.try_borrow_mut() {
            Ok(mut out) if !out.has_failed => out.writer.write(buf),
            _ => Err(ErrorKind::Other.into()),
        }
    }

    fn flush(&mut self) -> io::Result<()> {
        match self.out.try_borrow_mut() {
            Ok(mut out) if !out.has_failed => out.writer.flush(),
            _ => Err(ErrorKind::Other.into()),
        }
    }
}

// Readers, writers and a screen that do as they are told.
use std::alloc::Global;
use std::cell::RefCell;
use std::fmt::Display;
use std::io;
use std::io::{ErrorKind, Read, Write};

/// A reader that gives `left` bytes, at most `step` in one call, and then ends or fails.
#[derive(Drop)]
pub struct Trickle {
    pub left: usize,
    pub step: usize,
    pub fails: Option<ErrorKind>,
    pub at: usize,
}

impl Read for Trickle {
    fn read(&mut self, buf: &mut [u8]) -> io::Result<usize> {
        if self.left == 0 {
            return match self.fails {
                Some(kind) => Err(io::Error::from(kind)),
                None => Ok(0),
            };
        }
        let count = buf.len().min(self.step).min(self.left);
        self.left -= count;
        for byte in buf[..count].iter_mut() {
            *byte = (self.at % 251) as u8;
            self.at = self.at.saturating_add(1);
        }
        Ok(count)
    }
}

/// A writer with room for so many bytes, which takes at most `step` in one call, and then takes
/// nothing or fails.
#[derive(Drop)]
pub struct Narrow {
    pub taken: Vec<u8>,
    pub room: usize,
    pub step: usize,
    pub fails: Option<ErrorKind>,
}

impl Narrow {
    pub fn new(alloc: Global, room: usize, step: usize, fails: Option<ErrorKind>) -> Self {
        Narrow {
            taken: Vec::new(alloc),
            room,
            step,
            fails,
        }
    }
}

impl Write for Narrow {
    fn write(&mut self, buf: &[u8]) -> io::Result<usize> {
        let count = buf.len().min(self.step).min(self.room);
        if count == 0 {
            return match self.fails {
                Some(kind) => Err(io::Error::from(kind)),
                None => Ok(0),
            };
        }
        self.taken.extend_from_slice(&buf[..count])?;
        self.room -= count;
        Ok(count)
    }

    fn flush(&mut self) -> io::Result<()> {
        Ok(())
    }
}

/// A screen that a writer stands behind.
#[derive(Drop)]
pub struct Screen {
    pub to: RefCell<Narrow>,
}

impl Print for Screen {
    fn print<D: Display + Drop>(&self, _value: D) -> io::Result<()> {
        Err(io::Error::from(ErrorKind::Unsupported))
    }

    fn println<D: Display + Drop>(&self, _value: D) -> io::Result<()> {
        Err(io::Error::from(ErrorKind::Unsupported))
    }

    fn write_all(&self, _bytes: &[u8]) -> io::Result<()> {
        Err(io::Error::from(ErrorKind::Unsupported))
    }

    fn write_some(&self, bytes: &[u8]) -> io::Result<usize> {
        match self.to.try_borrow_mut() {
            Ok(mut to) => to.write(bytes),
            Err(_) => Err(io::Error::from(ErrorKind::WouldBlock)),
        }
    }
}

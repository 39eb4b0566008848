//! A reader, and how much it has read.
ghost use Rattle.std.specs.Prelude.{◌≡◌};

use std::io::{self, Read, Write};

// How many bytes a mebibyte has.
const MEBIBYTE: u64 = 1 << 20;

/// A reader that writes on a screen how many mebibytes it has read, each time that another one is full.
///
/// The text begins with a carriage return, so that it stays on one line of a terminal. Dropping the reader ends that
/// line. Nothing more is shown after the screen has failed once; reading goes on.
pub struct Progress<R: Drop, W: Write + Drop> {
    input: R,
    // Where it is shown, or `None` if it isn't.
    screen: Option<W>,
    read: u64,
    shown: u64,
}

impl<R: Drop, W: Write + Drop> Progress<R, W> {
    ghost use Rattle.der_program_base.specs.Progress.{input_of, screen_of};

    /// Returns a reader of the bytes of `input`. Nothing is shown where the screen is `None`.
    pub fn new(input: R, screen: Option<W>) -> Progress<R, W>
        ensures input { input_of result ≡ input }
        ensures screen { screen_of result ≡ screen }
    {
        Progress {
            input,
            screen,
            read: 0,
            shown: 0,
        }
    }
}

// Shows a number of mebibytes, and returns the screen unless it failed.
fn shown_on<W: Write + Drop>(mut screen: W, mebibytes: u64) -> Option<W> {
    match write!(screen, "\r{mebibytes} MiB read") {
        Ok(()) => Some(screen),
        Err(_) => None,
    }
}

impl<R: Read + Drop, W: Write + Drop> Read for Progress<R, W> {
    ghost use Rattle.der_program_base.specs.Progress.{input_of};

    ghost remaining = { λ r. R.remaining (input_of r) };

    fn read(&mut self, buf: &mut [u8]) -> io::Result<usize> {
        let size = self.input.read(buf)?;
        self.read = self.read.saturating_add(size as u64);
        let mebibytes = self.read / MEBIBYTE;
        if mebibytes > self.shown {
            self.shown = mebibytes;
            if let Some(screen) = self.screen.take() {
                self.screen = shown_on(screen, mebibytes);
            }
        }
        Ok(size)
    }
}

impl<R: Drop, W: Write + Drop> Drop for Progress<R, W> {
    fn drop(self) {
        let Progress {
            input: _,
            screen,
            read: _,
            shown,
        } = self;
        if let Some(mut screen) = screen {
            if shown > 0 {
                // There is nobody left to tell if it fails.
                let _ = writeln!(screen);
            }
        }
    }
}

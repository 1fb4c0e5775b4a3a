// Standard output for a program that prints on, whatever becomes of its text: what can't be written is lost silently, and what comes after it is printed
// all the same, where it can be. So nothing that is printed by it fails, and it asks nobody why a write failed.
#![tactic(auto)]

ghost use Rattle.std.specs.Prelude.{IsOk};

use std::fmt;
use std::fmt::{Display, Write};

// A text, piece by piece.
#[derive(Clone, Copy)]
struct Pieces;

impl fmt::Write for Pieces {
    fn write_str(&mut self, piece: &str) -> fmt::Result
        ensures { IsOk result }
    {
        io::write_all(1, piece.as_bytes());
        Ok(())
    }
}

#[derive(Clone, Copy)]
pub struct Silent;

impl Print for Silent {
    fn print<D: Display + Drop>(&self, value: D) -> std::io::Result<()>
        ensures { IsOk result }
    {
        let _ = write!(Pieces, "{value}");
        Ok(())
    }

    fn println<D: Display + Drop>(&self, value: D) -> std::io::Result<()>
        ensures { IsOk result }
    {
        let _ = writeln!(Pieces, "{value}");
        Ok(())
    }

    fn write_all(&self, bytes: &[u8]) -> std::io::Result<()>
        ensures { IsOk result }
    {
        io::write_all(1, bytes);
        Ok(())
    }
}

// Writing a list of bytes to an output.
#![tactic(auto)]

ghost use Rattle.std.specs.Io.KnownBytes.{WriteAppends, Appends};
ghost use Rattle.std.specs.Io.{WritesAtMost};
ghost use Rattle.std.specs.IoError.{error_kind};
ghost use Rattle.std.specs.Prelude.{ℕ, List, Result, OnOk, IfErr, ◌≢◌};
ghost use Rattle.std.specs.declared.io.Error.{Error};
ghost use Rattle.std.specs.declared.io.ErrorKind.TheVariants.{Interrupted};
ghost use Rattle.output.specs.Writing.{TookAll, TookError, AppendsSome};

use std::io;
use std::io::{ErrorKind, Write};

// What a clause can say of an output. `Write` has the bytes that are held, where they are known, and says nothing of errors:
// so what a write takes is named here. A function that is generic over a sink can answer an error only if a write gave it.
pub trait Sink: Write {
    // in this state a write of these bytes may take this many of them, or give this error, and leave the sink in that state
    ghost takes: { Self → List ℕ → Result ℕ Error → Self → Type 0 };

    // One write, which no signal interrupts.
    fn write_some(&mut self, bytes: &[u8]) -> io::Result<usize>
        ensures bound { WritesAtMost result bytes.now }
        ensures bytes { WriteAppends (Self.contents self.old) (Self.contents self.new) result bytes.now }
        ensures took { takes self.old bytes.now result self.new }
        ensures retried { IfErr result (λ e. error_kind e ≢ Interrupted) };
}

// Each writer is a sink. What it takes is open here, as the library leaves it open: so no clause keeps `write_some` from an
// error of its own, or from taking nothing, and it is the library's call alone, again while that is interrupted. A proved
// loop has to end, so it counts its tries, up to a number that no run reaches; after it the error is its own.
impl<W: Write> Sink for W {
    ghost takes = { λ _ _ _ _. Unit {0} };

    // A write that a signal interrupts took nothing, and is tried again, as the library's `write_all` tries it.
    fn write_some(&mut self, bytes: &[u8]) -> io::Result<usize> {
        for _ in 0..u64::MAX {
            match self.write(bytes) {
                Ok(n) => return Ok(n),
                Err(error) => {
                    if error.kind() != ErrorKind::Interrupted {
                        return Err(error);
                    }
                }
            }
        }
        Err(io::Error::from(ErrorKind::Other))
    }
}

// Writes all of some bytes. An error is that of a write, or says that a write took none of what was left; some of the bytes,
// from the front, were taken then.
pub fn write_full<S: Sink>(output: &mut S, bytes: &[u8]) -> io::Result<()>
    ensures whole { OnOk result (Appends (S.contents output.old) (S.contents output.new) bytes.now) }
    ensures took { OnOk result (TookAll S.takes output.old bytes.now output.new) }
    ensures retried { IfErr result (λ e. error_kind e ≢ Interrupted) }
    ensures failed { IfErr result (λ e. TookError S.takes output.old bytes.now e output.new × AppendsSome (S.contents output.old) (S.contents output.new) bytes.now) }
{
    let mut rest = bytes;
    while !rest.is_empty() {
        let n = output.write_some(rest)?;
        if n == 0 {
            return Err(io::Error::from(ErrorKind::WriteZero));
        }
        rest = &rest[n..];
    }
    Ok(())
}

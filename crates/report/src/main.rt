// The program: reads the text of a scene from standard input and prints its report, or the refusal.
#![tactic(auto)]

ghost use Rattle.std.specs.Prelude.{OnOk, IfErr};
ghost use Rattle.report.specs.Run.{Written, Failed};

use input::{Source, read_full};
use output::{Sink, write_full};
use rules::limits::MAX_TEXT;
use std::io;
use text::answer::{REPORT_ROOM, report_text};

// A text of more bytes than the limit is refused whatever it is, so that one byte more than the limit is enough.
const INPUT_ROOM: usize = MAX_TEXT + 1;

// What is written is the report of the whole input, for an input and an output whose bytes a contract can name; those of
// standard input and output it can't. An error is that of a read, before anything is written, or that of a write of the
// report. It is lent no other handle, so it writes nothing else. Arrays behind references: their lengths are known by their
// types, so nothing computes on a million zeros.
fn run<S: Source, W: Sink>(
    input: &mut S,
    output: &mut W,
    text: &mut [u8; INPUT_ROOM],
    out: &mut [u8; REPORT_ROOM],
) -> io::Result<()>
    ensures written { OnOk result (Written S.remaining S.gives W.takes W.contents input.old output.old output.new) }
    ensures failed { IfErr result (Failed S.remaining S.gives W.takes W.contents input.old input.new output.old output.new) }
{
    let n = read_full(input, &mut *text)?;
    if n > MAX_TEXT {
        // The rest is read too, so that its writer is not cut off; that it can't be read is no fault of the report.
        let _ = io::copy(input, &mut io::sink());
    }
    let size = report_text(&text[..n], &mut *out);
    write_full(output, &out[..size])
}

fn main(rt: HostRuntime) -> io::Result<()> {
    let mut text = [0u8; INPUT_ROOM];
    let mut out = [0u8; REPORT_ROOM];
    run(&mut rt.stdin(), &mut rt.stdout(), &mut text, &mut out)
}

// The stored sample replayed. Standard input has texts one after another, each with the report that the Rust has for it: a
// header of two lengths, the text, the report. Each text is answered anew and held against its report, byte for byte.
#![tactic(auto)]

ghost use Rattle.rules.specs.Report.{report_of};
ghost use Rattle.std.specs.Io.KnownBytes.{Appends};
ghost use Rattle.std.specs.Prelude.{◌≡◌, ◌<◌, ◌^◌, ◌++◌, ◌∷◌, ◌↔◌, ◌⊎◌, [], List, Bool, decimal, IsTrue, OnOk, IfErr};
ghost use Rattle.replay.specs.Sample.{number_with, number_of, first_text, line};
ghost use Rattle.replay.specs.Replay.{Tells, ReadGave, WriteGave, PartRead, HeaderRead, NextTold, Replayed, SampleTold};

use input::{Source, read_full};
use itoa::Buffer;
use output::{Sink, write_full};
use std::io;
use text::answer::{REPORT_ROOM, report_text};

// Room for a text somewhat over the limit, and for the longest report of the sample.
const TEXT_ROOM: usize = 65600;

const WANTED_ROOM: usize = 262144;

// The room in which a sample is replayed: for a text, the report that is wanted and the report that is made. Arrays behind
// references: their lengths are known by their types, so nothing computes on a million zeros.
#[derive(Drop)]
struct Room<'a> {
    text: &'a mut [u8; TEXT_ROOM],
    wanted: &'a mut [u8; WANTED_ROOM],
    out: &'a mut [u8; REPORT_ROOM],
}

// Why a sample is read no further.
#[derive(Drop)]
enum Stop {
    BrokenOff,
    Failed(io::Error),
}

impl From<io::Error> for Stop {
    ghost use Rattle.replay.specs.declared.Stop.TheVariants.{Failed};

    ghost from_gives = { λ error stop. stop ≡ Failed error };

    fn from(error: io::Error) -> Stop {
        Stop::Failed(error)
    }
}

// A number with one more digit. No `parse`: what is no digit is passed over, and so are digits past eight.
fn with_digit(number: usize, byte: u8) -> usize
    ensures { result ≡ number_with number byte }
{
    if number >= 10000000 || !byte.is_ascii_digit() {
        return number;
    }
    number * 10 + usize::from(byte - b'0')
}

// The number that the digits of some bytes make.
fn number(digits: &[u8]) -> usize
    ensures { result ≡ number_of digits.now }
{
    digits
        .iter()
        .fold(0, |number, &byte| with_digit(number, byte))
}

// Reads the next bytes of the input, so many of them.
fn read_part<S: Source>(input: &mut S, space: &mut [u8], n: usize) -> Result<(), Stop>
    ensures { PartRead S.gives (S.remaining input.old) (S.remaining input.new) space.new n result }
{
    if space.len() < n {
        return Err(Stop::BrokenOff);
    }
    let read = read_full(input, &mut space[..n])?;
    if read < n {
        return Err(Stop::BrokenOff);
    }
    Ok(())
}

// Whether the text is answered by the report that is wanted.
fn answered(text: &[u8], wanted: &[u8], out: &mut [u8; REPORT_ROOM]) -> bool
    ensures { IsTrue result ↔ (wanted.now ≡ report_of text.now) }
{
    let n = report_text(text, &mut *out);
    wanted == &out[..n]
}

// What has come of the texts so far; the first that differs is numbered from 1.
#[derive(Drop)]
struct Tally {
    count: u64,
    differ: u64,
    first: Option<u64>,
}

impl Tally {
    // Of no text.
    fn new() -> Tally
        ensures { Tells result [] }
    {
        Tally {
            count: 0,
            differ: 0,
            first: None,
        }
    }

    // With one text more.
    fn add(&mut self, same: bool)
        requires { (self.old.count < 2 ^ 32) × (self.old.differ < 2 ^ 32) }
        ensures { (sames : List Bool) → Tells self.old sames → Tells self.new (sames ++ same ∷ []) }
    {
        self.count += 1;
        if !same {
            self.differ += 1;
            self.first = self.first.or(Some(self.count));
        }
    }
}

// Reads a header; or none, where the sample has ended. It is read half by half: on a socket of packets, where a read loses
// the rest of its packet, one read of both halves takes other bytes. On a stream nothing is left for the second half behind a
// first that the end cut short.
fn read_header<S: Source>(input: &mut S, header: &mut [u8; 18]) -> Result<bool, Stop>
    ensures { HeaderRead S.gives (S.remaining input.old) (S.remaining input.new) header.new result }
{
    let first = read_full(input, &mut header[..9])?;
    if first == 0 {
        return Ok(false);
    }
    let second = read_full(input, &mut header[9..])?;
    if second < 9 {
        return Err(Stop::BrokenOff);
    }
    Ok(true)
}

// Whether the next text gets its report, or that the sample has ended. A header is two numbers of eight digits, each with a
// byte behind it.
fn replay_next<S: Source>(input: &mut S, room: &mut Room<'_>) -> Result<Option<bool>, Stop>
    ensures { NextTold S.gives (S.remaining input.old) (S.remaining input.new) result }
{
    let mut header = [0u8; 18];
    let found = read_header(input, &mut header)?;
    if !found {
        return Ok(None);
    }
    let text_length = number(&header[..9]);
    let report_length = number(&header[9..]);
    let text = &mut *room.text;
    read_part(input, text, text_length)?;
    let wanted = &mut *room.wanted;
    read_part(input, wanted, report_length)?;
    let same = answered(&text[..text_length], &wanted[..report_length], room.out);
    Ok(Some(same))
}

// A proved loop has to end: a sample has at most a million texts.
fn replay<S: Source>(input: &mut S, room: &mut Room<'_>, tally: &mut Tally) -> Result<(), Stop>
    requires { Tells tally.old [] }
    ensures { Replayed S.gives (S.remaining input.old) (S.remaining input.new) tally.new result }
{
    for _ in 0..1000000u64 {
        let Some(same) = replay_next(input, room)? else {
            break;
        };
        tally.add(same);
    }
    Ok(())
}

// Writes a number in digits.
fn print_number<W: Sink>(output: &mut W, n: u64) -> io::Result<()>
    ensures written { OnOk result (Appends (W.contents output.old) (W.contents output.new) (decimal n)) }
    ensures failed { IfErr result (WriteGave W.takes) }
{
    let mut digits = Buffer::new();
    write_full(output, digits.format(n).as_bytes())
}

// Writes which text is the first that differs, if one does.
fn print_first<W: Sink>(output: &mut W, first: Option<u64>) -> io::Result<()>
    ensures written { OnOk result (Appends (W.contents output.old) (W.contents output.new) (first_text first)) }
    ensures failed { IfErr result (WriteGave W.takes) }
{
    let Some(first) = first else {
        return Ok(());
    };
    write_full(output, b", the first is ")?;
    print_number(output, first)
}

// Writes the line.
fn print_line<W: Sink>(output: &mut W, tally: &Tally, ending: &[u8]) -> io::Result<()>
    ensures written { OnOk result (Appends (W.contents output.old) (W.contents output.new) (line tally.now.count tally.now.differ tally.now.first ending.now)) }
    ensures failed { IfErr result (WriteGave W.takes) }
{
    print_number(output, tally.count)?;
    write_full(output, b" texts replayed, ")?;
    print_number(output, tally.differ)?;
    write_full(output, b" differ")?;
    print_first(output, tally.first)?;
    write_full(output, ending)?;
    write_full(output, b"\n")
}

// What is told is told of an input and an output whose bytes a contract can name. An error is that of a read or of a write.
fn print_replay<S: Source, W: Sink>(
    input: &mut S,
    output: &mut W,
    room: &mut Room<'_>,
) -> io::Result<()>
    ensures told { OnOk result (SampleTold S.gives (S.remaining input.old) (S.remaining input.new) (W.contents output.old) (W.contents output.new)) }
    ensures failed { IfErr result (λ e. ReadGave S.gives e ⊎ WriteGave W.takes e) }
{
    let mut tally = Tally::new();
    match replay(input, room, &mut tally) {
        Ok(()) => print_line(output, &tally, b""),
        Err(Stop::BrokenOff) => print_line(output, &tally, b"; the sample breaks off"),
        Err(Stop::Failed(error)) => Err(error),
    }
}

fn main(rt: HostRuntime) -> io::Result<()> {
    let mut text = [0u8; TEXT_ROOM];
    let mut wanted = [0u8; WANTED_ROOM];
    let mut out = [0u8; REPORT_ROOM];
    let mut room = Room {
        text: &mut text,
        wanted: &mut wanted,
        out: &mut out,
    };
    print_replay(&mut rt.stdin(), &mut rt.stdout(), &mut room)
}

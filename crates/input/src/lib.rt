// Reading an input into a list of bytes.
#![tactic(auto)]

ghost use Rattle.std.specs.Io.KnownBytes.{ReadConsumes, IsAtEnd};
ghost use Rattle.std.specs.Io.{ReadsAtMost};
ghost use Rattle.std.specs.Prelude.{◌≡◌, ◌<◌, ◌^◌, ℕ, Result, length, drop, IfOk, IfErr, MatchResult};
ghost use Rattle.std.specs.declared.io.Error.{Error};
ghost use Rattle.input.specs.Reading.{GaveNone, GaveError, Filled, FilledSome};

use std::io;
use std::io::Read;

// Room for what one read gives, in bytes: the least of these that the whole space fits into, since a packet that is longer
// than what a read is lent is cut off, and since the room is cleared. A space over the largest is read in parts.
const ROOM_64: usize = 64;

const ROOM_1K: usize = 1024;

const ROOM_8K: usize = 8192;

const ROOM_16K: usize = 16384;

const ROOM_32K: usize = 32768;

const ROOM_72K: usize = 73728;

const ROOM_128K: usize = 131072;

const ROOM_256K: usize = 262144;

// What a clause can say of an input. `Read` has the bytes that are left, where they are known, and says nothing of errors: so
// what a read gives is named here. A function that is generic over a source can answer an error only if a read gave it.
pub trait Source: Read {
    // in this state a read may give this many bytes, or this error, and leave the source in that state
    ghost gives: { Self → Result ℕ Error → Self → Type 0 };

    // One read.
    fn read_some(&mut self, space: &mut [u8]) -> io::Result<usize>
        ensures bound { ReadsAtMost result space.new }
        ensures bytes { ReadConsumes (Self.remaining self.old) (Self.remaining self.new) result space.new }
        ensures gave { gives self.old result self.new };
}

// Each reader is a source. What it gives is open here, as the library leaves it open: so no clause keeps `read_some` from an
// error of its own, and it is the library's call alone.
impl<R: Read> Source for R {
    ghost gives = { λ _ _ _. Unit {0} };

    fn read_some(&mut self, space: &mut [u8]) -> io::Result<usize> {
        self.read(space)
    }
}

// One read to the front of `space`; what stands behind the bytes that it gives stays. A read may leave anything there, so it
// is given room of its own.
fn read_front<S: Source>(input: &mut S, space: &mut [u8], chunk: &mut [u8]) -> io::Result<usize>
    requires { 0 < length chunk.old }
    ensures bound { ReadsAtMost result space.new }
    ensures bytes { ReadConsumes (S.remaining input.old) (S.remaining input.new) result space.new }
    ensures gave { S.gives input.old result input.new }
    ensures behind { MatchResult result (λ n. drop n space.new ≡ drop n space.old) (λ _. space.new ≡ space.old) }
{
    let size = space.len().min(chunk.len());
    let room = &mut chunk[..size];
    let n = input.read_some(room)?;
    space[..n].copy_from_slice(&room[..n]);
    Ok(n)
}

// read_full with room for each read. A read gives as many bytes as have come, so that no place is counted one by one, and how
// far it went is known after it: so the loop is no `for`.
fn read_by<S: Source>(input: &mut S, space: &mut [u8], chunk: &mut [u8]) -> io::Result<usize>
    requires { 0 < length chunk.old }
    ensures filled { IfOk result (Filled (S.remaining input.old) (S.remaining input.new) space.old space.new) }
    ensures whole { IfOk result (λ n. n < length space.new → IsAtEnd (S.remaining input.new)) }
    ensures ended { IfOk result (λ n. n < length space.new → GaveNone S.gives input.old input.new) }
    ensures failed { IfErr result (λ e. GaveError S.gives input.old e input.new × FilledSome (S.remaining input.old) (S.remaining input.new) space.old space.new) }
{
    let mut done = 0;
    while done < space.len() {
        let n = read_front(input, &mut space[done..], chunk)?;
        if n == 0 {
            break;
        }
        done += n;
    }
    Ok(done)
}

// The same with room of a size. Its frame is its own, so that no other read pays for it.
#[inline(never)]
fn read_in<S: Source, const CHUNK: usize>(input: &mut S, space: &mut [u8]) -> io::Result<usize>
    requires some { 0 < CHUNK }
    requires few { CHUNK < 2 ^ 63 }
    ensures filled { IfOk result (Filled (S.remaining input.old) (S.remaining input.new) space.old space.new) }
    ensures whole { IfOk result (λ n. n < length space.new → IsAtEnd (S.remaining input.new)) }
    ensures ended { IfOk result (λ n. n < length space.new → GaveNone S.gives input.old input.new) }
    ensures failed { IfErr result (λ e. GaveError S.gives input.old e input.new × FilledSome (S.remaining input.old) (S.remaining input.new) space.old space.new) }
{
    let mut chunk = [0; CHUNK];
    read_by(input, space, &mut chunk)
}

// Reads until `space` is full or the input ends; answers how many bytes stand at its front, and leaves what stands behind
// them. An error is that of a read: what the reads before it gave stands at the front then, how much is not answered.
pub fn read_full<S: Source>(input: &mut S, space: &mut [u8]) -> io::Result<usize>
    ensures filled { IfOk result (Filled (S.remaining input.old) (S.remaining input.new) space.old space.new) }
    ensures whole { IfOk result (λ n. n < length space.new → IsAtEnd (S.remaining input.new)) }
    ensures ended { IfOk result (λ n. n < length space.new → GaveNone S.gives input.old input.new) }
    ensures failed { IfErr result (λ e. GaveError S.gives input.old e input.new × FilledSome (S.remaining input.old) (S.remaining input.new) space.old space.new) }
{
    match space.len() {
        0..=ROOM_64 => read_in::<S, ROOM_64>(input, space),
        0..=ROOM_1K => read_in::<S, ROOM_1K>(input, space),
        0..=ROOM_8K => read_in::<S, ROOM_8K>(input, space),
        0..=ROOM_16K => read_in::<S, ROOM_16K>(input, space),
        0..=ROOM_32K => read_in::<S, ROOM_32K>(input, space),
        0..=ROOM_72K => read_in::<S, ROOM_72K>(input, space),
        0..=ROOM_128K => read_in::<S, ROOM_128K>(input, space),
        _ => read_in::<S, ROOM_256K>(input, space),
    }
}

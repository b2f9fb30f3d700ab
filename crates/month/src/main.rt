// One meter month from standard input, to one line on standard output: `destroyed N`, or `refused N at P`.
//
// The input is read until it ends, or until it is longer than the longest month: what would follow changes nothing (`proofs/Long.antt` of `meter_bytes`). A read
// that fails is not taken for the input's end: a line on standard error says so, and no figure is printed.
#![tactic(auto)]

ghost use Rattle.std.specs.Prelude.{◌<◌, length};
ghost use Rattle.program_input.specs.Got.{Room};
ghost use Rattle.meter_bytes.specs.Format.{longest_bytes};
ghost use Rattle.month.specs.Input.{Comes};

use program_input::Failure;
use refusals::Refusal;
use std::io;
use std::io::Read;
use std::process::ExitCode;
use units::Methane;

mod text;

// One byte more than the longest month has, so that a longer input shows.
const BUFFER: usize = meter_bytes::LONGEST + 1;

fn main(rt: HostRuntime) -> ExitCode {
    program_input::ended(&rt, run(&rt))
}

fn run(rt: &HostRuntime) -> Result<(), Failure> {
    let mut buffer = [0u8; BUFFER];
    let mut page = [0u8; text::TEXT_BYTES];
    let mut input = rt.reader();
    let answer = state_input(&mut input, &mut buffer).map_err(Failure::Input)?;
    let end = text::lay_answer(answer, &mut page);
    rt.write_all(&page[..end]).map_err(Failure::Output)
}

// The answer for the month that a reader gives; a read that fails is none.
fn state_input<R: Read>(reader: &mut R, buffer: &mut [u8]) -> io::Result<Result<Methane, Refusal>>
    requires { longest_bytes < length buffer.old }
    ensures { Comes (length buffer.old) result }
{
    let count = read_input(reader, buffer)?;
    Ok(meter_bytes::stated(&buffer[..count]))
}

// How many bytes were read up to the input's end or the buffer's. The library's `read_to_end` does this for a `Vec`, and the project has no heap.
fn read_input<R: Read>(reader: &mut R, buffer: &mut [u8]) -> io::Result<usize>
    ensures { Room result (length buffer.new) }
{
    let mut held: usize = 0;
    while held < buffer.len() {
        let count = program_input::read_more(reader, buffer, held)?;
        if count == 0 {
            return Ok(held);
        }
        held += count;
    }
    Ok(held)
}

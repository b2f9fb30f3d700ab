// A program's input, read into lent bytes. A read that fails never passes for the end of the input.
//
// A block travels with the number of bytes that it holds, since a `Vec` would need a heap, which these programs do without.
#![tactic(auto)]

ghost use Rattle.std.specs.Prelude.{◌≡◌, ◌-◌, ◌<◌, length, take};
ghost use Rattle.program_input.specs.Got.{got_by, Room};
ghost use Rattle.program_input.specs.Exit.{exit_of};

use std::io::{ErrorKind, Read};
use std::process::ExitCode;
use std::{fmt, io};

// How often a read that a signal interrupts is tried.
const TRIES: u64 = 1_000_000;

// Why a program stops: a read of its input failed, or a write of its output.
#[derive(Drop)]
pub enum Failure {
    Input(io::Error),
    Output(io::Error),
}

impl fmt::Display for Failure {
    fn fmt<W: fmt::Write>(&self, f: &mut fmt::Formatter<W>) -> fmt::Result {
        match self {
            Failure::Input(error) => write!(f, "standard input: {error}"),
            Failure::Output(error) => write!(f, "standard output: {error}"),
        }
    }
}

// How a program ends: where a read or a write failed, one line on standard error says which and why, and the status is 1.
pub fn ended(rt: &HostRuntime, outcome: Result<(), Failure>) -> ExitCode
    ensures { result ≡ exit_of outcome }
{
    match outcome {
        Ok(()) => ExitCode::SUCCESS,
        Err(failure) => {
            let _ = eprintln!(rt; "{failure}");
            ExitCode::FAILURE
        }
    }
}

// Reads once, to the place after the bytes that are held, and says how many bytes came: 0 at the input's end. Where a signal interrupts the read, it reads again.
pub fn read_more<R: Read>(reader: &mut R, block: &mut [u8], held: usize) -> io::Result<usize>
    requires { held < length block.old }
    ensures room { Room result (length block.old - held) }
    ensures block_unchanged { take held block.new ≡ take held block.old }
{
    for _ in 1..TRIES {
        match reader.read(&mut block[held..]) {
            Err(error) if error.kind() == ErrorKind::Interrupted => {}
            answer => return answered(answer, &block[held..]),
        }
    }
    let answer = reader.read(&mut block[held..]);
    answered(answer, &block[held..])
}

// What a read's answer says: an error is a read that failed, and is not taken for the end of the input.
fn answered(answer: io::Result<usize>, room: &[u8]) -> io::Result<usize>
    ensures { result ≡ got_by answer (length room.now) }
{
    Ok(answer?.min(room.len()))
}

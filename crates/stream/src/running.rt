// A coder between the standard input and the standard output: what the programs that decode and encode a stream of any length share.
ghost use Rattle.std.specs.Prelude.{◌≡◌, ℕ, ◌≤◌, List, [], length, take, IfOk, OnOk};
ghost use Rattle.codec.specs.declared.Error.{Error};
ghost use Rattle.std.specs.Io.KnownBytes.{Consumes};
ghost use Rattle.stream.specs.Held.{holding};
ghost use Rattle.stream.specs.Runs.{Reaches, Ran, Broke};
ghost use Rattle.stream.specs.Stops.{stop_text};
ghost use Rattle.stream.specs.declared.running.Stop.TheVariants.{Refused, Failed};

use crate::Buffer;
use codec::Error;
use std::io::Read;
use std::{error, fmt, io};

// Why a program stops before its input ends.
#[derive(Debug, Drop)]
pub enum Stop {
    Refused(Error),
    Failed(io::Error),
}

// A refusal is shown by its number, a failure as it shows itself.
impl fmt::Display for Stop {
    ghost output = { stop_text };

    fn fmt<W: fmt::Write>(&self, f: &mut fmt::Formatter<W>) -> fmt::Result {
        match self {
            Stop::Refused(refusal) => u8::from(*refusal).fmt(f),
            Stop::Failed(failure) => failure.fmt(f),
        }
    }
}

impl error::Error for Stop {}

impl From<Error> for Stop {
    ghost from_gives = { λ error stop. stop ≡ Refused error };

    fn from(error: Error) -> Stop {
        Stop::Refused(error)
    }
}

impl From<io::Error> for Stop {
    ghost from_gives = { λ error stop. stop ≡ Failed error };

    fn from(error: io::Error) -> Stop {
        Stop::Failed(error)
    }
}

// What takes a stream's bytes, a part at a time, and writes what it makes of them.
pub trait Coder {
    // Whether the coder takes so many of these bytes, and which coder it is then.
    ghost codes: { Self → List ℕ → ℕ → Self → Type 0 };

    // Whether the coder refuses these bytes, why, and which coder it is then; one that says nothing of it leaves this open.
    ghost refuses: { Self → List ℕ → Error → Self → Type 0 } = { λ coder bytes error next. Unit {0} };

    // Which coder it is at the end of the bytes.
    ghost ends: { Self → Self → Type 0 };

    // Takes some of the bytes, from their front, and answers how many: none where it has to see more of them.
    // Kept: 0 and no Option: both coders would make one of the count that their codec answers, for one test in `code_held`.
    fn code(&mut self, rt: &impl Print, bytes: &[u8]) -> Result<usize, Stop>
        ensures within { IfOk result (λ used. used ≤ length bytes.now) }
        ensures coded { IfOk result (λ used. codes self.old bytes.now used self.new) }
        ensures refused { (error : _) → result ≡ Err (Stop.Refused error) → refuses self.old bytes.now error self.new };

    // Says that no byte comes behind those that are held.
    fn finish(&mut self)
        ensures { ends self.old self.new };
}

// Has a reader's bytes coded to their end, by way of the buffer's bytes; at the end the coder takes none of what is left.
pub fn run<C: Coder, R: Read>(
    coder: &mut C,
    rt: &impl Print,
    reader: &mut R,
    bytes: &mut [u8],
) -> Result<(), Stop>
    ensures ran { OnOk result ((came : List ℕ) × Consumes (R.remaining reader.old) (R.remaining reader.new) came
        × Ran C.codes C.ends coder.old came coder.new) }
    ensures refused { (error : _) → result ≡ Err (Stop.Refused error) → (came : List ℕ)
        × Consumes (R.remaining reader.old) (R.remaining reader.new) came × Broke C.codes C.ends C.refuses coder.old came error coder.new }
{
    let mut buffer = Buffer::new(bytes, 0);
    code_coming(coder, rt, reader, &mut buffer)?;
    coder.finish();
    code_held(coder, rt, &mut buffer)
}

// Has what is held coded, and what comes from a reader behind it, until no more comes.
//
// Kept: the loop counts its turns, up to a number that no run uses up. A proved loop has to end, and nothing says that the input does.
fn code_coming<C: Coder, R: Read>(
    coder: &mut C,
    rt: &impl Print,
    reader: &mut R,
    buffer: &mut Buffer,
) -> Result<(), Stop>
    ensures coded { OnOk result ((came : List ℕ) × Consumes (R.remaining reader.old) (R.remaining reader.new) came
        × Reaches C.codes coder.old (holding buffer.old) came coder.new (holding buffer.new)) }
    ensures refused { (error : _) → result ≡ Err (Stop.Refused error) → (came : List ℕ) × (last : C)
        × Consumes (R.remaining reader.old) (R.remaining reader.new) came
        × Reaches C.codes coder.old (holding buffer.old) came last (holding buffer.new) × C.refuses last (holding buffer.new) error coder.new }
{
    for _ in 0..u64::MAX {
        code_held(coder, rt, buffer)?;
        if buffer.read_on(reader) == 0 {
            break;
        }
    }
    Ok(())
}

// Has the bytes that are held coded until the coder takes none of them.
// Kept: a `loop`: each turn says whether another follows. It ends, since each turn takes some of what is held.
#[tactic(auto, using(crate::proofs::Kept::kept_count_is))]
fn code_held<C: Coder>(coder: &mut C, rt: &impl Print, buffer: &mut Buffer) -> Result<(), Stop>
    ensures coded { OnOk result ((last : C) × Reaches C.codes coder.old (holding buffer.old) [] last (holding buffer.new)
        × C.codes last (holding buffer.new) 0 coder.new) }
    ensures refused { (error : _) → result ≡ Err (Stop.Refused error) → (last : C)
        × Reaches C.codes coder.old (holding buffer.old) [] last (holding buffer.new) × C.refuses last (holding buffer.new) error coder.new }
{
    loop {
        let used = coder.code(rt, buffer.held())?;
        if used == 0 {
            return Ok(());
        }
        buffer.keep(used);
    }
}

// Says on standard error which refusal stopped a program, where one did; a failure is passed on.
pub fn told(rt: &impl Eprint, done: Result<(), Stop>) -> io::Result<()>
    ensures ok { OnOk done (result ≡ Ok tt) }
    ensures failed { (error : _) → done ≡ Err (Stop.Failed error) → result ≡ Err error }
{
    match done {
        Ok(()) => Ok(()),
        Err(Stop::Failed(error)) => Err(error),
        Err(refused) => eprintln!(rt; "{refused}"),
    }
}

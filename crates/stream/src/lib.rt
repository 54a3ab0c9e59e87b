// What a program that reads a stream of any length through one buffer shares with others: the buffer, which is read on and keeps what is
// not used yet, and in `running` the whole run.
#![tactic(auto)]

ghost use Rattle.std.specs.Prelude.{◌≡◌, ◌++◌, ◌+◌, ◌≤◌, leb, length, take, drop, if◌then◌else◌};
ghost use Rattle.std.specs.Io.KnownBytes.{Consumes};
ghost use Rattle.stream.specs.Kept.{kept_count, kept};

mod running;

pub use running::{Coder, Stop, run, told};
use std::io::Read;

// A part of a stream: the bytes that are held, and behind them the room for those that come next.
//
// Kept: the number held beside the bytes. std's BufReader holds both, but reads on only when all that it holds is taken, and a coder may
// have to see more of a frame before it takes any of it.
#[derive(Drop)]
pub struct Buffer<'a> {
    bytes: &'a mut [u8],
    held: usize,
    ghost fits: { held ≤ length bytes.now },
}

impl<'a> Buffer<'a> {
    ghost use Rattle.stream.specs.Held.{holding};

    // A buffer over the bytes, which holds the first `held` of them; none where there are not so many.
    pub fn new(bytes: &'a mut [u8], held: usize) -> Buffer<'a>
        ensures bytes { result.bytes ≡ bytes.entry }
        ensures held { result.held ≡ (if leb held (length bytes.old) then held else 0) }
    {
        let held = if held <= bytes.len() { held } else { 0 };
        Buffer { bytes, held }
    }

    // The bytes that are held.
    pub fn held(&self) -> &[u8]
        ensures { result.now ≡ holding self.now }
    {
        &self.bytes[..self.held]
    }

    // Reads once from the reader, behind the bytes that are held, which stay, and answers how many came: none at the end, or where a read
    // fails. Those that came are held too, and are the reader's next, where its bytes are known; which a program's input gives is the
    // outside's.
    //
    // Kept: a number and no Result, since the programs count a read that fails as the end of their input, and this public call could never
    // fail.
    pub fn read_on<R: Read>(&mut self, reader: &mut R) -> usize
        ensures came { self.new.held ≡ self.old.held + result }
        ensures same { self.new.bytes.ghost_name ≡ self.old.bytes.ghost_name }
        ensures held { take self.old.held self.new.bytes.now ≡ holding self.old }
        ensures length { length self.new.bytes.now ≡ length self.old.bytes.now }
        ensures bytes { Consumes (R.remaining reader.old) (R.remaining reader.new) (take result (drop self.old.held self.new.bytes.now)) }
    {
        let came = reader.read(&mut self.bytes[self.held..]).unwrap_or(0);
        self.held += came;
        came
    }

    // Keeps of the bytes that are held those behind the first `used`: they move to the front. None are kept where more are used than are
    // held.
    #[tactic(auto, using(crate::proofs::Kept::kept_left), unfolding(crate::specs::Kept::keeps, crate::specs::Kept::kept_count, crate::specs::Kept::kept))]
    pub fn keep(&mut self, used: usize)
        ensures held { self.new.held ≡ kept_count (length self.old.bytes.now) used self.old.held }
        ensures same { self.new.bytes.ghost_name ≡ self.old.bytes.ghost_name }
        ensures bytes { self.new.bytes.now ≡ kept self.old.bytes.now used self.old.held }
        ensures left { holding self.new ≡ drop used (holding self.old) }
    {
        if self.held < used {
            self.held = 0;
            return;
        }
        self.bytes.copy_within(used..self.held, 0);
        self.held -= used;
    }
}

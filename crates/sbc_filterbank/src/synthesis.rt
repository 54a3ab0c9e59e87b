// What the synthesis filterbank remembers.
ghost use Rattle.std.specs.Prelude.{◌≡◌, replicate, pos};
ghost use Rattle.sbc_filterbank.specs.Ring.{next_slot};

// The last ten vectors, in a ring of ten slots; the slot `newest` holds the newest. As C lays it out, so that the benchmark can lend one.
#[derive(Clone, Copy)]
#[repr(C)]
pub struct Synthesis {
    pub values: [i32; 160],
    pub newest: usize,
}

impl Synthesis {
    // Ten vectors of zeros.
    pub fn new() -> Synthesis
        ensures values { result.values ≡ replicate 160 (pos 0) }
        ensures newest { result.newest ≡ 0 }
    {
        Synthesis {
            values: [0i32; 160],
            newest: 0,
        }
    }
}

// The slot that the next vector takes, which is then the newest: the one before, round the ring. Any number counts mod 10; a slot is below
// 10, and needs no division.
pub fn advance(newest: usize) -> usize
    ensures { result ≡ next_slot newest }
{
    if newest == 0 {
        return 9;
    }
    if newest < 10 {
        return newest - 1;
    }
    (newest % 10 + 9) % 10
}

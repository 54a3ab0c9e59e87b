// The subband samples of one channel.

// A row of eight for each block. Behind a block's samples stand zeros, and behind the blocks rows of zeros.
// A struct of one field: a struct that held both channels' as an array of arrays of arrays could not be written as a literal (the check
// does not cover it yet), and one that holds an array of these can.
// Kept: 16 rows, with how many of them count beside it as a `BlockCount`, where it is lent: the codec keeps to fixed memory, and a frame
// has one number of blocks for both of its channels, which its set says.
#[derive(Clone, Copy)]
pub struct Blocks {
    pub rows: [[i32; 8]; 16],
}

// What the analysis filterbank remembers.

// The last samples of one channel, newest first.
#[derive(Clone, Copy)]
pub struct Analysis {
    pub history: [i16; 80],
}

// The constant tables of the codec, side by side, as the Rust has them: loudness offsets, prototypes of the filterbanks, cosines.
//
// A constant has no contract of its own: beside the cosines stands a function that gives them back, whose contract says which definition
// they are, and the tables that depend on the number of subbands are what a `Bank` gives.
#![tactic(auto)]

ghost use Rattle.std.specs.Prelude.{ℕ, ◌≡◌, ◌⊎◌, [], get_or, refl};
ghost use Rattle.std.proofs.Common.{inl, inr};
ghost use Rattle.sbc_tables.specs.Tables.{loudness_offsets, prototype, cosines};

// A filterbank, by its number of subbands, S. Code that is generic over it is compiled for each S apart, into loops of known length.
pub trait Bank {
    ghost SUBBANDS: { ℕ };

    const SUBBANDS: usize;

    // The prototype filter.
    fn prototype() -> &'static [i32]
        ensures { result.now ≡ prototype SUBBANDS };

    // The loudness offsets of a rate, by its index: one for each subband, and none for an index past the rates.
    fn loudness_offsets(frequency: usize) -> &'static [i32]
        ensures { result.now ≡ get_or (loudness_offsets SUBBANDS) frequency [] };

    // S is 4 or 8.
    ghost bands: { (SUBBANDS ≡ 4) ⊎ (SUBBANDS ≡ 8) };
}

// The filterbank of 4 subbands.
pub struct Four;

// The filterbank of 8 subbands.
pub struct Eight;

impl Bank for Four {
    ghost SUBBANDS = { 4 };

    const SUBBANDS: usize = 4;

    ghost bands = { inl refl };

    #[tactic(auto, unfolding(crate::specs::Tables::prototype, crate::specs::Tables::prototype4))]
    fn prototype() -> &'static [i32] {
        &PROTOTYPE_4
    }

    #[tactic(auto, unfolding(crate::specs::Tables::loudness_offsets, crate::specs::Tables::loudness_offsets4))]
    fn loudness_offsets(frequency: usize) -> &'static [i32] {
        row(&LOUDNESS_OFFSETS_4, frequency)
    }
}

impl Bank for Eight {
    ghost SUBBANDS = { 8 };

    const SUBBANDS: usize = 8;

    ghost bands = { inr refl };

    #[tactic(auto, unfolding(crate::specs::Tables::prototype, crate::specs::Tables::prototype8))]
    fn prototype() -> &'static [i32] {
        &PROTOTYPE_8
    }

    #[tactic(auto, unfolding(crate::specs::Tables::loudness_offsets, crate::specs::Tables::loudness_offsets8))]
    fn loudness_offsets(frequency: usize) -> &'static [i32] {
        row(&LOUDNESS_OFFSETS_8, frequency)
    }
}

// A row of a table of four; past the last one there is none.
fn row<const N: usize>(table: &'static [[i32; N]; 4], index: usize) -> &'static [i32]
    ensures { result.now ≡ get_or table.now index [] }
{
    match table.get(index) {
        Some(row) => row,
        None => &[],
    }
}

// The loudness offsets by rate and subband.
pub static LOUDNESS_OFFSETS_4: [[i32; 4]; 4] = [
    [-1, 0, 0, 0],
    [-2, 0, 0, 1],
    [-2, 0, 0, 1],
    [-2, 0, 0, 1],
];

pub static LOUDNESS_OFFSETS_8: [[i32; 8]; 4] = [
    [-2, 0, 0, 0, 0, 0, 0, 1],
    [-3, 0, 0, 0, 0, 0, 1, 2],
    [-4, 0, 0, 0, 0, 0, 1, 2],
    [-4, 0, 0, 0, 0, 0, 1, 2],
];

// The prototype filters, with 30 bits behind the point.
pub static PROTOTYPE_4: [i32; 40] = [
    0, 576115, 1601898, 2935298, 4120164, 4179058, 2003406, -3285782, 11718563, 21945682, 31005089,
    34567968, 27784982, 6584670, -30947094, -83372133, 145592169, 209366600, 264824099, 302610729,
    316018681, 302610729, 264824099, 209366600, -145592169, -83372133, -30947094, 6584670,
    27784982, 34567968, 31005089, 21945682, -11718563, -3285782, 2003406, 4179058, 4120164,
    2935298, 1601898, 576115,
];

pub static PROTOTYPE_8: [i32; 80] = [
    0, 168122, 368569, 595519, 884677, 1223985, 1585274, 1915252, 2160181, 2258852, 2141627,
    1735771, 968681, -191991, -1771385, -3755063, 6076836, 8621515, 11229669, 13687238, 15733030,
    17077392, 17417002, 16448018, 13891192, 9510749, 3139712, -5278279, -15720018, -28035265,
    -41956610, -57109432, 73013309, 89104205, 104770779, 119396536, 132354301, 143091576,
    151132925, 156111160, 157791803, 156111160, 151132925, 143091576, 132354301, 119396536,
    104770779, 89104205, -73013309, -57109432, -41956610, -28035265, -15720018, -5278279, 3139712,
    9510749, 13891192, 16448018, 17417002, 17077392, 15733030, 13687238, 11229669, 8621515,
    -6076836, -3755063, -1771385, -191991, 968681, 1735771, 2141627, 2258852, 2160181, 1915252,
    1585274, 1223985, 884677, 595519, 368569, 168122,
];

// cos(n pi / 16), with 30 bits behind the point.
pub const COSINE: [i32; 32] = [
    1073741824,
    1053110176,
    992008094,
    892783698,
    759250125,
    596538995,
    410903207,
    209476638,
    0,
    -209476638,
    -410903207,
    -596538995,
    -759250125,
    -892783698,
    -992008094,
    -1053110176,
    -1073741824,
    -1053110176,
    -992008094,
    -892783698,
    -759250125,
    -596538995,
    -410903207,
    -209476638,
    0,
    209476638,
    410903207,
    596538995,
    759250125,
    892783698,
    992008094,
    1053110176,
];

#[tactic(auto, unfolding(crate::specs::Tables::cosines))]
pub fn cosines() -> [i32; 32]
    ensures { result ≡ cosines }
{
    COSINE
}

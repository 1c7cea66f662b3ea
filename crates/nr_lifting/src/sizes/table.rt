//! The lifting sizes and their sets.

ghost use Rattle.std.specs.Prelude.{◌≡◌};
ghost use Rattle.nr_lifting.specs.Sizes.{sizes, set_index, least_size, IsSizeTable};

/// The lifting sizes Zc in ascending order (TS 38.212, Table 5.3.2-1).
pub const SIZES: [u16; 51] = [
    2, 3, 4, 5, 6, 7, 8, 9, 10, 11, 12, 13, 14, 15, 16, 18, 20, 22, 24, 26, 28, 30, 32, 36, 40, 44,
    48, 52, 56, 60, 64, 72, 80, 88, 96, 104, 112, 120, 128, 144, 160, 176, 192, 208, 224, 240, 256,
    288, 320, 352, 384,
];

/// Law: `SIZES` lists the lifting sizes in ascending order and has each size of the table's eight sets exactly once (TS
/// 38.212, Table 5.3.2-1). Each size above 2 is at most twice the next smaller one.
pub fn size_table()
    ensures listed { SIZES ≡ sizes }
    ensures sound { IsSizeTable }
{}

/// Returns the set index of the lifting size `z`, 0 to 7, or `None` if `z` is not a lifting size (TS 38.212, Table
/// 5.3.2-1).
#[tactic(auto, unfolding(crate::specs::Sizes::set_index))]
pub fn set_of(z: u16) -> Option<u8>
    ensures { result ≡ set_index z }
{
    match z {
        2 | 4 | 8 | 16 | 32 | 64 | 128 | 256 => Some(0),
        3 | 6 | 12 | 24 | 48 | 96 | 192 | 384 => Some(1),
        5 | 10 | 20 | 40 | 80 | 160 | 320 => Some(2),
        7 | 14 | 28 | 56 | 112 | 224 => Some(3),
        9 | 18 | 36 | 72 | 144 | 288 => Some(4),
        11 | 22 | 44 | 88 | 176 | 352 => Some(5),
        13 | 26 | 52 | 104 | 208 => Some(6),
        15 | 30 | 60 | 120 | 240 => Some(7),
        _ => None,
    }
}

/// Returns the least lifting size `z` with `kb * z >= need`, or `None` if there is none (TS 38.212, 5.2.2).
#[tactic(auto, unfolding(crate::specs::Sizes::least_size))]
pub fn smallest(kb: u32, need: u32) -> Option<u16>
    ensures { result ≡ least_size kb need }
{
    SIZES
        .iter()
        .copied()
        .find(|size| u64::from(kb) * u64::from(*size) >= u64::from(need))
}

//! Chooses the lifting size in one place for all operations on blocks of bits. An operation is written generically in
//! the size `Z` and in the number `W` of 64-bit words that hold so many bits, and `at_size` runs it at a size that is
//! known only at run time.

ghost use Rattle.std.specs.Prelude.{◌≡◌, ℕ, ◌+◌, ◌*◌, ◌<◌, ◌≤◌, [], slice_index_or, IsTrue};
ghost use Rattle.nr_lifting.specs.Blocks.{IsSize};
ghost use Rattle.nr_lifting.specs.Sizes.{is_in, set_index, size_sets};

use crate::sizes::set_of;

/// What an operation on blocks of bits means at each size. The operation holds the data that it works on; `ready` says
/// at which sizes it may run, and `done` says what it returns and what it leaves behind.
pub trait BlockOperation {
    /// What the operation returns.
    type Answer;

    ghost ready: { Self → ℕ → Type 0 };

    ghost done: { Self → ℕ → Self.Answer → Self → Type 0 };
}

/// An operation at the size `Z`, where `W` is the least number of words that hold a block.
pub trait AtSize<const Z: usize, const W: usize>: BlockOperation {
    /// Runs the operation.
    fn run(&mut self) -> Self::Answer
        requires above { 64 * W < Z + 64 }
        requires below { Z ≤ 64 * W }
        requires some { 0 < Z }
        requires most { W ≤ 6 }
        requires ready { Self.ready self.old Z }
        ensures { Self.done self.old Z result self.new };
}

/// An operation that can run at each of the 51 lifting sizes, one line for each set (TS 38.212, Table 5.3.2-1).
pub trait AtEachSize: AtSize<2, 1>
    + AtSize<4, 1>
    + AtSize<8, 1>
    + AtSize<16, 1>
    + AtSize<32, 1>
    + AtSize<64, 1>
    + AtSize<128, 2>
    + AtSize<256, 4>
    + AtSize<3, 1>
    + AtSize<6, 1>
    + AtSize<12, 1>
    + AtSize<24, 1>
    + AtSize<48, 1>
    + AtSize<96, 2>
    + AtSize<192, 3>
    + AtSize<384, 6>
    + AtSize<5, 1>
    + AtSize<10, 1>
    + AtSize<20, 1>
    + AtSize<40, 1>
    + AtSize<80, 2>
    + AtSize<160, 3>
    + AtSize<320, 5>
    + AtSize<7, 1>
    + AtSize<14, 1>
    + AtSize<28, 1>
    + AtSize<56, 1>
    + AtSize<112, 2>
    + AtSize<224, 4>
    + AtSize<9, 1>
    + AtSize<18, 1>
    + AtSize<36, 1>
    + AtSize<72, 2>
    + AtSize<144, 3>
    + AtSize<288, 5>
    + AtSize<11, 1>
    + AtSize<22, 1>
    + AtSize<44, 1>
    + AtSize<88, 2>
    + AtSize<176, 3>
    + AtSize<352, 6>
    + AtSize<13, 1>
    + AtSize<26, 1>
    + AtSize<52, 1>
    + AtSize<104, 2>
    + AtSize<208, 4>
    + AtSize<15, 1>
    + AtSize<30, 1>
    + AtSize<60, 1>
    + AtSize<120, 2>
    + AtSize<240, 4> {}

/// `with_size!(s, z, Trait::method(..))` calls `Trait::<Z, W>::method(..)` with Z equal to `z`, which is a size of set
/// index `s`, and W the least number of words that hold Z bits.
#[macro_export]
macro_rules! with_size {
    (0, $z:expr, $name:ident::$method:ident $args:tt) => {
        $crate::with_size!(@ $z, $name::$method $args, 2 1, 4 1, 8 1, 16 1, 32 1, 64 1, 128 2, 256 4)
    };
    (1, $z:expr, $name:ident::$method:ident $args:tt) => {
        $crate::with_size!(@ $z, $name::$method $args, 3 1, 6 1, 12 1, 24 1, 48 1, 96 2, 192 3, 384 6)
    };
    (2, $z:expr, $name:ident::$method:ident $args:tt) => {
        $crate::with_size!(@ $z, $name::$method $args, 5 1, 10 1, 20 1, 40 1, 80 2, 160 3, 320 5)
    };
    (3, $z:expr, $name:ident::$method:ident $args:tt) => {
        $crate::with_size!(@ $z, $name::$method $args, 7 1, 14 1, 28 1, 56 1, 112 2, 224 4)
    };
    (4, $z:expr, $name:ident::$method:ident $args:tt) => {
        $crate::with_size!(@ $z, $name::$method $args, 9 1, 18 1, 36 1, 72 2, 144 3, 288 5)
    };
    (5, $z:expr, $name:ident::$method:ident $args:tt) => {
        $crate::with_size!(@ $z, $name::$method $args, 11 1, 22 1, 44 1, 88 2, 176 3, 352 6)
    };
    (6, $z:expr, $name:ident::$method:ident $args:tt) => {
        $crate::with_size!(@ $z, $name::$method $args, 13 1, 26 1, 52 1, 104 2, 208 4)
    };
    (7, $z:expr, $name:ident::$method:ident $args:tt) => {
        $crate::with_size!(@ $z, $name::$method $args, 15 1, 30 1, 60 1, 120 2, 240 4)
    };
    (@ $z:expr, $name:ident::$method:ident $args:tt, $($size:literal $words:literal),*) => {
        match $z {
            $($size => $name::<$size, $words>::$method $args,)*
            _ => unreachable!(),
        }
    };
}

/// Runs an operation at the lifting size `z` and returns its result.
pub fn at_size<T: AtEachSize>(z: usize, operation: &mut T) -> T::Answer
    requires size { IsSize z }
    requires ready { T.ready operation.old z }
    ensures { T.done operation.old z result operation.new }
{
    match index_of(z) {
        0 => at_0(z, operation),
        1 => at_1(z, operation),
        2 => at_2(z, operation),
        3 => at_3(z, operation),
        4 => at_4(z, operation),
        5 => at_5(z, operation),
        6 => at_6(z, operation),
        7 => at_7(z, operation),
        _ => unreachable!(),
    }
}

// The set index of a lifting size.
fn index_of(z: usize) -> u8
    requires { IsSize z }
    ensures { set_index z ≡ Some result }
{
    set_of(z as u16).unwrap()
}

// `at_size` at the sizes of set index 0.
fn at_0<T: AtEachSize>(z: usize, operation: &mut T) -> T::Answer
    requires size { IsTrue (is_in z (slice_index_or size_sets 0 [])) }
    requires ready { T.ready operation.old z }
    ensures { T.done operation.old z result operation.new }
{
    with_size!(0, z, AtSize::run(operation))
}

// `at_size` at the sizes of set index 1.
fn at_1<T: AtEachSize>(z: usize, operation: &mut T) -> T::Answer
    requires size { IsTrue (is_in z (slice_index_or size_sets 1 [])) }
    requires ready { T.ready operation.old z }
    ensures { T.done operation.old z result operation.new }
{
    with_size!(1, z, AtSize::run(operation))
}

// `at_size` at the sizes of set index 2.
fn at_2<T: AtEachSize>(z: usize, operation: &mut T) -> T::Answer
    requires size { IsTrue (is_in z (slice_index_or size_sets 2 [])) }
    requires ready { T.ready operation.old z }
    ensures { T.done operation.old z result operation.new }
{
    with_size!(2, z, AtSize::run(operation))
}

// `at_size` at the sizes of set index 3.
fn at_3<T: AtEachSize>(z: usize, operation: &mut T) -> T::Answer
    requires size { IsTrue (is_in z (slice_index_or size_sets 3 [])) }
    requires ready { T.ready operation.old z }
    ensures { T.done operation.old z result operation.new }
{
    with_size!(3, z, AtSize::run(operation))
}

// `at_size` at the sizes of set index 4.
fn at_4<T: AtEachSize>(z: usize, operation: &mut T) -> T::Answer
    requires size { IsTrue (is_in z (slice_index_or size_sets 4 [])) }
    requires ready { T.ready operation.old z }
    ensures { T.done operation.old z result operation.new }
{
    with_size!(4, z, AtSize::run(operation))
}

// `at_size` at the sizes of set index 5.
fn at_5<T: AtEachSize>(z: usize, operation: &mut T) -> T::Answer
    requires size { IsTrue (is_in z (slice_index_or size_sets 5 [])) }
    requires ready { T.ready operation.old z }
    ensures { T.done operation.old z result operation.new }
{
    with_size!(5, z, AtSize::run(operation))
}

// `at_size` at the sizes of set index 6.
fn at_6<T: AtEachSize>(z: usize, operation: &mut T) -> T::Answer
    requires size { IsTrue (is_in z (slice_index_or size_sets 6 [])) }
    requires ready { T.ready operation.old z }
    ensures { T.done operation.old z result operation.new }
{
    with_size!(6, z, AtSize::run(operation))
}

// `at_size` at the sizes of set index 7.
fn at_7<T: AtEachSize>(z: usize, operation: &mut T) -> T::Answer
    requires size { IsTrue (is_in z (slice_index_or size_sets 7 [])) }
    requires ready { T.ready operation.old z }
    ensures { T.done operation.old z result operation.new }
{
    with_size!(7, z, AtSize::run(operation))
}

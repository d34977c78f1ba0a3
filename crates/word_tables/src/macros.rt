//! From the variants of an enum to the places of their words, and back.

/// The place of a value in a list of all variants of its enum: `place_of!(kind; Kind::Fuse,
/// Kind::Tie)` is 0 for `Kind::Fuse` and 1 for `Kind::Tie`. It writes a `match`, and takes at most
/// 32 variants.
#[macro_export]
macro_rules! place_of {
    (@arms [$value:expr] [$($variant:path => $place:literal,)*] [$($unused:literal)*]) => {
        match $value {
            $($variant => $place,)*
        }
    };
    (@arms $value:tt [$($arms:tt)*] [$place:literal $($places:literal)*] $variant:path, $($rest:tt)*) => {
        $crate::place_of!(@arms $value [$($arms)* $variant => $place,] [$($places)*] $($rest)*)
    };
    ($value:expr; $($variant:path),+ $(,)?) => {
        $crate::place_of!(
            @arms [$value] []
            [0 1 2 3 4 5 6 7 8 9 10 11 12 13 14 15 16 17 18 19 20 21 22 23 24 25 26 27 28 29 30 31]
            $($variant,)+
        )
    };
}

/// The variant at a place of such a list, or none: `variant_at!(place; Kind::Fuse, Kind::Tie)` is
/// `Some(Kind::Fuse)` at 0, `Some(Kind::Tie)` at 1, and else `None`.
#[macro_export]
macro_rules! variant_at {
    (@arms [$place:expr] [$($at:literal => $variant:path,)*] [$($unused:literal)*]) => {
        match $place {
            $($at => Some($variant),)*
            _ => None,
        }
    };
    (@arms $place:tt [$($arms:tt)*] [$at:literal $($places:literal)*] $variant:path, $($rest:tt)*) => {
        $crate::variant_at!(@arms $place [$($arms)* $at => $variant,] [$($places)*] $($rest)*)
    };
    ($place:expr; $($variant:path),+ $(,)?) => {
        $crate::variant_at!(
            @arms [$place] []
            [0 1 2 3 4 5 6 7 8 9 10 11 12 13 14 15 16 17 18 19 20 21 22 23 24 25 26 27 28 29 30 31]
            $($variant,)+
        )
    };
}

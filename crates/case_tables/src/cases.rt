//! Macros that make code inside functions.

/// A match over listed cases, and what holds for all others:
/// `each_case!(op; 1 => one(), 2 | 3 => other(op); none())`.
#[macro_export]
macro_rules! each_case {
    ($value:expr; $($case:pat => $answer:expr),+ $(,)?; $other:expr) => {
        match $value {
            $($case => $answer,)+
            _ => $other,
        }
    };
    ($value:expr; $($case:pat => $answer:expr),+ $(,)?) => {
        match $value {
            $($case => $answer,)+
        }
    };
}

/// The first Some of a list of calls, which are made in their order; those behind it aren't made.
#[macro_export]
macro_rules! first_of {
    ($call:expr $(,)?) => {
        $call
    };
    ($call:expr, $($calls:expr),+ $(,)?) => {
        match $call {
            Some(found) => Some(found),
            None => $crate::first_of!($($calls),+),
        }
    };
}

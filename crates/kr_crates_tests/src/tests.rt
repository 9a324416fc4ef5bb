/// Compares two values as `assert_eq!` does, maybe for a row of a table, which comes last.
macro_rules! same {
    ($rt:expr; $left:expr, $right:expr $(,)?) => {
        $crate::tests::same::same(&$rt, &$left, &$right, stringify!($left))
    };
    ($rt:expr; $left:expr, $right:expr, $row:expr $(,)?) => {
        $crate::tests::same::same_for(&$rt, &$left, &$right, stringify!($left), &$row)
    };
}

/// Checks a condition for a row of a table, which comes last.
macro_rules! holds {
    ($rt:expr; $condition:expr, $row:expr $(,)?) => {
        $crate::tests::same::holds_for(&$rt, $condition, stringify!($condition), &$row)
    };
}

mod runs;
mod same;
mod steps;
mod suite;
mod tables;
mod trace;
